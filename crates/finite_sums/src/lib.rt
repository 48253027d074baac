//! Words and lemmas on sums, counts and least values over a run of numbers, for the crates that
//! count uses of resources. It has no code: `specs/Sums` has the words, and `proofs/SumLemmas`,
//! which is public so that these crates share it, what is proved of them.
#![tactic(auto)]

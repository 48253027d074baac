//! Closes problems of choice by trees of free splits: a split may cut the range of any unit
//! anywhere, where the search of `search_workers` has one rule. What is searched here, and how, is
//! not proved and need not be: an answer is given only after the exact test of `tested_trees`.
#![tactic(auto)]

mod allowed;
mod barred;
mod costs;
mod dives;
mod endings;
mod entries;
mod fewer;
mod growing;
mod guesses;
mod improving;
mod leftovers;
mod loads;
mod looks;
mod narrowed;
mod pieces;
mod placings;
mod pricings;
mod quotas;
mod regrets;
mod rounding;
mod rules;
mod scores;
mod searched;
mod sides;
mod spans;
mod splits;
mod states;
mod studies;
mod trees;
mod unpriced;

pub use endings::Ending;
pub use searched::closing_search;

//! The rule of the board's table, and what each step on it tells.
ghost use Rattle.incumbent_word.specs.Rule.{IsKept};
ghost use Rattle.incumbent_word.specs.Calls.{first_state, claim_play, take_play, post_play};
ghost use Rattle.incumbent_word.specs.Calls.{read_play, split_play, join_play, host_state};
ghost use Rattle.incumbent_word.specs.Calls.{guest_state, hosting_state, spent_state};

use crate::view::{SeatState, Terms};
use atomic_table::{Join, Play, Split, TableRule};

pub struct BoardRule;

impl TableRule<(), SeatState, Terms> for BoardRule {
    ghost holds = { λ t s. IsKept t s };

    ghost first = { first_state };
}

pub struct ClaimStep;

impl Play<(), SeatState> for ClaimStep {
    ghost then = { claim_play };
}

pub struct TakeStep;

impl Play<(), SeatState> for TakeStep {
    ghost then = { take_play };
}

pub struct PostStep;

impl Play<(), SeatState> for PostStep {
    ghost then = { post_play };
}

pub struct ReadStep;

impl Play<(), SeatState> for ReadStep {
    ghost then = { read_play };
}

pub struct SplitStep;

impl Play<(), SeatState> for SplitStep {
    ghost then = { split_play };
}

pub struct JoinStep;

impl Play<(), SeatState> for JoinStep {
    ghost then = { join_play };
}

/// The seat's guest gets a seat of its own.
pub struct SeatGuest;

impl Split<SeatState> for SeatGuest {
    ghost left = { host_state };

    ghost right = { guest_state };
}

/// The second seat's worker becomes the guest of the first.
pub struct TakeGuest;

impl Join<SeatState> for TakeGuest {
    ghost both = { hosting_state };

    ghost spent = { spent_state };
}

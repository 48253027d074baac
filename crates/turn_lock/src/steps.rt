//! The rule of the turn's table, and what each step on it tells.
use crate::story::Story;
use crate::view::{Start, View};
use atomic_table::{Join, Play, Split, TableRule};
use std::marker::PhantomData;

/// There is one history, and the value that lies in the slot has it.
pub struct TurnRule<T> {
    story: PhantomData<T>,
}

impl<T: Story> TableRule<Option<T>, View<T::Origin, T::Entry>, Start<T>> for TurnRule<T> {
    ghost use Rattle.turn_lock.specs.Rule.{IsKept};
    ghost use Rattle.turn_lock.specs.Views.{first_view};

    ghost holds = { λ k s. IsKept T.origin T.entries T.caller k.value.value k.callers s };

    ghost first = { λ k. first_view (T.origin k.value.value) k.callers };
}

/// A seat tries to take the turn.
pub struct Win<T> {
    story: PhantomData<T>,
}

impl<T: Story> Play<Option<T>, View<T::Origin, T::Entry>> for Win<T> {
    ghost use Rattle.turn_lock.specs.Plays.{win_play};

    ghost then = { win_play T.origin T.entries T.caller };
}

/// The seat that has the turn counts its entry. From this step on the history has it.
pub struct Decide<T> {
    story: PhantomData<T>,
}

impl<T: Story> Play<Option<T>, View<T::Origin, T::Entry>> for Decide<T> {
    ghost use Rattle.turn_lock.specs.Plays.{decide_play};

    ghost then = { decide_play T.origin T.entries T.caller };
}

/// The seat gives the turn back.
pub struct Give<T> {
    story: PhantomData<T>,
}

impl<T: Story> Play<Option<T>, View<T::Origin, T::Entry>> for Give<T> {
    ghost use Rattle.turn_lock.specs.Plays.{give_play};

    ghost then = { give_play };
}

/// A seat hands its first caller to a new seat.
pub struct HandOver;

impl<O, E> Split<View<O, E>> for HandOver {
    ghost use Rattle.turn_lock.specs.Views.{all_but_first, first_alone};

    ghost left = { all_but_first };

    ghost right = { first_alone };
}

/// A seat takes in the callers of another.
pub struct Unite;

impl<O, E> Join<View<O, E>> for Unite {
    ghost use Rattle.turn_lock.specs.Views.{united, spent_view};

    ghost both = { united };

    ghost spent = { spent_view };
}

//! What a seat knows of its turn. Values of these types, but for `Start`, are made in proofs alone.
use std::collections::LinkedList;
use std::snapshot::Snapshot;

/// What a turn is made with.
#[derive(Drop)]
pub struct Start<T> {
    pub value: Snapshot<T>,
    pub callers: u32,
}

/// A caller's number, the history that it has seen, and its own entries.
pub struct Caller<E> {
    pub number: u32,
    pub seen: LinkedList<E>,
    pub own: LinkedList<E>,
}

/// What a seat knows: the origin, its callers, and whether it has the turn.
///
/// A seat has one caller, but while the turn is made or closed. A seat with no caller is spent.
pub struct View<O, E> {
    pub origin: Option<O>,
    pub callers: LinkedList<Caller<E>>,
    pub holds: bool,
}

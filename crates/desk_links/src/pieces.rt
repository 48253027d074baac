//! The sizes of the takes of a link in memory.
ghost use Rattle.std.specs.Prelude.{◌≡◌, ◌≤◌, ◌<◌};
ghost use Rattle.desk_links.specs.LinksInMemory.{next_size, later_sizes};

use std::collections::VecDeque;
use std::marker::Model;

/// The greatest sizes of the takes that are to come, the next one first.
#[derive(Drop)]
pub(crate) struct Pieces {
    sizes: VecDeque<usize>,
}

impl Model for Pieces {
    ghost use Rattle.std.specs.Prelude.{List, ℕ};

    ghost Value = { List ℕ };

    ghost view = { λ p. p.sizes.items };
}

impl Pieces {
    pub(crate) fn new(sizes: Vec<usize>) -> Pieces
        ensures { result ≡ sizes.items }
    {
        Pieces {
            sizes: VecDeque::from(sizes),
        }
    }

    /// The most that the next take hands out into so much room.
    pub(crate) fn next_size(&mut self, room: usize) -> usize
        ensures size { result ≡ next_size self.old room }
        ensures later { self.new ≡ later_sizes self.old }
        ensures within { result ≤ room }
        ensures some { 0 < room → 0 < result }
    {
        match self.sizes.pop_front() {
            Some(size) => size.max(1).min(room),
            None => room,
        }
    }
}

//! The input of a link in memory.
ghost use Rattle.std.specs.Prelude.{◌≡◌, ◌≤◌, ◌+◌, ◌-◌, min, length, take, drop};

use std::marker::Model;

/// The whole input of a link, and how much of it was taken.
#[derive(Drop)]
pub(crate) struct Script {
    input: Vec<u8>,
    taken: usize,
}

impl Model for Script {
    ghost use Rattle.std.specs.Prelude.{◌≤◌, vec_len};
    ghost use Rattle.desk_links.specs.LinksInMemory.{ScriptView};

    ghost Value = { ScriptView };

    ghost view = { λ s. record { input = s.input.items; taken = s.taken } };

    ghost invariant = { λ s. s.taken ≤ vec_len s.input };
}

impl Script {
    pub(crate) fn new(input: Vec<u8>) -> Script
        ensures { result ≡ record { input = input.items; taken = 0 } }
    {
        Script { input, taken: 0 }
    }

    /// Hands out the next bytes of the input, at most so many, at the front of `into`.
    pub(crate) fn give(&mut self, into: &mut [u8], most: usize) -> usize
        requires { most ≤ length into.old }
        ensures count { result ≡ min most (length self.old.input - self.old.taken) }
        ensures within { result ≤ length into.new }
        ensures bytes { take result into.new ≡ take result (drop self.old.taken self.old.input) }
        ensures after { self.new ≡ record self.old { taken = self.old.taken + result } }
        ensures inside { self.new.taken ≤ length self.new.input }
    {
        let count = most.min(self.input.len() - self.taken);
        let bytes = &self.input[self.taken..self.taken + count];
        into[..count].copy_from_slice(bytes);
        self.taken += count;
        count
    }
}

//! How often a part uses each class.

use crate::classes::ClassUse;
use crate::edges::Edge;
use crate::numbers::{amount_at, number_at};
use crate::rows::Span;
use slot_text::Memory;
use std::alloc::Global;

// For each class how often it is used, and flags of those that are: one bit a class, in words of
// 64.
#[derive(Drop)]
pub(crate) struct Tally {
    counts: Vec<u32>,
    words: Vec<u64>,
    // The numbers of the words with flags, as they are collected.
    used: Vec<u32>,
}

impl Tally {
    // No uses of so many classes.
    pub(crate) fn new(alloc: Global, classes: usize) -> Result<Tally, Memory> {
        let words = (classes / 64).saturating_add(1);
        Ok(Tally {
            counts: vec![in alloc; 0; classes]?,
            words: vec![in alloc; 0; words]?,
            used: vec![in alloc; 0; words]?,
        })
    }

    // Adds the uses of the classes of edges.
    pub(crate) fn add_all(&mut self, order: &[u32], edges: &[Edge]) {
        for edge in edges {
            self.change(order, edge, edge.uses);
        }
    }

    // Takes the uses of the classes of edges away.
    pub(crate) fn lessen(&mut self, order: &[u32], edges: &[Edge]) {
        for edge in edges {
            self.change(order, edge, edge.uses.wrapping_neg());
        }
    }

    // Changes the uses of an edge's classes by a number, modulo 2^32.
    fn change(&mut self, order: &[u32], edge: &Edge, by: u32) {
        let span = Span {
            start: edge.from as usize,
            end: edge.to as usize,
        };
        for class in span.of(order) {
            self.add(*class, by);
        }
    }

    // Changes the uses of a class by a number, modulo 2^32.
    fn add(&mut self, class: u32, by: u32) {
        let at = class as usize;
        if at < self.counts.len() && at / 64 < self.words.len() {
            let count = self.counts[at].wrapping_add(by);
            self.counts[at] = count;
            let flag = 1_u64 << (class % 64);
            let word = self.words[at / 64];
            self.words[at / 64] = if count == 0 {
                word & !flag
            } else {
                word | flag
            };
        }
    }

    // Adds the classes that are used, by rising number. Answers where they stand.
    pub(crate) fn add_uses(&mut self, items: &mut Vec<ClassUse>) -> Result<Span, Memory> {
        let start = items.len();
        let count = write_used(&mut self.used, &self.words);
        for number in &self.used[..count.min(self.used.len())] {
            let word = amount_at(&self.words, *number as usize);
            add_flags(items, &self.counts, number.saturating_mul(64), word)?;
        }
        let end = items.len();
        Ok(Span { start, end })
    }
}

// Writes the numbers of the words with flags one after another, each of the others being written
// over by the next. Answers how many there are.
fn write_used(used: &mut [u32], words: &[u64]) -> usize {
    let mut count: usize = 0;
    for (number, word) in (0..).zip(words) {
        if count < used.len() {
            used[count] = number;
        }
        count = count.wrapping_add(usize::from(*word != 0));
    }
    count
}

// Adds the uses of the classes with flags in a word, the first of which has this number.
fn add_flags(
    items: &mut Vec<ClassUse>,
    counts: &[u32],
    first: u32,
    word: u64,
) -> Result<(), Memory> {
    let mut rest = word;
    for _ in 0..word.count_ones() {
        let class = first.saturating_add(rest.trailing_zeros());
        let uses = number_at(counts, class as usize);
        items.push(ClassUse { class, uses })?;
        rest &= rest.wrapping_sub(1);
    }
    Ok(())
}

//! What the lines read so far have stated.

ghost use Rattle.std.specs.Prelude.{◌≡◌, ℕ, ◌+◌, ◌<◌, ◌^◌, ◌↔◌, suc, List, ◌∷◌, drop, IsTrue, MatchResult, ◌⊎◌};
ghost use Rattle.capacity_file.specs.Readings.{Collected};
ghost use Rattle.capacity_file.specs.Singles.{HasSingle, Sets, AddsEntry};
ghost use Rattle.capacity_file.specs.Faults.{LinesHaveFault};
ghost use Rattle.capacity_file.specs.declared.fault.CapFault.TheVariants.{Twice, Memory as NoMemory};

use crate::entry::Entry;
use crate::fault::CapFault;
use crate::line::{Reading, read_line};
use season_days::{Night, Rule, Season};
use slot_text::Station;
use std::alloc::Global;

/// The FLEX line: its number, and the minutes that it states.
#[derive(Clone, Copy)]
pub(crate) struct FlexLine {
    pub line: u32,
    pub minutes: u64,
}

/// What the lines whose words may stand once have stated so far.
#[derive(Clone, Copy)]
pub(crate) struct Singles {
    pub airport: Option<Station>,
    pub season: Option<Season>,
    pub step: Option<u32>,
    pub flex: Option<FlexLine>,
    pub ground_time: Option<u32>,
    pub share: Option<u32>,
    pub refuse: Option<Option<u32>>,
    pub night: Option<Night>,
}

/// What the lines have stated so far.
#[derive(Drop)]
pub(crate) struct Draft {
    pub singles: Singles,
    pub rules: Vec<Rule>,
}

impl Draft {
    /// Before the first line.
    pub(crate) fn new(alloc: Global) -> Draft
        ensures { (lines : List (List ℕ)) → Collected lines 0 result.singles result.rules.items }
    {
        Draft {
            singles: Singles {
                airport: None,
                season: None,
                step: None,
                flex: None,
                ground_time: None,
                share: None,
                refuse: None,
                night: None,
            },
            rules: Vec::new(alloc),
        }
    }

    /// Takes in the line after the first `count` ones.
    pub(crate) fn add_line(&mut self, count: u32, line: &[u8]) -> Result<(), CapFault>
        requires { count + 1 < 2 ^ 32 }
        ensures { (lines : List (List ℕ)) → drop count lines ≡ line.now ∷ drop (suc count) lines →
            Collected lines count self.old.singles self.old.rules.items →
            MatchResult result
            (λ _. Collected lines (suc count) self.new.singles self.new.rules.items)
            (λ e. LinesHaveFault lines e ⊎ (e ≡ NoMemory)) }
    {
        let number = count + 1;
        match read_line(line) {
            Reading::Empty => Ok(()),
            Reading::Bad => Err(CapFault::BadLine { line: number }),
            Reading::Stated(entry) => self.add_entry(number, entry),
        }
    }

    /// Takes in what the line of a number states.
    fn add_entry(&mut self, number: u32, entry: Entry) -> Result<(), CapFault>
        ensures { MatchResult result
            (λ _. AddsEntry number entry self.old.singles self.old.rules.items
            self.new.singles self.new.rules.items)
            (λ e. (HasSingle self.old.singles entry × (e ≡ Twice number)) ⊎ (e ≡ NoMemory)) }
    {
        match entry {
            Entry::Cap(rule) => {
                self.rules.push(rule)?;
                Ok(())
            }
            single => {
                if self.singles.has(&single) {
                    return Err(CapFault::Twice { line: number });
                }
                self.singles.set(number, &single);
                Ok(())
            }
        }
    }
}

impl Singles {
    /// Whether a line has stated an entry with the same word.
    fn has(&self, entry: &Entry) -> bool
        ensures { IsTrue result ↔ HasSingle self.now entry.now }
    {
        match entry {
            Entry::Airport(_) => self.airport.is_some(),
            Entry::Season(_) => self.season.is_some(),
            Entry::Step(_) => self.step.is_some(),
            Entry::Flex(_) => self.flex.is_some(),
            Entry::Ground(_) => self.ground_time.is_some(),
            Entry::Share(_) => self.share.is_some(),
            Entry::Refuse(_) => self.refuse.is_some(),
            Entry::Night(_) => self.night.is_some(),
            Entry::Cap(_) => false,
        }
    }

    /// Keeps what the line of a number states.
    fn set(&mut self, number: u32, entry: &Entry)
        ensures { Sets number entry.now self.old self.new }
    {
        match *entry {
            Entry::Airport(station) => self.airport = Some(station),
            Entry::Season(season) => self.season = Some(season),
            Entry::Step(minutes) => self.step = Some(minutes),
            Entry::Flex(minutes) => {
                self.flex = Some(FlexLine {
                    line: number,
                    minutes,
                })
            }
            Entry::Ground(minutes) => self.ground_time = Some(minutes),
            Entry::Share(share) => self.share = Some(share),
            Entry::Refuse(price) => self.refuse = Some(price),
            Entry::Night(night) => self.night = Some(night),
            Entry::Cap(_) => {}
        }
    }
}

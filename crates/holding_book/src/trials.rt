//! What a search has tried of the movements of a line.

ghost use Rattle.std.specs.Prelude.{◌≡◌, [], IfSome};
ghost use Rattle.holding_book.specs.Private.Trials.{IsTrialPlace};

use choice_problem::Part;
use std::alloc::Global;

/// The uses of a movement of a line at a minute from the beginning of the line's date, and whether
/// they are left.
#[derive(Drop)]
pub struct Trial {
    pub minute: u32,
    pub part: Option<Part>,
    pub fits: bool,
}

/// The minutes that were tried of an arrival, and of a departure, and the places where the next
/// ones are looked for first.
#[derive(Drop)]
pub struct Trials {
    pub arrivals: Vec<Trial>,
    pub departures: Vec<Trial>,
    pub arrival: usize,
    pub departure: usize,
}

impl Trials {
    /// None yet.
    pub fn new(alloc: Global) -> Trials
        ensures arrivals { result.arrivals.items ≡ [] }
        ensures departures { result.departures.items ≡ [] }
    {
        Trials {
            arrivals: Vec::new(alloc),
            departures: Vec::new(alloc),
            arrival: 0,
            departure: 0,
        }
    }
}

/// The place of a minute, if it was tried: one step where it is the first place to look at, else
/// one for each minute that was tried.
pub(crate) fn place_of(trials: &[Trial], first: usize, minute: u32) -> Option<usize>
    ensures { IfSome result (IsTrialPlace minute trials.now) }
{
    if first < trials.len() && trials[first].minute == minute {
        return Some(first);
    }
    for place in 0..trials.len() {
        if trials[place].minute == minute {
            return Some(place);
        }
    }
    None
}

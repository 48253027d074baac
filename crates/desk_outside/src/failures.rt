//! The calls of an object in memory that are to fail.
ghost use Rattle.std.specs.Prelude.{◌≡◌, ◌≤◌, ℕ, None, Some, Option, length};
ghost use Rattle.std.specs.Option.{option_copied};
ghost use Rattle.desk_outside.specs.Cause.{one_more};
ghost use Rattle.desk_outside.specs.Failures.{failure_at, taken_by, sent_bytes};

use std::marker::Model;

/// One call of an object in memory that is to fail.
#[derive(Clone, Copy, Debug, PartialEq, Eq)]
pub struct Failure {
    /// The number of the call, from 0. An object counts all its calls that can fail in one row.
    pub call: u64,
    /// How many of the bytes it is given it takes all the same, from the first one on. None:
    /// nothing is changed. For a call that is given no bytes both mean the same.
    pub part: Option<usize>,
}

impl Failure {
    /// The call of this number fails and changes nothing.
    pub fn at(call: u64) -> Failure
        ensures { result ≡ record { call = call; part = None } }
    {
        Failure { call, part: None }
    }

    /// The call of this number fails after it took so many bytes.
    pub fn after(call: u64, bytes: usize) -> Failure
        ensures { result ≡ record { call = call; part = Some bytes } }
    {
        Failure {
            call,
            part: Some(bytes),
        }
    }
}

/// The calls that an object in memory has had, and those that are to fail.
#[derive(Drop)]
pub struct Calls {
    failing: Vec<Failure>,
    made: u64,
}

impl Model for Calls {
    ghost use Rattle.desk_outside.specs.Failures.{CallsView};

    ghost Value = { CallsView };

    ghost view = { λ calls. record { failing = calls.failing.items; made = calls.made } };
}

impl Calls {
    /// No call so far.
    pub fn new(failing: Vec<Failure>) -> Calls
        ensures { result ≡ record { failing = failing.items; made = 0 } }
    {
        Calls { failing, made: 0 }
    }

    /// Counts a call, and says whether it is to fail.
    pub fn next_failure(&mut self) -> Option<Failure>
        ensures failure { result ≡ failure_at self.old.failing self.old.made }
        ensures counted { self.new ≡ record self.old { made = one_more self.old.made } }
    {
        let found = find_failure(&self.failing, self.made);
        self.made = self.made.saturating_add(1);
        found
    }
}

fn find_failure(failing: &[Failure], call: u64) -> Option<Failure>
    ensures { result ≡ failure_at failing.now call }
{
    for failure in failing {
        if failure.call == call {
            return Some(*failure);
        }
    }
    None
}

/// The bytes that a call takes. None: nothing changes.
pub(crate) fn taken<'a>(failure: &Option<Failure>, bytes: &'a [u8]) -> Option<&'a [u8]>
    ensures { option_copied result ≡ taken_by failure.now bytes.now }
{
    match failure {
        None => Some(bytes),
        Some(failure) => match failure.part {
            None => None,
            Some(part) => Some(&bytes[..part.min(bytes.len())]),
        },
    }
}

/// The bytes that a put appends where so many more have room.
pub fn sent<'a>(failure: &Option<Failure>, bytes: &'a [u8], free: usize) -> &'a [u8]
    ensures bytes { result.now ≡ sent_bytes free failure.now bytes.now }
    ensures fits { length result.now ≤ free }
{
    match failure {
        None => { if bytes.len() <= free { bytes } else { &[] } }
        Some(failure) => &bytes[..failure.part.unwrap_or(0).min(free).min(bytes.len())],
    }
}

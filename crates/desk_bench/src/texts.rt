//! Seasons from their texts.

ghost use Rattle.std.specs.Prelude.{◌≤◌, length};
ghost use Rattle.season_days.specs.Capacity.{IsDeclaration};
ghost use Rattle.desk_bench.specs.declared.texts.TheConstants.{MOST_BYTES};

use capacity_file::read_capacity;
use scr_reader::laws::read_lines_fit;
use scr_reader::read_all;
use season_days::Declaration;
use series_model::Submission;
use series_model::laws::read_messages;
use std::alloc::Global;

/// The most bytes of a text that is read.
pub const MOST_BYTES: usize = 10_000_000;

/// The submission of a capacity file and messages, unless one of them is too long or has a fault.
pub fn submission_of(alloc: Global, capacity: &[u8], requests: &[u8]) -> Option<Submission> {
    if capacity.len() > MOST_BYTES || requests.len() > MOST_BYTES {
        return None;
    }
    let declaration = read_capacity(alloc, capacity).ok()?;
    declared(alloc, declaration, requests)
}

// The submission of a declaration and messages, unless they have a fault.
fn declared(alloc: Global, declaration: Declaration, requests: &[u8]) -> Option<Submission>
    requires keeps { IsDeclaration declaration }
    requires few { length requests.now ≤ MOST_BYTES }
{
    read_lines_fit();
    read_messages();
    let messages = read_all(alloc, requests).ok()?;
    Submission::make(alloc, declaration, messages).ok()
}

//! Submissions.

ghost use Rattle.std.specs.Prelude.{◌≡◌, ◌≤◌, ◌<◌, ◌^◌, All, length};
ghost use Rattle.slot_text.specs.Reads.{GivesOr};
ghost use Rattle.season_days.specs.Capacity.{capacity_of, IsCapacity, IsDeclaration};
ghost use Rattle.scr_reader.specs.Printed.{MessagesFit};
ghost use Rattle.choice_problem.specs.declared.problems.TheConstants.{MOST_UNITS};
ghost use Rattle.series_model.specs.declared.fault.ModelFault.TheVariants.{Memory as NoMemory};

use crate::fault::ModelFault;
use crate::message_units::{collect_units, count_units, first_fault};
use crate::unit::Unit;
use capacity_windows::Windows;
use choice_problem::MOST_UNITS;
use scr_reader::MessageList;
use season_days::Declaration;
use std::alloc::Global;
use std::marker::Model;

/// A declaration, the messages that ask for slots in its season at its airport, and their units in
/// the order of the file.
#[derive(Drop)]
pub struct Submission {
    declaration: Declaration,
    windows: Windows,
    units: Vec<Unit>,
    messages: MessageList,
}

impl Model for Submission {
    ghost use Rattle.series_model.specs.Submissions.{SubmissionView, IsSubmission};

    ghost Value = { SubmissionView };

    ghost view = { λ s. record {
      declaration = s.declaration;
      units = s.units.items;
      messages = s.messages;
    } };

    ghost invariant = { λ s. IsSubmission
        (record {
          declaration = s.declaration;
          units = s.units.items;
          messages = s.messages;
        }) s.windows };
}

impl Submission {
    ghost use Rattle.series_model.specs.Units.{units_of, UnitFits};
    ghost use Rattle.series_model.specs.Submissions.{HasNumbers, item_count, MakesUnits, MessagePairs, submission_answer};

    /// The submission that messages make under a declaration that keeps the limits of a capacity
    /// file, as one that was read does. The messages are read ones: their lines have a spelling,
    /// each pair is a historic line and a request to change it, and there are fewer than 2^31
    /// items.
    ///
    /// The faults of lines come first, that of the lowest line alone: `OtherSeason` at a message's
    /// season line, `OtherAirport` two lines below, `NotInitial` at the line of an item. Then comes
    /// `TooMany`. The time is linear in the items, and memory is taken for the units and the
    /// capacity lines.
    pub fn make(
        alloc: Global,
        declaration: Declaration,
        messages: MessageList,
    ) -> Result<Submission, ModelFault>
        requires keeps { IsDeclaration declaration }
        requires numbers { All HasNumbers messages }
        requires few { item_count messages < 2 ^ 31 }
        requires fits { MessagesFit messages }
        requires pairs { All MessagePairs messages }
        ensures { GivesOr NoMemory result (submission_answer declaration messages) }
    {
        if let Some(fault) = first_fault(&declaration, messages.items()) {
            return Err(fault);
        }
        let count = count_units(messages.items());
        if count > MOST_UNITS {
            return Err(ModelFault::TooMany { units: count });
        }
        let windows = Windows::new(alloc, &declaration)?;
        let units = collect_units(alloc, messages.items())?;
        Ok(Submission {
            declaration,
            windows,
            units,
            messages,
        })
    }

    /// The declaration, which keeps the limits.
    pub fn declaration(&self) -> &Declaration
        ensures value { result.now ≡ self.now.declaration }
        ensures keeps { IsDeclaration result.now }
    {
        &self.declaration
    }

    /// The windows of the declaration.
    pub fn windows(&self) -> &Windows
        ensures value { result.now ≡ capacity_of self.now.declaration }
        ensures limits { IsCapacity result.now }
    {
        &self.windows
    }

    /// The units in the order of the file. Their lines have a spelling in the season.
    pub fn units(&self) -> &[Unit]
        ensures value { result.now ≡ self.now.units }
        ensures of_messages { result.now ≡ units_of self.now.messages }
        ensures few { length result.now ≤ MOST_UNITS }
        ensures fits { All (UnitFits self.now.declaration.season) result.now }
    {
        &self.units
    }

    /// The messages. Each of their items makes a unit.
    pub fn messages(&self) -> &MessageList
        ensures value { result.now ≡ self.now.messages }
        ensures units { All MakesUnits result.now }
    {
        &self.messages
    }
}

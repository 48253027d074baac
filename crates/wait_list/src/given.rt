//! What the waiting lines are given.

ghost use Rattle.std.specs.Prelude.{◌≡◌, ◌<◌, All, IfOk};
ghost use Rattle.scr_reader.specs.Printed.{LineFits};
ghost use Rattle.wait_list.specs.Waiting.{waiting_terms, given_state, given_states, allotted_states};

use crate::problem::{waiting_terms, waiting_unit};
use crate::waiting::Waiting;
use choice_problem::Choice;
use holding_book::Book;
use scr_reader::Line;
use season_days::Declaration;
use series_model::{Times, UnitState, times_at};
use slot_text::Memory;
use std::alloc::Global;

/// What each line that waits is given by the choice of a stage of the waiting list, if it has one:
/// the alternative of its number. A number that names no alternative counts as a refusal; one of a
/// stage that has a proof does not. One step for each shift of an arrival: no alternatives are
/// listed.
pub fn allotted_states(
    alloc: Global,
    book: &Book,
    waiting: &Waiting,
    choice: &Option<Choice>,
) -> Result<Vec<UnitState>, Memory>
    requires { All (LineFits book.now.book.declaration.season) waiting.now }
    ensures { IfOk result (λ states. states.items
        ≡ allotted_states book.now.book.declaration waiting.now choice.now) }
{
    match choice {
        Some(choice) => states_by(alloc, book, waiting, choice.items()),
        None => states_by(alloc, book, waiting, &[]),
    }
}

// What each line that waits is given by its own number.
fn states_by(
    alloc: Global,
    book: &Book,
    waiting: &Waiting,
    numbers: &[u32],
) -> Result<Vec<UnitState>, Memory>
    requires { All (LineFits book.now.book.declaration.season) waiting.now }
    ensures { IfOk result (λ states. states.items
        ≡ given_states (waiting_terms book.now.book.declaration) waiting.now numbers.now) }
{
    let terms = waiting_terms(alloc, book.declaration())?;
    let states = given_states(alloc, &terms, waiting.lines(), numbers)?;
    Ok(states)
}

// What each line is given by its own number.
fn given_states(
    alloc: Global,
    terms: &Declaration,
    lines: &[Line],
    numbers: &[u32],
) -> Result<Vec<UnitState>, Memory>
    requires step { 0 < terms.now.step }
    requires lines { All (LineFits terms.now.season) lines.now }
    ensures { IfOk result (λ states. states.items ≡ given_states terms.now lines.now numbers.now) }
{
    let mut states = Vec::with_capacity(alloc, lines.len())?;
    for n in 0..lines.len() {
        let state = given_state(terms, &lines[n], numbers.get(n).copied());
        states.push(state)?;
    }
    Ok(states)
}

// What a line is given by a number, if it has one.
fn given_state(terms: &Declaration, line: &Line, number: Option<u32>) -> UnitState
    requires step { 0 < terms.now.step }
    requires line { LineFits terms.now.season line.now }
    ensures { result ≡ given_state terms.now line.now number }
{
    let unit = waiting_unit(line);
    match number {
        Some(number) => {
            let found = times_at(&unit, number, terms);
            let times = found.unwrap_or(Times::Refused);
            UnitState {
                unit,
                given: Some(times),
            }
        }
        None => UnitState { unit, given: None },
    }
}

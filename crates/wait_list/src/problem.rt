//! The problem of the waiting stage.

ghost use Rattle.std.specs.Prelude.{◌≡◌, ◌<◌, ◌≤◌, ℕ, All, IfOk, length, slice_index};
ghost use Rattle.season_days.specs.Capacity.{capacity_of, declared_resources, IsDeclaration};
ghost use Rattle.season_days.specs.declared.declaration.TheConstants.{HIGHEST_NIGHT_LIMIT};
ghost use Rattle.scr_reader.specs.Printed.{LineFits};
ghost use Rattle.holding_book.specs.Left.{left_of};
ghost use Rattle.wait_list.specs.Waiting.{waiting_unit, waiting_units, waiting_price, waiting_terms, IsWaitingProblem};

use crate::waiting::Waiting;
use capacity_windows::Windows;
use choice_problem::Problem;
use holding_book::Book;
use scr_reader::Line;
use season_days::{Declaration, HIGHEST_REFUSAL_PRICE};
use series_model::{Group, Unit};
use slot_text::Memory;
use std::alloc::Global;
use wasg_stages::allotment_problem;

/// The problem of the waiting stage beside a book: each line that waits is a unit of group N, which
/// may be refused, and of each resource there is what all holdings leave of its limit. Each line
/// has a spelling in the book's season, as those of `Waiting::of` have.
///
/// One step a resource, and the time of listing the alternatives of the lines: what is left is what
/// the book keeps, and nothing that it holds is listed.
pub fn waiting_problem(alloc: Global, book: &Book, waiting: &Waiting) -> Result<Problem, Memory>
    requires { All (LineFits book.now.book.declaration.season) waiting.now }
    ensures { IfOk result (λ problem. IsWaitingProblem book.now.book waiting.now problem) }
{
    let terms = waiting_terms(alloc, book.declaration())?;
    let windows = Windows::new(alloc, &terms)?;
    let units = waiting_units(alloc, waiting.lines())?;
    let limits = limits_left(alloc, book, windows.resources())?;
    let problem = allotment_problem(alloc, &windows, &terms, &units, &limits)?;
    Ok(problem)
}

// The declaration, with the price at which a line that waits may be refused.
pub(crate) fn waiting_terms(alloc: Global, declaration: &Declaration) -> Result<Declaration, Memory>
    requires { IsDeclaration declaration.now }
    ensures terms { IfOk result (λ terms. terms ≡ waiting_terms declaration.now) }
    ensures keeps { IfOk result (λ terms. IsDeclaration terms) }
{
    let mut terms = declaration.copy(alloc)?;
    terms.refuse = Some(waiting_price(declaration.refuse));
    Ok(terms)
}

// The price of a refusal.
fn waiting_price(declared: Option<u32>) -> u32
    ensures { result ≡ waiting_price declared }
{
    declared.unwrap_or(HIGHEST_REFUSAL_PRICE)
}

// The lines as units.
fn waiting_units(alloc: Global, lines: &[Line]) -> Result<Vec<Unit>, Memory>
    ensures { IfOk result (λ units. units.items ≡ waiting_units lines.now) }
{
    let mut units = Vec::with_capacity(alloc, lines.len())?;
    for line in lines {
        units.push(waiting_unit(line))?;
    }
    Ok(units)
}

// A line as a unit.
pub(crate) fn waiting_unit(line: &Line) -> Unit
    ensures { result ≡ waiting_unit line.now }
{
    Unit {
        line: 0,
        group: Group::N,
        request: *line,
        historic: None,
    }
}

// What the book leaves of each resource.
fn limits_left(alloc: Global, book: &Book, resources: u32) -> Result<Vec<u32>, Memory>
    requires { resources ≡ declared_resources (capacity_of book.now.book.declaration) }
    ensures count { IfOk result (λ limits. length limits.items
        ≡ declared_resources (capacity_of book.now.book.declaration)) }
    ensures each { IfOk result (λ limits. (r : ℕ) →
        r < declared_resources (capacity_of book.now.book.declaration) →
        slice_index limits.items r ≡ left_of book.now.book r) }
    ensures few { IfOk result (λ limits. All (λ n. n ≤ HIGHEST_NIGHT_LIMIT) limits.items) }
{
    let mut limits = Vec::with_capacity(alloc, resources as usize)?;
    for resource in 0..resources {
        limits.push(book.left(resource))?;
    }
    Ok(limits)
}

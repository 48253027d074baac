//! The lines of a stage, part by part.

ghost use Rattle.std.specs.Prelude.{◌≡◌, ◌+◌, ◌<◌, ◌≤◌, ◌^◌, ◌++◌, ℕ, All, IfOk, IfSome, length, is_some, flat_map, Some, None, IsTrue, ◌↔◌};
ghost use Rattle.choice_problem.specs.Bounds.{IsPrice, IsVector};
ghost use Rattle.choice_problem.specs.Problems.{unit_count};
ghost use Rattle.choice_problem.specs.Choices.{IsChoice};
ghost use Rattle.cert_format.specs.Printable.{IsPrintableProof};
ghost use Rattle.cert_format.specs.Spelling.{proof_lines};
ghost use Rattle.cert_checker.specs.Tests.{IsAbove, alternative_tests, choice_tests, price_tests, cost_tests, bound_tests, vector_tests, proof_tests};
ghost use Rattle.cert_checker.specs.Verdicts.{IsStageVerdict};
ghost use Rattle.cert_checker.specs.Parts.{IsPart, cost_part, bound_part, vectors_part, fixing_part};
ghost use Rattle.cert_checker.specs.declared.verdict.Verdict.TheVariants.{Yes};

use crate::nodes::check_tree;
use crate::verdict::{Reason, Verdict};
use cert_format::{Mark, StageCert};
use choice_problem::{Choice, HIGHEST_PRICE, Price, Problem, Vector, cost_of, fits};
use cost_fixing::{Fixing, fixing_problem};
use slot_text::Memory;
use std::alloc::Global;

// A verdict, and where it is Yes the number of the line after the last one that it is on.
#[derive(Clone, Copy, Debug, PartialEq, Eq)]
pub(crate) struct Judged {
    pub verdict: Verdict,
    pub next: u32,
}

impl Judged {
    ghost use Rattle.std.specs.Prelude.{◌≡◌, true, false};
    ghost use Rattle.cert_checker.specs.declared.verdict.Verdict.TheVariants.{Yes, No};

    pub(crate) fn passed(next: u32) -> Judged
        ensures { result ≡ record { verdict = Yes; next = next } }
    {
        Judged {
            verdict: Verdict::Yes,
            next,
        }
    }

    pub(crate) fn refused(line: u32, reason: Reason) -> Judged
        ensures { result ≡ record { verdict = No line reason; next = line } }
    {
        Judged {
            verdict: Verdict::No { line, reason },
            next: line,
        }
    }

    fn is_passed(&self) -> bool
        ensures yes { result ≡ true → self.now.verdict ≡ Yes }
        ensures no { result ≡ false → self.now.verdict ≡ Yes → ⊥ }
    {
        self.verdict == Verdict::Yes
    }
}

// One line for each unit: that the unit has such an alternative.
fn check_alternatives(problem: &Problem, cert: &StageCert, choice: &Choice, line: u32) -> Judged
    requires count { length choice.now ≡ unit_count problem.now }
    requires room { line + length choice.now < 2 ^ 32 }
    ensures { IsPart problem.now cert.now line (alternative_tests 0 choice.now) result.verdict
        result.next }
{
    for unit in 0..problem.units() {
        if choice.alt(unit) >= problem.alts(unit) {
            return Judged::refused(line + unit, Reason::Choice);
        }
    }
    Judged::passed(line + problem.units())
}

// Whether a price is one of the problem's, and its resource is above the one before it.
fn is_allowed(problem: &Problem, before: Option<u32>, price: &Price) -> bool
    ensures { IsTrue result ↔ (IsAbove before price.now.resource × IsPrice problem.now price.now) }
{
    let is_above = match before {
        Some(resource) => resource < price.resource,
        None => true,
    };
    is_above
        && price.resource < problem.resources()
        && price.price >= 1
        && price.price <= HIGHEST_PRICE
}

// One line for each price of a vector.
fn check_prices(problem: &Problem, cert: &StageCert, prices: &[Price], line: u32) -> Judged
    requires { line + length prices.now < 2 ^ 32 }
    ensures { IsPart problem.now cert.now line (price_tests None prices.now) result.verdict
        result.next }
{
    let mut before = None;
    let mut at = line;
    for price in prices {
        if !is_allowed(problem, before, price) {
            return Judged::refused(at, Reason::Price);
        }
        before = Some(price.resource);
        at += 1;
    }
    Judged::passed(at)
}

// The lines of a vector: its count, which is not tested, and its prices.
fn check_vector(problem: &Problem, cert: &StageCert, vector: &Vector, line: u32) -> Judged
    requires { line + length (vector_tests vector.now) < 2 ^ 32 }
    ensures { IsPart problem.now cert.now line (vector_tests vector.now) result.verdict
        result.next }
{
    check_prices(problem, cert, vector.items(), line + 1)
}

// The lines of all vectors.
fn check_vectors(problem: &Problem, cert: &StageCert, line: u32) -> Judged
    requires { line + length (flat_map vector_tests cert.now.vectors) < 2 ^ 32 }
    ensures { IsPart problem.now cert.now line (flat_map vector_tests cert.now.vectors)
        result.verdict result.next }
{
    let mut at = line;
    for vector in cert.vectors.items() {
        let judged = check_vector(problem, cert, vector, at);
        if !judged.is_passed() {
            return judged;
        }
        at = judged.next;
    }
    Judged::passed(at)
}

// The line of a fixing that is there, and from it on.
fn from_some_fixing(
    alloc: Global,
    problem: &Problem,
    cert: &StageCert,
    fixing: &Fixing,
    line: u32,
) -> Result<Judged, Memory>
    requires vectors { All (IsVector problem.now) cert.now.vectors }
    requires fixing { cert.now.fixing ≡ Some fixing.now }
    requires room { line + length (fixing_part problem.now cert.now) < 2 ^ 32 }
    ensures { IfOk result (λ judged. IsPart problem.now cert.now line
        (fixing_part problem.now cert.now) judged.verdict judged.next) }
{
    if cert.mark != Mark::Optimal {
        return Ok(Judged::refused(line, Reason::Fixing));
    }
    match fixing_problem(alloc, problem, &cert.vectors, cert.cost, fixing)? {
        None => Ok(Judged::refused(line, Reason::Fixing)),
        Some(left) => {
            let last = check_tree(alloc, &left, cert, line + 1)?;
            Ok(last)
        }
    }
}

// From the line of the fixing on, if there is one.
fn from_fixing(
    alloc: Global,
    problem: &Problem,
    cert: &StageCert,
    line: u32,
) -> Result<Judged, Memory>
    requires vectors { All (IsVector problem.now) cert.now.vectors }
    requires room { line + length (fixing_part problem.now cert.now) < 2 ^ 32 }
    ensures { IfOk result (λ judged. IsPart problem.now cert.now line
        (fixing_part problem.now cert.now) judged.verdict judged.next) }
{
    match &cert.fixing {
        None => {
            let last = check_tree(alloc, problem, cert, line)?;
            Ok(last)
        }
        Some(fixing) => from_some_fixing(alloc, problem, cert, fixing, line),
    }
}

// From the line that counts the vectors on.
fn from_vectors(
    alloc: Global,
    problem: &Problem,
    cert: &StageCert,
    line: u32,
) -> Result<Judged, Memory>
    requires { line + length (vectors_part problem.now cert.now) < 2 ^ 32 }
    ensures { IfOk result (λ judged. IsPart problem.now cert.now line
        (vectors_part problem.now cert.now) judged.verdict judged.next) }
{
    let judged = check_vectors(problem, cert, line + 1);
    if !judged.is_passed() {
        return Ok(judged);
    }
    let last = from_fixing(alloc, problem, cert, judged.next)?;
    Ok(last)
}

// The line of the bound.
fn check_bound(problem: &Problem, cert: &StageCert, line: u32) -> Judged
    requires { line + length (bound_tests cert.now.bound) < 2 ^ 32 }
    ensures { IsPart problem.now cert.now line (bound_tests cert.now.bound) result.verdict
        result.next }
{
    match (cert.bound, cert.cost) {
        (Some(bound), Some(cost)) if bound > cost => Judged::refused(line, Reason::Bound),
        (Some(_), _) => Judged::passed(line + 1),
        (None, _) => Judged::passed(line),
    }
}

// From the line of the bound on.
fn from_bound(
    alloc: Global,
    problem: &Problem,
    cert: &StageCert,
    line: u32,
) -> Result<Judged, Memory>
    requires { line + length (bound_part problem.now cert.now) < 2 ^ 32 }
    ensures { IfOk result (λ judged. IsPart problem.now cert.now line
        (bound_part problem.now cert.now) judged.verdict judged.next) }
{
    let judged = check_bound(problem, cert, line);
    if !judged.is_passed() {
        return Ok(judged);
    }
    let last = from_vectors(alloc, problem, cert, judged.next)?;
    Ok(last)
}

// The line of a choice that is there, and one for each unit.
fn check_some_choice(problem: &Problem, cert: &StageCert, choice: &Choice, line: u32) -> Judged
    requires choice { cert.now.choice ≡ Some choice.now }
    requires room { line + length (choice_tests (Some choice.now)) < 2 ^ 32 }
    ensures { IsPart problem.now cert.now line (choice_tests (Some choice.now)) result.verdict
        result.next }
{
    if cert.mark == Mark::Infeasible {
        return Judged::refused(line, Reason::Mark);
    }
    if choice.items().len() != problem.units() as usize {
        return Judged::refused(line, Reason::Units);
    }
    check_alternatives(problem, cert, choice, line + 1)
}

// The line of a choice that is not there.
fn check_no_choice(problem: &Problem, cert: &StageCert, line: u32) -> Judged
    requires choice { cert.now.choice ≡ None }
    requires room { line + 1 < 2 ^ 32 }
    ensures { IsPart problem.now cert.now line (choice_tests None) result.verdict result.next }
{
    if cert.mark == Mark::Optimal {
        return Judged::refused(line, Reason::Mark);
    }
    Judged::passed(line + 1)
}

// The line of the choice, and one for each unit.
fn check_choice(problem: &Problem, cert: &StageCert, line: u32) -> Judged
    requires { line + length (choice_tests cert.now.choice) < 2 ^ 32 }
    ensures { IsPart problem.now cert.now line (choice_tests cert.now.choice) result.verdict
        result.next }
{
    match &cert.choice {
        Some(choice) => check_some_choice(problem, cert, choice, line),
        None => check_no_choice(problem, cert, line),
    }
}

// The line of a cost that is there.
fn check_some_cost(
    alloc: Global,
    problem: &Problem,
    cert: &StageCert,
    choice: &Choice,
    cost: u64,
    line: u32,
) -> Result<Judged, Memory>
    requires choice { cert.now.choice ≡ Some choice.now }
    requires there { IsChoice problem.now choice.now }
    requires cost { cert.now.cost ≡ Some cost }
    requires room { line + 1 < 2 ^ 32 }
    ensures { IfOk result (λ judged. IsPart problem.now cert.now line (cost_tests (Some cost))
        judged.verdict judged.next) }
{
    if cost_of(problem, choice) != cost {
        return Ok(Judged::refused(line, Reason::Cost));
    }
    let is_fit = fits(alloc, problem, choice)?;
    if !is_fit {
        return Ok(Judged::refused(line, Reason::Fit));
    }
    Ok(Judged::passed(line + 1))
}

// The line of the cost.
fn check_cost(
    alloc: Global,
    problem: &Problem,
    cert: &StageCert,
    line: u32,
) -> Result<Judged, Memory>
    requires choice { IfSome cert.now.choice (IsChoice problem.now) }
    requires both { is_some cert.now.cost ≡ is_some cert.now.choice }
    requires room { line + length (cost_tests cert.now.cost) < 2 ^ 32 }
    ensures { IfOk result (λ judged. IsPart problem.now cert.now line (cost_tests cert.now.cost)
        judged.verdict judged.next) }
{
    match (&cert.choice, cert.cost) {
        (Some(choice), Some(cost)) => check_some_cost(alloc, problem, cert, choice, cost, line),
        _ => Ok(Judged::passed(line)),
    }
}

// From the line of the cost on.
fn from_cost(
    alloc: Global,
    problem: &Problem,
    cert: &StageCert,
    line: u32,
) -> Result<Judged, Memory>
    requires choice { IfSome cert.now.choice (IsChoice problem.now) }
    requires both { is_some cert.now.cost ≡ is_some cert.now.choice }
    requires room { line + length (cost_part problem.now cert.now) < 2 ^ 32 }
    ensures { IfOk result (λ judged. IsPart problem.now cert.now line
        (cost_part problem.now cert.now) judged.verdict judged.next) }
{
    let judged = check_cost(alloc, problem, cert, line)?;
    if !judged.is_passed() {
        return Ok(judged);
    }
    let last = from_bound(alloc, problem, cert, judged.next)?;
    Ok(last)
}

/// Checks the lines below the mark of a stage that was tried, of which `first` is the number of the
/// line of the mark.
pub(crate) fn check_lines(
    alloc: Global,
    problem: &Problem,
    cert: &StageCert,
    first: u32,
) -> Result<Judged, Memory>
    requires stage { (version : ℕ) × IsPrintableProof version cert.now }
    requires lines { first + (length (proof_lines cert.now) + 1) < 2 ^ 32 }
    ensures verdict { IfOk result
        (λ judged. IsStageVerdict problem.now cert.now first judged.verdict) }
    ensures next { IfOk result
        (λ judged. judged.verdict ≡ Yes →
        judged.next ≡ first + (length (proof_lines cert.now) + 1)) }
{
    let judged = check_choice(problem, cert, first + 1);
    if !judged.is_passed() {
        return Ok(judged);
    }
    let last = from_cost(alloc, problem, cert, judged.next)?;
    Ok(last)
}

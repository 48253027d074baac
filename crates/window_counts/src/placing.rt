//! Counting the uses of alternatives of a problem: of one where it fits, and of all that a choice
//! takes.

ghost use Rattle.std.specs.Prelude.{◌≡◌, ◌↔◌, ℕ, ◌<◌, ◌≤◌, length, slice_index, false, IsTrue};
ghost use Rattle.choice_problem.specs.declared.problems.TheConstants.{MOST_UNITS, MOST_USES};
ghost use Rattle.std.specs.Option.{ForSome};
ghost use Rattle.choice_problem.specs.Problems.{
  IsChooser,
  unit_count,
  alt_count,
  alt_uses,
  part_count,
  resource_count,
  chooser_at,
  named_uses,
};
ghost use Rattle.choice_problem.specs.Choices.{IsChoice, choice_cost};
ghost use Rattle.choice_problem.specs.Counts.{GrowsBy, HasRoom, HasUses};
ghost use Rattle.choice_problem.specs.Greedy.{FitsOn};
ghost use Rattle.window_counts.specs.Placed.{KeepsLimits, FitsBeside, FitsOnce, AreZero, AreLoads};

use crate::counts::Counts;
use choice_problem::Problem;

/// Counts the uses of a unit's alternative where it fits on the counts, and says whether it does.
/// Else the counts stay. No count is above its limit before. At most eight steps a use of its two
/// parts; where one of them uses a resource that has no room, one step a use up to the first such
/// resource.
pub fn place_alt(problem: &Problem, unit: u32, alt: u32, counts: &mut Counts) -> bool
    requires unit { unit < unit_count problem.now }
    requires alt { alt < alt_count problem.now unit }
    requires counts { KeepsLimits problem.now counts.old }
    requires room { HasRoom counts.old (λ _. MOST_USES) }
    ensures length { length counts.new ≡ length counts.old }
    ensures fits { IsTrue result ↔ FitsOn problem.now (λ r. slice_index counts.old r) unit alt }
    ensures placed { IsTrue result →
        GrowsBy counts.old counts.new (λ r. alt_uses problem.now unit alt r) }
    ensures few { (r : ℕ) → alt_uses problem.now unit alt r ≤ MOST_USES }
    ensures left { result ≡ false → counts.new ≡ counts.old }
{
    let chosen = problem.unit_alts(unit)[alt as usize];
    if !has_room(problem, unit, chosen.two, counts) {
        return false;
    }
    if !place_part(problem, unit, chosen.one, counts) {
        return false;
    }
    if place_part(problem, unit, chosen.two, counts) {
        return true;
    }
    take_named(problem, unit, chosen.one, counts);
    false
}

// Whether each resource that the part uses, if there is one, has room for one more use.
fn has_room(problem: &Problem, unit: u32, part: Option<u32>, counts: &Counts) -> bool
    requires unit { unit < unit_count problem.now }
    requires part { ForSome part (λ k. k < part_count problem.now unit) }
    requires counts { length counts.now ≡ resource_count problem.now }
    ensures { IsTrue result ↔ FitsOnce problem.now counts.now
        (λ r. named_uses (chooser_at problem.now unit) part r) }
{
    match part {
        Some(n) => counts.has_room(problem.part(unit, n), problem.limits()),
        None => true,
    }
}

// Counts the uses of the part that an alternative may name, where it fits. Else the counts stay.
fn place_part(problem: &Problem, unit: u32, part: Option<u32>, counts: &mut Counts) -> bool
    requires unit { unit < unit_count problem.now }
    requires part { ForSome part (λ k. k < part_count problem.now unit) }
    requires counts { length counts.old ≡ resource_count problem.now }
    requires room { HasRoom counts.old (λ r. named_uses (chooser_at problem.now unit) part r) }
    ensures length { length counts.new ≡ length counts.old }
    ensures fits { IsTrue result
        ↔ FitsBeside problem.now counts.old (λ r. named_uses (chooser_at problem.now unit) part r) }
    ensures placed { IsTrue result
        → GrowsBy counts.old counts.new (λ r. named_uses (chooser_at problem.now unit) part r) }
    ensures left { result ≡ false → counts.new ≡ counts.old }
{
    if !has_room(problem, unit, part, counts) {
        return false;
    }
    match part {
        Some(n) => counts.add_if_fits(Some(problem.part(unit, n)), None, problem.limits()),
        None => true,
    }
}

// Counts the uses of the part that an alternative may name.
fn add_named(problem: &Problem, unit: u32, part: Option<u32>, counts: &mut Counts)
    requires unit { unit < unit_count problem.now }
    requires part { ForSome part (λ k. k < part_count problem.now unit) }
    requires counts { length counts.old ≡ resource_count problem.now }
    requires room { HasRoom counts.old (λ r. named_uses (chooser_at problem.now unit) part r) }
    ensures length { length counts.new ≡ length counts.old }
    ensures placed { GrowsBy counts.old counts.new
        (λ r. named_uses (chooser_at problem.now unit) part r) }
{
    if let Some(n) = part {
        counts.add(problem.part(unit, n));
    }
}

// Takes the uses of the part that an alternative may name away.
fn take_named(problem: &Problem, unit: u32, part: Option<u32>, counts: &mut Counts)
    requires unit { unit < unit_count problem.now }
    requires part { ForSome part (λ k. k < part_count problem.now unit) }
    requires counts { length counts.old ≡ resource_count problem.now }
    requires added { HasUses counts.old (λ r. named_uses (chooser_at problem.now unit) part r) }
    ensures length { length counts.new ≡ length counts.old }
    ensures taken { GrowsBy counts.new counts.old
        (λ r. named_uses (chooser_at problem.now unit) part r) }
{
    if let Some(n) = part {
        counts.take(problem.part(unit, n));
    }
}

// Counts the uses of a unit's alternative.
fn add_alt(problem: &Problem, unit: u32, alt: u32, counts: &mut Counts)
    requires unit { unit < unit_count problem.now }
    requires alt { alt < alt_count problem.now unit }
    requires counts { length counts.old ≡ resource_count problem.now }
    requires room { HasRoom counts.old (λ _. MOST_USES) }
    ensures length { length counts.new ≡ length counts.old }
    ensures added { GrowsBy counts.old counts.new (λ r. alt_uses problem.now unit alt r) }
    ensures few { (r : ℕ) → alt_uses problem.now unit alt r ≤ MOST_USES }
    ensures valid { IsChooser (chooser_at problem.now unit) }
{
    let chosen = problem.unit_alts(unit)[alt as usize];
    add_named(problem, unit, chosen.one, counts);
    add_named(problem, unit, chosen.two, counts);
}

/// Counts the uses of a choice of a problem on counts of 0, and answers what it costs: one step a
/// use.
pub fn add_choice(problem: &Problem, alts: &[u32], loads: &mut Counts) -> u64
    requires alts { IsChoice problem.now alts.now }
    requires count { length loads.old ≡ resource_count problem.now }
    requires zeros { AreZero loads.old }
    ensures cost { result ≡ choice_cost problem.now alts.now }
    ensures count { length loads.new ≡ resource_count problem.now }
    ensures loads { AreLoads problem.now alts.now loads.new }
    ensures units { (u : ℕ) → u < unit_count problem.now → IsChooser (chooser_at problem.now u) }
    ensures few { unit_count problem.now ≤ MOST_UNITS }
{
    let mut cost = 0;
    for unit in 0..problem.units() {
        let alt = alts[unit as usize];
        add_alt(problem, unit, alt, loads);
        cost += problem.alt_cost(unit, alt);
    }
    cost
}

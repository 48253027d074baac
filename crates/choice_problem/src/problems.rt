//! Problems of units and resources.

ghost use Rattle.std.specs.Prelude.{◌≡◌, ◌+◌, ◌^◌, ◌<◌, ◌≤◌, All, map, pos, ◌≤ℤ◌, length};

use crate::strips::Part;
use std::marker::Model;

/// The most units that a problem may have.
pub const MOST_UNITS: u32 = 4_096;

/// The most resources that a problem may have.
pub const MOST_RESOURCES: u32 = 1_000_000;

/// The highest limit that a resource may have.
pub const HIGHEST_LIMIT: i64 = 999_999;

/// The most uses of one resource that an alternative may have.
pub const MOST_USES: u32 = 434;

/// The highest cost that an alternative may have.
pub const HIGHEST_COST: u64 = (1 << 24) - 1;

/// An alternative of a unit: what it costs, and the numbers of up to two parts of its unit, whose
/// resources it uses. Where it names one part twice, it uses that part's resources twice.
#[derive(Clone, Copy, Debug, PartialEq, Eq)]
pub struct Alt {
    /// What it costs, in the unit of the problem's costs, such as minutes of displacement.
    pub cost: u64,
    /// The number of a part, from 0.
    pub one: Option<u32>,
    /// The number of another part, or of the same one.
    pub two: Option<u32>,
}

/// A unit: the parts that its alternatives name, and the alternatives. A part that several
/// alternatives name is kept once.
#[derive(Drop)]
pub struct Chooser {
    parts: Vec<Part>,
    alts: Vec<Alt>,
}

impl Model for Chooser {
    ghost use Rattle.choice_problem.specs.Problems.{ChooserView, IsChooser};

    ghost Value = { ChooserView };

    ghost view = { λ c. record { parts = c.parts.items; alts = c.alts.items } };

    ghost invariant = { λ c. IsChooser (record { parts = c.parts.items; alts = c.alts.items }) };
}

impl Chooser {
    ghost use Rattle.std.specs.Option.{ForSome};
    ghost use Rattle.std.specs.Prelude.{◌≡◌, ◌+◌, ◌^◌, ◌<◌, ◌≤◌, ℕ, length};
    ghost use Rattle.choice_problem.specs.declared.problems.TheConstants.{MOST_USES};
    ghost use Rattle.choice_problem.specs.Problems.{ChooserView, IsChooser, alt_at, part_at, named_uses, chooser_uses, ArePartsInRange};
    ghost use Rattle.choice_problem.specs.Counts.{GrowsBy, HasRoom};

    /// The unit with these parts and alternatives. There is at least one alternative and fewer than
    /// 2^32; there are fewer than 2^32 parts; each alternative costs less than 2^24, names parts
    /// that are there, and uses no resource more than 434 times.
    pub fn new(parts: Vec<Part>, alts: Vec<Alt>) -> Chooser
        requires { IsChooser (record { parts = parts.items; alts = alts.items }) }
        ensures { result ≡ record { parts = parts.items; alts = alts.items } }
    {
        Chooser { parts, alts }
    }

    fn alts_len(&self) -> u32
        ensures count { result ≡ length self.now.alts }
        ensures some { 0 < result }
    {
        self.alts.len() as u32
    }

    fn alt(&self, alt: u32) -> Alt
        requires { alt < length self.now.alts }
        ensures value { result ≡ alt_at self.now alt }
        ensures cost { result.cost < 2 ^ 24 }
        ensures one { ForSome result.one (λ k. k < length self.now.parts) }
        ensures two { ForSome result.two (λ k. k < length self.now.parts) }
    {
        let _invariant = &self.parts;
        self.alts[alt as usize]
    }

    fn parts_len(&self) -> u32
        ensures { result ≡ length self.now.parts }
    {
        self.parts.len() as u32
    }

    fn alt_items(&self) -> &[Alt]
        ensures value { result.now ≡ self.now.alts }
        ensures valid { IsChooser self.now }
    {
        &self.alts
    }

    pub(crate) fn part_items(&self) -> &[Part]
        ensures value { result.now ≡ self.now.parts }
        ensures valid { IsChooser self.now }
    {
        &self.parts
    }

    fn part(&self, n: u32) -> &Part
        requires { n < length self.now.parts }
        ensures { result.now ≡ part_at self.now n }
    {
        &self.parts[n as usize]
    }

    // How often the part that an alternative may name uses a resource.
    fn named_uses(&self, part: Option<u32>, resource: u32) -> u32
        requires named { ForSome part (λ k. k < length self.now.parts) }
        requires few { named_uses self.now part resource < 2 ^ 32 }
        ensures { result ≡ named_uses self.now part resource }
    {
        match part {
            Some(n) => self.part(n).uses(resource),
            None => 0,
        }
    }

    fn uses(&self, alt: u32, resource: u32) -> u32
        requires { alt < length self.now.alts }
        ensures value { result ≡ chooser_uses self.now alt resource }
        ensures few { result ≤ MOST_USES }
    {
        let _invariant = &self.parts;
        let chosen = self.alt(alt);
        self.named_uses(chosen.one, resource) + self.named_uses(chosen.two, resource)
    }

    // Counts the uses of the part that an alternative may name.
    fn add_named(&self, part: Option<u32>, counts: &mut [u32])
        requires named { ForSome part (λ k. k < length self.now.parts) }
        requires there { ArePartsInRange (length counts.old) self.now }
        requires room { HasRoom counts.old (λ r. named_uses self.now part r) }
        ensures { GrowsBy counts.old counts.new (λ r. named_uses self.now part r) }
    {
        if let Some(n) = part {
            self.part(n).add_uses(counts);
        }
    }

    // Counts the uses of an alternative.
    fn add_uses(&self, alt: u32, counts: &mut [u32])
        requires alt { alt < length self.now.alts }
        requires there { ArePartsInRange (length counts.old) self.now }
        requires room { HasRoom counts.old (λ _. MOST_USES) }
        ensures uses { GrowsBy counts.old counts.new (λ r. chooser_uses self.now alt r) }
        ensures few { (r : ℕ) → chooser_uses self.now alt r ≤ MOST_USES }
    {
        let _invariant = &self.parts;
        let chosen = self.alt(alt);
        self.add_named(chosen.one, counts);
        self.add_named(chosen.two, counts);
    }
}

/// A problem: units of which each takes one alternative, and a limit for each resource.
///
/// Memory: 24 bytes an alternative, 24 bytes a part and 16 bytes a strip, 48 bytes a unit, and 8
/// bytes a resource. 500 units with 625 alternatives over 50 parts of 16 strips and 45,000
/// resources take about 15 MB.
#[derive(Drop)]
pub struct Problem {
    units: Vec<Chooser>,
    limits: Vec<i64>,
}

impl Model for Problem {
    ghost use Rattle.choice_problem.specs.Problems.{ProblemView, IsProblem, problem_of};

    ghost Value = { ProblemView };

    ghost view = { λ p. problem_of p.units.items p.limits.items };

    ghost invariant = { λ p. IsProblem p.units.items p.limits.items };
}

impl Problem {
    ghost use Rattle.std.specs.Option.{ForSome};
    ghost use Rattle.std.specs.Prelude.{◌≡◌, ◌+◌, ◌^◌, ◌<◌, ◌≤◌, ℕ, length, map, pos, All};
    ghost use Rattle.choice_problem.specs.declared.problems.TheConstants.{MOST_UNITS, MOST_RESOURCES, MOST_USES, HIGHEST_LIMIT};
    ghost use Rattle.choice_problem.specs.Problems.{
      amount,
      ProblemView,
      IsChooser,
      IsProblem,
      problem_of,
      unit_count,
      alt_count,
      part_count,
      resource_count,
      alt_cost,
      alt_uses,
      limit_of,
      chooser_at,
      alt_at,
      part_at,
    };
    ghost use Rattle.choice_problem.specs.Counts.{GrowsBy, HasRoom};
    ghost use Rattle.choice_problem.specs.Strips.{IsPartInRange};

    /// The problem with these units and limits, one limit for each resource. There are at most
    /// 4,096 units and 1,000,000 resources; limits are from 0 to 999,999; the strips of all parts
    /// stay within the resources.
    pub fn new(units: Vec<Chooser>, limits: Vec<i64>) -> Problem
        requires { IsProblem units.items limits.items }
        ensures { result ≡ problem_of units.items limits.items }
    {
        Problem { units, limits }
    }

    /// How many units there are.
    pub fn units(&self) -> u32
        ensures count { result ≡ unit_count self.now }
        ensures few { result ≤ MOST_UNITS }
    {
        self.units.len() as u32
    }

    /// How many alternatives a unit has.
    pub fn alts(&self, unit: u32) -> u32
        requires { unit < unit_count self.now }
        ensures count { result ≡ alt_count self.now unit }
        ensures some { 0 < result }
    {
        self.units[unit as usize].alts_len()
    }

    /// The cost of an alternative of a unit.
    pub fn alt_cost(&self, unit: u32, alt: u32) -> u64
        requires unit { unit < unit_count self.now }
        requires alt { alt < alt_count self.now unit }
        ensures value { result ≡ alt_cost self.now unit alt }
        ensures small { result < 2 ^ 24 }
    {
        self.units[unit as usize].alt(alt).cost
    }

    /// How many resources there are.
    pub fn resources(&self) -> u32
        ensures count { result ≡ resource_count self.now }
        ensures few { result ≤ MOST_RESOURCES }
    {
        self.limits.len() as u32
    }

    /// The limit of a resource.
    pub fn limit(&self, resource: u32) -> i64
        requires { resource < resource_count self.now }
        ensures value { result ≡ pos (limit_of self.now resource) }
        ensures small { limit_of self.now resource ≤ amount HIGHEST_LIMIT }
    {
        self.limits[resource as usize]
    }

    /// The limits, one for each resource.
    pub fn limits(&self) -> &[i64]
        ensures value { result.now ≡ map pos self.now.limits }
        ensures few { length self.now.limits ≤ MOST_RESOURCES }
    {
        &self.limits
    }

    /// How many parts a unit has.
    pub fn parts(&self, unit: u32) -> u32
        requires { unit < unit_count self.now }
        ensures { result ≡ part_count self.now unit }
    {
        self.units[unit as usize].parts_len()
    }

    /// A part of a unit.
    pub fn part(&self, unit: u32, n: u32) -> &Part
        requires unit { unit < unit_count self.now }
        requires part { n < part_count self.now unit }
        ensures value { result.now ≡ part_at (chooser_at self.now unit) n }
        ensures there { IsPartInRange (resource_count self.now) result.now }
    {
        self.units[unit as usize].part(n)
    }

    /// An alternative of a unit.
    pub fn alt(&self, unit: u32, alt: u32) -> Alt
        requires unit { unit < unit_count self.now }
        requires alt { alt < alt_count self.now unit }
        ensures value { result ≡ alt_at (chooser_at self.now unit) alt }
        ensures cost { result.cost < 2 ^ 24 }
        ensures one { ForSome result.one (λ k. k < part_count self.now unit) }
        ensures two { ForSome result.two (λ k. k < part_count self.now unit) }
    {
        self.units[unit as usize].alt(alt)
    }

    /// The alternatives of a unit, for loops over all of them.
    pub fn unit_alts(&self, unit: u32) -> &[Alt]
        requires { unit < unit_count self.now }
        ensures value { result.now ≡ (chooser_at self.now unit).alts }
        ensures valid { IsChooser (chooser_at self.now unit) }
    {
        self.units[unit as usize].alt_items()
    }

    /// The parts of a unit, for loops over all of them.
    pub fn unit_parts(&self, unit: u32) -> &[Part]
        requires { unit < unit_count self.now }
        ensures value { result.now ≡ (chooser_at self.now unit).parts }
        ensures valid { IsChooser (chooser_at self.now unit) }
        ensures there { All (λ strips. IsPartInRange (resource_count self.now) strips) result.now }
    {
        self.units[unit as usize].part_items()
    }

    /// How often an alternative of a unit uses a resource: one step a strip of its parts.
    pub fn uses(&self, unit: u32, alt: u32, resource: u32) -> u32
        requires unit { unit < unit_count self.now }
        requires alt { alt < alt_count self.now unit }
        ensures value { result ≡ alt_uses self.now unit alt resource }
        ensures few { result ≤ MOST_USES }
    {
        self.units[unit as usize].uses(alt, resource)
    }

    /// Adds the uses of an alternative of a unit to counts, one for each resource: one step a use.
    pub fn add_uses(&self, unit: u32, alt: u32, counts: &mut [u32])
        requires unit { unit < unit_count self.now }
        requires alt { alt < alt_count self.now unit }
        requires counts { length counts.old ≡ resource_count self.now }
        requires room { HasRoom counts.old (λ _. MOST_USES) }
        ensures uses { GrowsBy counts.old counts.new (λ r. alt_uses self.now unit alt r) }
        ensures few { (r : ℕ) → alt_uses self.now unit alt r ≤ MOST_USES }
    {
        self.units[unit as usize].add_uses(alt, counts);
    }
}

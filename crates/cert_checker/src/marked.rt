//! The units whose ranges have changed, each once.

ghost use Rattle.std.specs.Prelude.{◌≡◌, ◌<◌, ℕ, All, OnOk, length};
ghost use Rattle.std.specs.List.{Contains};

use slot_text::Memory;
use std::alloc::Global;
use std::marker::Model;

// Units of so many, in the order in which they were marked.
#[derive(Drop)]
pub(crate) struct Marked {
    units: Vec<u32>,
    is_in: Vec<bool>,
}

impl Model for Marked {
    ghost use Rattle.std.specs.Prelude.{length};
    ghost use Rattle.cert_checker.specs.Marked.{MarkedView, AreMarked};

    ghost Value = { MarkedView };

    ghost view = { λ m. record { most = length m.is_in.items; units = m.units.items } };

    ghost invariant = { λ m. AreMarked m.is_in.items m.units.items };
}

impl Marked {
    ghost use Rattle.std.specs.Prelude.{◌≡◌, ◌<◌, [], ℕ, All, IfOk, OnOk, length};
    ghost use Rattle.std.specs.List.{Contains};
    ghost use Rattle.cert_checker.specs.Marked.{AreOnce};

    /// None of so many units.
    pub(crate) fn none(alloc: Global, most: u32) -> Result<Marked, Memory>
        ensures { IfOk result (λ m. m ≡ record { most = most; units = [] }) }
    {
        let is_in = vec![in alloc; false; most as usize]?;
        Ok(Marked {
            units: Vec::new(alloc),
            is_in,
        })
    }

    /// The marked units.
    pub(crate) fn units(&self) -> &[u32]
        ensures value { result.now ≡ self.now.units }
        ensures there { All (λ u. u < self.now.most) result.now }
        ensures once { AreOnce result.now }
    {
        let _invariant = &self.is_in;
        &self.units
    }

    /// Marks a unit.
    pub(crate) fn mark(&mut self, unit: u32) -> Result<(), Memory>
        requires { unit < self.old.most }
        ensures most { self.new.most ≡ self.old.most }
        ensures marked { OnOk result (Contains self.new.units unit) }
        ensures stay { (u : ℕ) → Contains self.old.units u → Contains self.new.units u }
    {
        if self.is_in[unit as usize] {
            return Ok(());
        }
        self.units.push(unit)?;
        self.is_in[unit as usize] = true;
        Ok(())
    }
}

/// Marks some units.
pub(crate) fn mark_all(marked: &mut Marked, units: &[u32]) -> Result<(), Memory>
    requires { All (λ u. u < marked.old.most) units.now }
    ensures most { marked.new.most ≡ marked.old.most }
    ensures all { OnOk result ((u : ℕ) → Contains units.now u → Contains marked.new.units u) }
    ensures stay { (u : ℕ) → Contains marked.old.units u → Contains marked.new.units u }
{
    for unit in units {
        marked.mark(*unit)?;
    }
    Ok(())
}

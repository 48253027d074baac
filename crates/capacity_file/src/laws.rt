//! Laws of capacity files. A function does nothing but call laws that it stands on; its contract is
//! the law.

ghost use Rattle.std.specs.Prelude.{◌≡◌, ℕ, List};
ghost use Rattle.season_days.specs.declared.declaration.Declaration.{Declaration as DeclarationValue};
ghost use Rattle.capacity_file.specs.Declares.{IsCapacityFile};
ghost use Rattle.capacity_file.specs.Faults.{HasCapacityFault};
ghost use Rattle.capacity_file.specs.declared.fault.CapFault.{CapFault as CapFaultValue};

use schedule_text::laws::one_value;

/// A text makes one declaration at most and has one fault at most, and never both.
pub fn one_answer()
    ensures one { (text : List ℕ) (a b : DeclarationValue) → IsCapacityFile text a →
        IsCapacityFile text b → a ≡ b }
    ensures fault { (text : List ℕ) (a b : CapFaultValue) → HasCapacityFault text a →
        HasCapacityFault text b → a ≡ b }
    ensures not_both { (text : List ℕ) (d : DeclarationValue) (fault : CapFaultValue) →
        IsCapacityFile text d → HasCapacityFault text fault → ⊥ }
{
    one_value();
}

//! Laws of causes. Each function does nothing; its contract is the law.

ghost use Rattle.std.specs.Prelude.{◌≡◌, ℕ, List};
ghost use Rattle.capacity_file.specs.declared.fault.CapFault.{CapFault as CapFaultValue};
ghost use Rattle.scr_reader.specs.declared.fault.ScrFault.{ScrFault as ScrFaultValue};
ghost use Rattle.series_model.specs.declared.fault.ModelFault.{ModelFault as ModelFaultValue};
ghost use Rattle.fault_causes.specs.Capacities.{IsCapacityCause};
ghost use Rattle.fault_causes.specs.Requests.{IsMessageCause, IsSubmissionCause};
ghost use Rattle.fault_causes.specs.declared.cause.Cause.{Cause as CauseValue};

/// A fault of a text has one cause.
pub fn one_cause()
    ensures capacity { (text : List ℕ) (fault : CapFaultValue) (a b : CauseValue) →
        IsCapacityCause text fault a → IsCapacityCause text fault b → a ≡ b }
    ensures message { (text : List ℕ) (fault : ScrFaultValue) (a b : CauseValue) →
        IsMessageCause text fault a → IsMessageCause text fault b → a ≡ b }
    ensures submission { (text : List ℕ) (fault : ModelFaultValue) (a b : CauseValue) →
        IsSubmissionCause text fault a → IsSubmissionCause text fault b → a ≡ b }
{}

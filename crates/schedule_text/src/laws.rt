//! Laws of these spellings.
ghost use Rattle.std.specs.Prelude.{◌≡◌, ◌<◌, ℕ, List};
ghost use Rattle.season_days.specs.declared.declaration.Kind.{Kind};
ghost use Rattle.season_days.specs.declared.declaration.TheConstants.{MINUTES_OF_DAY};
ghost use Rattle.schedule_text.specs.Days.{IsDays};
ghost use Rattle.schedule_text.specs.Kinds.{kind_text};
ghost use Rattle.schedule_text.specs.Times.{time_text};

/// A text names at most one time of the day, one set of weekdays and one kind of movements.
pub fn one_value()
    ensures time { (a b : ℕ) → a < MINUTES_OF_DAY → b < MINUTES_OF_DAY → time_text a ≡ time_text b →
        a ≡ b }
    ensures days { (text : List ℕ) (a b : ℕ) → IsDays text a → IsDays text b → a ≡ b }
    ensures kind { (a b : Kind) → kind_text a ≡ kind_text b → a ≡ b }
{}

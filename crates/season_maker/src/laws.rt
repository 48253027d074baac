//! Laws of generated seasons. A function does nothing but call laws that it stands on; its contract
//! is the law.

ghost use Rattle.std.specs.Prelude.{◌≡◌, ◌+◌, ◌*◌, ◌<◌, ◌≤◌, ℕ, List, [], ◌∷◌, ◌++◌, length, Ok, codes};
ghost use Rattle.slot_text.specs.Ended.{ended};
ghost use Rattle.season_days.specs.Seasons.{date_count};
ghost use Rattle.season_days.specs.declared.declaration.Declaration.{Declaration as DeclarationValue};
ghost use Rattle.schedule_text.specs.Times.{time_text};
ghost use Rattle.scr_reader.specs.Bytes.{four_digits};
ghost use Rattle.scr_reader.specs.Messages.{ReadsAll};
ghost use Rattle.scr_reader.specs.Printed.{dates_text, code_letter, line_text};
ghost use Rattle.scr_reader.specs.declared.line.Code.{Code as CodeValue};
ghost use Rattle.scr_reader.specs.declared.line.Code.TheVariants.{N};
ghost use Rattle.capacity_file.specs.Declares.{IsCapacityFile};
ghost use Rattle.choice_problem.specs.declared.problems.TheConstants.{MOST_UNITS};
ghost use Rattle.series_model.specs.Units.{units_of};
ghost use Rattle.series_model.specs.Submissions.{submission_of, submission_answer};
ghost use Rattle.season_maker.specs.Draws.{state_after};
ghost use Rattle.season_maker.specs.Generated.{summer_2025, whole_season, hourly_limit, arrival_line, turnaround_line, generated_message, IsGeneratedDeclaration};
ghost use Rattle.season_maker.specs.Texts.{generated_capacity, generated_requests};

use capacity_file::laws::one_answer;
use scr_reader::laws::{printed_lines_are_short, printed_messages_are_read};
use slot_text::laws::{spelled_fields, spelled_lines};

/// The season has 210 dates, from 30 March to 25 October, and a period of all of them is printed
/// so.
pub fn season_dates()
    ensures count { date_count summer_2025 ≡ 210 }
    ensures text { dates_text summer_2025 whole_season ≡ codes "30MAR25OCT" }
{}

/// The lines of units as text.
pub fn lines_as_text()
    ensures arrival { (code : CodeValue) (unit minute : ℕ) → unit < 9000 →
        line_text summer_2025 code (arrival_line code unit minute)
        ≡ code_letter code
        ∷ (codes "XY"
        ++ (four_digits (1000 + unit)
        ++ (codes " 30MAR25OCT 1234567 180320 JFK" ++ (time_text minute ++ codes " J")))) }
    ensures turnaround { (unit arrival departure : ℕ) → unit < 9000 →
        line_text summer_2025 N (turnaround_line unit arrival departure)
        ≡ codes "NXY"
        ++ (four_digits (1000 + unit)
        ++ (codes " XZ"
        ++ (four_digits (1000 + unit)
        ++ (codes " 30MAR25OCT 1234567 180320 JFK"
        ++ (time_text arrival ++ (32 ∷ (time_text departure ++ codes "JFK JJ"))))))) }
{}

/// A worked season: number 1 and four units, with the first states of the generator.
pub fn worked_season()
    ensures states { (state_after 1 1 ≡ 149) × (state_after 1 2 ≡ 11249) × (state_after 1 3 ≡ 57305)
        × (state_after 1 4 ≡ 38044) }
    ensures limits { (hourly_limit 1 ≡ 5) × (hourly_limit 192 ≡ 5) × (hourly_limit 193 ≡ 8)
        × (hourly_limit 4096 ≡ 68) }
    ensures capacity { generated_capacity 4
        ≡ ended (codes "AIRPORT ABC" ∷ codes "SEASON S25" ∷ codes "STEP 5" ∷ codes "FLEX 30"
        ∷ codes "GROUND 40" ∷ codes "REFUSE 60" ∷ codes "CAP ARR 60 0600 2200 1234567 5" ∷ []) }
    ensures requests { generated_requests 1 4
        ≡ ended (codes "SCR" ∷ codes "S25" ∷ codes "20NOV" ∷ codes "ABC"
        ∷ codes "FXY1000 30MAR25OCT 1234567 180320 JFK0600 J"
        ∷ codes "NXY1001 30MAR25OCT 1234567 180320 JFK0725 J"
        ∷ codes "BXY1002 30MAR25OCT 1234567 180320 JFK0825 J"
        ∷ codes "NXY1003 XZ1003 30MAR25OCT 1234567 180320 JFK0925 1030JFK JJ" ∷ []) }
{}

/// The capacity file is one, and declares what is said of the declaration.
pub fn capacity_is_read()
    ensures some { (units : ℕ) → units ≤ MOST_UNITS →
        (d : DeclarationValue) × IsGeneratedDeclaration units d
        × IsCapacityFile (generated_capacity units) d }
    ensures only { (units : ℕ) (d : DeclarationValue) → units ≤ MOST_UNITS →
        IsCapacityFile (generated_capacity units) d → IsGeneratedDeclaration units d }
{
    spelled_lines();
    spelled_fields();
    one_answer();
}

/// The requests are read as the one message.
pub fn requests_are_read()
    ensures { (number units : ℕ) → units ≤ MOST_UNITS →
        ReadsAll (generated_requests number units) (generated_message number units ∷ []) }
{
    printed_messages_are_read();
}

/// The message is taken under the declaration, and has so many units.
pub fn submission_is_taken()
    ensures taken { (number units : ℕ) (d : DeclarationValue) → units ≤ MOST_UNITS →
        IsGeneratedDeclaration units d →
        submission_answer d (generated_message number units ∷ [])
        ≡ Ok (submission_of d (generated_message number units ∷ [])) }
    ensures units { (number units : ℕ) →
        length (units_of (generated_message number units ∷ [])) ≡ units }
{}

/// The files are short.
pub fn sizes()
    ensures capacity { (units : ℕ) → units ≤ MOST_UNITS →
        length (generated_capacity units) ≤ 100 }
    ensures requests { (number units : ℕ) → units ≤ MOST_UNITS →
        length (generated_requests number units) ≤ 18 + 71 * units }
{
    printed_lines_are_short();
}

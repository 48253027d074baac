//! Laws of the calendar. Each function does nothing; its contract is the law.

ghost use Rattle.std.specs.Prelude.{◌≡◌, ◌↔◌, ◌<◌, ◌≤◌, ◌+◌, ◌-◌, ◌%◌, ◌+ℤ◌, ℕ, ℤ, pos, Bool, true, false, [], ◌∷◌, length, Some, slice_get, All, Contains, count_by};
ghost use Rattle.std.specs.List.{filter};
ghost use Rattle.std.specs.List.Sorted.{IsStrictlyIncreasing};
ghost use Rattle.jiff_core.specs.Calendar.{days_from_civil, days_in_month};
ghost use Rattle.season_days.specs.Term.{Term};
ghost use Rattle.season_days.specs.Dates.{IsLastSunday, last_sunday};
ghost use Rattle.season_days.specs.Seasons.{first_year, year_after, month_after, season_after, first_number, number_after, date_count, date_at, days_from, season_dates, weekday_on, IsDayNamed, is_on, dates_of};
ghost use Rattle.season_days.specs.Periods.{SharesDate, HasAllDates, is_date_of, shares_date, has_all_dates, part_dates, cut_of, cut_periods, IsPartOf, IsInOne};
ghost use Rattle.season_days.specs.declared.day.Period.{Period};
ghost use Rattle.season_days.specs.declared.season.TheConstants.{MOST_DATES};

/// The number that `last_sunday` gives is the last Sunday of the month, and no other day of the
/// month is.
pub fn last_sundays()
    ensures { (year : ℤ) (month of_month : ℕ) → IsLastSunday year month of_month ↔
        (of_month ≡ last_sunday year month) }
{}

/// A month has from 28 to 31 days.
pub fn month_lengths()
    ensures { (year : ℤ) (month : ℕ) → (28 ≤ days_in_month year month)
        × (days_in_month year month ≤ 31) }
{}

/// A season has from 147 to 217 dates, which are whole weeks, and the next season begins on the
/// date after them.
pub fn lengths()
    ensures bounds { (season : Term) → (147 ≤ date_count season)
        × (date_count season ≤ MOST_DATES) }
    ensures weeks { (season : Term) → date_count season % 7 ≡ 0 }
    ensures after { (season : Term) →
        first_number season +ℤ pos (date_count season) ≡ number_after season }
{}

/// The date after a season's last is the first of the season that follows.
pub fn seasons_follow()
    ensures { (season : Term) → first_number (season_after season) ≡ number_after season }
{}

/// Each season begins on a Sunday, and the weekdays follow one another.
pub fn weekdays()
    ensures first { (season : Term) → weekday_on season 0 ≡ 7 }
    ensures next { (season : Term) (day : ℕ) →
        weekday_on season (day + 1) ≡ weekday_on season day % 7 + 1 }
    ensures bounds { (season : Term) (day : ℕ) → (1 ≤ weekday_on season day)
        × (weekday_on season day ≤ 7) }
{}

/// The list of a season's civil dates has them by their days. They have the day numbers from its
/// first on, and after the last of them comes the last Sunday with which the next season begins.
pub fn civil_dates()
    ensures count { (season : Term) → length (season_dates season) ≡ date_count season }
    ensures listed { (season : Term) (day : ℕ) → day < date_count season →
        slice_get (season_dates season) day ≡ Some (date_at season day) }
    ensures numbers { (season : Term) (day : ℕ) →
        days_from_civil (pos (date_at season day).year) (date_at season day).month
        (date_at season day).of_month ≡ first_number season +ℤ pos day }
    ensures year_after { (season : Term) → season.year < 100 →
        (date_at season (date_count season)).year ≡ year_after season.half (first_year season) }
    ensures month_after { (season : Term) → season.year < 100 →
        (date_at season (date_count season)).month ≡ month_after season.half }
    ensures sunday_after { (season : Term) → season.year < 100 →
        IsLastSunday (pos (year_after season.half (first_year season))) (month_after season.half)
        (date_at season (date_count season)).of_month }
{}

/// A month and a day of the month name a day of the season exactly where they are those of its
/// civil date.
pub fn named_days()
    ensures { (season : Term) (month of_month day : ℕ) → season.year < 100 →
        IsDayNamed season month of_month day ↔
        ((day < date_count season) × ((date_at season day).month ≡ month)
        × ((date_at season day).of_month ≡ of_month)) }
{}

/// The same day of the week has the same answer, also in another season, and the set of all seven
/// weekdays has every day.
pub fn weekday_sets()
    ensures week { (season : Term) (days x y : ℕ) → x % 7 ≡ y % 7 →
        is_on season days x ≡ is_on season days y }
    ensures seasons { (season other : Term) (days day : ℕ) →
        is_on season days day ≡ is_on other days day }
    ensures every { (season : Term) (day : ℕ) → is_on season 127 day ≡ true }
{}

/// A day is a date of a period exactly where it lies from the first to the last and its weekday is
/// in the set, and the dates stand in rising order. Days are counted from a season's first date, so
/// another season has the same ones.
pub fn period_dates()
    ensures members { (season : Term) (period : Period) (day : ℕ) →
        Contains (dates_of season period) day ↔
        ((period.first.0 ≤ day) × (day ≤ period.last.0) × (is_on season period.days day ≡ true)) }
    ensures rising { (season : Term) (period : Period) →
        IsStrictlyIncreasing (dates_of season period) }
    ensures seasons { (season other : Term) (period : Period) →
        dates_of season period ≡ dates_of other period }
{}

/// The days from one on and before an end that pass a test, one by one: the first of them where it
/// passes, and those of the days after it; none where the day is not before the end.
pub fn listed_days()
    ensures passes { (test : ℕ → Bool) (day end : ℕ) → day < end → test day ≡ true →
        filter test (days_from day (end - day))
        ≡ day ∷ filter test (days_from (day + 1) (end - (day + 1))) }
    ensures fails { (test : ℕ → Bool) (day end : ℕ) → day < end → test day ≡ false →
        filter test (days_from day (end - day))
        ≡ filter test (days_from (day + 1) (end - (day + 1))) }
    ensures ends { (test : ℕ → Bool) (day end : ℕ) → end ≤ day →
        filter test (days_from day (end - day)) ≡ [] }
{}

/// A day is among the dates of a period, two periods share a date, and one has all dates of
/// another, exactly where the answers say so.
pub fn date_answers()
    ensures date { (season : Term) (period : Period) (day : ℕ) →
        (is_date_of season period day ≡ true) ↔ Contains (dates_of season period) day }
    ensures shared { (season : Term) (one other : Period) →
        (shares_date season one other ≡ true) ↔ SharesDate season one other }
    ensures all { (season : Term) (held asked : Period) →
        (has_all_dates season held asked ≡ true) ↔ HasAllDates season held asked }
{}

/// The parts of a cut have the held dates before the first asked day, those from it to the last
/// asked day that are not asked, and those after it. So each held date is in exactly one of the
/// asked period and the three parts.
pub fn cuts()
    ensures before { (season : Term) (held asked : Period) (day : ℕ) →
        Contains (part_dates season (cut_of season held asked).before) day ↔
        (Contains (dates_of season held) day × (day < asked.first.0)) }
    ensures between { (season : Term) (held asked : Period) (day : ℕ) →
        Contains (part_dates season (cut_of season held asked).between) day ↔
        (Contains (dates_of season held) day × (asked.first.0 ≤ day) × (day ≤ asked.last.0)
        × (Contains (dates_of season asked) day → ⊥)) }
    ensures after { (season : Term) (held asked : Period) (day : ℕ) →
        Contains (part_dates season (cut_of season held asked).after) day ↔
        (Contains (dates_of season held) day × (asked.last.0 < day)) }
    ensures once { (season : Term) (held asked : Period) (day : ℕ) →
        asked.first.0 ≤ asked.last.0 → Contains (dates_of season held) day →
        IsInOne day (dates_of season asked ∷ part_dates season (cut_of season held asked).before
        ∷ part_dates season (cut_of season held asked).between
        ∷ part_dates season (cut_of season held asked).after ∷ []) }
{}

/// Each part of a cut is a part of the held period. So where the held period's days are days of the
/// season, the part's are.
pub fn cut_parts()
    ensures { (season : Term) (held asked : Period) →
        All (IsPartOf season held) (cut_periods (cut_of season held asked)) }
{}

/// Where a held period has all dates of an asked one, a count over the held dates is that over the
/// asked dates and those over the parts of the cut together.
pub fn cut_counts()
    ensures { (season : Term) (held asked : Period) (passes : ℕ → Bool) →
        asked.first.0 ≤ asked.last.0 → HasAllDates season held asked →
        count_by passes (dates_of season held) ≡ count_by passes (dates_of season asked)
        + (count_by passes (part_dates season (cut_of season held asked).before)
        + (count_by passes (part_dates season (cut_of season held asked).between)
        + count_by passes (part_dates season (cut_of season held asked).after))) }
{}

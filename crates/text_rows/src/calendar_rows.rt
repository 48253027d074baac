//! Seasons, their dates and the dates of periods. The rows are worked by hand.

use crate::rows::{Case, Finding, ascii, number, walk, yes_no};
use jiff_core::civil::Date;
use season_days::{Day, Declaration, Kind, Night, Period, Rule, RuleList, Season};
use slot_text::{Station, field};
use std::alloc::Global;
use std::process::Abort;

/// The first and the last date of a season, its length, its name, the season a year later, and what
/// the name says.
#[derive(Drop)]
struct Seasons;

impl Case for Seasons {
    fn find(&mut self, _rt: &impl Abort, given: &[u8], out: &mut Finding) {
        let Some(season) = Season::read(given) else {
            return out.say("-");
        };
        say_date(out, season.first());
        say_date(out, season.last());
        let (length, half, year) = (season.length(), season.half(), season.year());
        let name = season.text();
        let next = match season.next() {
            Some(next) => next.text(),
            None => *b"---",
        };
        let (name, next) = (ascii(&name), ascii(&next));
        out.say(format_args!("{length} {name} {next} {half:?} {year}"))
    }
}

fn say_date(out: &mut Finding, date: Date) {
    let (year, month, day) = (date.year, date.month, date.day);
    out.say(format_args!("{year}-{month}-{day} "))
}

// Weekdays are counted from Saturday 1 January 2000.
// 2025: 1 March is a Saturday, so Sundays are 2, 9, 16, 23, 30; 1 October is a Wednesday: 5, 12,
// 19, 26. S25: 2 days of March, 30 + 31 + 30 + 31 + 31 + 30 from April to September, 25 of October.
// 2026: 1 March is a Sunday: 1, 8, 15, 22, 29. W25: 6 + 30 + 31 from October to December,
// 31 + 28 + 28.
// The longest season has its first Sunday on 25 March, so 1 March is a Thursday. 2001 begins on a
// Monday, and 1 March is 59 days later. S01: 7 of March, 183, and 27 of October, whose last Sunday
// is the 28th.
// 2099: 1 October is a Thursday: 4, 11, 18, 25. 2100 is no leap year, and 1 March is a Monday: 7,
// 14, 21, 28. W99: 7 + 30 + 31 from October to December, 31 + 28 + 27.
const SEASONS: &[u8] = b"\
S25|2025-3-30 2025-10-25 210 S25 S26 Summer 2025
W25|2025-10-26 2026-3-28 154 W25 W26 Winter 2025
S01|2001-3-25 2001-10-27 217 S01 S02 Summer 2001
W99|2099-10-25 2100-3-27 154 W99 --- Winter 2099
s25|-
X25|-
S2|-
S025|-
S2A|-
|-
";

/// The day of a date, its weekday, its date again, and whether it is a Sunday, and another day.
#[derive(Drop)]
struct Days;

impl Case for Days {
    fn find(&mut self, rt: &impl Abort, given: &[u8], out: &mut Finding) {
        let season = Season::read(field(given, 1).expect(rt, "season")).expect(rt, "season");
        let month = u8::try_from(number(rt, given, 2)).expect(rt, "a number below 256");
        let of_month = u8::try_from(number(rt, given, 3)).expect(rt, "a number below 256");
        match season.day_of(month, of_month) {
            Ok(day) => say_day(rt, out, &season, day),
            Err(fault) => out.say(fault),
        }
    }
}

fn say_day(rt: &impl Abort, out: &mut Finding, season: &Season, day: Day) {
    assert!(rt; day.0 < season.length(), "a day outside the season");
    let (month, of_month) = season.date_of(day);
    let weekday = season.weekday(day);
    let sunday = yes_no(season.is_on(64, day));
    let other = yes_no(season.is_on(63, day));
    out.say(format_args!("{} {weekday} {month}-{of_month} {sunday} {other}", day.0))
}

// 6 days of October, 30 of November and 31 of December come before 1 January 2026, a Thursday.
// 29 October 2023 is a Sunday: 3 + 30 + 31 + 31 + 28 days come before 29 February 2024, a Thursday.
// 2025 has none.
const DAYS: &[u8] = b"\
S25 3 30|0 7 3-30 yes no
S25 10 25|209 6 10-25 no yes
S25 3 29|a date outside the season
S25 10 26|a date outside the season
S25 1 31|a date outside the season
S25 4 31|no such date
S25 2 29|no such date
S25 13 1|no such date
S25 0 1|no such date
S25 5 0|no such date
W25 12 31|66 3 12-31 no yes
W25 1 1|67 4 1-1 no yes
W25 6 30|a date outside the season
W25 7 1|a date outside the season
W23 2 29|123 4 2-29 no yes
W24 2 29|no such date
";

/// A period of three numbers, the first of them at this place: its days by their numbers, and its
/// weekdays.
fn period_at(rt: &impl Abort, given: &[u8], n: u32) -> Period {
    assert!(rt; n <= 9, "no such place");
    Period {
        first: Day(number(rt, given, n)),
        last: Day(number(rt, given, n + 1)),
        days: u8::try_from(number(rt, given, n + 2)).expect(rt, "a number below 256"),
    }
}

fn say_period(out: &mut Finding, part: Option<Period>) {
    match part {
        Some(Period { first, last, days }) => out.say(format_args!(
            " {}-{}/{days}",
            first.0, last.0
        )),
        None => out.say(" -"),
    }
}

/// The number of dates of a period, whether it has some, whether a day is one, and its dates.
#[derive(Drop)]
struct Dates {
    season: Season,
}

impl Case for Dates {
    fn find(&mut self, rt: &impl Abort, given: &[u8], out: &mut Finding) {
        let season = self.season;
        let period = period_at(rt, given, 1);
        let length = season.length();
        let inside = period.first.0 < length && period.last.0 < length;
        assert!(rt; inside, "a day outside the season");
        let some = yes_no(season.has_dates(period));
        let held = yes_no(season.has_date(period, Day(number(rt, given, 4))));
        let count = season.count_dates(period);
        out.say(format_args!("{count} {some} {held}:"));
        match season.dates_of(out.alloc, period) {
            Ok(days) => say_days(out, &days),
            Err(fault) => out.say(format_args!(" {fault}")),
        }
    }
}

fn say_days(out: &mut Finding, days: &[Day]) {
    for day in days {
        out.say(format_args!(" {}", day.0));
    }
}

// Sundays from 30 March to 20 April 2025. Mondays and Wednesdays from 7 to 27 April, where 7 April
// is a Monday, day 8, and 8 April a Tuesday.
const DATES: &[u8] = b"\
0 21 64 7|4 yes yes: 0 7 14 21
8 28 5 10|6 yes yes: 8 10 15 17 22 24
8 28 5 9|6 yes no: 8 10 15 17 22 24
8 30 127 9|23 yes yes: 8 9 10 11 12 13 14 15 16 17 18 19 20 21 22 23 24 25 26 27 28 29 30
0 0 1 0|0 no no: a period without dates
9 9 5 9|0 no no: a period without dates
21 0 0 0|0 no no: a period that ends before it begins
";

/// Of two periods: whether all dates of the second are dates of the first, whether they share one,
/// and what is left of the first.
#[derive(Drop)]
struct Cuts {
    season: Season,
}

impl Case for Cuts {
    fn find(&mut self, rt: &impl Abort, given: &[u8], out: &mut Finding) {
        let (held, asked) = (period_at(rt, given, 1), period_at(rt, given, 4));
        let all = yes_no(self.season.has_all_dates(held, asked));
        let shared = yes_no(self.season.share_date(held, asked));
        let parts = self.season.cut(held, asked);
        out.say(format_args!("{all} {shared}"));
        say_period(out, parts.before);
        say_period(out, parts.between);
        say_period(out, parts.after)
    }
}

// Held are Mondays and Wednesdays from 7 to 27 April 2025. Asked are, in turn: Monday 14 April,
// from 14 to 20 April; Mondays from 5 to 20 April, a period that begins before the held one, while
// its dates do not; Mondays from 31 March on; Wednesday 23 April to the end, where of what stands
// behind 22 April the Wednesday alone was held; all that is held; and the Tuesdays of the season.
const CUTS: &[u8] = b"\
8 28 5 15 21 1|yes yes 8-14/5 15-21/4 22-28/5
8 28 5 6 21 1|yes yes - 8-21/4 22-28/5
8 28 5 1 21 1|no yes - 8-21/4 22-28/5
8 28 5 24 28 4|yes yes 8-23/5 - -
8 28 5 8 28 5|yes yes - - -
8 28 5 0 209 2|no no - 8-28/5 -
";

#[test]
fn seasons_and_their_dates(rt: HostRuntime) {
    let alloc = rt.alloc();
    let season = Season::read(b"S25").expect(&rt, "season");
    walk(&rt, alloc, &mut Seasons, SEASONS);
    walk(&rt, alloc, &mut Days, DAYS);
    walk(&rt, alloc, &mut Dates { season }, DATES);
    walk(&rt, alloc, &mut Cuts { season }, CUTS)
}

#[test]
fn a_declaration_is_copied(rt: HostRuntime) {
    let declaration = declaration(&rt, rt.alloc());
    let copy = declaration.copy(rt.alloc()).expect(&rt, "memory");
    has_its_windows(&rt, &copy);
}

/// Whether a declaration has the rule, and a window of an hour from 6:00 on each of 210 dates, and
/// the night.
fn has_its_windows(rt: &impl Abort, copy: &Declaration) {
    let rules = copy.rules.items();
    assert_eq!(rt; rules, [RULE].as_slice());
    assert!(rt; copy.step == 5, "a step of {}", copy.step);
    let windows = copy.season.count_windows(copy.step, &copy.night, rules);
    assert!(rt; windows == 211, "{windows} windows, not 211");
}

const RULE: Rule = Rule {
    kind: Kind::Arr,
    length: 60,
    from: 360,
    to: 360,
    days: 127,
    limit: 1,
};

const NIGHT: Night = Night {
    from: 1380,
    to: 300,
    limit: 2,
};

fn declaration(rt: &impl Abort, alloc: Global) -> Declaration {
    Declaration {
        airport: Station(*b"ABC"),
        season: Season::read(b"S25").expect(rt, "season"),
        step: 5,
        flex: 60,
        ground: 40,
        share: 50,
        refuse: None,
        night: Some(NIGHT),
        rules: RuleList::new(vec![in alloc; RULE].expect(rt, "memory")),
    }
}

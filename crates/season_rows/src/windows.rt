//! Windows and night quotas of worked declarations, against resources and limits written by hand.
//! S25 begins on Sunday 30 March 2025 and has 210 dates, so a line with one start a day has the
//! windows 0 to 209, one a day; day 0 is a Sunday and day 209 a Saturday. S01 has 217 dates, the
//! most, from Sunday 25 March to Saturday 27 October 2001.

ghost use Rattle.std.specs.Prelude.{ℕ, ◌≡◌, ◌≤◌};
ghost use Rattle.choice_problem.specs.Strips.{part_uses};
ghost use Rattle.season_days.specs.declared.season.TheConstants.{MOST_DATES};

use crate::lines::{check_found, halves, numbers, put_numbers};
use crate::seasons::declaration;
use capacity_windows::{Movement, Windows};
use choice_problem::Part;
use season_days::{Day, Kind, MINUTES_OF_DAY, Period};
use std::alloc::Global;
use std::process::Abort;

// Rows: a declaration's season and lines on a line with a stroke, and with a star where it is not
// the first; and below it questions, each with its answer. `arrivals` and `departures` give the
// resources that the movements of a stop use, each as often as it holds one: by a minute of the
// day, so many days after the dates of a period, its first and last day, and its weekdays as a set
// of bits. `arrival` and `departure` give the resources that hold one movement, by its day and
// minute, and `held` how many of a list of arrivals a resource holds. `window` numbers a line's
// window by line, day and start.
const ROWS: &str = "\
S25/CAP ARR 60 2330 2330 1234567 1
declared 210
limit 0 = 1
limit 210 = 0
window 0 209 0 = 209
held 0 0 1420 1 10 = 2
held 0 0 1420 1 30 = 1
arrival 1 10 = 0
arrivals 1420 0 0 3 127 = 0 1 2 3
arrivals 10 0 0 3 127 = 0 1 2
arrivals 30 0 0 3 127 =
arrivals 1409 0 0 3 127 =
arrivals 1420 0 0 14 96 = 0 6 7 13 14
arrivals 10 0 0 14 96 = 5 6 12 13
*S25/CAP DEP 60 0600 0600 1234567 0
limit 209 = 0
departures 390 1 209 209 127 =
departures 390 1 208 208 127 = 209
departures 390 1 206 209 127 = 207 208 209
departures 360 0 4 5 127 = 4 5
departures 419 0 4 5 127 = 4 5
departures 359 0 4 5 127 =
departures 420 0 4 5 127 =
arrivals 390 0 4 5 127 =
departures 390 0 5 4 127 =
*S25/CAP ARR 20 0620 0620 1234567 1
arrival 0 370 =
arrival 0 375 =
arrival 0 379 =
arrival 0 380 = 0
arrival 0 385 = 0
arrival 0 399 = 0
arrival 0 400 =
*S25/CAP ARR 60 2330 2330 67 1
limit 0 = 1
limit 1 = 0
limit 6 = 1
arrivals 1420 0 0 14 127 = 0 6 7 13 14
arrivals 10 0 0 14 127 = 0 6 7 13
arrivals 10 0 0 14 96 = 6 13
*S25/CAP TOT 1440 1200 1200 1234567 1
arrival 3 1430 = 3
departure 4 719 = 3
arrival 4 720 = 4
arrivals 700 0 0 3 127 = 0 1 2
departures 719 0 0 3 127 = 0 1 2
arrivals 720 0 0 3 127 = 0 1 2 3
departures 1439 0 0 3 127 = 0 1 2 3
arrivals 1430 0 0 1 127 = 0 1
departures 700 1 0 1 127 = 0 1
*S25/CAP ARR 60 0600 0610 1234567 1;CAP TOT 10 0700 0700 1234567 2;\
    CAP TOT 10 0800 0800 67 3;NIGHT 2300 0500 4
declared 1051 1050
starts 0 = 3
starts 1 = 1
starts 2 = 1
window 0 2 1 = 7
window 0 209 2 = 629
window 1 2 0 = 632
window 2 209 0 = 1049
window 0 2 3 =
window 2 210 0 =
limit 0 = 1
limit 7 = 1
limit 629 = 1
limit 630 = 2
limit 632 = 2
limit 840 = 3
limit 841 = 0
limit 1049 = 3
limit 1050 = 4
limit 1051 = 0
arrival 2 365 = 6 7
arrival 2 420 = 7 8 632
departure 2 420 = 632
departure 0 480 = 840
departure 2 480 =
departure 2 0 = 1050
arrival 210 420 =
arrivals 420 0 0 1 127 = 1 2 4 5 630 631
departures 420 0 0 1 127 = 630 631
departures 480 0 0 7 127 = 840 846 847
departures 480 1 208 209 127 = 1049
arrivals 1380 1 207 209 127 = 1050 1050
*S25/CAP TOT 10 0600 0600 1234567 1;CAP TOT 10 0700 0700 1234567 1;CAP TOT 10 0800 0800 1234567 1
declared 630
limit 0 = 1
limit 210 = 1
limit 420 = 1
arrivals 360 0 0 0 127 = 0
departures 420 0 0 0 127 = 210
arrivals 420 0 0 0 127 = 210
departures 480 0 0 0 127 = 420
*S25/CAP ARR 60 0600 0600 1234567 1;NIGHT 2300 0500 2
declared 211 210
limit 210 = 2
held 210 0 1410 0 1410 0 1410 = 3
held 210 0 1410 6 285 = 2
held 210 0 1410 6 300 = 1
departures 1379 0 0 1 127 =
departures 1380 0 0 1 127 = 210 210
departures 0 0 0 2 127 = 210 210 210
departures 299 0 0 6 96 = 210 210
departures 300 0 0 1 127 =
departures 1410 1 206 209 127 = 210 210 210
*S01/CAP ARR 60 2330 2330 1234567 1
declared 217
window 0 216 0 = 216
limit 216 = 1
limit 217 = 0
held 216 216 1420 = 1
arrivals 1420 0 213 216 127 = 213 214 215 216
arrivals 10 0 213 216 127 = 212 213 214 215
arrivals 1420 1 213 216 127 = 214 215 216
arrivals 10 1 216 216 127 =
arrivals 1420 0 209 216 96 = 209 210 216
arrivals 10 0 209 216 96 = 208 209 215";

#[test]
fn windows_and_uses_are_as_worked(rt: HostRuntime) {
    for season in ROWS.split('*') {
        check_season(&rt, rt.alloc(), season);
    }
}

fn check_season(rt: &impl Abort, alloc: Global, rows: &str) {
    let (first, questions) = halves(rows, '\n');
    let (season, rules) = halves(first, '/');
    let windows = declared(rt, alloc, season, rules);
    check_questions(rt, alloc, &windows, questions);
}

fn check_questions(rt: &impl Abort, alloc: Global, windows: &Windows, questions: &str) {
    for row in questions.lines() {
        check_question(rt, alloc, windows, row);
    }
}

fn check_question(rt: &impl Abort, alloc: Global, windows: &Windows, row: &str) {
    let (question, _) = row.split_once(" =").unwrap_or((row, ""));
    let found = answer(rt, alloc, windows, question);
    check_found(rt, row, found.as_str(), row);
}

// The windows of a declaration in a season, with these lines.
fn declared(rt: &impl Abort, alloc: Global, season: &str, rules: &str) -> Windows {
    let capacity = format!(in alloc; "FLEX 60;REFUSE NONE;{rules}").expect(rt, "memory");
    let declaration = declaration(rt, alloc, season, capacity.as_str());
    let windows = Windows::new(alloc, &declaration).expect(rt, "memory");
    windows.copy(alloc).expect(rt, "memory")
}

// A question with its answer.
fn answer(rt: &impl Abort, alloc: Global, windows: &Windows, question: &str) -> String {
    let (word, rest) = halves(question, ' ');
    let mut text = String::new(alloc);
    if word == "declared" {
        put_sizes(rt, &mut text, windows);
        return text;
    }
    write!(text, "{question} =").expect(rt, "memory");
    let asked = numbers(rt, alloc, rest);
    put_found(rt, alloc, &mut text, windows, word, &asked);
    text
}

fn put_found(
    rt: &impl Abort,
    alloc: Global,
    text: &mut String,
    windows: &Windows,
    word: &str,
    asked: &[u32],
) {
    match word {
        "arrival" => put_holders(rt, alloc, text, windows, Kind::Arr, asked),
        "departure" => put_holders(rt, alloc, text, windows, Kind::Dep, asked),
        "arrivals" => put_used(rt, alloc, text, windows, Kind::Arr, asked),
        "departures" => put_used(rt, alloc, text, windows, Kind::Dep, asked),
        _ => {
            if let Some(number) = one_number(rt, alloc, windows, word, asked) {
                put_numbers(rt, text, &[number]);
            }
        }
    }
}

fn one_number(
    rt: &impl Abort,
    alloc: Global,
    windows: &Windows,
    word: &str,
    asked: &[u32],
) -> Option<u32> {
    match word {
        "limit" => Some(limit(rt, alloc, windows, asked)),
        "starts" => starts(windows, asked),
        "window" => window(rt, windows, asked),
        "held" => Some(held(rt, alloc, windows, asked)),
        _ => panic!(rt; "no question is {word}"),
    }
}

// The number of resources, and that of the quota.
fn put_sizes(rt: &impl Abort, text: &mut String, windows: &Windows) {
    write!(text, "declared {}", windows.resources()).expect(rt, "memory");
    if let Some(night) = windows.night() {
        put_numbers(rt, text, &[night]);
    }
}

// The limit of a resource, which is also that of the list of all limits.
fn limit(rt: &impl Abort, alloc: Global, windows: &Windows, asked: &[u32]) -> u32 {
    let [resource] = asked else {
        panic!(rt; "a resource is asked for")
    };
    let limit = windows.limit(*resource);
    let limits = windows.limits(alloc).expect(rt, "memory");
    let listed = limits.get(*resource as usize).copied().unwrap_or(0);
    assert!(rt;
        listed == limit,
        "resource {resource} is listed with {listed}, not {limit}"
    );
    limit
}

// How many windows of a line begin on a day.
fn starts(windows: &Windows, asked: &[u32]) -> Option<u32> {
    match asked {
        [line] if *line < windows.lines() => Some(windows.starts(*line)),
        _ => None,
    }
}

// The number of a window, if there is one.
fn window(rt: &impl Abort, windows: &Windows, asked: &[u32]) -> Option<u32> {
    let [line, day, start] = asked else {
        panic!(rt; "a window is asked for")
    };
    let (line, day, start) = (*line, *day, *start);
    if line >= windows.lines() {
        return None;
    }
    if day >= windows.days() || start >= windows.starts(line) {
        return None;
    }
    Some(windows.resource_of(line, Day(day), start))
}

// How many of a list of arrivals a resource holds.
fn held(rt: &impl Abort, alloc: Global, windows: &Windows, asked: &[u32]) -> u32 {
    let (resource, rest) = asked.split_first().expect(rt, "a resource");
    let list = arrivals(rt, alloc, rest);
    assert!(rt; list.len() <= 9, "too many arrivals");
    windows.count_listed(&list, *resource)
}

// The arrivals on these days, at these minutes.
fn arrivals(rt: &impl Abort, alloc: Global, numbers: &[u32]) -> Vec<Movement> {
    let mut list = Vec::new(alloc);
    for pair in numbers.chunks_exact(2) {
        if let [day, minute] = pair {
            list.push(movement(Kind::Arr, *day, *minute))
                .expect(rt, "memory");
        }
    }
    list
}

fn movement(kind: Kind, day: u32, minute: u32) -> Movement
    ensures { result.minute ≡ minute }
{
    Movement { kind, day, minute }
}

// The resources that hold a movement.
fn put_holders(
    rt: &impl Abort,
    alloc: Global,
    text: &mut String,
    windows: &Windows,
    kind: Kind,
    asked: &[u32],
) {
    let [day, minute] = asked else {
        panic!(rt; "a movement is asked for")
    };
    let minute = *minute;
    assert!(rt; minute < MINUTES_OF_DAY, "{minute} is no minute");
    let holders = windows
        .uses_of(alloc, movement(kind, *day, minute))
        .expect(rt, "memory");
    put_numbers(rt, text, &holders);
}

// The resources that a stop uses, in rising order, each as often as it does.
fn put_used(
    rt: &impl Abort,
    alloc: Global,
    text: &mut String,
    windows: &Windows,
    kind: Kind,
    asked: &[u32],
) {
    let part = part_of(rt, alloc, windows, kind, asked);
    put_uses(rt, text, &part, windows.resources());
}

// The part that a stop is.
fn part_of(rt: &impl Abort, alloc: Global, windows: &Windows, kind: Kind, asked: &[u32]) -> Part
    ensures { (r : ℕ) → part_uses result r ≤ MOST_DATES }
{
    let [minute, later, first, last, days] = asked else {
        panic!(rt; "a stop is asked for")
    };
    let (minute, later, first, last) = (*minute, *later, *first, *last);
    let dates = windows.days();
    assert!(rt; minute < MINUTES_OF_DAY, "{minute} is no minute");
    assert!(rt;
        first < dates && last < dates,
        "{first} or {last} is no date"
    );
    let period = Period {
        first: Day(first),
        last: Day(last),
        days: (*days % 128) as u8,
    };
    windows
        .strips_of(alloc, kind, minute, later, period)
        .expect(rt, "memory")
}

fn put_uses(rt: &impl Abort, text: &mut String, part: &Part, resources: u32)
    requires { (r : ℕ) → part_uses part.now r ≤ MOST_DATES }
{
    for resource in 0..resources {
        put_times(rt, text, resource, part.uses(resource));
    }
}

// Adds a number so many times.
fn put_times(rt: &impl Abort, text: &mut String, number: u32, times: u32) {
    for _ in 0..times {
        put_numbers(rt, text, &[number]);
    }
}

//! Units, alternatives, movements and costs of worked submissions, and what makes none, against
//! answers written by hand. S25 begins on Sunday 30 March 2025 and has 210 dates, and S01 has 217.

ghost use Rattle.std.specs.Prelude.{IfSome};
ghost use Rattle.series_model.specs.Units.{UnitFits};

use crate::lines::{check_found, halves, last_halves};
use crate::seasons::made;
use capacity_windows::Movement;
use season_days::Kind;
use series_model::{
    Group, ModelFault, Submission, Times, Unit, displacement, movements_of, options_of,
};
use std::alloc::Global;
use std::process::Abort;

// Rows: what is asked, the season, lines of its capacity file below the ground time, the lines of
// its message below the header, or all lines, and the answer; strokes stand between these, and
// semicolons between lines. `options` are the alternatives of the first unit with their costs, and
// `totals` their number, the first and the last of them, and the sums of their minutes and costs.
// `movements` are those of its last alternative. `units` are lines and groups, or why there are
// none, and `parts` the flexibility, the price, and how many resources, messages and units there
// are.
const ROWS: &str = "\
options|S25|FLEX 60;REFUSE NONE|NBA002 30MAR25OCT 1234567 180320 JFK0630 J|330-0:12600 \
    335-0:11550 340-0:10500 345-0:9450 350-0:8400 355-0:7350 360-0:6300 365-0:5250 370-0:4200 \
    375-0:3150 380-0:2100 385-0:1050 390-0:0 395-0:1050 400-0:2100 405-0:3150 410-0:4200 \
    415-0:5250 420-0:6300 425-0:7350 430-0:8400 435-0:9450 440-0:10500 445-0:11550 450-0:12600
options|S25|FLEX 25;REFUSE 20|NBA002 30MAR25OCT 1234567 180320 JFK0630 J|365-0:5250 370-0:4200 \
    375-0:3150 380-0:2100 385-0:1050 390-0:0 395-0:1050 400-0:2100 405-0:3150 410-0:4200 \
    415-0:5250 refused:4200
options|S25|FLEX 60;REFUSE NONE|BBA002 05APR 6 180320 JFK2350 J|1370-0:60 1375-0:55 1380-0:50 \
    1385-0:45 1390-0:40 1395-0:35 1400-0:30 1405-0:25 1410-0:20 1415-0:15 1420-0:10 1425-0:5 \
    1430-0:0 1435-0:5
options|S25|FLEX 0;REFUSE 10|NBA002 BA003 30MAR 7 180320 JFK0600 0700JFK JJ|360-420:0 refused:20
totals|S25|FLEX 60;REFUSE NONE|NBA002 BA003 30MAR25OCT 1234567 180320 JFK0630 0715JFK JJ|349 \
    330-375:25200 450-495:25200 129670 158255 4561200
options|S25|FLEX 60;REFUSE NONE|CBA001 BA002 30MAR 7 180320 JFK2200 06301JFK JJ;RBA001 BA002 \
    30MAR 7 180320 JFK2200 2300JFK JJ|1320-1380:0 1320-1385:5 1320-1390:10 1320-1395:15 \
    1320-1400:20 1320-1405:25 1320-1410:30 1320-1415:35 1320-1420:40 1320-1425:45 1320-1430:50 \
    1320-1435:55 1320-1830:450
options|S25|FLEX 60;REFUSE NONE|CBA002 30MAR 7 180320 JFK0610 J;LBA002 30MAR 7 180320 JFK0610 \
    J|370-0:0
options|S01|FLEX 30;REFUSE 20|NBA002 25MAR27OCT 1234567 180320 JFK0630 J|360-0:6510 365-0:5425 \
    370-0:4340 375-0:3255 380-0:2170 385-0:1085 390-0:0 395-0:1085 400-0:2170 405-0:3255 \
    410-0:4340 415-0:5425 420-0:6510 refused:4340
options|S25|FLEX 5;REFUSE NONE|NBA002 01APR20APR 135 180320 JFK0630 J|385-0:40 390-0:0 395-0:40
options|S25|FLEX 60;REFUSE NONE|NBA002 05APR 6 180320 JFK0445 J|225-0:60 230-0:55 235-0:50 \
    240-0:45 245-0:40 250-0:35 255-0:30 260-0:25 265-0:20 270-0:15 275-0:10 280-0:5 285-0:0 \
    290-0:5 295-0:10 300-0:15 305-0:20 310-0:25 315-0:30 320-0:35 325-0:40 330-0:45 335-0:50 \
    340-0:55 345-0:60
options|S25|FLEX 60;REFUSE 20|FBA001 30MAR25OCT 1234567 180320 JFK0610 J|370-0:0
options|S25|FLEX 60;REFUSE 20|CBA002 30MAR25OCT 1234567 180320 JFK0610 J;LBA002 30MAR25OCT \
    1234567 180320 JFK0630 J|390-0:0 370-0:4200
options|S25|FLEX 60;REFUSE 20|CBA002 30MAR 7 180320 JFK0610 J;RBA002 30MAR 7 180320 JFK0630 \
    J|370-0:20 375-0:15 380-0:10 385-0:5 390-0:0
options|S25|FLEX 10;REFUSE NONE|CBA002 30MAR 7 180320 JFK0610 J;RBA002 30MAR 7 180320 JFK0630 \
    J|380-0:10 385-0:5 390-0:0 370-0:20
movements|S25|FLEX 0;REFUSE NONE|CBA001 BA002 30MAR 7 180320 JFK2200 06301JFK JJ;RBA001 BA002 \
    30MAR 7 180320 JFK2200 2300JFK JJ|A0:1320 D1:390
movements|S25|FLEX 0;REFUSE NONE|FBA001 BA002 30MAR06APR 7 180320 JFK2200 06301JFK JJ|A0:1320 \
    D1:390 A7:1320 D8:390
movements|S25|FLEX 0;REFUSE NONE|FBA001 BA002 24OCT25OCT 56 180320 JFK2200 06301JFK \
    JJ|A208:1320 D209:390 A209:1320
movements|S25|FLEX 0;REFUSE NONE|F BA002 31MAR 1 180320 0010JFK J|D1:10
units|S25|FLEX 0;REFUSE NONE|CBA002 30MAR 7 180320 JFK0610 J;RBA002 30MAR 7 180320 JFK0630 \
    J;NBA003 30MAR 7 180320 JFK0610 J|5R 7N
parts|S25|FLEX 60;REFUSE 20|FBA001 30MAR 7 180320 JFK0610 J|60 20 0 1 1
units|S25|FLEX 0;REFUSE NONE|SCR;/ABC;S25;20NOV;XYZ;QBA001|OtherAirport 5
units|S25|FLEX 0;REFUSE NONE|SCR;S25;20NOV;ABC;QBA001|NotInitial 5
units|S25|FLEX 0;REFUSE NONE|SCR;S25;20NOV;ABC;FBA001 30MAR 7 180320 JFK0610 J;DBA001 30MAR 7 \
    180320 JFK0610 J|NotInitial 6
units|S25|FLEX 0;REFUSE NONE|SCR;S25;20NOV;ABC;;SCR;S26;20NOV;XYZ;QBA001|OtherSeason 7
units|S25|FLEX 0;REFUSE NONE|SCR;S25;20NOV;ABC;QBA001;;SCR;S26;20NOV;XYZ;QBA001|NotInitial 5
units|S25|FLEX 0;REFUSE NONE|SCR;S25;20NOV;ABC;ZBA001 30MAR 7 180320 JFK0610 J|NotInitial 5
units|S25|FLEX 0;REFUSE NONE|SCR;S25;20NOV;ABC;ABA001 30MAR 7 180320 JFK0610 J|NotInitial 5";

#[test]
fn units_are_as_worked(rt: HostRuntime) {
    for row in ROWS.split('\n') {
        check_row(&rt, rt.alloc(), row);
    }
}

fn check_row(rt: &impl Abort, alloc: Global, row: &str) {
    let (question, want) = last_halves(row, '|');
    let found = answer(rt, alloc, question);
    check_found(rt, row, found.as_str(), want);
}

fn answer(rt: &impl Abort, alloc: Global, question: &str) -> String {
    let (word, rest) = halves(question, '|');
    let (season, rest) = halves(rest, '|');
    let (capacity, messages) = halves(rest, '|');
    match made(rt, alloc, season, capacity, messages) {
        Ok(submission) => answer_of(rt, alloc, &submission, word),
        Err(fault) => refusal(rt, alloc, fault),
    }
}

fn answer_of(rt: &impl Abort, alloc: Global, submission: &Submission, word: &str) -> String {
    let mut text = String::new(alloc);
    match word {
        "units" => put_units(rt, &mut text, submission),
        "parts" => put_parts(rt, &mut text, submission),
        _ => put_of_unit(rt, alloc, &mut text, submission, word),
    }
    text
}

fn put_of_unit(
    rt: &impl Abort,
    alloc: Global,
    text: &mut String,
    submission: &Submission,
    word: &str,
) {
    let unit = first_unit(submission).expect(rt, "a unit");
    let options = options_of(alloc, unit, submission.declaration()).expect(rt, "memory");
    put_asked(rt, alloc, text, submission, unit, &options, word);
}

fn put_asked(
    rt: &impl Abort,
    alloc: Global,
    text: &mut String,
    submission: &Submission,
    unit: &Unit,
    options: &[Times],
    word: &str,
)
    requires { UnitFits submission.now.declaration.season unit.now }
{
    match word {
        "options" => put_options(rt, text, submission, unit, options),
        "totals" => put_totals(rt, text, submission, unit, options),
        "movements" => put_moved(rt, alloc, text, submission, unit, options),
        _ => panic!(rt; "no question is {word}"),
    }
}

fn first_unit(submission: &Submission) -> Option<&Unit>
    ensures { IfSome result (λ unit. UnitFits submission.now.declaration.season unit.now) }
{
    match submission.units() {
        [unit, ..] => Some(unit),
        [] => None,
    }
}

// Adds a blank where there is text.
fn put_gap(rt: &impl Abort, text: &mut String) {
    if !text.is_empty() {
        text.push(' ').expect(rt, "memory");
    }
}

fn put_units(rt: &impl Abort, text: &mut String, submission: &Submission) {
    for unit in submission.units() {
        let line = unit.line;
        let group = match unit.group {
            Group::F => 'F',
            Group::R => 'R',
            Group::L => 'L',
            Group::B => 'B',
            Group::N => 'N',
        };
        put_gap(rt, text);
        write!(text, "{line}{group}").expect(rt, "memory");
    }
}

fn refusal(rt: &impl Abort, alloc: Global, fault: ModelFault) -> String {
    match fault {
        ModelFault::OtherSeason { line } => numbered(rt, alloc, "OtherSeason", line),
        ModelFault::OtherAirport { line } => numbered(rt, alloc, "OtherAirport", line),
        ModelFault::NotInitial { line } => numbered(rt, alloc, "NotInitial", line),
        ModelFault::TooMany { units } => numbered(rt, alloc, "TooMany", units),
        ModelFault::Memory => panic!(rt; "memory"),
    }
}

fn numbered(rt: &impl Abort, alloc: Global, word: &str, number: u32) -> String {
    format!(in alloc; "{word} {number}").expect(rt, "memory")
}

fn put_parts(rt: &impl Abort, text: &mut String, submission: &Submission) {
    let declaration = submission.declaration();
    let (flex, price) = (declaration.flex, declaration.refuse.unwrap_or(0));
    let resources = submission.windows().resources();
    let messages = submission.messages().items().len();
    let units = submission.units().len();
    write!(text, "{flex} {price} {resources} {messages} {units}").expect(rt, "memory");
}

// Adds an alternative and its cost.
fn put_option(
    rt: &impl Abort,
    text: &mut String,
    submission: &Submission,
    unit: &Unit,
    times: Times,
)
    requires { UnitFits submission.now.declaration.season unit.now }
{
    let cost = displacement(unit, times, submission.declaration());
    put_gap(rt, text);
    put_times(rt, text, times);
    write!(text, ":{cost}").expect(rt, "memory");
}

fn put_times(rt: &impl Abort, text: &mut String, times: Times) {
    match times {
        Times::At { arrival, departure } => {
            write!(text, "{arrival}-{departure}").expect(rt, "memory")
        }
        Times::Refused => text.push_str("refused").expect(rt, "memory"),
    }
}

fn put_options(
    rt: &impl Abort,
    text: &mut String,
    submission: &Submission,
    unit: &Unit,
    options: &[Times],
)
    requires { UnitFits submission.now.declaration.season unit.now }
{
    for times in options {
        put_option(rt, text, submission, unit, *times);
    }
}

// Adds how many alternatives there are, the first and the last one, and their sums.
fn put_totals(
    rt: &impl Abort,
    text: &mut String,
    submission: &Submission,
    unit: &Unit,
    options: &[Times],
)
    requires { UnitFits submission.now.declaration.season unit.now }
{
    let (arrivals, departures) = sums(options);
    let costs = all_costs(submission, unit, options);
    write!(text, "{}", options.len()).expect(rt, "memory");
    put_ends(rt, text, submission, unit, options);
    write!(text, " {arrivals} {departures} {costs}").expect(rt, "memory");
}

fn put_ends(
    rt: &impl Abort,
    text: &mut String,
    submission: &Submission,
    unit: &Unit,
    options: &[Times],
)
    requires { UnitFits submission.now.declaration.season unit.now }
{
    let first = options.first().copied().expect(rt, "a first alternative");
    let last = options.last().copied().expect(rt, "a last alternative");
    put_option(rt, text, submission, unit, first);
    put_option(rt, text, submission, unit, last);
}

// The sums of the minutes of alternatives.
fn sums(options: &[Times]) -> (u32, u32) {
    let mut sums = (0_u32, 0_u32);
    for times in options {
        if let Times::At { arrival, departure } = *times {
            sums.0 = sums.0.wrapping_add(arrival);
            sums.1 = sums.1.wrapping_add(departure);
        }
    }
    sums
}

// The sum of the costs of alternatives.
fn all_costs(submission: &Submission, unit: &Unit, options: &[Times]) -> u64
    requires { UnitFits submission.now.declaration.season unit.now }
{
    let mut costs = 0_u64;
    for times in options {
        costs = costs.wrapping_add(displacement(unit, *times, submission.declaration()));
    }
    costs
}

// Adds the movements at the last alternative.
fn put_moved(
    rt: &impl Abort,
    alloc: Global,
    text: &mut String,
    submission: &Submission,
    unit: &Unit,
    options: &[Times],
)
    requires { UnitFits submission.now.declaration.season unit.now }
{
    let season = &submission.declaration().season;
    let times = options.last().copied().expect(rt, "an alternative");
    let movements = movements_of(alloc, unit, times, season).expect(rt, "memory");
    put_movements(rt, text, &movements);
}

fn put_movements(rt: &impl Abort, text: &mut String, movements: &[Movement]) {
    for movement in movements {
        let Movement { kind, day, minute } = *movement;
        let letter = if kind == Kind::Arr { 'A' } else { 'D' };
        put_gap(rt, text);
        write!(text, "{letter}{day}:{minute}").expect(rt, "memory");
    }
}

// 4,096 units and no more; a line that makes no unit is told first.
#[test]
fn submissions_have_few_units(rt: HostRuntime) {
    for (count, last, want) in [
        (4_095, "F", ""),
        (4_096, "F", "TooMany 4097"),
        (4_097, "D", "NotInitial 4102"),
    ] {
        let found = many(&rt, rt.alloc(), count, last);
        assert_eq!(rt; found.as_str(), want, "{count}");
    }
}

// Why so many historic lines and one with another code are no submission.
fn many(rt: &impl Abort, alloc: Global, count: u32, last: &str) -> String {
    let lines = lines_of(rt, alloc, count, last);
    match made(rt, alloc, "S25", "FLEX 0;REFUSE NONE", lines.as_str()) {
        Ok(_) => String::new(alloc),
        Err(fault) => refusal(rt, alloc, fault),
    }
}

// So many historic lines, and one with another code.
fn lines_of(rt: &impl Abort, alloc: Global, count: u32, last: &str) -> String {
    let line = "BA001 30MAR 7 180320 JFK0610 J";
    let mut text = String::new(alloc);
    for _ in 0..count {
        write!(text, "F{line};").expect(rt, "memory");
    }
    write!(text, "{last}{line}").expect(rt, "memory");
    text
}

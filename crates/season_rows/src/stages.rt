//! The stages of worked seasons, against choices, costs, units and limits worked by hand. S25 has
//! 210 dates, and the capacity line has one window a date, the resources 0 to 209; a night quota is
//! resource 210.

ghost use Rattle.std.specs.Prelude.{◌≤◌, length};

use crate::lines::{check_found, halves, last_halves, numbers, put_numbers};
use crate::seasons::submission;
use choice_problem::{Choice, Problem, cost_of, fits};
use series_model::Submission;
use std::alloc::Global;
use std::process::Abort;
use wasg_stages::{Earlier, stage_problem, units_of_stage};

// Rows: the lines of a capacity file below the ground time and those of a message below its header,
// with semicolons between, and a star before them where they are not the first; and below these
// questions, each with its answer. A question has a stage,
// the choices of the stages before it with commas between, and then a choice of the stage, which
// fits its limits or is over them, and its cost; or a resource, for the positions of the stage's
// units and its limit there; or a unit, for the numbers of its alternatives and of its parts.
//
// Neither of two in one window fits beside the other, and each unit has one alternative. A historic
// series keeps its times, at 20 minutes on each of 210 dates. Half of three, rounded up, is two: of
// four entrants two are refused, at 10 each, and stand again for the one that is left; where stage
// 3 has no allotment all do. A night quota of two does not hold three. Where the one movement of a
// quota is used, the request at 0445 has 0500, which is number 15 of those from 0345 to 0545. Pairs
// of 25 arrivals and 25 departures share 50 parts; 13 pairs of one arrival and 13 departures share
// 14.
const ROWS: &str = "\
FLEX 60;REFUSE NONE;CAP ARR 60 0600 0600 1234567 1|FBA001 30MAR25OCT 1234567 180320 JFK0610 \
    J;FBA002 30MAR25OCT 1234567 180320 JFK0620 J
choice 1|start|0 0|over 0
choice 1|start|0|none
choice 1|start|0 1|none
choice 4|start||fits 0
*FLEX 60;REFUSE NONE;CAP ARR 20 0620 0620 1234567 1|FBA001 30MAR25OCT 1234567 180320 JFK0625 \
    J;CBA002 30MAR25OCT 1234567 180320 JFK0610 J;LBA002 30MAR25OCT 1234567 180320 JFK0630 J
choice 2|0|0|over 0
choice 2|0|1|fits 4200
choice 2|0|2|none
choice 2|none|0|fits 0
limit 2|0|0|1: 0
limit 2|none|0|1: 1
*FLEX 0;REFUSE 10;CAP ARR 60 0600 0600 1234567 3|BBA001 30MAR 7 180320 JFK0610 J;BBA002 30MAR 7 \
    180320 JFK0610 J;BBA003 30MAR 7 180320 JFK0610 J;BBA004 30MAR 7 180320 JFK0610 J
choice 3|,|0 0 1 1|fits 20
choice 3|,|0 0 0 1|over 10
choice 4|,,0 1 0 1|0 1|fits 10
choice 4|,,0 1 0 1|0 0|over 0
choice 4|,,none|0 0 0 1|fits 10
limit 3|,|0|0 1 2 3: 2
limit 4|,,0 1 0 1|0|1 3: 1
limit 4|,,0 1 0 1|1|1 3: 3
limit 4|,,none|0|0 1 2 3: 3
*FLEX 60;REFUSE NONE;CAP ARR 60 0600 0600 1234567 1;NIGHT 2300 0500 2|FBA001 30MAR 7 180320 \
    JFK2330 J;FBA002 30MAR 7 180320 JFK2330 J;FBA003 30MAR 7 180320 JFK2330 J
choice 1|start|0 0 0|over 0
limit 1|start|210|0 1 2: 2
limit 3|start|210|: 1
limit 4|start|210|: 2
*FLEX 60;REFUSE NONE;CAP ARR 60 0600 0600 1234567 1;NIGHT 2300 0500 1|FBA001 30MAR 7 180320 \
    JFK2330 J;NBA002 05APR 6 180320 JFK0445 J
choice 4|0,,|15|fits 15
choice 4|0,,|14|over 10
choice 4|0,,|12|over 0
choice 4|0,,|25|none
choice 4|none|12|fits 0
limit 4|0,,|210|1: 0
limit 4|0,,|211|1: none
*FLEX 60;REFUSE NONE|NBA002 BA003 30MAR25OCT 1234567 180320 JFK0630 0715JFK JJ
parts 4|start|0|349 50
*FLEX 60;REFUSE NONE|CBA001 BA002 30MAR 7 180320 JFK2200 06301JFK JJ;RBA001 BA002 30MAR 7 180320 \
    JFK2200 2300JFK JJ
parts 2|start|0|13 14";

#[test]
fn stages_are_as_worked(rt: HostRuntime) {
    for season in ROWS.split('*') {
        check_season(&rt, rt.alloc(), season);
    }
}

fn check_season(rt: &impl Abort, alloc: Global, rows: &str) {
    let (season, questions) = halves(rows, '\n');
    let (capacity, messages) = halves(season, '|');
    let submission = submission(rt, alloc, capacity, messages);
    check_questions(rt, alloc, &submission, questions);
}

fn check_questions(rt: &impl Abort, alloc: Global, submission: &Submission, questions: &str) {
    for row in questions.lines() {
        check_question(rt, alloc, submission, row);
    }
}

fn check_question(rt: &impl Abort, alloc: Global, submission: &Submission, row: &str) {
    let (question, want) = last_halves(row, '|');
    let found = answer(rt, alloc, submission, question);
    check_found(rt, row, found.as_str(), want);
}

fn answer(rt: &impl Abort, alloc: Global, submission: &Submission, question: &str) -> String {
    let (word, rest) = halves(question, ' ');
    let (stage, rest) = halves(rest, '|');
    let (before, asked) = halves(rest, '|');
    let stage = stage.parse::<u32>().expect(rt, "a stage");
    let earlier = earlier(rt, alloc, before);
    answer_after(rt, alloc, submission, stage, &earlier, word, asked)
}

// The choices of the stages before one.
fn earlier(rt: &impl Abort, alloc: Global, text: &str) -> Earlier
    ensures { length result ≤ 3 }
{
    let mut choices = Vec::new(alloc);
    if text != "start" {
        put_choices(rt, alloc, &mut choices, text);
    }
    assert!(rt; choices.len() <= 3, "too many choices");
    Earlier::new(choices)
}

fn put_choices(rt: &impl Abort, alloc: Global, choices: &mut Vec<Option<Choice>>, text: &str) {
    for word in text.split(',') {
        let choice = read_choice(rt, alloc, word);
        choices.push(choice).expect(rt, "memory");
    }
}

fn read_choice(rt: &impl Abort, alloc: Global, word: &str) -> Option<Choice> {
    if word == "none" {
        return None;
    }
    Some(Choice::new(numbers(rt, alloc, word)))
}

fn answer_after(
    rt: &impl Abort,
    alloc: Global,
    submission: &Submission,
    stage: u32,
    earlier: &Earlier,
    word: &str,
    asked: &str,
) -> String
    requires { length earlier.now ≤ 3 }
{
    let problem = stage_problem(alloc, submission, stage, earlier).expect(rt, "memory");
    if word == "limit" {
        return limit(rt, alloc, submission, stage, earlier, &problem, asked);
    }
    of_problem(rt, alloc, &problem, word, asked)
}

fn of_problem(
    rt: &impl Abort,
    alloc: Global,
    problem: &Problem,
    word: &str,
    asked: &str,
) -> String {
    match word {
        "choice" => judged(rt, alloc, problem, asked),
        "parts" => parts(rt, alloc, problem, asked),
        _ => panic!(rt; "no question is {word}"),
    }
}

// Whether a choice of a problem fits, and what it costs; none where it is no choice of it.
fn judged(rt: &impl Abort, alloc: Global, problem: &Problem, asked: &str) -> String {
    let choice = Choice::new(numbers(rt, alloc, asked));
    judged_choice(rt, alloc, problem, &choice)
}

fn judged_choice(rt: &impl Abort, alloc: Global, problem: &Problem, choice: &Choice) -> String {
    if !choice.is_for(problem) {
        return String::from_str(alloc, "none").expect(rt, "memory");
    }
    let cost = cost_of(problem, choice);
    if fits(alloc, problem, choice).expect(rt, "memory") {
        return format!(in alloc; "fits {cost}").expect(rt, "memory");
    }
    format!(in alloc; "over {cost}").expect(rt, "memory")
}

// Positions of units, and the limit of a resource, if there is such a one.
fn limit(
    rt: &impl Abort,
    alloc: Global,
    submission: &Submission,
    stage: u32,
    earlier: &Earlier,
    problem: &Problem,
    asked: &str,
) -> String
    requires { length earlier.now ≤ 3 }
{
    let units = units_of_stage(alloc, submission, stage, earlier).expect(rt, "memory");
    let mut text = String::new(alloc);
    put_numbers(rt, &mut text, &units);
    limit_text(rt, alloc, problem, text.trim(), asked)
}

fn limit_text(
    rt: &impl Abort,
    alloc: Global,
    problem: &Problem,
    units: &str,
    asked: &str,
) -> String {
    let resource = asked.parse::<u32>().expect(rt, "a resource");
    if resource < problem.resources() {
        let limit = problem.limit(resource);
        return format!(in alloc; "{units}: {limit}").expect(rt, "memory");
    }
    format!(in alloc; "{units}: none").expect(rt, "memory")
}

// How many alternatives and parts a unit has.
fn parts(rt: &impl Abort, alloc: Global, problem: &Problem, asked: &str) -> String {
    let unit = asked.parse::<u32>().expect(rt, "a unit");
    assert!(rt; unit < problem.units(), "{unit} is no unit");
    let (alts, parts) = (problem.alts(unit), problem.parts(unit));
    format!(in alloc; "{alts} {parts}").expect(rt, "memory")
}

//! Generated seasons. The states of the generator, the minutes and the sizes are worked by hand: an
//! arrival's line has 44 bytes with its LF, a turnaround's 60, and the header 18.

ghost use Rattle.std.specs.Prelude.{◌≤◌, length};
ghost use Rattle.season_days.specs.Capacity.{IsDeclaration};

use crate::rows::{Case, Finding, number, walk};
use capacity_file::read_capacity;
use choice_problem::MOST_UNITS;
use scr_reader::laws::read_lines_fit;
use scr_reader::read_all;
use season_days::Declaration;
use season_maker::make_season;
use series_model::Submission;
use series_model::laws::read_messages;
use slot_text::Lines;
use std::alloc::Global;
use std::process::Abort;

/// The files of a season.
#[derive(Drop)]
struct Files {
    capacity: Vec<u8>,
    requests: Vec<u8>,
}

/// The files of the season of a number and so many units, which are the first two fields.
fn make(rt: &impl Abort, alloc: Global, given: &[u8]) -> Files {
    let (season, units) = (number(rt, given, 1), number(rt, given, 2));
    assert!(rt; units <= MOST_UNITS, "more units than a season may have");
    let (capacity, requests) = make_season(alloc, season, units).expect(rt, "memory");
    Files { capacity, requests }
}

/// The line of a number, counted from 1.
fn line_of(text: &[u8], line: u32) -> &[u8] {
    let mut lines = Lines::new(text);
    for _ in 1..line {
        lines.next_line();
    }
    lines.next_line().unwrap_or(b"-")
}

/// The whole capacity file.
#[derive(Drop)]
struct Capacities;

impl Case for Capacities {
    fn find(&mut self, rt: &impl Abort, given: &[u8], out: &mut Finding) {
        let files = make(rt, out.alloc, given);
        out.put(&files.capacity);
    }
}

#[test]
fn capacity_files(rt: HostRuntime) {
    walk(
        &rt,
        rt.alloc(),
        &mut Capacities,
        b"1 1|AIRPORT ABC;SEASON S25;STEP 5;FLEX 30;GROUND 40;REFUSE 60;CAP ARR 60 0600 2200 1234567 5;
1 192|AIRPORT ABC;SEASON S25;STEP 5;FLEX 30;GROUND 40;REFUSE 60;CAP ARR 60 0600 2200 1234567 5;
9 193|AIRPORT ABC;SEASON S25;STEP 5;FLEX 30;GROUND 40;REFUSE 60;CAP ARR 60 0600 2200 1234567 8;
1 385|AIRPORT ABC;SEASON S25;STEP 5;FLEX 30;GROUND 40;REFUSE 60;CAP ARR 60 0600 2200 1234567 11;
65536 4096|AIRPORT ABC;SEASON S25;STEP 5;FLEX 30;GROUND 40;REFUSE 60;CAP ARR 60 0600 2200 1234567 68;",
    )
}

/// One line of the requests, whose number is the third field.
#[derive(Drop)]
struct RequestLines;

impl Case for RequestLines {
    fn find(&mut self, rt: &impl Abort, given: &[u8], out: &mut Finding) {
        let files = make(rt, out.alloc, given);
        let line = line_of(&files.requests, number(rt, given, 3));
        out.put(line);
    }
}

// Number 1 has the states 149, 11249, 57305 and 38044; number 0, and 65,537 too, has 74, 5624,
// 28652 and 51790; at number 65,536 the state stays as it is.
#[test]
fn lines_of_requests(rt: HostRuntime) {
    walk(
        &rt,
        rt.alloc(),
        &mut RequestLines,
        b"1 4 1|SCR
1 4 2|S25
1 4 3|20NOV
1 4 4|ABC
1 4 5|FXY1000 30MAR25OCT 1234567 180320 JFK0600 J
1 4 6|NXY1001 30MAR25OCT 1234567 180320 JFK0725 J
1 4 7|BXY1002 30MAR25OCT 1234567 180320 JFK0825 J
1 4 8|NXY1003 XZ1003 30MAR25OCT 1234567 180320 JFK0925 1030JFK JJ
1 4 9|-
1 3 7|BXY1002 30MAR25OCT 1234567 180320 JFK0825 J
1 3 8|-
0 4 6|NXY1001 30MAR25OCT 1234567 180320 JFK0710 J
65537 4 7|BXY1002 30MAR25OCT 1234567 180320 JFK0740 J
0 4 8|NXY1003 XZ1003 30MAR25OCT 1234567 180320 JFK0940 1115JFK JJ
0 197 193|FXY1188 30MAR25OCT 1234567 180320 JFK2140 J
0 197 197|FXY1192 30MAR25OCT 1234567 180320 JFK0600 J
65536 4096 4097|FXY5092 30MAR25OCT 1234567 180320 JFK1100 J
65536 4096 4098|NXY5093 30MAR25OCT 1234567 180320 JFK0820 J
65536 4096 4100|NXY5095 XZ5095 30MAR25OCT 1234567 180320 JFK0820 0925JFK JJ
65536 4096 4101|-",
    )
}

/// Both files, as they are read: their bytes, the limit of their only capacity line, the first and
/// the last unit's line, and how many units the submission has.
#[derive(Drop)]
struct Readings;

impl Case for Readings {
    fn find(&mut self, rt: &impl Abort, given: &[u8], out: &mut Finding) {
        let files = make(rt, out.alloc, given);
        let (capacity, requests) = (files.capacity.len(), files.requests.len());
        out.say(format_args!("{capacity} {requests}"));
        let submission = submission(rt, out.alloc, &files);
        say_submission(out, &submission)
    }
}

fn say_submission(out: &mut Finding, submission: &Submission) {
    for rule in submission.declaration().rules.items() {
        let limit = rule.limit;
        out.say(format_args!(" {limit}"));
    }
    say_units(out, submission)
}

/// The submission that the files make.
fn submission(rt: &impl Abort, alloc: Global, files: &Files) -> Submission {
    let (capacity, requests) = (files.capacity.as_slice(), files.requests.as_slice());
    assert!(rt;
        capacity.len() <= 1_000_000 && requests.len() <= 1_000_000,
        "too long"
    );
    let declaration = read_capacity(alloc, capacity).expect(rt, "a declaration");
    made(rt, alloc, declaration, requests)
}

/// The submission that requests make under a declaration.
fn made(rt: &impl Abort, alloc: Global, declaration: Declaration, requests: &[u8]) -> Submission
    requires declared { IsDeclaration declaration }
    requires short { length requests.now ≤ 1000000 }
{
    read_lines_fit();
    read_messages();
    let messages = read_all(alloc, requests).expect(rt, "messages");
    Submission::make(alloc, declaration, messages).expect(rt, "a submission")
}

fn say_units(out: &mut Finding, submission: &Submission) {
    let units = submission.units();
    let first = units.first().map_or(0, |unit| unit.line);
    let last = units.last().map_or(0, |unit| unit.line);
    let count = units.len();
    out.say(format_args!(" {first} {last} {count}"))
}

#[test]
fn files_are_read(rt: HostRuntime) {
    walk(
        &rt,
        rt.alloc(),
        &mut Readings,
        b"0 1|89 62 5 5 5 1
65536 2|89 106 5 5 6 2
1 3|89 150 5 5 7 3
1 4|89 210 5 5 8 4
7 12|89 594 5 5 16 12
39 28|89 1362 5 5 32 28
7 200|89 9618 8 5 204 200
3 400|90 19218 11 5 404 400
7 4096|90 196626 68 5 4100 4096",
    )
}

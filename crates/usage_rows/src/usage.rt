//! Worked rows of the usage watch: reports that are read, series that keep precedence, and the
//! lines of the next season.

ghost use Rattle.std.specs.Prelude.{◌≡◌};
ghost use Rattle.scr_reader.specs.Printed.{LineFits};
ghost use Rattle.scr_reader.specs.declared.line.Code.TheVariants.{F};

use crate::rows::{Case, Finding, walk};
use holding_book::{Holding, State};
use scr_reader::{Code, Header, Item, Line, Message, read_message};
use season_days::Season;
use slot_text::{Lines, Memory, Station, put_number};
use std::alloc::Global;
use std::process::Abort;
use usage_watch::{OperatedFault, OperatedList, Usage, print_next, read_operated, watch};

/// The most bytes that a row may give.
const MOST_BYTES: usize = 10_000;

/// The first line of a row names the season, the second is the line that is held, offered where its
/// code is N and else confirmed, and the others are the reports.
#[derive(Drop)]
struct Watched;

impl Case for Watched {
    fn find(&mut self, rt: &impl Abort, given: &[u8], out: &mut Finding) {
        let mut lines = Lines::new(given);
        let name = lines.next_line().expect(rt, "season");
        let held = lines.next_line().expect(rt, "line");
        let season = Season::read(name).expect(rt, "season");
        match season.next() {
            Some(next) => {
                let line = one_line(rt, out.alloc, name, held);
                put_reports(rt, out, (season, next), line, lines.rest())
            }
            None => out.put(b"NEXT NONE"),
        }
    }
}

/// Appends what the reports make of a line of this season, and in the next, or the fault of them.
fn put_reports(
    rt: &impl Abort,
    out: &mut Finding,
    seasons: (Season, Season),
    line: Line,
    text: &[u8],
) {
    assert!(rt; text.len() <= MOST_BYTES, "a long row");
    match read_operated(out.alloc, &seasons.0, text) {
        Ok(operated) => put_usage(rt, out, seasons, line, &operated),
        Err(OperatedFault::BadLine { line }) => {
            out.put(b"FORM ");
            say_number(out, u64::from(line))
        }
        Err(OperatedFault::Memory) => panic!(rt; "memory"),
    }
}

/// The line of a message of one line.
fn one_line(rt: &impl Abort, alloc: Global, season: &[u8], line: &[u8]) -> Line {
    let parts = [b"SCR\n".as_slice(), season, b"\n15OCT\nLHR\n", line];
    let text = parts.concat(alloc).expect(rt, "memory");
    assert!(rt; text.len() <= MOST_BYTES, "a long line");
    let message = read_message(alloc, &text).expect(rt, "a message");
    only_line(rt, &message)
}

fn only_line(rt: &impl Abort, message: &Message) -> Line {
    match message.items.items() {
        [placed] => match placed.item {
            Item::One(line) => line,
            _ => panic!(rt; "no line"),
        },
        _ => panic!(rt; "not one line"),
    }
}

/// Appends the numbers of series, and the text of the next lines behind an LF where there are some.
fn put_usage(
    rt: &impl Abort,
    out: &mut Finding,
    seasons: (Season, Season),
    line: Line,
    operated: &OperatedList,
) {
    let (season, next) = seasons;
    assert!(rt; line.fits(&season), "a line that does not fit");
    let usage = watch_one(out.alloc, &season, &next, line, operated).expect(rt, "memory");
    say_number(out, usage.series);
    out.put(b" ");
    say_number(out, usage.kept);
    put_next(rt, out, next, usage.next.items())
}

fn say_number(out: &mut Finding, number: u64) {
    let kept = put_number(out.alloc, &mut out.bytes, number);
    out.keep(kept);
}

/// What is found of one holding.
fn watch_one(
    alloc: Global,
    season: &Season,
    next: &Season,
    line: Line,
    operated: &OperatedList,
) -> Result<Usage, Memory>
    requires { LineFits season.now line }
{
    let held = [Holding {
        line,
        state: state_of(line.code),
    }];
    watch(alloc, season, next, &held, operated)
}

/// A new request is offered, what is held already is confirmed.
fn state_of(code: Code) -> State {
    match code {
        Code::N => State::Offered,
        _ => State::Confirmed,
    }
}

/// Appends the text of the next line behind an LF, if there is one.
fn put_next(rt: &impl Abort, out: &mut Finding, season: Season, lines: &[Line]) {
    let [line] = lines else {
        return;
    };
    assert!(rt; line.fits(&season), "a next line that does not fit");
    match line.code {
        Code::F => put_line(rt, out, season, *line),
        _ => panic!(rt; "a next line with another code"),
    }
}

/// Appends the text of a historic line behind an LF.
fn put_line(rt: &impl Abort, out: &mut Finding, season: Season, line: Line)
    requires fits { LineFits season line }
    requires code { line.code ≡ F }
{
    let header = Header {
        season,
        day: 15,
        month: 10,
        airport: Station(*b"LHR"),
    };
    let text = print_one(out.alloc, &header, line).expect(rt, "memory");
    out.put(b"\n");
    out.put(&text);
}

/// The text of one historic line.
fn print_one(alloc: Global, header: &Header, line: Line) -> Result<Vec<u8>, Memory>
    requires fits { LineFits header.now.season line }
    requires code { line.code ≡ F }
{
    print_next(alloc, header, &[line])
}

// Summer 2025 has 30 weeks from Sunday 30 March, summer 2026 has 30 from 29 March. Summer 2018 has
// 31 weeks from 25 March, and summer 2019 has 30, to 26 October. Winter 2023 begins on 29 October,
// and its day 123 is 29 February; winter 2024 begins on 27 October, and its day 123 is 27 February.
const WATCHED: &[u8] = b"\
S25;FBA001 30MAR25OCT 1234567 180320 JFK0610 J;OPER ARR BA001 30MAR07SEP 1234567|7 1;SCR;S26;15OCT;LHR;FBA001 29MAR24OCT 0000007 180320 JFK0610 J;;
S25;FBA001 30MAR25OCT 1234567 180320 JFK0610 J|7 0
S25;FBA001 30MAR20APR 7 180320 JFK0610 J;OPER ARR BA001 30MAR20APR 7|1 0
S25;FBA001 30MAR27APR 7 180320 JFK0610 J;OPER ARR BA001 30MAR27APR 7|1 1;SCR;S26;15OCT;LHR;FBA001 29MAR26APR 0000007 180320 JFK0610 J;;
S25;FBA001 30MAR07SEP 7 180320 JFK0610 J;OPER ARR BA001 30MAR03AUG 7|1 0
S25;FBA001 30MAR07SEP 7 180320 JFK0610 J;OPER ARR BA001 30MAR10AUG 7|1 1;SCR;S26;15OCT;LHR;FBA001 29MAR06SEP 0000007 180320 JFK0610 J;;
S25;FBA001 30MAR27APR 7 180320 JFK0610 J;OPER ARR BA001 30MAR13APR 7|1 0
S25;FBA001 30MAR27APR 7 180320 JFK0610 J;OPER ARR BA001 30MAR13APR 7;OPER ARR BA1 06APR20APR 7;OPER ARR BA0001 06APR 7|1 1;SCR;S26;15OCT;LHR;FBA001 29MAR26APR 0000007 180320 JFK0610 J;;
S25;FBA001 30MAR27APR 7 180320 JFK0610 J;OPER ARR BA001A 30MAR27APR 7;OPER DEP BA001 30MAR27APR 7;OPER ARR BA002 30MAR27APR 7|1 0
S25;NBA001 30MAR27APR 7 180320 JFK0610 J;OPER ARR BA001 30MAR27APR 7|0 0
S25;FBA001 30MAR27APR 17 180320 JFK0610 J;OPER ARR BA001 30MAR25OCT 1234567|2 1;SCR;S26;15OCT;LHR;FBA001 29MAR26APR 0000007 180320 JFK0610 J;;
S25;F BA001 31MAR28APR 1 180320 0610JFK J;OPER DEP BA001 31MAR21APR 1|1 1;SCR;S26;15OCT;LHR;F BA001 30MAR27APR 1000000 180320 0610JFK J;;
S25;FBA001 BA002 30MAR27APR 7 180320 JFK2210 06101JFK JJ;OPER ARR BA001 30MAR27APR 7|1 0
S25;FBA001 BA002 30MAR27APR 7 180320 JFK2210 06101JFK JJ;OPER DEP BA002 30MAR27APR 7|1 0
S25;FBA001 BA002 30MAR27APR 7 180320 JFK2210 06101JFK JJ;OPER ARR BA001 30MAR27APR 7;OPER DEP BA002 31MAR28APR 1|1 0
S25;FBA001 BA002 30MAR27APR 7 180320 JFK2210 06101JFK JJ;OPER ARR BA001 30MAR27APR 7;OPER DEP BA002 30MAR27APR 7|1 1;SCR;S26;15OCT;LHR;FBA001 BA002 29MAR26APR 0000007 180320 JFK2210 06101JFK JJ;;
S25;FBA001 30MAR25OCT 7 180320 JFK0610 J;OPER ARR BA001 30MAR31AUG 7|1 0
S18;FBA001 25MAR27OCT 7 180320 JFK0610 J;OPER ARR BA001 25MAR02SEP 7|1 0
S18;FBA001 25MAR27OCT 7 180320 JFK0610 J;OPER ARR BA001 25MAR09SEP 7|1 1;SCR;S19;15OCT;LHR;FBA001 31MAR26OCT 0000007 180320 JFK0610 J;;
W23;FBA001 01FEB29FEB 4 180320 JFK0610 J;OPER ARR BA001 01FEB29FEB 4|1 1;SCR;W24;15OCT;LHR;FBA001 30JAN27FEB 0004000 180320 JFK0610 J;;
S99;FBA001 29MAR19APR 7 180320 JFK0610 J|NEXT NONE
W99;FBA001 05DEC12DEC 7 180320 JFK0610 J|NEXT NONE
";

// The reports of a line of four dates. A line of 199 bytes is read, one of 201 is not.
const READ: &[u8] = b"\
|1 0
;;<300 >;|1 0
OPER ARR BA001 30MAR 7<1\r>;OPER DEP BA001 30MAR 7<1\r>;|1 0
OPER ARR BA001 30MAR 7<1\r>|FORM 1
OPER<1\t>ARR  BA001 30MAR07SEP<167 >1234567|1 0
OPER ARR BA001 30MAR07SEP<169 >1234567|FORM 1
OPER TOT BA001 30MAR 7|FORM 1
 ;OPER ARR BA001 30MAR 7;OPER ARR BA001 31NOV 7;OPER|FORM 3
OPER ARR BA001 29MAR 6|FORM 1
OPER ARR BA001 31MAR 7|FORM 1
OPER ARR BA001 07SEP30MAR 7|FORM 1
OPER ARR BA 30MAR 7|FORM 1
OPER ARR BA001 30MAR 7 |FORM 1
 OPER ARR BA001 30MAR 7|FORM 1
OPER ARR BA001 30MAR 7 7|FORM 1
OPER ARR BA001 30MAR|FORM 1
oper ARR BA001 30MAR 7|FORM 1
OPER ARR BA001 30MAR 7<1\r><1\r>|FORM 1
";

/// The reports of a row, of a line with four dates in summer 2025.
#[derive(Drop)]
struct ReadRows;

impl Case for ReadRows {
    fn find(&mut self, rt: &impl Abort, given: &[u8], out: &mut Finding) {
        let line = b"S25\nFBA001 30MAR20APR 7 180320 JFK0610 J\n".as_slice();
        let text = [line, given].concat(out.alloc).expect(rt, "memory");
        Watched.find(rt, &text, out)
    }
}

#[test]
fn usage_is_watched(rt: HostRuntime) {
    let alloc = rt.alloc();
    walk(&rt, alloc, &mut Watched, WATCHED);
    walk(&rt, alloc, &mut ReadRows, READ)
}

//! Capacity files. The declarations and faults are worked by hand.

use crate::rows::{Case, Finding, ascii, cut, number, walk};
use capacity_file::{CapFault, read_capacity};
use season_days::{Declaration, Rule};
use slot_text::Lines;
use std::alloc::Global;
use std::process::Abort;

const MOST_BYTES: usize = 10_000_000;

fn read(alloc: Global, text: &[u8]) -> Result<Declaration, CapFault> {
    if text.len() > MOST_BYTES {
        return Err(CapFault::Memory);
    }
    read_capacity(alloc, text)
}

/// Says the fault of a text, if it has one.
fn say_fault(out: &mut Finding, text: &[u8]) {
    match read(out.alloc, text) {
        Ok(_) => out.say("-"),
        Err(fault) => out.say(fault),
    }
}

/// What a whole file declares, or its fault.
#[derive(Drop)]
struct Files;

impl Case for Files {
    fn find(&mut self, _rt: &impl Abort, given: &[u8], out: &mut Finding) {
        match read(out.alloc, given) {
            Ok(declaration) => say_declaration(out, &declaration),
            Err(fault) => out.say(fault),
        }
    }
}

fn say_declaration(out: &mut Finding, found: &Declaration) {
    let season = found.season.text();
    let (airport, season) = (ascii(&found.airport.0), ascii(&season));
    let (step, flex, ground, share) = (found.step, found.flex, found.ground, found.share);
    out.say(format_args!("{airport} {season} {step} {flex} {ground} {share} "));
    out.say(format_args!("{:?} {:?}", found.refuse, found.night));
    for rule in found.rules.items() {
        say_rule(out, rule);
    }
}

fn say_rule(out: &mut Finding, rule: &Rule) {
    let (kind, length, from, to) = (rule.kind, rule.length, rule.from, rule.to);
    let (days, limit) = (rule.days, rule.limit);
    out.say(format_args!(", {kind:?} {length} {from} {to} {days} {limit}"))
}

const FILES: &[u8] = b"\
AIRPORT ABC;SEASON S25;STEP 5;FLEX 60;GROUND 40;REFUSE NONE;CAP ARR 60 0600 0600 1234567 1|\
    ABC S25 5 60 40 50 None None, Arr 60 360 360 127 1
\r;  \t;CAP  TOT\t1440 0000 2359 135 9999\r;REFUSE 9999\r;NIGHT 2300 0500 999999;;SHARE 0;\
    GROUND 1440\r;FLEX 120\r;STEP 60\r;SEASON W99\r;CAP DEP 1 1200 1200 0000007 0;AIRPORT ZZZ|\
    ZZZ W99 60 120 1440 0 Some(9999) Some(Night { from: 1380, to: 300, limit: 999999 }), Tot \
    1440 0 1439 21 9999, Dep 1 720 720 64 0
|no AIRPORT line
; \t\r;|no AIRPORT line
<1000000 >|no AIRPORT line
<1000000A>|line 1: no line of a capacity file
STEP 5;STEP 10;STEP 7;|line 2: a word that has a line already
STEP 5;STEP 7;STEP 10;|line 2: no line of a capacity file
NIGHT 2300 0500 1;NIGHT 2300 0500 1;|line 2: a word that has a line already
SHARE 1;;SHARE 1;|line 3: a word that has a line already
AIRPORT ABC;|no SEASON line
SEASON S25;AIRPORT ABC;|no STEP line
AIRPORT ABC;SEASON S25;STEP 5;|no FLEX line
FLEX 7;AIRPORT ABC;SEASON S25;STEP 5;|no GROUND line
FLEX 7;AIRPORT ABC;SEASON S25;STEP 5;GROUND 0;|no REFUSE line
FLEX 7;AIRPORT ABC;SEASON S25;STEP 5;GROUND 0;REFUSE 1|line 1: no line of a capacity file
FLEX 125;AIRPORT ABC;SEASON S25;STEP 10;GROUND 0;REFUSE 1|line 1: no line of a capacity file
;FLEX 125;AIRPORT ABC;SEASON S25;STEP 5;GROUND 0;REFUSE 1|FLEX 125 is over the limit
FLEX 18446744073709551615;AIRPORT ABC;SEASON S25;STEP 5;GROUND 0;REFUSE 1|\
    FLEX 18446744073709551615 is over the limit
FLEX 125;AIRPORT ABC;SEASON S25;STEP 5;GROUND 0;REFUSE 1;FLEX 60|\
    line 7: a word that has a line already
CAP ARR 1 0000 0000 1 1;CAP ARR 1 0000 0000 0 1;STEP 5;STEP 5|line 2: no line of a capacity file
";

const BASE: &[u8] = b"\
AIRPORT ABC
SEASON S25
STEP 5
FLEX 60
GROUND 40
REFUSE NONE
CAP ARR 60 0600 0600 1234567 1
";

/// The base with one of its lines, from 1, replaced. Line 8 is one more.
fn with_line(rt: &impl Abort, alloc: Global, place: u32, line: &[u8]) -> Vec<u8> {
    let mut text = Vec::new(alloc);
    let mut lines = Lines::new(BASE);
    for at in 1..=8 {
        let base = lines.next_line().unwrap_or(b"");
        let kept = if at == place { line } else { base };
        text.extend_from_slice(kept).expect(rt, "memory");
        text.push(b'\n').expect(rt, "memory");
    }
    text
}

/// The fault of the base with one line replaced, if it has one.
#[derive(Drop)]
struct OneLine;

impl Case for OneLine {
    fn find(&mut self, rt: &impl Abort, given: &[u8], out: &mut Finding) {
        let (_, line) = cut(given, b' ');
        let text = with_line(rt, out.alloc, number(rt, given, 1), line);
        say_fault(out, &text)
    }
}

const BAD_LINES: &[u8] = b"\
1 AIRPORT AB|line 1: no line of a capacity file
1 AIRPORT ABCD|line 1: no line of a capacity file
1 AIRPORT Abc|line 1: no line of a capacity file
1 AIRPORT|line 1: no line of a capacity file
1 AIRPORT ABC ABC|line 1: no line of a capacity file
1  AIRPORT ABC|line 1: no line of a capacity file
1 AIRPORT ABC\t|line 1: no line of a capacity file
1 airport ABC|line 1: no line of a capacity file
1 AIRPORTS ABC|line 1: no line of a capacity file
1 /AIRPORT ABC|line 1: no line of a capacity file
2 SEASON X25|line 2: no line of a capacity file
2 SEASON S5|line 2: no line of a capacity file
2 SEASON S255|line 2: no line of a capacity file
3 STEP 0|line 3: no line of a capacity file
3 STEP 6|line 3: no line of a capacity file
3 STEP 05|line 3: no line of a capacity file
3 STEP 61|line 3: no line of a capacity file
3 STEP 18446744073709551616|line 3: no line of a capacity file
4 FLEX|line 4: no line of a capacity file
4 FLEX 1 2|line 4: no line of a capacity file
4 FLEX -5|line 4: no line of a capacity file
4 FLEX 060|line 4: no line of a capacity file
4 FLEX 18446744073709551616|line 4: no line of a capacity file
5 GROUND 1441|line 5: no line of a capacity file
5 GROUND 4294967336|line 5: no line of a capacity file
6 REFUSE 0|line 6: no line of a capacity file
6 REFUSE 10000|line 6: no line of a capacity file
6 REFUSE none|line 6: no line of a capacity file
6 REFUSE NONE 1|line 6: no line of a capacity file
8 SHARE 101|line 8: no line of a capacity file
8 SHARE 4294967296|line 8: no line of a capacity file
8 SHARE NONE|line 8: no line of a capacity file
8 SHARE<193 >100|line 8: no line of a capacity file
8 CAP|line 8: no line of a capacity file
8 CAP ARR 60 0600 0600 1234567|line 8: no line of a capacity file
8 CAP ARR 60 0600 0600 1234567 1 1|line 8: no line of a capacity file
8 CAP ALL 60 0600 0600 1234567 1|line 8: no line of a capacity file
8 CAP ARR 0 0600 0600 1234567 1|line 8: no line of a capacity file
8 CAP ARR 1441 0600 0600 1234567 1|line 8: no line of a capacity file
8 CAP ARR 60 0600 0559 1234567 1|line 8: no line of a capacity file
8 CAP ARR 60 0600 2400 1234567 1|line 8: no line of a capacity file
8 CAP ARR 60 0660 0700 1234567 1|line 8: no line of a capacity file
8 CAP ARR 60 600 0700 1234567 1|line 8: no line of a capacity file
8 CAP ARR 60 0600 0700 0000000 1|line 8: no line of a capacity file
8 CAP ARR 60 0600 0700 1224567 1|line 8: no line of a capacity file
8 CAP ARR 60 0600 0700 21 1|line 8: no line of a capacity file
8 CAP ARR 60 0600 0700 8 1|line 8: no line of a capacity file
8 CAP ARR 60 0600 0700 12345670 1|line 8: no line of a capacity file
8 CAP ARR 60 0600 0700 1234567 10000|line 8: no line of a capacity file
8 NIGHT 2300 2300 1|line 8: no line of a capacity file
8 NIGHT 2300 0500|line 8: no line of a capacity file
8 NIGHT 2300 0500 1 1|line 8: no line of a capacity file
8 NIGHT 2400 0500 1|line 8: no line of a capacity file
8 NIGHT 2300 0560 1|line 8: no line of a capacity file
8 NIGHT 2300 0500 1000000|line 8: no line of a capacity file
";

const GOOD_LINES: &[u8] = b"\
2 SEASON S00|-
2 SEASON W99|-
3 STEP 10|-
3 STEP 15|-
3 STEP 20|-
3 STEP 30|-
3 STEP 60|-
4 FLEX 0|-
4 FLEX 120|-
5 GROUND 0|-
5 GROUND 1440|-
6 REFUSE 1|-
6 REFUSE 9999|-
8 SHARE 0|-
8 SHARE 100|-
8 SHARE<192 >100|-
8 NIGHT 2359 0000 0|-
8 NIGHT 0000 2359 999999|-
8 CAP DEP 1 0000 2359 0000007 0|-
8 CAP TOT 1440 2359 2359 7 9999|-
";

/// The bytes of a line of the base that may be replaced by one that stands in no form.
#[derive(Drop)]
struct Spoiled;

impl Case for Spoiled {
    fn find(&mut self, rt: &impl Abort, given: &[u8], out: &mut Finding) {
        let place = number(rt, given, 1);
        let (_, line) = cut(given, b' ');
        for at in 0..line.len() {
            for byte in [0, 127, 128, 255] {
                if !is_refused(rt, out.alloc, place, line, at, byte) {
                    out.say(format_args!("byte {at} as {byte}, "));
                }
            }
        }
    }
}

/// Whether the line is named, where one of its bytes is replaced by this one.
fn is_refused(
    rt: &impl Abort,
    alloc: Global,
    place: u32,
    line: &[u8],
    at: usize,
    byte: u8,
) -> bool {
    if at >= line.len() {
        return false;
    }
    let spoiled = [&line[..at], &[byte], &line[at + 1..]].concat(alloc);
    let text = with_line(rt, alloc, place, &spoiled.expect(rt, "memory"));
    read(alloc, &text).err() == Some(CapFault::BadLine { line: place })
}

const SPOILED: &[u8] = b"\
1 AIRPORT ABC|
2 SEASON S25|
3 STEP 15|
4 FLEX 60|
5 GROUND 40|
6 REFUSE 9999|
6 REFUSE NONE|
7 CAP ARR 60 0600 0600 1234567 1|
8 NIGHT 2300 0500 2|
8 SHARE 50|
8 CAP TOT 60 0600 0600 123 10|
";

/// The fault of a file with so many capacity lines like this and further lines, and its fault with
/// a night quota.
#[derive(Drop)]
struct Limits;

impl Case for Limits {
    fn find(&mut self, rt: &impl Abort, given: &[u8], out: &mut Finding) {
        let mut text = limits_text(rt, out.alloc, given);
        say_fault(out, &text);
        let night = b"\nNIGHT 0000 0600 1\n";
        text.extend_from_slice(night).expect(rt, "memory");
        out.say(", ");
        say_fault(out, &text)
    }
}

/// The file of a row of limits.
fn limits_text(rt: &impl Abort, alloc: Global, given: &[u8]) -> Vec<u8> {
    let (count, lines) = cut(given, b'#');
    let (capacity, further) = cut(lines, b'#');
    let base = b"AIRPORT ABC\nSEASON S25\nSTEP 5\nGROUND 40\nREFUSE NONE\n";
    let mut text = Vec::from_slice(alloc, base).expect(rt, "memory");
    for _ in 0..number(rt, count, 1) {
        text.extend_from_slice(capacity).expect(rt, "memory");
        text.push(b'\n').expect(rt, "memory");
    }
    text.extend_from_slice(further).expect(rt, "memory");
    text
}

// 17 lines with 288 starts on 210 days, and the night. 16 lines with 288 starts, and a line with
// 153 or 154, on 210 days, and the night. The flexibility is tested before the capacity lines, and
// these before the windows.
const LIMITS: &[u8] = b"\
64#CAP ARR 60 0600 0600 1 1#FLEX 60|-, -
65#CAP ARR 60 0600 0600 1 1#FLEX 60|CAPS 65 is over the limit, CAPS 65 is over the limit
65#CAP ARR 60 0000 2355 1 1#FLEX 60|CAPS 65 is over the limit, CAPS 65 is over the limit
65#CAP ARR 60 0600 0600 1 1#FLEX 125|FLEX 125 is over the limit, FLEX 125 is over the limit
16#CAP ARR 60 0000 2355 1 1#FLEX 60|-, -
17#CAP ARR 60 0000 2355 1234567 1#FLEX 60|\
    WINDOWS 1028160 is over the limit, WINDOWS 1028161 is over the limit
16#CAP ARR 60 0000 2355 1 1#FLEX 60;CAP ARR 60 0000 1240 1 1|-, -
16#CAP ARR 60 0000 2355 1 1#FLEX 60;CAP ARR 60 0000 1245 1 1|\
    WINDOWS 1000020 is over the limit, WINDOWS 1000021 is over the limit
";

#[test]
fn files_and_their_limits(rt: HostRuntime) {
    let alloc = rt.alloc();
    walk(&rt, alloc, &mut Files, FILES);
    walk(&rt, alloc, &mut Limits, LIMITS)
}

#[test]
fn lines_and_their_form(rt: HostRuntime) {
    let alloc = rt.alloc();
    walk(&rt, alloc, &mut OneLine, BAD_LINES);
    walk(&rt, alloc, &mut OneLine, GOOD_LINES);
    walk(&rt, alloc, &mut Spoiled, SPOILED)
}

//! Lines, fields, numbers and stations. The rows are worked by hand.

use crate::rows::{Case, Finding, cut, number, walk, yes_no};
use slot_text::{
    Lines, Station, field, is_blank_byte, is_blank_line, is_trimmed, put_number, put_padded,
    read_u64,
};
use std::alloc::Global;
use std::process::Abort;

#[derive(Drop)]
struct Numbers;

impl Case for Numbers {
    fn find(&mut self, _rt: &impl Abort, given: &[u8], out: &mut Finding) {
        match read_u64(given) {
            Ok(value) => out.say(value),
            Err(fault) => out.say(fault),
        }
    }
}

const NUMBERS: &[u8] = b"\
0|0
5|5
20|20
100000|100000
18446744073709551615|18446744073709551615
18446744073709551616|no number at byte 19
18446744073709551620|no number at byte 19
184467440737095516150|no number at byte 20
|no number at byte 0
00|no number at byte 1
007|no number at byte 1
-5|no number at byte 0
+5|no number at byte 0
 5|no number at byte 0
5 |no number at byte 1
12a4|no number at byte 2
1/|no number at byte 1
1:|no number at byte 1
";

/// At most so many lines of a text, each with a comma behind it, and what is then left.
#[derive(Drop)]
struct LinesOf;

impl Case for LinesOf {
    fn find(&mut self, rt: &impl Abort, given: &[u8], out: &mut Finding) {
        let most = number(rt, given, 1);
        let (_, text) = cut(given, b' ');
        let mut lines = Lines::new(text);
        for _ in 0..most {
            let Some(line) = lines.next_line() else {
                break;
            };
            out.put(line);
            out.put(b",");
        }
        out.put(lines.rest());
    }
}

const LINES: &[u8] = b"\
9 |
9 ;|,
9 a|a,
9 a;|a,
9 a;b|a,b,
9 a\r;b\r;|a,b,
9 a;;b|a,,b,
9 \r;\r;|,,
9 a\rb;|a\rb,
9 a\r\r;b|a\r,b,
9 a\r|a\r,
9  a\t;| a\t,
1 a\r; b;|a, b;
";

/// The field of a line by its number.
#[derive(Drop)]
struct Fields;

impl Case for Fields {
    fn find(&mut self, rt: &impl Abort, given: &[u8], out: &mut Finding) {
        let (line, place) = cut(given, b'#');
        let found = field(line, number(rt, place, 1));
        out.put(found.unwrap_or(b"(none)"));
    }
}

const FIELDS: &[u8] = b"\
AIRPORT ABC#1|AIRPORT
AIRPORT ABC#2|ABC
AIRPORT ABC#3|(none)
AIRPORT ABC#0|(none)
 \ta\t b  #1|a
 \ta\t b  #2|b
 \ta\t b  #3|(none)
#1|(none)
 \t #1|(none)
a\rb#1|a\rb
a#4294967295|(none)
";

/// Whether a line is blank, whether it is trimmed, and whether its first byte is a blank.
#[derive(Drop)]
struct Blanks;

impl Case for Blanks {
    fn find(&mut self, _rt: &impl Abort, given: &[u8], out: &mut Finding) {
        let first = match given.first() {
            Some(byte) => yes_no(is_blank_byte(*byte)),
            None => "-",
        };
        let blank = yes_no(is_blank_line(given));
        let trimmed = yes_no(is_trimmed(given));
        out.say(format_args!("{blank} {trimmed} {first}"))
    }
}

const BLANKS: &[u8] = b"\
|yes yes -
 |yes no yes
 \t|yes no yes
\t|yes no yes
a|no yes no
a b|no yes no
 a|no no yes
a\t|no no no
\r|no yes no
";

/// A number appended, and then appended with a least width.
#[derive(Drop)]
struct Digits;

impl Case for Digits {
    fn find(&mut self, rt: &impl Abort, given: &[u8], out: &mut Finding) {
        let value = read_u64(field(given, 1).expect(rt, "value")).expect(rt, "a number");
        out.put(b"=");
        let kept = put_number(out.alloc, &mut out.bytes, value);
        out.keep(kept);
        out.put(b"=");
        let kept = put_padded(out.alloc, &mut out.bytes, value, number(rt, given, 2));
        out.keep(kept);
    }
}

const DIGITS: &[u8] = b"\
7 3|=7=007
0 2|=0=00
123 3|=123=123
1234 3|=1234=1234
5 0|=5=5
18446744073709551615 1|=18446744073709551615=18446744073709551615
";

#[derive(Drop)]
struct Stations;

impl Case for Stations {
    fn find(&mut self, _rt: &impl Abort, given: &[u8], out: &mut Finding) {
        match Station::read(given) {
            Some(station) => out.put(&station.0),
            None => out.put(b"-"),
        }
    }
}

const STATIONS: &[u8] = b"\
ABC|ABC
AZQ|AZQ
AB|-
ABCD|-
AbC|-
A1C|-
AB[|-
@BC|-
";

#[test]
fn lines_and_their_fields(rt: HostRuntime) {
    let alloc = rt.alloc();
    walk(&rt, alloc, &mut LinesOf, LINES);
    walk(&rt, alloc, &mut Fields, FIELDS);
    walk(&rt, alloc, &mut Blanks, BLANKS)
}

#[test]
fn numbers_and_stations(rt: HostRuntime) {
    let alloc = rt.alloc();
    walk(&rt, alloc, &mut Numbers, NUMBERS);
    walk(&rt, alloc, &mut Digits, DIGITS);
    walk(&rt, alloc, &mut Stations, STATIONS)
}

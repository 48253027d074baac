//! The text of the certificate of one series and one new request that share a window, and what
//! damages it.

ghost use Rattle.std.specs.Prelude.{◌≤◌, length};
ghost use Rattle.cert_format.specs.Printable.{IsPrintable};
ghost use Rattle.cert_format.specs.declared.cert.TheConstants.{LONGEST_CERT};

use crate::lines::{Row, put_lines, read_row, with_row};
use cert_format::{
    CertFault, Certificate, LONGEST_CERT, print_cert, print_extra, read_cert, read_extra,
};
use std::alloc::Global;
use std::process::Abort;

// One stage 1 series at 06:10; one new request at 06:30, which 07:00 serves at a displacement of 30
// minutes.
pub const TEXT: &str = "\
CERT 1
STAGE 1 OPTIMAL
CHOICES 1
C 0 0
COST 0
VECTORS 0
TREE 1
L 0 1 0
STAGE 2 OPTIMAL
CHOICES 0
COST 0
VECTORS 0
TREE 1
L 0 1 0
STAGE 3 OPTIMAL
CHOICES 0
COST 0
VECTORS 0
TREE 1
L 0 1 0
STAGE 4 OPTIMAL
CHOICES 1
C 0 18
COST 30
VECTORS 1
VECTOR 1
P 0 32768
TREE 1
L 1 1024 30
END
";

// Every kind of line: an infeasible stage, stages that were not tried, and an open one with its
// bound and floors.
const OPEN: &str = "\
CERT 2
STAGE 1 OPEN
CHOICES 3
C 0 4
C 1 0
C 2 24
COST 40
BOUND 30
VECTORS 2
VECTOR 3
P 0 10240
P 210 10240
P 420 10240
VECTOR 1
P 7 -5
TREE 5
S 0 13 -
U 1 1024
S 1 2 40
U 0 1
L 2 1 40
STAGE 2 INFEASIBLE
CHOICES NONE
VECTORS 0
TREE 1
O 6
STAGE 3 NOT TRIED
STAGE 4 NOT TRIED
END
";

// Stages with a fixing, and stages without one.
const FIXED: &str = "\
CERT 3
STAGE 1 OPTIMAL
CHOICES 1
C 0 2
COST 7
VECTORS 1
VECTOR 1
P 0 5
FIX 1 1024 8
TREE 1
L 0 1 7
STAGE 2 OPEN
CHOICES NONE
BOUND 0
VECTORS 0
TREE 1
U 0 1
STAGE 3 INFEASIBLE
CHOICES NONE
VECTORS 0
FIX 0 1 0
TREE 1
O 6
STAGE 4 NOT TRIED
END
";

const EXTRA: &str = "\
EXTRA 1
STAGE 5 OPEN
CHOICES NONE
BOUND 0
VECTORS 0
TREE 1
U 0 1
END
";

const FIXED_EXTRA: &str = "\
EXTRA 2
STAGE 5 OPTIMAL
CHOICES 1
C 0 2
COST 7
VECTORS 0
FIX 0 1 8
TREE 1
L 0 1 7
END
";

// What the reader says where lines of the example stand for others: the bad line, or `-` where the
// text is read, and is then printed as it was.
const TEXT_ROWS: &str = "\
1|1 1 CERT 0
-|1 1 CERT 2
-|1 1 CERT 3
1|1 1 CERT 4
1|1 1 CERT 01
1|1 1 CERT
1|1 1 CERT 1\x20
1|1 1 CERT 1\r
1|1 1 EXTRA 1
2|2 2 STAGE 2 OPTIMAL
-|2 2 STAGE 1 OPEN
2|2 2 STAGE 1 optimal
3|2 2 STAGE 1 NOT TRIED
22|21 21 STAGE 4 NOT TRIED
21|21 21 STAGE 4 OPTIMAL\r
23|22 22 CHOICES NONE
22|22 22 CHOICES  1
22|22 22 CHOICES 01
24|22 22 CHOICES 4294967295
22|22 22 CHOICES 4294967296
23|23 23 C 1 18
23|23 23 C 00 18
-|23 23 C 0 25
23|23 23 C 0 -1
-|23 23 C 0 4294967295
23|23 23 C 0 4294967296
24|24 24 COST  30
24|24 24 COST 30\x20
24|24 24 \x20COST 30
24|24 24 COST\t30
24|24 24 COST +30
24|24 24 COST -30
24|24 24 COST 030
24|24 24 COST -
-|24 24 COST 18446744073709551615
24|24 24 COST 18446744073709551616
25|24 24 COST 30/BOUND 30
24|24 24 BOUND 30
28|25 25 VECTORS 64
25|25 25 VECTORS 65
26|25 25 VECTORS 0
28|26 26 VECTOR 4294967295
26|26 26 VECTOR 4294967296
-|27 27 P 4294967295 1
27|27 27 P 4294967296 1
-|27 27 P 0 -9223372036854775808
27|27 27 P 0 -9223372036854775809
-|27 27 P 0 9223372036854775807
27|27 27 P 0 9223372036854775808
-|27 27 P 0 0
27|27 27 P 0 -0
27|27 27 P 0 -01
27|27 27 P 0 --1
27|27 27 P 0 +1
27|27 27 P 0 -
30|28 28 TREE 4294967295
28|28 28 TREE 4294967296
29|28 28 TREE 0
29|28 28 TREE 1/
30|28 28 TREE 0/END
29|29 29
29|29 29 l 1 1024 30
29|29 29 L 1 1024
29|29 29 L 1 1024 30 30
-|29 29 L 1 18446744073709551615 30
29|29 29 L 1 18446744073709551616 30
-|29 29 L 2 1024 30
-|29 29 L 2 1024 -
29|29 29 L 4294967296 1024 30
29|29 29 L 1 1024 -1
29|29 29 L 1 1024 18446744073709551616
-|29 29 S 4294967295 4294967295 0
29|29 29 S 4294967296 0 -
29|29 29 S 0 4294967296 -
-|29 29 O 4294967295
29|29 29 O 4294967296
29|29 29 U 1 1024
-|29 29 U
30|30 30 END\x20
30|30 30 END\r
31|30 30 END/
31|30 30 END/END";

const OPEN_ROWS: &str = "\
8|1 1 CERT 1
8|2 2 STAGE 1 OPTIMAL
-|7 7 COST 18446744073709551615
-|8 8 BOUND 18446744073709551615
8|8 8 BOUND 18446744073709551616
8|8 8 BOUND 030
8|8 8 BOUND -
9|8 8 BOUND 30/BOUND 30
8|8 8 VECTORS 2
18|18 18 U
18|18 18 U 1
18|18 18 U 1 1024 -
18|18 18 U 01 1024
-|18 18 U 4294967295 18446744073709551615
18|18 18 U 4294967296 1
18|18 18 U 1 18446744073709551616
24|23 23 CHOICES NONE/COST 0
24|23 23 CHOICES NONE/BOUND 0
27|27 27 STAGE 3 NOT  TRIED
27|27 27 STAGE 3 NOT TRIED TRIED
28|28 28 STAGE 3 NOT TRIED";

// A fixing stands in version 3 alone, once, right before the nodes; its numbers have 32, 64 and 64
// bits.
const FIXED_ROWS: &str = "\
-|1 1 CERT 3
9|1 1 CERT 2
9|1 1 CERT 1
1|1 1 CERT 4
-|9 9
-|9 9 FIX 0 0 0
-|9 9 FIX 4294967295 18446744073709551615 18446744073709551615
9|9 9 FIX 4294967296 1024 8
9|9 9 FIX 1 18446744073709551616 8
9|9 9 FIX 1 1024 18446744073709551616
9|9 9 FIX
9|9 9 FIX 1
9|9 9 FIX 1 1024
9|9 9 FIX 1 1024 8 8
9|9 9 FIX 1 1024 -
9|9 9 FIX 1 1024 08
9|9 9 FIX 1 1024 -8
9|9 9 FIX  1 1024 8
9|9 9 FIX 1 1024 8\x20
9|9 9 fix 1 1024 8
9|9 9 FIX NONE
9|9 9 FIXED 1 1024 8
10|9 9 FIX 1 1024 8/FIX 1 1024 8
10|9 10 FIX 1 1024 8
6|6 6 FIX 1 1024 8/VECTORS 1
8|8 8 FIX 1 1024 8/P 0 5
10|9 10 TREE 1/FIX 1 1024 8
11|9 11 TREE 1/L 0 1 7/FIX 1 1024 8
-|16 16 FIX 0 1 0/TREE 1
14|14 14 FIX 0 1 0/BOUND 0
25|24 24 STAGE 4 NOT TRIED/FIX 0 1 0";

const FIXED_EXTRA_ROWS: &str = "\
-|1 1 EXTRA 2
7|1 1 EXTRA 1
1|1 1 EXTRA 3
7|7 7
7|7 7 FIX 0 1
8|7 7 FIX 0 1 8/FIX 0 1 8
-|7 7 FIX 3 1048576 0
-|2 9 STAGE 5 INFEASIBLE/CHOICES NONE/VECTORS 0/FIX 0 0 0/TREE 1/O 6
5|2 9 STAGE 5 INFEASIBLE/CHOICES NONE/VECTORS 0/TREE 1/O 6";

const EXTRA_ROWS: &str = "\
6|1 1 EXTRA 2
1|1 1 EXTRA 3
1|1 1 EXTRA 01
1|1 1 CERT 2
1|1 1 EXTRA 1\r
2|2 2 STAGE 4 OPEN
2|2 2 STAGE 5 NOT TRIED
4|2 2 STAGE 5 INFEASIBLE
4|3 3 CHOICES 0
4|3 3 CHOICES NONE/COST 0
4|4 4 VECTORS 0
4|4 4 BOUND 18446744073709551616
8|6 6 TREE 4294967295
7|7 7 U
7|7 7 U 0 1\x20
9|8 8 END/END
8|8 8 STAGE 5 OPEN";

// Where a byte of the example is replaced, its own line is bad. But not for these bytes at a line
// and a column, the first of them 0: another number, mark of a node or `-`, and a count or an LF
// (the stroke) that makes a later line bad.
const BYTE_ROWS: &str = "\
-|1 5 23
4|3 8 0
5|3 8 23456789
-|4 4 123456789
-|5 5 123456789
7|6 8 123456789
8|7 5 0
9|7 5 23456789
-|8 0 S
-|8 2 123456789
-|8 4 023456789
-|8 6 -123456789
11|10 8 123456789
-|11 5 123456789
13|12 8 123456789
14|13 5 0
15|13 5 23456789
-|14 0 S
-|14 2 123456789
-|14 4 023456789
-|14 6 -123456789
17|16 8 123456789
-|17 5 123456789
19|18 8 123456789
20|19 5 0
21|19 5 23456789
-|20 0 S
-|20 2 123456789
-|20 4 023456789
-|20 6 -123456789
23|22 8 0
24|22 8 23456789
-|23 4 23456789
-|23 5 012345679
24|23 5 /
-|24 5 12456789
-|24 6 123456789
25|24 6 /
26|25 8 0
28|25 8 23456789
27|26 7 0
28|26 7 23456789
-|27 2 123456789
-|27 4 -12456789
-|27 5 013456789
28|27 5 /
-|27 6 012345689
28|27 6 /
-|27 7 012345789
28|27 7 /
-|27 8 012345679
28|27 8 /
29|28 5 0
30|28 5 23456789
-|29 0 S
-|29 2 023456789
-|29 4 23456789
-|29 5 123456789
-|29 6 013456789
-|29 7 012356789
-|29 9 12456789
-|29 10 123456789
30|29 10 /";

#[test]
fn one_changed_line_is_bad_or_is_read(rt: HostRuntime) {
    check_lines(&rt, rt.alloc(), TEXT, TEXT_ROWS, false);
    check_lines(&rt, rt.alloc(), OPEN, OPEN_ROWS, false);
    check_lines(&rt, rt.alloc(), FIXED, FIXED_ROWS, false);
    check_lines(&rt, rt.alloc(), EXTRA, EXTRA_ROWS, true);
    check_lines(&rt, rt.alloc(), FIXED_EXTRA, FIXED_EXTRA_ROWS, true);
}

fn check_lines(rt: &impl Abort, alloc: Global, text: &str, rows: &str, is_extra: bool) {
    for line in rows.split('\n') {
        check_line(rt, alloc, text, line, is_extra);
    }
}

fn check_line(rt: &impl Abort, alloc: Global, text: &str, line: &str, is_extra: bool) {
    let row = read_row(rt, line);
    let changed = with_row(rt, alloc, text, &row);
    let found = bad_line(rt, alloc, changed.as_bytes(), is_extra);
    assert!(rt; found == number(row.wanted), "{line} has {found}");
}

// The number of a line; 0 for `-`.
fn number(text: &str) -> u32 {
    text.parse().unwrap_or(0)
}

// The bad line of a text; 0 where it is read, and is then printed as it was.
fn bad_line(rt: &impl Abort, alloc: Global, text: &[u8], is_extra: bool) -> u32 {
    assert!(rt; text.len() <= LONGEST_CERT, "too long");
    if is_extra {
        bad_line_of_extra(rt, alloc, text)
    } else {
        bad_line_of_cert(rt, alloc, text)
    }
}

fn bad_line_of_cert(rt: &impl Abort, alloc: Global, text: &[u8]) -> u32
    requires { length text.now ≤ LONGEST_CERT }
{
    match read_cert(alloc, text) {
        Ok(cert) => {
            let printed = print_cert(alloc, &cert).expect(rt, "memory");
            assert!(rt; printed.as_slice() == text, "another text");
            0
        }
        Err(fault) => line_of(rt, fault),
    }
}

fn bad_line_of_extra(rt: &impl Abort, alloc: Global, text: &[u8]) -> u32
    requires { length text.now ≤ LONGEST_CERT }
{
    match read_extra(alloc, text) {
        Ok(stage) => {
            let printed = print_extra(alloc, &stage).expect(rt, "memory");
            assert!(rt; printed.as_slice() == text, "another text");
            0
        }
        Err(fault) => line_of(rt, fault),
    }
}

fn line_of(rt: &impl Abort, fault: CertFault) -> u32 {
    match fault {
        CertFault::BadLine { line } => line,
        CertFault::Memory => panic!(rt; "memory"),
    }
}

#[test]
fn every_byte_replaced_is_bad_or_read(rt: HostRuntime) {
    let text = TEXT.as_bytes();
    let (mut line, mut column) = (1_u32, 0_u32);
    for (at, old) in text.iter().enumerate() {
        let rows = rows_at(&rt, rt.alloc(), line, column);
        check_byte(&rt, rt.alloc(), at, *old, line, &rows);
        column = column.wrapping_add(1);
        if *old == b'\n' {
            line = line.wrapping_add(1);
            column = 0;
        }
    }
}

// Each other byte at this place, which is in the line that has these rows.
fn check_byte(rt: &impl Abort, alloc: Global, place: usize, old: u8, line: u32, rows: &[Row<'_>]) {
    for byte in 0..=255_u8 {
        if byte != old {
            let found = bad_at(rt, alloc, place, byte);
            let wanted = wanted_line(rows, line, byte);
            assert!(rt;
                found == wanted,
                "byte {byte} at {place}: {found}, not {wanted}"
            );
        }
    }
}

// The bad line of the example with this byte at this place.
fn bad_at(rt: &impl Abort, alloc: Global, place: usize, byte: u8) -> u32 {
    let changed = replaced(rt, alloc, place, byte);
    bad_line(rt, alloc, &changed, false)
}

// The rows for a line and a column.
fn rows_at(rt: &impl Abort, alloc: Global, line: u32, column: u32) -> Vec<Row<'static>> {
    let mut rows = Vec::new(alloc);
    for text in BYTE_ROWS.split('\n') {
        let row = read_row(rt, text);
        if row.from == line && row.to == column {
            rows.push(row).expect(rt, "memory");
        }
    }
    rows
}

// The example with this byte at this place.
fn replaced(rt: &impl Abort, alloc: Global, place: usize, byte: u8) -> Vec<u8> {
    let mut text = Vec::from_slice(alloc, TEXT.as_bytes()).expect(rt, "memory");
    if place < text.len() {
        text[place] = byte;
    }
    text
}

// The line that is bad where the byte stands in the line that has these rows.
fn wanted_line(rows: &[Row<'_>], line: u32, byte: u8) -> u32 {
    let byte = match byte {
        b'\n' => b'/',
        b'/' => return line,
        other => other,
    };
    for row in rows {
        if row.lines.as_bytes().contains(&byte) {
            return number(row.wanted);
        }
    }
    line
}

/// The certificate of a text.
pub fn certificate_of(rt: &impl Abort, alloc: Global, text: &str) -> Certificate
    ensures { IsPrintable result }
{
    assert!(rt; text.len() <= LONGEST_CERT, "too long");
    read_cert(alloc, text.as_bytes()).expect(rt, "a certificate")
}

/// A certificate with these four stages, which have marks between them: `-` for a stage without
/// units, `kept` where the one unit has its first alternative at no cost, `none` where a window
/// rules out all choices, `untried`, or else the stage's lines from its mark on, with semicolons
/// between.
pub fn certificate(rt: &impl Abort, alloc: Global, stages: &str, mark: char) -> Certificate
    ensures { IsPrintable result }
{
    let mut text = String::from_str(alloc, "CERT 1\n").expect(rt, "memory");
    put_stages(rt, &mut text, stages, mark);
    text.push_str("END\n").expect(rt, "memory");
    certificate_of(rt, alloc, text.as_str())
}

fn put_stages(rt: &impl Abort, text: &mut String, stages: &str, mark: char) {
    let mut number = 0_u32;
    for stage in stages.split(mark) {
        number = number.wrapping_add(1);
        write!(text, "STAGE {number} ").expect(rt, "memory");
        put_stage(rt, text, stage);
    }
}

// Adds the lines of a stage, from its mark on.
fn put_stage(rt: &impl Abort, text: &mut String, stage: &str) {
    match stage {
        "-" => put_lines(
            rt,
            text,
            "OPTIMAL;CHOICES 0;COST 0;VECTORS 0;TREE 1;L 0 1 0",
            ';',
        ),
        "kept" => put_lines(rt, text, KEPT, ';'),
        "none" => put_lines(
            rt,
            text,
            "INFEASIBLE;CHOICES NONE;VECTORS 0;TREE 1;O 0",
            ';',
        ),
        "untried" => put_lines(rt, text, "NOT TRIED", ';'),
        _ => put_lines(rt, text, stage, ';'),
    }
}

const KEPT: &str = "OPTIMAL;CHOICES 1;C 0 0;COST 0;VECTORS 0;TREE 1;L 0 1 0";

//! The replies to the messages of worked seasons, byte for byte. The season S25 has 210 dates.

use crate::certificates::certificate;
use crate::lines::{halves, last_halves};
use crate::seasons::{submission, whole};
use scr_replies::season_replies;
use series_model::Submission;
use std::alloc::Global;
use std::process::Abort;

// Rows: the lines of a capacity file below the ground time; those of a message below its header, or
// a whole text; the four stages, as `certificate` takes them, with strokes between; and the lines
// of the reply between header and empty line, or a whole text. Semicolons stand between lines. The
// trees have their form, and prove nothing.
//
// A historic series has its times; of two in one window neither has any. A request in a window that
// is used has 0700, which is number 18 of those from 0530 to 0730; where the stage has no
// allotment, or a refusal costs less, none. A turnaround from 0630 to 0715 has 0555 and 0715: of
// 0530 and 0535 there are 25 pairs, then 24, 23 and 22, and 0555 begins with 0635. Of a pair the
// historic times are number 1; confirmed or refused is its L line. Of four new entrants two are
// refused in stage 3, and one of these in stage 4. A pair that asks for 2300 in place of 0630 on
// the next date may have 2325, number 5, or the historic times, number 12. With a night between,
// arrivals are from 2200 to 2355 and departures from 0000 to 0110, so 2205 and 0020 are number 19.
// Alone a departure has 0635, number 13. Two messages have their own units, and one without items
// its header alone.
const ROWS: &str = "\
FLEX 60;REFUSE NONE;CAP ARR 60 0600 0600 1234567 1|FBA001 30MAR25OCT 1234567 180320 JFK0610 J|\
    kept/-/-/-|KBA001 30MAR25OCT 1234567 180320 JFK0610 J
FLEX 60;REFUSE NONE;CAP ARR 60 0600 0600 1234567 1|FBA001 30MAR25OCT 1234567 180320 JFK0610 J;\
    FBA002 30MAR25OCT 1234567 180320 JFK0620 J|none/untried/untried/untried|UBA001 30MAR25OCT \
    1234567 180320 JFK0610 J;UBA002 30MAR25OCT 1234567 180320 JFK0620 J
FLEX 60;REFUSE NONE;CAP ARR 60 0600 0600 1234567 1|FBA001 30MAR25OCT 1234567 180320 JFK0610 J;\
    NBA002 30MAR25OCT 1234567 180320 JFK0630 J|kept/-/-/OPTIMAL;CHOICES 1;C 0 18;COST 0;VECTORS 0;\
    TREE 1;L 0 1 0|KBA001 30MAR25OCT 1234567 180320 JFK0610 J;UBA002 30MAR25OCT 1234567 180320 \
    JFK0630 J;OBA002 30MAR25OCT 1234567 180320 JFK0700 J
FLEX 25;REFUSE NONE;CAP ARR 60 0600 0600 1234567 1|FBA001 30MAR25OCT 1234567 180320 JFK0610 J;\
    NBA002 30MAR25OCT 1234567 180320 JFK0630 J|kept/-/-/none|KBA001 30MAR25OCT 1234567 180320 \
    JFK0610 J;UBA002 30MAR25OCT 1234567 180320 JFK0630 J
FLEX 60;REFUSE 20;CAP ARR 60 0600 0600 1234567 1|FBA001 30MAR25OCT 1234567 180320 JFK0610 J;\
    NBA002 30MAR25OCT 1234567 180320 JFK0630 J|kept/-/-/OPTIMAL;CHOICES 1;C 0 25;COST 0;VECTORS 0;\
    TREE 1;L 0 1 0|KBA001 30MAR25OCT 1234567 180320 JFK0610 J;UBA002 30MAR25OCT 1234567 180320 \
    JFK0630 J
FLEX 60;REFUSE NONE;CAP ARR 60 0600 0600 1234567 1|FBA001 30MAR25OCT 1234567 180320 JFK0610 J;\
    NBA002 BA003 30MAR25OCT 1234567 180320 JFK0630 0715JFK JJ|kept/-/-/OPTIMAL;CHOICES 1;C 0 127;\
    COST 0;VECTORS 0;TREE 1;L 0 1 0|KBA001 30MAR25OCT 1234567 180320 JFK0610 J;UBA002 BA003 \
    30MAR25OCT 1234567 180320 JFK0630 0715JFK JJ;OBA002 BA003 30MAR25OCT 1234567 180320 JFK0555 \
    0715JFK JJ
FLEX 60;REFUSE NONE;CAP ARR 20 0620 0620 1234567 1|FBA001 30MAR25OCT 1234567 180320 JFK0625 J;\
    CBA002 30MAR25OCT 1234567 180320 JFK0610 J;LBA002 30MAR25OCT 1234567 180320 JFK0630 J|\
    kept/OPTIMAL;CHOICES 1;C 0 1;COST 0;VECTORS 0;TREE 1;L 0 1 0/-/-|KBA001 30MAR25OCT 1234567 \
    180320 JFK0625 J;UBA002 30MAR25OCT 1234567 180320 JFK0630 J;HBA002 30MAR25OCT 1234567 180320 \
    JFK0610 J
FLEX 0;REFUSE 10;CAP ARR 60 0600 0600 1234567 3|BBA001 30MAR 7 180320 JFK0610 J;BBA002 30MAR 7 \
    180320 JFK0610 J;BBA003 30MAR 7 180320 JFK0610 J;BBA004 30MAR 7 180320 JFK0610 J|-/-/OPTIMAL;\
    CHOICES 4;C 0 0;C 1 0;C 2 1;C 3 1;COST 0;VECTORS 0;TREE 1;L 0 1 0/OPTIMAL;CHOICES 2;C 0 0;C 1 \
    1;COST 0;VECTORS 0;TREE 1;L 0 1 0|KBA001 30MAR30MAR 0000007 180320 JFK0610 J;KBA002 \
    30MAR30MAR 0000007 180320 JFK0610 J;KBA003 30MAR30MAR 0000007 180320 JFK0610 J;UBA004 \
    30MAR30MAR 0000007 180320 JFK0610 J
FLEX 60;REFUSE NONE|SCR\r;/ABC123\r;S25\r;20NOV\r;ABC\r;NU21234 U21235 31MAR24OCT 1030500 186320 \
    LTNBFS0815 0905BFSLTN JJ\r;NEZY12A 01APR 2 180319 LGW1000 J\r;GI BRGDS\r|-/-/-/OPTIMAL;\
    CHOICES 2;C 0 257;C 1 12;COST 0;VECTORS 0;TREE 1;L 0 1 0|SCR;S25;20NOV;ABC;KU21234 U21235 \
    31MAR24OCT 1030500 186320 LTNBFS0815 0905BFSLTN JJ;KEZY012A 01APR01APR 0200000 180319 LGW1000 J;
FLEX 60;REFUSE NONE|CBA002 30MAR 7 180320 JFK0610 J;LBA002 30MAR 7 190321 JFK0630 J|-/kept/-/-|\
    KBA002 30MAR30MAR 0000007 190321 JFK0630 J
FLEX 60;REFUSE NONE|CBA002 30MAR 7 180320 JFK0610 J;LBA002 30MAR 7 190321 JFK0630 J|-/OPTIMAL;\
    CHOICES 1;C 0 1;COST 0;VECTORS 0;TREE 1;L 0 1 0/-/-|UBA002 30MAR30MAR 0000007 190321 JFK0630 \
    J;HBA002 30MAR30MAR 0000007 180320 JFK0610 J
FLEX 60;REFUSE NONE|CBA002 30MAR 7 180320 JFK0610 J;LBA002 30MAR 7 190321 JFK0630 J|\
    -/none/untried/untried|UBA002 30MAR30MAR 0000007 190321 JFK0630 J
FLEX 60;REFUSE NONE|CBA001 BA002 30MAR 7 180320 JFK2200 06301JFK JJ;RBA001 BA002 30MAR 7 180320 \
    JFK2200 2300JFK JJ|-/OPTIMAL;CHOICES 1;C 0 5;COST 0;VECTORS 0;TREE 1;L 0 1 0/-/-|UBA001 BA002 \
    30MAR30MAR 0000007 180320 JFK2200 2300JFK JJ;OBA001 BA002 30MAR30MAR 0000007 180320 JFK2200 \
    2325JFK JJ
FLEX 60;REFUSE NONE|CBA001 BA002 30MAR 7 180320 JFK2200 06301JFK JJ;RBA001 BA002 30MAR 7 180320 \
    JFK2200 2300JFK JJ|-/OPTIMAL;CHOICES 1;C 0 12;COST 0;VECTORS 0;TREE 1;L 0 1 0/-/-|UBA001 \
    BA002 30MAR30MAR 0000007 180320 JFK2200 2300JFK JJ;HBA001 BA002 30MAR30MAR 0000007 180320 \
    JFK2200 06301JFK JJ
FLEX 60;REFUSE NONE|NBA005 BA006 30MAR 7 180320 JFK2300 00101JFK JJ;N BA007 30MAR 7 180320 \
    0630JFK J|-/-/-/OPTIMAL;CHOICES 2;C 0 19;C 1 13;COST 0;VECTORS 0;TREE 1;L 0 1 0|UBA005 BA006 \
    30MAR30MAR 0000007 180320 JFK2300 00101JFK JJ;OBA005 BA006 30MAR30MAR 0000007 180320 JFK2205 \
    00201JFK JJ;U BA007 30MAR30MAR 0000007 180320 0630JFK J;O BA007 30MAR30MAR 0000007 180320 \
    0635JFK J
FLEX 60;REFUSE NONE|SCR;S25;20NOV;ABC;FBA001 30MAR 7 180320 JFK0610 J;;SCR;S25;21NOV;ABC;;SCR;S25;\
    22NOV;ABC;NBA002 30MAR 7 180320 JFK0700 J|kept/-/-/kept|SCR;S25;20NOV;ABC;KBA001 30MAR30MAR \
    0000007 180320 JFK0610 J;;SCR;S25;21NOV;ABC;;SCR;S25;22NOV;ABC;UBA002 30MAR30MAR 0000007 \
    180320 JFK0700 J;OBA002 30MAR30MAR 0000007 180320 JFK0600 J;";

#[test]
fn replies_are_as_worked(rt: HostRuntime) {
    for row in ROWS.split('\n') {
        check_row(&rt, rt.alloc(), row);
    }
}

fn check_row(rt: &impl Abort, alloc: Global, row: &str) {
    let (season, want) = last_halves(row, '|');
    let (season, stages) = last_halves(season, '|');
    let (capacity, messages) = halves(season, '|');
    let submission = submission(rt, alloc, capacity, messages);
    let replies = replies(rt, alloc, &submission, stages);
    check_replies(rt, alloc, &replies, want, row);
}

fn check_replies(rt: &impl Abort, alloc: Global, replies: &[u8], want: &str, row: &str) {
    let text = whole_reply(rt, alloc, want);
    assert!(rt; replies == text.as_bytes(), "{row}");
}

// The replies by a certificate with these stages.
fn replies(rt: &impl Abort, alloc: Global, submission: &Submission, stages: &str) -> Vec<u8> {
    let cert = certificate(rt, alloc, stages, '/');
    season_replies(alloc, submission, &cert).expect(rt, "memory")
}

// A reply, with the header and the empty line where they are not there.
fn whole_reply(rt: &impl Abort, alloc: Global, reply: &str) -> String {
    let mut text = whole(rt, alloc, "S25", reply);
    if !reply.starts_with("SCR") {
        text.push('\n').expect(rt, "memory");
    }
    text
}

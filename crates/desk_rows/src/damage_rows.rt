//! Damaged input, command by command: each that reads a season refuses a damaged one, each that
//! reads a certificate a damaged one, and what is read behind these is refused by the commands that
//! read it. Where a season or a certificate is damaged, the files behind it are out of form, too:
//! what comes first is refused.

use crate::play::play_script;
use std::alloc::Global;
use std::process::Abort;

/// A season, a certificate that is valid for it, and files that come behind these, none of which is
/// in its form.
const WORLD: &str = "\
file CAP AIRPORT ABC;SEASON S25;STEP 5;FLEX 60;GROUND 40;REFUSE NONE;\
    CAP ARR 60 0600 0600 1234567 1;
file SCR SCR;S25;20NOV;ABC;FBA001 30MAR30MAR 0000007 180320 JFK0610 J;\
    NBA002 30MAR30MAR 0000007 180320 JFK0630 J;
file CERT CERT 1;STAGE 1 OPTIMAL;CHOICES 1;C 0 0;COST 0;VECTORS 0;TREE 1;L 0 1 0;\
    STAGE 2 OPTIMAL;CHOICES 0;COST 0;VECTORS 0;TREE 1;L 0 1 0;STAGE 3 OPTIMAL;CHOICES 0;COST 0;\
    VECTORS 0;TREE 1;L 0 1 0;STAGE 4 OPTIMAL;CHOICES 1;C 0 18;COST 30;VECTORS 1;VECTOR 1;\
    P 0 32768;TREE 1;L 1 1024 30;END;
file ASKS ^
file OPERATED ^
file EXTRA ^
";

/// What each command that reads a season refuses.
const SEASON: &str = "\
line STEP 5|STEP 18446744073709551616|3 FORM CAP 3;
line FLEX 60|FLEX 125|4 LIMIT FLEX 125;
line FBA001 30MAR30MAR 0000007 180320 JFK0610 J|\
    ^BA001 30MAR30MAR 0000007 180320 JFK0610 J|3 FORM SCR 5;
line SCR|{100000 AAAAAAAAAA}|3 FORM SCR 1;
line SCR|{524288 AAAAAAAA}|5 CABINET SCR LARGE;
line AIRPORT ABC|{524288 AAAAAAAA}|5 CABINET CAP LARGE;
";

/// The same of `inspect`, which says why in a second line, but for files that are too large.
const INSPECTED: &str = "\
words inspect CAP SCR
line STEP 5|STEP 18446744073709551616|3 FORM CAP 3;FIELD 2 VALUE;
line FLEX 60|FLEX 125|4 LIMIT FLEX 125;MOST 120;
line FBA001 30MAR30MAR 0000007 180320 JFK0610 J|\
    ^BA001 30MAR30MAR 0000007 180320 JFK0610 J|3 FORM SCR 5;FIELD 1 CODE;
line SCR|{100000 AAAAAAAAAA}|3 FORM SCR 1;LONG;
line SCR|{524288 AAAAAAAA}|5 CABINET SCR LARGE;
line AIRPORT ABC|{524288 AAAAAAAA}|5 CABINET CAP LARGE;
";

/// What each command that reads a certificate refuses.
const CERTIFICATE: &str = "\
line 28-28|TREE 4294967295|3 FORM CERT 30;
line VECTORS 1|VECTORS 65|3 FORM CERT 25;
line 28-29|TREE 0|1 NO 28 SHAPE;
line C 0 18|C 0 25|1 NO 23 CHOICE;
line COST 30|COST 18446744073709551615|1 NO 24 COST;
line L 1 1024 30|L 1 18446744073709551615 30|1 NO 29 LEAF;
line L 1 1024 30|L 2 1024 30|1 NO 29 LEAF;
line L 1 1024 30|U|1 NO 29 UNDONE;
line END|END;END|3 FORM CERT 31;
line P 0 32768|P 0 -1|1 NO 27 PRICE;
fronts CERT
";

/// The words of each command that reads a certificate.
const COMMANDS: &str = "\
check CAP SCR CERT
amend CAP SCR CERT ASKS ANSWERS
serve CAP SCR CERT RECORD
resume CAP SCR CERT JOURNAL RECORD
usage CAP SCR CERT OPERATED NEXT
reclear CAP SCR CERT ASKS EXTRA REPLIES
recheck CAP SCR CERT ASKS EXTRA
report CAP SCR CERT REPORT PAGE";

/// What is refused of the files that are read behind a certificate.
const BEHIND: &str = "\
words amend CAP SCR CERT ASKS ANSWERS
line ^|{524288 AAAAAAAA}|5 CABINET ASKS LARGE;
words reclear CAP SCR CERT ASKS EXTRA REPLIES
line ^|{524288 AAAAAAAA}|5 CABINET ASKS LARGE;
words recheck CAP SCR CERT ASKS EXTRA
line ^|{524288 AAAAAAAA}|5 CABINET ASKS LARGE;
words usage CAP SCR CERT OPERATED NEXT
line ^|{524288 AAAAAAAA}|5 CABINET OPERATED LARGE;
says 3 FORM OPERATED 1;
words recheck CAP SCR CERT ASKS EXTRA
says 3 FORM EXTRA 1;
";

/// The script of a command, and of what it refuses.
fn script_of(rt: &impl Abort, alloc: Global, words: &str, rows: &str) -> String {
    format!(in alloc; "{WORLD}words {words}\n{SEASON}{rows}").expect(rt, "memory")
}

#[test]
fn damaged_seasons_are_refused(rt: HostRuntime) {
    let alloc = rt.alloc();
    let script = script_of(&rt, alloc, "allocate CAP SCR CERT REPLIES", "");
    play_script(&rt, alloc, &script);
    let script = format!(in alloc; "{WORLD}{INSPECTED}").expect(&rt, "memory");
    play_script(&rt, alloc, &script);
}

#[test]
fn damaged_certificates_are_refused(rt: HostRuntime) {
    let alloc = rt.alloc();
    for words in COMMANDS.lines() {
        let script = script_of(&rt, alloc, words, CERTIFICATE);
        play_script(&rt, alloc, &script);
    }
}

#[test]
fn files_behind_a_certificate_are_refused(rt: HostRuntime) {
    let alloc = rt.alloc();
    let script = format!(in alloc; "{WORLD}{BEHIND}").expect(&rt, "memory");
    play_script(&rt, alloc, &script);
}

//! Times, days of operation and kinds. The rows are worked by hand.

use crate::rows::{Case, Finding, walk};
use schedule_text::{
    kind_text, places_of, read_kind, read_places, read_time, read_two_digits, read_weekdays,
};
use std::alloc::Global;
use std::process::Abort;

/// A text as a time, and as two digits.
#[derive(Drop)]
struct Times;

impl Case for Times {
    fn find(&mut self, _rt: &impl Abort, given: &[u8], out: &mut Finding) {
        out.show(read_time(given));
        out.put(b" ");
        out.show(read_two_digits(given))
    }
}

const TIMES: &[u8] = b"\
0000|Some(0) None
0905|Some(545) None
2359|Some(1439) None
2400|None None
0060|None None
905|None None
09:5|None None
09050|None None
|None None
07|None Some(7)
7|None None
";

/// A text as days of operation, as days in their places, and the days in their places again.
#[derive(Drop)]
struct Weekdays;

impl Case for Weekdays {
    fn find(&mut self, _rt: &impl Abort, given: &[u8], out: &mut Finding) {
        let days = read_weekdays(given);
        out.show(days);
        out.put(b" ");
        out.show(read_places(given));
        if let Some(days) = days {
            out.put(b" ");
            out.put(&places_of(days));
        }
    }
}

const WEEKDAYS: &[u8] = b"\
1234567|Some(127) Some(127) 1234567
0000000|Some(0) Some(0) 0000000
1030500|Some(21) Some(21) 1030500
0000067|Some(96) Some(96) 0000067
135|Some(21) None 1030500
67|Some(96) None 0000067
7|Some(64) None 0000007
123456|Some(63) None 1234560
531|None None
11|None None
0|None None
8|None None
2134567|None None
12345678|None None
1 3|None None
|None None
";

#[derive(Drop)]
struct Kinds;

impl Case for Kinds {
    fn find(&mut self, _rt: &impl Abort, given: &[u8], out: &mut Finding) {
        let Some(kind) = read_kind(given) else {
            return out.say("-");
        };
        out.show(kind);
        out.put(b" ");
        out.put(&kind_text(kind));
    }
}

const KINDS: &[u8] = b"\
ARR|Arr ARR
DEP|Dep DEP
TOT|Tot TOT
arr|-
ARRX|-
|-
";

#[test]
fn times_days_and_kinds(rt: HostRuntime) {
    let alloc = rt.alloc();
    walk(&rt, alloc, &mut Times, TIMES);
    walk(&rt, alloc, &mut Weekdays, WEEKDAYS);
    walk(&rt, alloc, &mut Kinds, KINDS)
}

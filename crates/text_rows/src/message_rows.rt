//! Slot clearance messages. What is read, printed or refused is worked by hand.

use crate::rows::{Case, Finding, ascii, cut, walk};
use scr_reader::{
    Code, Flight, Item, Line, Message, MessageList, ScrFault, Stop, cut_messages, print_flight,
    print_header, print_item, print_line, read_all, read_flight, read_item, read_message,
    read_period,
};
use season_days::Season;
use slot_text::{Station, field};
use std::alloc::Global;
use std::process::Abort;

const MOST_BYTES: usize = 10_000_000;

const HEADER: &[u8] = b"SCR\nS25\n20NOV\nABC\n";

fn messages(alloc: Global, text: &[u8]) -> Result<MessageList, ScrFault> {
    if text.len() > MOST_BYTES {
        return Err(ScrFault::Memory);
    }
    read_all(alloc, text)
}

fn message(alloc: Global, text: &[u8]) -> Result<Message, ScrFault> {
    if text.len() > MOST_BYTES {
        return Err(ScrFault::Memory);
    }
    read_message(alloc, text)
}

/// A message for the summer of 2025 with these lines below its header.
fn below(rt: &impl Abort, alloc: Global, lines: &[u8]) -> Vec<u8> {
    let mut text = Vec::from_slice(alloc, HEADER).expect(rt, "memory");
    text.extend_from_slice(lines).expect(rt, "memory");
    text
}

/// Where messages stand: the number of the first line, and the bytes.
#[derive(Drop)]
struct Cuts;

impl Case for Cuts {
    fn find(&mut self, rt: &impl Abort, given: &[u8], out: &mut Finding) {
        assert!(rt; given.len() <= MOST_BYTES, "too long");
        let pieces = cut_messages(out.alloc, given).expect(rt, "messages");
        for piece in pieces.as_slice() {
            out.say(format_args!("{} {}-{},", piece.line, piece.from, piece.to));
        }
    }
}

const CUTS: &[u8] = b"\
|
; \t\r;;|
a|1 0-1,
;a\r; b;;;c;d|2 1-7,6 9-12,
a;\r;b;|1 0-2,3 4-6,
a\r ;\t|1 0-4,
";

/// What is read: of each message the number of its season line and its header, and of each item its
/// line and its parts.
#[derive(Drop)]
struct Readings;

impl Case for Readings {
    fn find(&mut self, rt: &impl Abort, given: &[u8], out: &mut Finding) {
        let found = messages(out.alloc, given).expect(rt, "messages");
        for message in found.items() {
            say_message(out, message);
        }
    }
}

fn say_message(out: &mut Finding, message: &Message) {
    let (line, day, month) = (message.line, message.day, message.month);
    out.say(format_args!("{line} {day} {month}\n"));
    let kept = print_header(out.alloc, &mut out.bytes, &message.header());
    out.keep(kept);
    for placed in message.items.items() {
        out.say(format_args!("{} ", placed.line));
        say_item(out, &placed.item);
        out.put(b"\n");
    }
}

fn say_item(out: &mut Finding, item: &Item) {
    match item {
        Item::One(line) => say_line(out, line),
        Item::Pair(changed, asked) => {
            say_line(out, changed);
            out.say(" to ");
            say_line(out, asked)
        }
        Item::Query(flight) => {
            out.say("asks for ");
            say_flight(out, *flight)
        }
    }
}

fn say_line(out: &mut Finding, line: &Line) {
    out.say(format_args!("{:?} ", line.code));
    say_stop(out, line.arrival);
    say_stop(out, line.departure);
    let (nights, period, seats) = (line.nights, line.period, line.seats);
    let (first, last, days) = (period.first.0, period.last.0, period.days);
    let craft = ascii(&line.craft.0);
    out.say(format_args!("{nights} {first}-{last}/{days} {seats} {craft}"))
}

fn say_stop(out: &mut Finding, stop: Option<Stop>) {
    let Some(stop) = stop else {
        return out.say("- ");
    };
    let far = match stop.far {
        Some(far) => far.0,
        None => *b"...",
    };
    let (near, far, service) = (ascii(&stop.near.0), ascii(&far), char::from(stop.service));
    say_flight(out, stop.flight);
    out.say(format_args!(" {} {near} {far} {service}, ", stop.minute))
}

fn say_flight(out: &mut Finding, flight: Flight) {
    for byte in flight.airline {
        let letter = if byte == 0 { b'.' } else { byte };
        out.put(&[letter]);
    }
    out.say(format_args!(" {} ", flight.number));
    let suffix = match flight.suffix {
        0 => b'.',
        letter => letter,
    };
    out.put(&[suffix]);
}

// Mondays, Wednesdays and Fridays from the 31st of March to the 24th of October of 2025, at Luton
// on the way from and to Belfast; the first of April of 2025, a Tuesday; two messages between
// empty lines, the second with a pair and a question; and each Sunday of the summer of 2025 but
// the last, at one minute before midnight.
const READINGS: &[u8] = b"\
SCR\r;/ABC123\r;S25\r;20NOV\r;ABC\r;\
    NU21234 U21235 31MAR24OCT 1030500 186320 LTNBFS0815 0905BFSLTN JJ\r;\
    NEZY12A 01APR 2 180319 LGW1000 J\r;GI BRGDS\r;|3 20 11;SCR;S25;20NOV;ABC;\
    6 N U2. 1234 . 495 LTN BFS J, U2. 1235 . 545 BFS LTN J, 0 1-208/21 186 320;\
    7 N EZY 12 A 600 LGW ... J, - 0 2-2/2 180 319;
; \t;SCR;S25;20NOV;ABC;;\r;SCR;/x;W25;29FEB;XYZ;CBA002 20DEC10JAN 1000000 180320 JFK0610 J;GI;\
    LBA002 20DEC10JAN 1 180320 JFK0630 J;QBA12;|4 20 11;SCR;S25;20NOV;ABC;11 29 2;SCR;W25;29FEB;\
    XYZ;14 C BA. 2 . 370 JFK ... J, - 0 55-76/1 180 320 to L BA. 2 . 390 JFK ... J, - 0 55-76/1 \
    180 320;17 asks for BA. 12 .;
SCR;S25;20NOV;ABC;D 2A7 30MAR19OCT 7 005A32 2359JFKLHR J|2 20 11;SCR;S25;20NOV;ABC;\
    5 D - 2A. 7 . 1439 JFK LHR J, 0 0-203/64 5 A32;
";

/// The line of the header that is not of this season and airport.
#[derive(Drop)]
struct Strays;

impl Case for Strays {
    fn find(&mut self, rt: &impl Abort, given: &[u8], out: &mut Finding) {
        let season = Season::read(field(given, 1).expect(rt, "season")).expect(rt, "season");
        let airport = Station::read(field(given, 2).expect(rt, "airport")).expect(rt, "airport");
        let found = message(out.alloc, b"SCR\n/ABC123\nS25\n20NOV\nABC\n").expect(rt, "a message");
        say_stray(rt, out, &found, season, airport)
    }
}

fn say_stray(
    rt: &impl Abort,
    out: &mut Finding,
    found: &Message,
    season: Season,
    airport: Station,
) {
    assert!(rt; found.line <= 1_000, "a line behind the text");
    match found.stray_line(season, airport) {
        Some(stray) => out.say(format_args!("{stray:?} {}", stray.line())),
        None => out.say("-"),
    }
}

const STRAYS: &[u8] = b"\
W25 XYZ|Season(3) 3
S25 XYZ|Airport(5) 5
S25 ABC|-
";

/// Appends the printed item, if it has a spelling.
fn put_item(out: &mut Finding, season: &Season, item: &Item) {
    if item.fits(season) {
        let kept = print_item(out.alloc, &mut out.bytes, season, item);
        out.keep(kept);
    }
}

/// The items of the first message in their printed spelling, or its fault.
fn print_items(out: &mut Finding, text: &[u8]) {
    let found = match message(out.alloc, text) {
        Ok(found) => found,
        Err(fault) => return out.say(fault),
    };
    for placed in found.items.items() {
        put_item(out, &found.season, &placed.item);
    }
}

#[derive(Drop)]
struct FirstMessages;

impl Case for FirstMessages {
    fn find(&mut self, _rt: &impl Abort, given: &[u8], out: &mut Finding) {
        print_items(out, given)
    }
}

const FIRST_MESSAGES: &[u8] = b"\
|line 1: a header line that has not its form
; ;|line 3: a header line that has not its form
SCR;W25;29FEB;ABC;N2A9999 20DEC10JAN 246 180320 JFK0000 J;|\
    N2A9999 20DEC10JAN 0204060 180320 JFK0000 J;
SCR;W27;20NOV;ABC;NBA1 29FEB 2 180320 JFK0610 J|NBA001 29FEB29FEB 0200000 180320 JFK0610 J;
SCR;W27;20NOV;ABC;NBA1 28FEB01MAR 3 180320 JFK0610 J|NBA001 28FEB01MAR 0030000 180320 JFK0610 J;
; ;SCR;W99;31DEC;ABC;NBA1 31OCT27MAR 7 180320 JFK0610 J;;bad|\
    NBA001 31OCT27MAR 0000007 180320 JFK0610 J;
";

/// Lines below a header, printed.
#[derive(Drop)]
struct Printed;

impl Case for Printed {
    fn find(&mut self, rt: &impl Abort, given: &[u8], out: &mut Finding) {
        let text = below(rt, out.alloc, given);
        print_items(out, &text)
    }
}

// First what stays, and then wide spellings.
const PRINTED: &[u8] = b"\
|
FBA001 30MAR25OCT 1234567 180320 JFK0610 J;\
    NBA002 BA003 30MAR25OCT 1234567 180320 JFK0630 0715JFK JJ;|\
    FBA001 30MAR25OCT 1234567 180320 JFK0610 J;\
    NBA002 BA003 30MAR25OCT 1234567 180320 JFK0630 0715JFK JJ;
FBA001 30MAR25OCT 1234567 180320 JFK0625 J;CBA002 30MAR25OCT 1234567 180320 JFK0610 J;\
    LBA002 30MAR25OCT 1234567 180320 JFK0630 J;|FBA001 30MAR25OCT 1234567 180320 JFK0625 J;\
    CBA002 30MAR25OCT 1234567 180320 JFK0610 J;LBA002 30MAR25OCT 1234567 180320 JFK0630 J;
FBA001 BA002 24OCT24OCT 0000500 180320 JFK2200 06301JFK JJ;|\
    FBA001 BA002 24OCT24OCT 0000500 180320 JFK2200 06301JFK JJ;
NBA002 30MAR25OCT 1234567 180320 JFK0620 J;ABA003 30MAR25OCT 1234567 180320 JFK0700 J;\
    DBA002 01JUN30JUN 1234567 180320 JFK0620 J;ZBA009 30MAR25OCT 1234567 180320 JFK0700 J;|\
    NBA002 30MAR25OCT 1234567 180320 JFK0620 J;ABA003 30MAR25OCT 1234567 180320 JFK0700 J;\
    DBA002 01JUN30JUN 1234567 180320 JFK0620 J;ZBA009 30MAR25OCT 1234567 180320 JFK0700 J;
NU21234 U21235 31MAR24OCT 1030500 186320 LTNBFS0815 0905BFSLTN JJ;|\
    NU21234 U21235 31MAR24OCT 1030500 186320 LTNBFS0815 0905BFSLTN JJ;
BEZY9999Z 25OCT25OCT 0000060 999320 JFKLGW2359 Z;|\
    BEZY9999Z 25OCT25OCT 0000060 999320 JFKLGW2359 Z;
NXY1003 XZ1003 30MAR25OCT 1234567 180320 JFK0925 1030JFK JJ;|\
    NXY1003 XZ1003 30MAR25OCT 1234567 180320 JFK0925 1030JFK JJ;
NEZY12A 01APR 2 180319 LGW1000 J\r;GI BRGDS\r;|NEZY012A 01APR01APR 0200000 180319 LGW1000 J;
YBA1 \t 30MAR25OCT 1234567  180320 JFK0610 J \t;|NBA001 30MAR25OCT 1234567 180320 JFK0610 J;
V BA0012B 30MAR 7 001A32 2359JFKLHR Z|B BA012B 30MAR30MAR 0000007 001A32 2359JFKLHR Z;
CBA2 31MAR 135 180320 JFK0610 J;SI x;IBA02 31MAR31MAR 1030500 180320 JFK0630 J|\
    CBA002 31MAR31MAR 1030500 180320 JFK0610 J;RBA002 31MAR31MAR 1030500 180320 JFK0630 J;
FBA001 BA002 25OCT 6 180320 JFK2200 06301JFK JJ;|\
    FBA001 BA002 25OCT25OCT 0000060 180320 JFK2200 06301JFK JJ;
NBA001 BA002 30MAR25OCT 1234567 180320 JFK0630 07150JFK JJ;|\
    NBA001 BA002 30MAR25OCT 1234567 180320 JFK0630 0715JFK JJ;
NBA001 BA002 30MAR25OCT 123456 180320 JFK0000 00009JFK JJ;|\
    NBA001 BA002 30MAR25OCT 1234560 180320 JFK0000 00009JFK JJ;
A 2A0 30MAR05APR 24 000000 0000JFK A;|A 2A000 30MAR05APR 0204000 000000 0000JFK A;
ZA20999 31MAR13APR 1 999ZZZ JFK2359 Z;|ZA2999 31MAR13APR 1000000 999ZZZ JFK2359 Z;
QBA1;SI;GI\tx;SI \0\x7f\x80\xff\r;|QBA001;
DAAA0001 30APR 3 180320 JFK0610 J;;bad|DAAA001 30APR30APR 0030000 180320 JFK0610 J;
NBA001 1A2320 30MAR25OCT 1234567 180320 JFK0610 0700JFK JJ|\
    NBA001 1A2320 30MAR25OCT 1234567 180320 JFK0610 0700JFK JJ;
";

/// A line under the code of a reply.
#[derive(Drop)]
struct Replies;

impl Case for Replies {
    fn find(&mut self, rt: &impl Abort, given: &[u8], out: &mut Finding) {
        let (word, lines) = cut(given, b' ');
        let code = reply_code(rt, word);
        let text = below(rt, out.alloc, lines);
        let found = message(out.alloc, &text).expect(rt, "a message");
        for placed in found.items.items() {
            put_reply(out, &found.season, code, &placed.item);
        }
    }
}

/// Appends a line under the code, if it has a spelling.
fn put_reply(out: &mut Finding, season: &Season, code: Code, item: &Item) {
    if let Item::One(line) = item
        && line.fits(season)
    {
        let kept = print_line(out.alloc, &mut out.bytes, season, code, line);
        out.keep(kept);
    }
}

fn reply_code(rt: &impl Abort, word: &[u8]) -> Code {
    match word {
        b"F" => Code::F,
        b"U" => Code::U,
        b"H" => Code::H,
        b"X" => Code::X,
        b"O" => Code::O,
        _ => panic!(rt; "code"),
    }
}

const REPLIES: &[u8] = b"\
F D 2A7 30MAR19OCT 7 005A32 2359JFKLHR J|F 2A007 30MAR19OCT 0000007 005A32 2359JFKLHR J
U NU21234 U21235 31MAR24OCT 135 186320 LTNBFS0815 0905BFSLTN JJ|\
    UU21234 U21235 31MAR24OCT 1030500 186320 LTNBFS0815 0905BFSLTN JJ
H NU21234 U21235 31MAR24OCT 135 186320 LTNBFS0815 09059BFSLTN JJ|\
    HU21234 U21235 31MAR24OCT 1030500 186320 LTNBFS0815 09059BFSLTN JJ
X NEZY12A 01APR 2 180319 LGW1000 J|XEZY012A 01APR01APR 0200000 180319 LGW1000 J
O D 2A7 30MAR19OCT 7 005A32 2359JFKLHR J|O 2A007 30MAR19OCT 0000007 005A32 2359JFKLHR J
";

/// A flight, and its printed spelling.
#[derive(Drop)]
struct Flights;

impl Case for Flights {
    fn find(&mut self, _rt: &impl Abort, given: &[u8], out: &mut Finding) {
        let Some(flight) = read_flight(given) else {
            return out.say("-");
        };
        say_flight(out, flight);
        out.put(b" ");
        let kept = print_flight(out.alloc, &mut out.bytes, flight);
        out.keep(kept);
    }
}

const FLIGHTS: &[u8] = b"\
EZY12A|EZY 12 A EZY012A
BA12|BA. 12 . BA012
BA0012|BA. 12 . BA012
12001|-
";

/// A period in a season.
#[derive(Drop)]
struct Periods;

impl Case for Periods {
    fn find(&mut self, rt: &impl Abort, given: &[u8], out: &mut Finding) {
        let season = Season::read(b"S25").expect(rt, "season");
        let (period, days) = cut(given, b' ');
        match read_period(&season, period, days) {
            Some(found) => out.say(format_args!(
                "{}-{}/{}",
                found.first.0, found.last.0, found.days
            )),
            None => out.say("-"),
        }
    }
}

const PERIODS: &[u8] = b"\
31MAR 135|1-1/21
31MAR31MAR 1030500|1-1/21
31MAR 2|-
";

/// An item read from its printed spelling, printed again.
#[derive(Drop)]
struct Items;

impl Case for Items {
    fn find(&mut self, rt: &impl Abort, given: &[u8], out: &mut Finding) {
        let season = Season::read(b"S25").expect(rt, "season");
        match read_item(out.alloc, &season, given).expect(rt, "memory") {
            Some(item) => put_item(out, &season, &item),
            None => out.say("-"),
        }
    }
}

const ITEMS: &[u8] = b"\
NU21234 U21235 31MAR24OCT 1030500 186320 LTNBFS0815 0905BFSLTN JJ;|\
    NU21234 U21235 31MAR24OCT 1030500 186320 LTNBFS0815 0905BFSLTN JJ;
D 2A007 30MAR19OCT 0000007 005A32 2359JFKLHR J;|D 2A007 30MAR19OCT 0000007 005A32 2359JFKLHR J;
CBA002 31MAR31MAR 1030500 180320 JFK0610 J;LBA002 31MAR31MAR 1030500 180320 JFK0630 J;|\
    CBA002 31MAR31MAR 1030500 180320 JFK0610 J;LBA002 31MAR31MAR 1030500 180320 JFK0630 J;
QEZY012A;|QEZY012A;
|-
;|-
SI;|-
QBA12;|-
QBA012|-
QBA012;;|-
YBA002 31MAR31MAR 1030500 180320 JFK0610 J;|-
RBA002 31MAR31MAR 1030500 180320 JFK0610 J;|-
CBA002 31MAR31MAR 1030500 180320 JFK0610 J;|-
";

/// Says the fault of a text, if it has one.
fn say_fault(out: &mut Finding, text: &[u8]) {
    match messages(out.alloc, text) {
        Ok(_) => out.say("-"),
        Err(fault) => out.say(fault),
    }
}

/// The fault of a text.
#[derive(Drop)]
struct Faults;

impl Case for Faults {
    fn find(&mut self, _rt: &impl Abort, given: &[u8], out: &mut Finding) {
        say_fault(out, given)
    }
}

const FAULTS: &[u8] = b"\
|-
; \t\r;|-
<300 >|-
<1000000A>|line 1: more than 200 bytes
SCR|line 2: a header line that has not its form
SCR\r\r;S25;20NOV;ABC|line 1: a header line that has not its form
SCR;S25;20NOV;|line 4: a header line that has not its form
SCR;S25;;SCR;S25;20NOV;ABC|line 3: a header line that has not its form
SCR;/x;S25;20NOV;AB|line 5: a header line that has not its form
SCR;/x;/y;S25;20NOV;ABC|line 3: a header line that has not its form
SCR;/<200A>;S25;20NOV;ABC|line 2: more than 200 bytes
SCR;/<199A>;S25;20NOV;ABC|-
 SCR;S25;20NOV;ABC|line 1: a header line that has not its form
SCR;X25;20NOV;ABC|line 2: a header line that has not its form
SCR;S2;20NOV;ABC|line 2: a header line that has not its form
SCR;S25;30FEB;ABC|line 3: a header line that has not its form
SCR;S25;00JAN;ABC|line 3: a header line that has not its form
SCR;S25;29FEB;ABC|-
SCR;S25;20NOV;AB1|line 4: a header line that has not its form
SCR;S25 ;20NOV\t;ABC;;;SCR|line 8: a header line that has not its form
SCR;S25;20NOV;ABC;;SCR;S25;20NOV;ABC;x|line 10: field 1 has not its form
SCR;W25;20NOV;ABC;NBA1 29FEB 2 180320 JFK0610 J|line 5: field 2 has not its form
SCR;W25;20NOV;ABC;NBA001 30MAR25OCT 1234567 180320 JFK0610 J|line 5: field 2 has not its form
SCR;W25;20NOV;ABC;NBA1 10JAN20DEC 2 180320 JFK0610 J|line 5: field 2 has not its form
SCR;S25;20NOV;ABC;;SCR;S25;20NOV;ABC|-
";

/// The fault of a message with these lines below its header.
#[derive(Drop)]
struct FaultsBelow;

impl Case for FaultsBelow {
    fn find(&mut self, rt: &impl Abort, given: &[u8], out: &mut Finding) {
        let text = below(rt, out.alloc, given);
        say_fault(out, &text)
    }
}

/// The line that a fault names.
#[derive(Drop)]
struct FaultLines;

impl Case for FaultLines {
    fn find(&mut self, rt: &impl Abort, given: &[u8], out: &mut Finding) {
        let text = below(rt, out.alloc, given);
        match messages(out.alloc, &text) {
            Ok(_) => out.say("-"),
            Err(fault) => out.show(fault.line()),
        }
    }
}

const FAULT_LINES: &[u8] = b"\
QBA001;;SCR|Some(8)
QBA001;NBA001|Some(6)
QBA001;SI;LBA001 30MAR25OCT 1234567 180320 JFK0610 J|Some(7)
<201A>|Some(5)
";

const FIELD_FAULTS: &[u8] = b"\
KBA001 30MAR25OCT 1234567 180320 JFK0610 J|line 5: field 1 has not its form
 NBA001 30MAR25OCT 1234567 180320 JFK0610 J|line 5: field 1 has not its form
nBA001 30MAR25OCT 1234567 180320 JFK0610 J|line 5: field 1 has not its form
N12001 30MAR25OCT 1234567 180320 JFK0610 J|line 5: field 1 has not its form
NBA00001 30MAR25OCT 1234567 180320 JFK0610 J|line 5: field 1 has not its form
NBA 30MAR25OCT 1234567 180320 JFK0610 J|line 5: field 1 has not its form
N1AB12 30MAR25OCT 1234567 180320 JFK0610 J|line 5: field 1 has not its form
NBA001 01APR31APR 1234567 180320 JFK0610 J|line 5: field 2 has not its form
NBA001 30APR01APR 1234567 180320 JFK0610 J|line 5: field 2 has not its form
NBA001 29MAR25OCT 1234567 180320 JFK0610 J|line 5: field 2 has not its form
NBA001 30MAR26OCT 1234567 180320 JFK0610 J|line 5: field 2 has not its form
NBA001 29FEB 1234567 180320 JFK0610 J|line 5: field 2 has not its form
NBA001 30MAR25OCT26OCT 1234567 180320 JFK0610 J|line 5: field 2 has not its form
NBA001 30MAR 1 180320 JFK0610 J|line 5: field 3 has not its form
NBA001 30MAR25OCT 21 180320 JFK0610 J|line 5: field 3 has not its form
NBA001 30MAR25OCT 11 180320 JFK0610 J|line 5: field 3 has not its form
NBA001 30MAR25OCT 8 180320 JFK0610 J|line 5: field 3 has not its form
NBA001 30MAR25OCT 2134567 180320 JFK0610 J|line 5: field 3 has not its form
NBA001 30MAR25OCT 0000000 180320 JFK0610 J|line 5: field 3 has not its form
NBA001 30MAR25OCT 1234567 18320 JFK0610 J|line 5: field 4 has not its form
NBA001 30MAR25OCT 1234567 180320 JFK2400 J|line 5: field 5 has not its form
NBA001 30MAR25OCT 1234567 180320 JFK0660 J|line 5: field 5 has not its form
NBA001 30MAR25OCT 1234567 180320 JFKLH0610 J|line 5: field 5 has not its form
NBA001 30MAR25OCT 1234567 180320 JFK0610 JJ|line 5: field 6 has not its form
NBA001|line 5: field 2 has not its form
NBA001 30MAR25OCT 1234567 180320 JFK0610|line 5: field 6 has not its form
NBA001 30MAR25OCT 1234567 180320 JFK0610 J J|line 5: field 7 has not its form
NBA001 30MAR25OCT 1234567 180320 JFK2400 J J|line 5: field 5 has not its form
NBA001 A101MAY 1234567 180320 JFK0610 J|line 5: field 2 has not its form
NBA001 1A2320 180320 JFK0610 J|line 5: field 3 has not its form
N|line 5: field 2 has not its form
N BA001 30MAR25OCT 1234567 180320 06101JFK J|line 5: field 6 has not its form
N BA001 30MAR25OCT 1234567 180320 JFK0610 J|line 5: field 6 has not its form
N BA001 30MAR25OCT 1234567 180320 0610JFK|line 5: field 7 has not its form
N BA001 30MAR25OCT 1234567 180320 0610JFK J J|line 5: field 8 has not its form
NBA001 BA002 30MAR25OCT 1234567 180320 JFK0630 0629JFK JJ|line 5: field 7 has not its form
NBA001 BA002 30MAR25OCT 1234567 180320 JFK0630 0630JFK JJ|-
NBA001 BA002 30MAR25OCT 1234567 180320 JFK0630 00001JFK JJ|-
NBA001 BA002 30MAR25OCT 1234567 180320 JFK0630 0715JFK J|line 5: field 8 has not its form
NBA001 BA002 30MAR25OCT 1234567 180320 JFK0630 0715JFK JJ J|line 5: field 9 has not its form
Q|line 5: field 1 has not its form
Q BA001|line 5: field 1 has not its form
QBA001 X|line 5: field 2 has not its form
QBA001|-
/x|line 5: field 1 has not its form
SIx|line 5: field 1 has not its form
";

const PAIR_FAULTS: &[u8] = b"\
RBA001 30MAR25OCT 1234567 180320 JFK0610 J|line 5: an unpaired change
IBA001 30MAR25OCT 1234567 180320 JFK0610 J|line 5: an unpaired change
LBA001 30MAR25OCT 1234567 180320 JFK0610 J|line 5: an unpaired change
CBA001 30MAR25OCT 1234567 180320 JFK0610 J|line 5: an unpaired change
RBA001 30MAR25OCT 1234567 180320 JFK2400 J|line 5: field 5 has not its form
CBA001 30MAR25OCT 1234567 180320 JFK2400 J|line 5: field 5 has not its form
CBA001 31MAR 135 180320 JFK0610 J;SI x;LBA2 31MAR31MAR 1030500 001AAA LHR0000 Z|-
CBA001 31MAR 1 180320 JFK0610 J;RBA001 31MAR 1234567 180320 JFK0610 J|line 5: an unpaired change
CBA001 31MAR 1 180320 JFK0610 J;R BA001 31MAR 1 180320 0610JFK J|line 5: an unpaired change
CBA001 31MAR 1 180320 JFK0610 J;NBA001 31MAR 1 180320 JFK0610 J|line 5: an unpaired change
CBA001 31MAR 1 180320 JFK0610 J;QBA001;RBA001 31MAR 1 180320 JFK0610 J|line 5: an unpaired change
CBA001 31MAR 1 180320 JFK0610 J;RBA001 31MAR 1 180320 JFK2400 J;RBA001 31MAR 1 180320 \
    JFK0610 J|\
    line 5: an unpaired change
CBA001 31MAR 1 180320 JFK0610 J;RBA001 31MAR 1 180320 JFK0700 J;LBA001 31MAR 1 180320 \
    JFK0800 J|\
    line 7: an unpaired change
NBA001 31MAR 1 180320 JFK0610 J;LBA001 31MAR 1 180320 JFK0610 J;bad|line 6: an unpaired change
<201A>;|line 5: more than 200 bytes
<200A>\r;|line 5: field 1 has not its form
<199A>  ;|line 5: more than 200 bytes
SI <197A>|-
GI <198A>;bad|line 5: more than 200 bytes
Q<200A>|line 5: more than 200 bytes
CBA001 31MAR 1 180320 JFK0610 J;SI <198A>;RBA001 31MAR 1 180320 JFK0610 J|\
    line 6: more than 200 bytes
";

#[test]
fn messages_are_read(rt: HostRuntime) {
    let alloc = rt.alloc();
    walk(&rt, alloc, &mut Cuts, CUTS);
    walk(&rt, alloc, &mut Readings, READINGS);
    walk(&rt, alloc, &mut Strays, STRAYS);
    walk(&rt, alloc, &mut Flights, FLIGHTS);
    walk(&rt, alloc, &mut Periods, PERIODS)
}

#[test]
fn messages_are_printed(rt: HostRuntime) {
    let alloc = rt.alloc();
    walk(&rt, alloc, &mut FirstMessages, FIRST_MESSAGES);
    walk(&rt, alloc, &mut Printed, PRINTED);
    walk(&rt, alloc, &mut Replies, REPLIES);
    walk(&rt, alloc, &mut Items, ITEMS)
}

#[test]
fn faults_are_named(rt: HostRuntime) {
    let alloc = rt.alloc();
    walk(&rt, alloc, &mut Faults, FAULTS);
    walk(&rt, alloc, &mut FaultLines, FAULT_LINES);
    walk(&rt, alloc, &mut FaultsBelow, FIELD_FAULTS);
    walk(&rt, alloc, &mut FaultsBelow, PAIR_FAULTS)
}

//! The rows of `serve`: sessions worked by hand over links in memory, devices that fail at each
//! call, and two workers that run at once.

use crate::desk_calls::{
    call_alone, call_desk, door_of, doors_of, first_link, first_sent, new_cabinet,
};
use crate::play::play_script;
use crate::texts::{folded, spelled_out};
use desk_links::MemoryDoor;
use desk_outside::{Failure, MemoryCabinet};
use std::alloc::Global;
use std::process::Abort;
use std::sync::Wait;
use std::sync::atomic::{AtomicU64, Ordering};
use std::thread::Threads;
use worker_gate::{Gate, RealGate};

/// Hours of two arrivals, one of them historic: the messages that a file of asks has too, over a
/// link, whole and in pieces. Then links and doors that fail, refusals and devices.
const SERVED: &str = "\
file CAP AIRPORT ABC;SEASON S25;STEP 5;FLEX 60;GROUND 40;REFUSE NONE;\
    CAP ARR 60 0600 0600 1234567 2;
file SCR SCR;S25;20NOV;ABC;FBA001 30MAR25OCT 1234567 180320 JFK0610 J;
words allocate CAP SCR CERT REPLIES
says 0 STAGE 1 OPTIMAL 0;*
take CERT
file RECORD OLD;
words serve CAP SCR CERT RECORD
says 0 ENTRIES 0;LINKS 0;
holds RECORD 
door SCR;S25;20NOV;ABC;NBA002 30MAR25OCT 1234567 180320 JFK0620 J;\
    NBA003 30MAR25OCT 1234567 180320 JFK0630 J;ABA003 30MAR25OCT 1234567 180320 JFK0700 J;\
    DBA002 01JUN30JUN 1234567 180320 JFK0620 J;QBA002;ZBA009 30MAR25OCT 1234567 180320 JFK0700 J;;
says 0 ENTRIES 6;LINKS 1;
again
sent 0 0 SCR;S25;20NOV;ABC;KBA002 30MAR25OCT 1234567 180320 JFK0620 J;\
    UBA003 30MAR25OCT 1234567 180320 JFK0630 J;OBA003 30MAR25OCT 1234567 180320 JFK0700 J;\
    KBA003 30MAR25OCT 1234567 180320 JFK0700 J;XBA002 01JUN30JUN 1234567 180320 JFK0620 J;\
    HBA002 30MAR31MAY 1234567 180320 JFK0620 J;HBA002 01JUL25OCT 1234567 180320 JFK0620 J;\
    WBA009 30MAR25OCT 1234567 180320 JFK0700 J;;
holds RECORD ENTRY 1 CALLER 0;NBA002 30MAR25OCT 1234567 180320 JFK0620 J;\
    KBA002 30MAR25OCT 1234567 180320 JFK0620 J;ENTRY 2 CALLER 0;\
    NBA003 30MAR25OCT 1234567 180320 JFK0630 J;UBA003 30MAR25OCT 1234567 180320 JFK0630 J;\
    OBA003 30MAR25OCT 1234567 180320 JFK0700 J;ENTRY 3 CALLER 0;\
    ABA003 30MAR25OCT 1234567 180320 JFK0700 J;KBA003 30MAR25OCT 1234567 180320 JFK0700 J;\
    ENTRY 4 CALLER 0;DBA002 01JUN30JUN 1234567 180320 JFK0620 J;\
    XBA002 01JUN30JUN 1234567 180320 JFK0620 J;ENTRY 5 CALLER 0;QBA002;\
    HBA002 30MAR31MAY 1234567 180320 JFK0620 J;HBA002 01JUL25OCT 1234567 180320 JFK0620 J;\
    ENTRY 6 CALLER 0;ZBA009 30MAR25OCT 1234567 180320 JFK0700 J;\
    WBA009 30MAR25OCT 1234567 180320 JFK0700 J;
piece 1
says 0 ENTRIES 6;LINKS 1;
sent 0 0 SCR;S25;20NOV;ABC;KBA002 *;WBA009 30MAR25OCT 1234567 180320 JFK0700 J;;
holds RECORD ENTRY 1 CALLER 0;NBA002 *ENTRY 6 CALLER 0;*WBA009 30MAR25OCT 1234567 180320 JFK0700 J;
piece 2
says 0 ENTRIES 6;LINKS 1;
sent 0 0 SCR;S25;20NOV;ABC;KBA002 *;WBA009 30MAR25OCT 1234567 180320 JFK0700 J;;
holds RECORD ENTRY 1 CALLER 0;NBA002 *ENTRY 6 CALLER 0;*WBA009 30MAR25OCT 1234567 180320 JFK0700 J;
piece 3
says 0 ENTRIES 6;LINKS 1;
sent 0 0 SCR;S25;20NOV;ABC;KBA002 *;WBA009 30MAR25OCT 1234567 180320 JFK0700 J;;
holds RECORD ENTRY 1 CALLER 0;NBA002 *ENTRY 6 CALLER 0;*WBA009 30MAR25OCT 1234567 180320 JFK0700 J;
piece 7
says 0 ENTRIES 6;LINKS 1;
sent 0 0 SCR;S25;20NOV;ABC;KBA002 *;WBA009 30MAR25OCT 1234567 180320 JFK0700 J;;
holds RECORD ENTRY 1 CALLER 0;NBA002 *ENTRY 6 CALLER 0;*WBA009 30MAR25OCT 1234567 180320 JFK0700 J;
piece 4096
says 0 ENTRIES 6;LINKS 1;
sent 0 0 SCR;S25;20NOV;ABC;KBA002 *;WBA009 30MAR25OCT 1234567 180320 JFK0700 J;;
holds RECORD ENTRY 1 CALLER 0;NBA002 *ENTRY 6 CALLER 0;*WBA009 30MAR25OCT 1234567 180320 JFK0700 J;
piece 0
cabinet 0|5 CABINET CAP READ;
holds RECORD OLD;
cabinet 1|5 CABINET SCR READ;
cabinet 2|5 CABINET CERT READ;
holds RECORD OLD;
cabinet 3|5 CABINET RECORD WRITE;
cabinet 3:8|5 CABINET RECORD WRITE;
holds RECORD ENTRY 1 
cabinet 4|0 ENTRIES 6;LINKS 1;
sink 0|6 
holds RECORD ENTRY 1 CALLER 0;*
sink 0:7|6 ENTRIES
holds RECORD ENTRY 1 CALLER 0;*
line CERT 2|CERT 4|3 FORM CERT 1;
line COST 0|COST 1|1 NO 5 COST;
holds RECORD OLD;
shut
door SCR;S25;20NOV;ABC;NBA002 30MAR25OCT 1234567 180320 JFK0620 J;;\
    SCR;S25;20NOV;ABC;NBA003 30MAR25OCT 1234567 180320 JFK0700 J;;|SCR;S25;20NOV;ABC;QBA003;;
words serve CAP SCR CERT RECORD --links 2
says 0 ENTRIES 3;LINKS 2;
link 2|0 ENTRIES 3;LINKS 2;
sent 0 0 SCR;S25;20NOV;ABC;KBA002 30MAR25OCT 1234567 180320 JFK0620 J;;
sent 0 1 SCR;S25;20NOV;ABC;HBA003 30MAR25OCT 1234567 180320 JFK0700 J;;
holds RECORD ENTRY 1 CALLER 0;NBA002 *;KBA002 *;ENTRY 2 CALLER 0;NBA003 *;KBA003 *;\
    ENTRY 3 CALLER 0;QBA003;HBA003 *
link 2:6|0 ENTRIES 3;LINKS 2;
sent 0 0 SCR;S25;20NOV;ABC;KBA002 30MAR25OCT 1234567 180320 JFK0620 J;;SCR;S2
link 1|0 ENTRIES 2;LINKS 2;
sent 0 0 
sent 0 1 SCR;S25;20NOV;ABC;WBA003;;
link 0|0 ENTRIES 1;LINKS 2;
words serve CAP SCR CERT RECORD
says 0 ENTRIES 2;LINKS 1;
shut
door SCR;S25;20NOV;ABC;QBA001;;|SCR;S25;20NOV;ABC;QBA001;;
door SCR;S25;20NOV;ABC;QBA001;;|SCR;S25;20NOV;ABC;QBA001;;
words serve CAP SCR CERT RECORD --links 2
says 0 ENTRIES 4;LINKS 4;
accept 0|10 ENTRIES 2;LINKS 2;
holds RECORD ENTRY 1 CALLER 1;*ENTRY 2 CALLER 1;*
accept 1|10 ENTRIES 3;LINKS 3;
holds RECORD ENTRY 1 CALLER *;*ENTRY 3 CALLER *;QBA001;HBA001 *
accept 2|0 ENTRIES 4;LINKS 4;
words serve CAP SCR CERT RECORD --links 3
says 0 ENTRIES 4;LINKS 4;
accept 2|10 ENTRIES 4;LINKS 4;
words serve CAP SCR CERT
says 2 WORDS;
words serve CAP SCR CERT RECORD --links 0
says 2 WORDS;
words serve CAP SCR CERT NO --links 1001
says 2 WORDS;
words serve CAP SCR NO RECORD
says 5 CABINET NO MISSING;";

/// How sessions end, over links of one door: blanks and line ends, lines and messages of the
/// greatest length, bad messages, and messages that are cut. (Capacity as above; one hour of two
/// arrivals.)
const ENDS: &str = "\
file CAP AIRPORT ABC;SEASON S25;STEP 5;FLEX 60;GROUND 40;REFUSE NONE;\
    CAP ARR 60 0600 0600 1234567 2;
file SCR SCR;S25;20NOV;ABC;FBA001 30MAR25OCT 1234567 180320 JFK0610 J;
words allocate CAP SCR CERT REPLIES
says 0 STAGE 1 OPTIMAL 0;*
take CERT
words serve CAP SCR CERT RECORD --links 3
door SCR;W25;20NOV;ABC;;
says 0 ENTRIES 0;LINKS 1;
sent 0 0 BAD 2;;
shut
door SCR;W25;20NOV;ABC;NBA001 30MAR25OCT 1234567 180320 JFK0610 J;;
says 0 ENTRIES 0;LINKS 1;
sent 0 0 BAD 5;;
shut
door SCR;S25;20NOV;ABC;QBA001|SCR;S25;20NOV;ABC;QBA001;;
says 0 ENTRIES 1;LINKS 2;
sent 0 0 
sent 0 1 SCR;S25;20NOV;ABC;HBA001 30MAR25OCT 1234567 180320 JFK0610 J;;
shut
door SCR;S25;20NOV;ABC;;
says 0 ENTRIES 0;LINKS 1;
sent 0 0 SCR;S25;20NOV;ABC;;
shut
door SCR;S25;20NOV;ABC;QBA001;{5000  };SCR;S25;20NOV;ABC;QBA001;;
says 0 ENTRIES 2;LINKS 1;
sent 0 0 SCR;S25;20NOV;ABC;HBA001 30MAR25OCT 1234567 180320 JFK0610 J;;\
    SCR;S25;20NOV;ABC;HBA001 30MAR25OCT 1234567 180320 JFK0610 J;;
shut
door SCR~;S25~;20NOV~;ABC~;QBA001~;~;~;SCR~;S25 ~;20NOV~;ABC~;QBA001~~;~;
says 0 ENTRIES 1;LINKS 1;
sent 0 0 SCR;S25;20NOV;ABC;HBA001 30MAR25OCT 1234567 180320 JFK0610 J;;BAD 5;;
piece 1
says 0 ENTRIES 1;LINKS 1;
sent 0 0 SCR;S25;20NOV;ABC;HBA001 30MAR25OCT 1234567 180320 JFK0610 J;;BAD 5;;
piece 0
shut
door SCR;S25;20NOV;ABC;QBA001;;SCR;S25;20NOV;ABC;SI {201 A};QBA001;;|SCR;S25;20NOV;ABC;QBA001;;
says 0 ENTRIES 2;LINKS 2;
sent 0 0 SCR;S25;20NOV;ABC;HBA001 30MAR25OCT 1234567 180320 JFK0610 J;;
shut
door SCR;S25;20NOV;ABC;{995 SI x;}QBA001;;SCR;S25;20NOV;ABC;{996 SI x;}QBA001;;
says 0 ENTRIES 1;LINKS 1;
sent 0 0 SCR;S25;20NOV;ABC;HBA001 30MAR25OCT 1234567 180320 JFK0610 J;;
shut
door SCR;S25;20NOV;ABC;QBA001;;SCR;S25;20NOV;ABC;ZBA009;;\
    SCR;S25;20NOV;ABC;NBA002 30MAR25OCT 1234567 180320 JFK0620 J;;
says 0 ENTRIES 2;LINKS 1;
sent 0 0 SCR;S25;20NOV;ABC;HBA001 30MAR25OCT 1234567 180320 JFK0610 J;;BAD 5;;\
    SCR;S25;20NOV;ABC;KBA002 30MAR25OCT 1234567 180320 JFK0620 J;;
shut
door ;;SCR;S25;20NOV;ABC;QBA001;;;;
says 0 ENTRIES 1;LINKS 1;
sent 0 0 SCR;S25;20NOV;ABC;HBA001 30MAR25OCT 1234567 180320 JFK0610 J;;
piece 1
says 0 ENTRIES 1;LINKS 1;
sent 0 0 SCR;S25;20NOV;ABC;HBA001 30MAR25OCT 1234567 180320 JFK0610 J;;
shut
piece 0
door SCR;S25;20NOV;ABC;NBA002 30MAR25OCT 1234567 180320 JFK0620 J;;
door SCR;S25;20NOV;ABC;NBA003 30MAR25OCT 1234567 180320 JFK0620 J;;
words serve CAP SCR CERT RECORD
says 0 ENTRIES 2;LINKS 2;
holds RECORD ENTRY 1 CALLER *;N*;KBA00*;ENTRY 2 CALLER *;N*;UBA00*;OBA00*";

#[test]
fn asks_over_links(rt: HostRuntime) {
    play_script(&rt, rt.alloc(), SERVED);
}

#[test]
fn ends_of_sessions(rt: HostRuntime) {
    play_script(&rt, rt.alloc(), ENDS);
}

const CAP: &str = "AIRPORT ABC;SEASON S25;STEP 5;FLEX 60;GROUND 40;REFUSE NONE;\
    CAP ARR 60 0600 0600 1234567 2;";

const SCR: &str = "SCR;S25;20NOV;ABC;FBA001 30MAR25OCT 1234567 180320 JFK0610 J;";

pub(crate) const SIX_ASKS: &str = "SCR;S25;20NOV;ABC;NBA002 30MAR25OCT 1234567 180320 JFK0620 J;\
    NBA003 30MAR25OCT 1234567 180320 JFK0630 J;ABA003 30MAR25OCT 1234567 180320 JFK0700 J;\
    DBA002 01JUN30JUN 1234567 180320 JFK0620 J;QBA002;ZBA009 30MAR25OCT 1234567 180320 JFK0700 J;;";

pub(crate) const SIX_ENTRIES: &str = "ENTRY 1 CALLER 0;NBA002 30MAR25OCT 1234567 180320 JFK0620 J;\
    KBA002 30MAR25OCT 1234567 180320 JFK0620 J;ENTRY 2 CALLER 0;\
    NBA003 30MAR25OCT 1234567 180320 JFK0630 J;UBA003 30MAR25OCT 1234567 180320 JFK0630 J;\
    OBA003 30MAR25OCT 1234567 180320 JFK0700 J;ENTRY 3 CALLER 0;\
    ABA003 30MAR25OCT 1234567 180320 JFK0700 J;KBA003 30MAR25OCT 1234567 180320 JFK0700 J;\
    ENTRY 4 CALLER 0;DBA002 01JUN30JUN 1234567 180320 JFK0620 J;\
    XBA002 01JUN30JUN 1234567 180320 JFK0620 J;ENTRY 5 CALLER 0;QBA002;\
    HBA002 30MAR31MAY 1234567 180320 JFK0620 J;HBA002 01JUL25OCT 1234567 180320 JFK0620 J;\
    ENTRY 6 CALLER 0;ZBA009 30MAR25OCT 1234567 180320 JFK0700 J;\
    WBA009 30MAR25OCT 1234567 180320 JFK0700 J;";

const WORDS: &str = "serve CAP SCR CERT RECORD";

const TWO_ASKS: &str = "SCR;S25;20NOV;ABC;NBA002 30MAR25OCT 1234567 180320 JFK0620 J;QBA002;;";

/// A cabinet with a season and its certificate.
pub(crate) fn served_cabinet<R: Abort + Threads + Wait + Sync>(
    rt: &R,
    alloc: Global,
) -> MemoryCabinet {
    let mut cabinet = new_cabinet(rt, alloc, 4_000_000, None);
    load(rt, alloc, &mut cabinet, "CAP", CAP);
    load(rt, alloc, &mut cabinet, "SCR", SCR);
    let said = call_alone(rt, alloc, "allocate CAP SCR CERT REPLIES", &mut cabinet);
    assert!(rt; said.as_str().starts_with("0 STAGE 1 OPTIMAL 0;"), "{said}");
    cabinet
}

/// Loads a file of this text.
fn load(rt: &impl Abort, alloc: Global, cabinet: &mut MemoryCabinet, name: &str, text: &str) {
    let bytes = spelled_out(rt, alloc, text);
    assert!(rt; cabinet.load(name, &bytes), "{name} has no room");
}

/// Worker 1 waits at its first line until worker 0 has come to its first, and worker 0 at each of
/// its lines until worker 1 has come to its second.
#[derive(Drop)]
struct Meeting {
    came: AtomicU64,
    lines: AtomicU64,
    met: AtomicU64,
}

const TURNS: u64 = 400_000_000;

impl Meeting {
    /// Waits until there are so many, and counts the waits that end in time.
    fn wait(&self, count: &AtomicU64, most: u64) {
        for _ in 0..TURNS {
            if count.load(Ordering::SeqCst) >= most {
                self.met.fetch_add(1, Ordering::SeqCst);
                return;
            }
        }
    }
}

impl Gate for Meeting {
    fn before_node(&self, _worker: u32) {}

    fn before_line(&self, worker: u32) {
        if worker == 0 {
            self.came.fetch_add(1, Ordering::SeqCst);
            self.wait(&self.lines, 2);
        } else {
            self.wait(&self.came, 1);
            self.lines.fetch_add(1, Ordering::SeqCst);
        }
    }
}

// Served one after the other, in either order, a worker would wait in vain.
#[test]
fn two_workers_serve_at_once(rt: HostRuntime) {
    let alloc = rt.alloc();
    let mut cabinet = served_cabinet(&rt, alloc);
    let gate = Meeting {
        came: AtomicU64::new(0),
        lines: AtomicU64::new(0),
        met: AtomicU64::new(0),
    };
    check_meeting(&rt, alloc, &mut cabinet, &gate);
    assert_eq!(rt; gate.met.load(Ordering::SeqCst), 4);
}

/// Two workers answer four asks between these gates.
fn check_meeting<R: Abort + Threads + Wait + Sync>(
    rt: &R,
    alloc: Global,
    cabinet: &mut MemoryCabinet,
    gate: &Meeting,
) {
    let mut doors = doors_of(rt, alloc, &[TWO_ASKS, TWO_ASKS], None);
    let words = "serve CAP SCR CERT RECORD --workers 2";
    let said = call_desk(rt, alloc, words, cabinet, None, &mut doors, gate);
    assert_eq!(rt; said.as_str(), "0 ENTRIES 4;LINKS 2;");
}

// 101 messages of 991 queries for a flight that holds nothing: the history is full behind the 900th
// ask of the last one, which has no reply. A door that fails beside it comes before that.
#[test]
fn a_history_is_full(rt: HostRuntime) {
    let alloc = rt.alloc();
    let text = too_many_queries(&rt, alloc);
    let text = text.as_str();
    check_served(
        &rt,
        alloc,
        &[text],
        None,
        "11 ENTRIES 100000;LINKS 1;695600",
    );
    let fails = Some(Failure::at(0));
    check_served(
        &rt,
        alloc,
        &[TWO_ASKS, text],
        fails,
        "10 ENTRIES 100000;LINKS 1;695600",
    );
}

/// The desk says this over a door for each text of clients, of which an accept of the first may
/// fail, and with it how many bytes the first link of the last door was sent.
fn check_served<R: Abort + Threads + Wait + Sync>(
    rt: &R,
    alloc: Global,
    clients: &[&str],
    accept: Option<Failure>,
    due: &str,
) {
    let mut cabinet = served_cabinet(rt, alloc);
    let said = served_over(rt, alloc, &mut cabinet, clients, accept);
    assert_eq!(rt; said.as_str(), due);
}

fn served_over<R: Abort + Threads + Wait + Sync>(
    rt: &R,
    alloc: Global,
    cabinet: &mut MemoryCabinet,
    clients: &[&str],
    accept: Option<Failure>,
) -> String {
    let mut doors = doors_of(rt, alloc, clients, accept);
    let said = call_desk(rt, alloc, WORDS, cabinet, None, &mut doors, &RealGate);
    let last = doors.len().saturating_sub(1);
    let sent = sent_length(doors.as_slice(), last).expect(rt, "no link");
    format!(in alloc; "{said}{sent}").expect(rt, "memory")
}

fn too_many_queries(rt: &impl Abort, alloc: Global) -> String {
    let mut text = String::new(alloc);
    for _message in 0..101 {
        let queries = "SCR;S25;20NOV;ABC;{991 QBA009;};";
        text.push_str(queries).expect(rt, "memory");
    }
    text
}

/// How many bytes the first link of a door was sent.
fn sent_length(doors: &[MemoryDoor], door: usize) -> Option<usize> {
    Some(first_link(doors, door)?.sent().len())
}

/// A door with one link, which hands its input out in pieces of one byte, and of which this call is
/// to fail.
fn failing_link(rt: &impl Abort, alloc: Global, input: &str, call: usize) -> Vec<MemoryDoor> {
    let mut doors = Vec::new(alloc);
    let door = door_of(rt, alloc, input, 1, Some(Failure::at(call as u64)), None);
    doors.push(door).expect(rt, "memory");
    doors
}

// One link in pieces of one byte, of which each take and the put fail in turn: the desk goes on,
// what was sent is whole or nothing, and the asks are entered where their message had come.
#[test]
fn each_call_of_a_link_fails(rt: HostRuntime) {
    let alloc = rt.alloc();
    let mut cabinet = served_cabinet(&rt, alloc);
    for call in 0..SIX_ASKS.len() + 3 {
        check_call(&rt, alloc, &mut cabinet, call);
    }
}

/// The desk goes on where this call of its link fails.
fn check_call<R: Abort + Threads + Wait + Sync>(
    rt: &R,
    alloc: Global,
    cabinet: &mut MemoryCabinet,
    call: usize,
) {
    let mut doors = failing_link(rt, alloc, SIX_ASKS, call);
    let said = call_desk(rt, alloc, WORDS, cabinet, None, &mut doors, &RealGate);
    check_entered(rt, alloc, cabinet, said.as_str(), call);
    let is_silent = sent_length(doors.as_slice(), 0) == Some(0);
    assert!(rt; is_silent == (call <= SIX_ASKS.len()), "call {call}");
}

/// The desk said and recorded that all asks were entered, or, where a take failed, that none was.
fn check_entered(rt: &impl Abort, alloc: Global, cabinet: &MemoryCabinet, said: &str, call: usize) {
    let record = folded(rt, alloc, cabinet.file("RECORD").unwrap_or(b"none"));
    if call < SIX_ASKS.len() {
        check_at(rt, call, said, "0 ENTRIES 0;LINKS 1;");
        check_at(rt, call, record.as_str(), "");
    } else {
        check_at(rt, call, said, "0 ENTRIES 6;LINKS 1;");
        check_at(rt, call, record.as_str(), SIX_ENTRIES);
    }
}

/// Wants this text where a call fails.
fn check_at(rt: &impl Abort, call: usize, found: &str, due: &str) {
    assert!(rt; found == due, "call {call}: {found}");
}

// Two messages in pieces of one byte. Where a take of the second one fails, the first has its
// reply.
pub(crate) const TWO_MESSAGES: &str =
    "SCR;S25;20NOV;ABC;NBA002 30MAR25OCT 1234567 180320 JFK0620 J;;\
    SCR;S25;20NOV;ABC;QBA002;;";

const FIRST_REPLY: &str = "SCR;S25;20NOV;ABC;KBA002 30MAR25OCT 1234567 180320 JFK0620 J;;";

#[test]
fn a_reply_is_sent_before_more_is_taken(rt: HostRuntime) {
    let alloc = rt.alloc();
    let mut cabinet = served_cabinet(&rt, alloc);
    let (first, _) = TWO_MESSAGES.split_once(";;").expect(&rt, "two messages");
    let takes = first.len() + 2;
    // behind the takes of the first message comes one put
    for call in takes.saturating_add(1)..TWO_MESSAGES.len() + 1 {
        check_first_reply(&rt, alloc, &mut cabinet, call);
    }
}

/// The first message has its reply, and the second one no entry, where this call fails.
fn check_first_reply<R: Abort + Threads + Wait + Sync>(
    rt: &R,
    alloc: Global,
    cabinet: &mut MemoryCabinet,
    call: usize,
) {
    let mut doors = failing_link(rt, alloc, TWO_MESSAGES, call);
    let said = call_desk(rt, alloc, WORDS, cabinet, None, &mut doors, &RealGate);
    check_at(rt, call, said.as_str(), "0 ENTRIES 1;LINKS 1;");
    let sent = first_sent(rt, alloc, doors.as_slice());
    check_at(rt, call, sent.as_str(), FIRST_REPLY);
}

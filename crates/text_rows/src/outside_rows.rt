//! A cabinet and a sink in memory, whose listed calls fail, and those of the real system.

use crate::rows::{Case, Finding, ascii, cut, number, path_in, walk};
use desk_outside::{Cabinet, Failure, MemoryCabinet, MemorySink, RealCabinet, RealSink, Sink};
use std::alloc::Global;
use std::fmt::Display;
use std::process::Abort;
use std::rt::Files;
use std::{env, fs, io, process};
use worker_gate::{Gate, RealGate};

/// Calls of a cabinet in memory, one a row: what each answers, the file then, and the count of
/// faults. A file that is not there is `-`.
#[derive(Drop)]
struct CabinetCalls {
    cabinet: MemoryCabinet,
}

impl Case for CabinetCalls {
    fn find(&mut self, rt: &impl Abort, given: &[u8], out: &mut Finding) {
        let (call, rest) = cut(given, b' ');
        let (name, bytes) = cut(rest, b' ');
        let name = str::from_utf8(name).expect(rt, "a name of text");
        if call == b"load".as_slice() {
            out.show(self.cabinet.load(name, bytes));
        } else {
            answer(rt, &mut self.cabinet, call, name, bytes, out);
        }
        out.say(format_args!(" {} ", self.cabinet.faults()));
        let file = self.cabinet.file(name).unwrap_or(b"-");
        out.put(file);
    }
}

/// Makes the call of this word, a write or a read.
fn answer<C: Cabinet>(
    rt: &impl Abort,
    cabinet: &mut C,
    call: &[u8],
    name: &str,
    bytes: &[u8],
    out: &mut Finding,
) {
    match ascii(call) {
        "write" => out.show(cabinet.write(name, bytes)),
        "read" => read(rt, out, cabinet, name, bytes),
        _ => out.put(b"no such call"),
    }
}

fn read<C: Cabinet>(rt: &impl Abort, out: &mut Finding, cabinet: &mut C, name: &str, most: &[u8]) {
    match cabinet.read(out.alloc, name, number(rt, most, 1) as usize) {
        Ok(found) => out.put(&found),
        Err(fault) => out.say(format_args!("Err({fault:?})")),
    }
}

// Room for two files of at most 4 bytes. Reads and writes count from 0, and these fail: 2; 5 after
// 2 bytes; 7 after 9 bytes; 9.
const CABINET_CALLS: &[u8] = b"\
read a 4|Err(Missing) 0 -
write a one|Ok(()) 0 one
write a two|Err(Failed) 1 one
read a 3|one 1 one
read a 2|Err(Larger) 1 one
write a four|Err(Failed) 2 fo
write a 12345|Err(Failed) 3 fo
write b xy|Err(Failed) 4 xy
write c z|Err(Failed) 5 -
read a 4|Err(Failed) 6 fo
read b 2|xy 6 xy
load b more|true 6 more
load b 5more|false 6 more
load c |false 6 -
write a one|Ok(()) 6 one
";

/// Calls of a sink in memory, one a row: what each answers, the count of faults, and the bytes
/// then.
#[derive(Drop)]
struct SinkCalls {
    sink: MemorySink,
}

impl Case for SinkCalls {
    fn find(&mut self, _rt: &impl Abort, given: &[u8], out: &mut Finding) {
        let answer = if self.sink.put(given).is_ok() {
            "put"
        } else {
            "fault"
        };
        let faults = self.sink.faults();
        out.say(format_args!("{answer} {faults} "));
        out.put(self.sink.bytes());
    }
}

// Room for 6 bytes. Calls count from 0, and these fail: 1; 3 after 2 bytes; 5 after 9 bytes.
const SINK_CALLS: &[u8] = b"\
ab|put 0 ab
cd|fault 1 ab
c|put 1 abc
def|fault 2 abcde
gh|fault 3 abcde
xyz|fault 4 abcdex
|put 4 abcdex
a|fault 5 abcdex
";

#[test]
fn objects_in_memory_fail_where_listed_or_full(rt: HostRuntime) {
    let cabinet = failing_cabinet(&rt, rt.alloc());
    walk(
        &rt,
        rt.alloc(),
        &mut CabinetCalls { cabinet },
        CABINET_CALLS,
    );
    let sink = failing_sink(&rt, rt.alloc());
    walk(&rt, rt.alloc(), &mut SinkCalls { sink }, SINK_CALLS)
}

fn failing_cabinet(rt: &impl Abort, alloc: Global) -> MemoryCabinet {
    let failing = [
        Failure::at(2),
        Failure::after(5, 2),
        Failure::after(7, 9),
        Failure::at(9),
    ];
    let failing = failing.to_vec(alloc).expect(rt, "memory");
    MemoryCabinet::new(alloc, 2, 4, failing).expect(rt, "memory")
}

fn failing_sink(rt: &impl Abort, alloc: Global) -> MemorySink {
    let failing = [Failure::at(1), Failure::after(3, 2), Failure::after(5, 9)];
    let failing = failing.to_vec(alloc).expect(rt, "memory");
    MemorySink::new(alloc, 6, failing).expect(rt, "memory")
}

/// Calls of the real cabinet under one name, one a row: what each answers, and the count of faults.
#[derive(Drop)]
struct RealCalls<'a, C: Cabinet + Drop> {
    cabinet: C,
    name: &'a str,
}

impl<C: Cabinet + Drop> Case for RealCalls<'_, C> {
    fn find(&mut self, rt: &impl Abort, given: &[u8], out: &mut Finding) {
        let (call, bytes) = cut(given, b' ');
        answer(rt, &mut self.cabinet, call, self.name, bytes, out);
        out.say(format_args!(" {}", self.cabinet.faults()))
    }
}

const FILE_CALLS: &[u8] = b"\
write SCR;S25;|Ok(()) 0
read 8|SCR;S25; 0
read 7|Err(Larger) 1
";

const CALLS_WITHOUT_FILE: &[u8] = b"\
read 8|Err(Missing) 2
";

const FOLDER_CALLS: &[u8] = b"\
read 9|Err(Failed) 1
write x|Err(Failed) 2
";

#[test]
fn the_system_keeps_a_file(rt: HostRuntime) {
    let folder = env::temp_dir(&rt).expect(&rt, "a folder for files of a test");
    let process = process::id(rt.process());
    let path = path_in(
        &rt,
        rt.alloc(),
        folder.as_path(),
        "desk-outside-test",
        process,
    );
    keeps(&rt, rt.alloc(), path.as_path().to_str().expect(&rt, "path"))
}

/// Keeps a file of this name, and then finds none.
fn keeps<R: Abort + Files>(rt: &R, alloc: Global, name: &str) {
    let cabinet = RealCabinet::new(rt);
    let mut calls = RealCalls { cabinet, name };
    walk(rt, alloc, &mut calls, FILE_CALLS);
    fs::remove_file(rt, name).expect(rt, "the file is there");
    walk(rt, alloc, &mut calls, CALLS_WITHOUT_FILE)
}

#[test]
fn the_system_refuses_a_folder(rt: HostRuntime) {
    let folder = env::temp_dir(&rt).expect(&rt, "a folder for files of a test");
    refuses(
        &rt,
        rt.alloc(),
        folder.as_path().to_str().expect(&rt, "path"),
    )
}

/// Refuses to read and to write a folder of this name.
fn refuses<R: Abort + Files>(rt: &R, alloc: Global, name: &str) {
    let cabinet = RealCabinet::new(rt);
    walk(rt, alloc, &mut RealCalls { cabinet, name }, FOLDER_CALLS)
}

/// An output that takes nothing.
#[derive(Drop)]
struct ClosedOutput;

impl Print for ClosedOutput {
    fn print<D: Display + Drop>(&self, _value: D) -> io::Result<()> {
        Err(io::Error::from(io::ErrorKind::BrokenPipe))
    }

    fn println<D: Display + Drop>(&self, _value: D) -> io::Result<()> {
        Err(io::Error::from(io::ErrorKind::BrokenPipe))
    }

    fn write_all(&self, _bytes: &[u8]) -> io::Result<()> {
        Err(io::Error::from(io::ErrorKind::BrokenPipe))
    }
}

#[test]
fn the_system_has_an_output(rt: HostRuntime) {
    let sink = RealSink::new(&rt);
    walk(
        &rt,
        rt.alloc(),
        &mut OutputCalls { sink },
        b"a line of a test;|Ok(()) 0\n",
    );
    let closed = ClosedOutput;
    let sink = RealSink::new(&closed);
    walk(
        &rt,
        rt.alloc(),
        &mut OutputCalls { sink },
        b"lost|Err(SinkFault) 1\n",
    )
}

/// Calls of a sink over an output, one a row: what each answers, and the count of faults.
#[derive(Drop)]
struct OutputCalls<S: Sink + Drop> {
    sink: S,
}

impl<S: Sink + Drop> Case for OutputCalls<S> {
    fn find(&mut self, _rt: &impl Abort, given: &[u8], out: &mut Finding) {
        out.show(self.sink.put(given));
        out.say(format_args!(" {}", self.sink.faults()))
    }
}

/// Passes both points of a gate, and counts them.
fn pass<G: Gate>(gate: &G, worker: u32) -> u32 {
    gate.before_node(worker);
    gate.before_line(worker);
    2
}

/// Whether values of this type may go to another thread and be shared there.
fn is_shared<T: Send + Sync>() -> bool {
    true
}

#[test]
fn what_threads_may_have(rt: HostRuntime) {
    assert!(rt; pass(&RealGate, 0) == 2);
    assert!(rt; is_shared::<MemoryCabinet>() && is_shared::<MemorySink>());
}

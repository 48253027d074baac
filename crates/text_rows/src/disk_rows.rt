//! A disk in memory, whose listed calls fail, and one over a file of the real system.
ghost use Rattle.std.specs.Prelude.{◌≡◌, ◌≤◌, true};
ghost use Rattle.desk_disk.specs.Disks.{shown_length};

use crate::rows::{Case, Finding, ascii, check_bytes, cut, number, path_in, walk};
use desk_disk::laws::joined_calls;
use desk_disk::{Disk, MemoryDisk, RealDisk};
use desk_outside::Failure;
use std::alloc::Global;
use std::process::Abort;
use std::{env, fs, io, process};

/// Calls of a disk, one a row: `length`; `read` with a place and a count; `write` with a place and
/// bytes; `cut` with a length; `sync`. Each answers what it found, or `ok`, or `fault`; then the
/// count of faults. A read, a write and a cut ask for the length first, and are not made where the
/// file is shorter than they want.
#[derive(Drop)]
struct DiskCalls<K: Disk> {
    disk: K,
}

impl Case for DiskCalls<MemoryDisk> {
    fn find(&mut self, rt: &impl Abort, given: &[u8], out: &mut Finding) {
        call(rt, &mut self.disk, given, out)
    }
}

impl Case for DiskCalls<RealDisk<fs::File>> {
    fn find(&mut self, rt: &impl Abort, given: &[u8], out: &mut Finding) {
        call(rt, &mut self.disk, given, out)
    }
}

/// Makes the call of a row, and says the count of faults then.
fn call<K: Disk>(rt: &impl Abort, disk: &mut K, given: &[u8], out: &mut Finding) {
    let (name, rest) = cut(given, b' ');
    answer(rt, disk, name, rest, out);
    out.say(format_args!(" {}", disk.faults()))
}

/// Makes the call of a name and what stands behind it.
fn answer<K: Disk>(rt: &impl Abort, disk: &mut K, name: &[u8], rest: &[u8], out: &mut Finding) {
    match ascii(name) {
        "length" => length(disk, out),
        "read" => read(rt, disk, rest, out),
        "write" => done(out, writes(rt, disk, rest)),
        "cut" => done(out, cuts(disk, number(rt, rest, 1))),
        "sync" => done(out, disk.sync().is_ok()),
        _ => out.put(b"no such call"),
    }
}

fn length<K: Disk>(disk: &mut K, out: &mut Finding) {
    match disk.length() {
        Ok(length) => out.say(length),
        Err(_) => out.put(b"fault"),
    }
}

fn read<K: Disk>(rt: &impl Abort, disk: &mut K, rest: &[u8], out: &mut Finding) {
    let (at, count) = (number(rt, rest, 1), number(rt, rest, 2));
    let mut bytes = [0u8; 16];
    let into = &mut bytes[..count.min(16) as usize];
    if fills(disk, at, into) {
        out.put(into)
    } else {
        out.put(b"fault")
    }
}

fn fills<K: Disk>(disk: &mut K, at: u32, into: &mut [u8]) -> bool {
    let end = u64::from(at).saturating_add(into.len() as u64);
    reaches(disk, end) && disk.read(u64::from(at), into).is_ok()
}

fn writes<K: Disk>(rt: &impl Abort, disk: &mut K, rest: &[u8]) -> bool {
    let (place, bytes) = cut(rest, b' ');
    let at = u64::from(number(rt, place, 1));
    reaches(disk, at) && disk.write_at(at, bytes).is_ok()
}

fn cuts<K: Disk>(disk: &mut K, size: u32) -> bool {
    reaches(disk, u64::from(size)) && disk.cut(u64::from(size)).is_ok()
}

/// Asks for the length, and says whether it is at least so great.
fn reaches<K: Disk>(disk: &mut K, size: u64) -> bool
    ensures { result ≡ true → size ≤ shown_length (K.view disk.new).log }
{
    joined_calls();
    match disk.length() {
        Ok(length) => size <= length,
        Err(_) => false,
    }
}

fn done(out: &mut Finding, done: bool) {
    let said: &[u8] = if done { b"ok" } else { b"fault" };
    out.put(said);
}

// The file `abcdef`, room for 8 bytes. Calls count from 0, and these fail: 4 after 2 bytes, 8, 12,
// 15 and 18.
const DISK_CALLS: &[u8] = b"\
length|6 0
read 1 3|bcd 0
write 4 XYZ|fault 1
read 0 6|abcdXY 1
cut 3|fault 2
write 6 Zq|ok 2
read 4 4|fault 3
write 7 12|fault 4
sync|fault 5
cut 7|ok 5
length|fault 6
";

#[test]
fn a_disk_fails_where_listed_or_full(rt: HostRuntime) {
    let alloc = rt.alloc();
    let disk = failing_disk(&rt, alloc);
    let mut calls = DiskCalls { disk };
    walk(&rt, alloc, &mut calls, DISK_CALLS);
    check_bytes(&rt, calls.disk.bytes(), b"abcdXYZ");
}

fn failing_disk(rt: &impl Abort, alloc: Global) -> MemoryDisk {
    let failing = [
        Failure::after(4, 2),
        Failure::at(8),
        Failure::at(12),
        Failure::at(15),
        Failure::at(18),
    ];
    let failing = failing.to_vec(alloc).expect(rt, "memory");
    MemoryDisk::new(alloc, b"abcdef", 8, 99, failing).expect(rt, "memory")
}

#[test]
fn a_disk_fails_after_its_calls(rt: HostRuntime) {
    let none = Vec::new(rt.alloc());
    let disk = MemoryDisk::new(rt.alloc(), b"", 8, 1, none).expect(&rt, "memory");
    walk(
        &rt,
        rt.alloc(),
        &mut DiskCalls { disk },
        b"sync|ok 0\nsync|fault 1\n",
    )
}

const FILE_CALLS: &[u8] = b"\
length|0 0
write 0 abcdef|ok 0
sync|ok 0
read 2 3|cde 0
cut 4|ok 0
length|4 0
";

#[test]
fn the_system_has_a_disk(rt: HostRuntime) {
    let folder = env::temp_dir(&rt).expect(&rt, "a folder for files of a test");
    let process = process::id(rt.process());
    let path = path_in(&rt, rt.alloc(), folder.as_path(), "desk-disk-test", process);
    let name = path.as_path().to_str().expect(&rt, "path");
    let file = new_file(&rt, name).expect(&rt, "a new file");
    walk_file(&rt, rt.alloc(), file);
    fs::remove_file(&rt, name).expect(&rt, "the file is there");
}

fn new_file(rt: &HostRuntime, name: &str) -> io::Result<fs::File> {
    fs::OpenOptions::new()
        .read(true)
        .write(true)
        .create(true)
        .open(rt, name)
}

fn walk_file(rt: &impl Abort, alloc: Global, file: fs::File) {
    let disk = RealDisk::new(Some(file));
    walk(rt, alloc, &mut DiskCalls { disk }, FILE_CALLS)
}

#[test]
fn a_disk_without_a_file_fails(rt: HostRuntime) {
    let disk = RealDisk::<fs::File>::new(None);
    walk(
        &rt,
        rt.alloc(),
        &mut DiskCalls { disk },
        b"length|fault 1\nsync|fault 2\n",
    )
}

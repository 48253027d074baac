//! Links and doors in memory, whose listed calls fail, and those of the real system.
ghost use Rattle.std.specs.Prelude.{All};
ghost use Rattle.desk_links.specs.LinksInMemory.{IsUnused};

use crate::rows::{Case, Finding, ascii, check_bytes, cut, number, walk};
use desk_links::{Door, DoorFault, Link, MemoryDoor, MemoryLink, RealDoor, RealLink};
use desk_outside::Failure;
use std::alloc::Global;
use std::io::{Read, Write};
use std::net::{OpenListener, Shutdown, TcpListener, TcpStream};
use std::process::Abort;

/// Calls of a link, one a row: `take` with the room of the caller, `put` with bytes. Each answers
/// the bytes that were taken, or `put`, or `fault`; then the count of faults, and whether the input
/// has ended.
#[derive(Drop)]
struct LinkCalls<L: Link> {
    link: L,
}

impl Case for LinkCalls<MemoryLink> {
    fn find(&mut self, rt: &impl Abort, given: &[u8], out: &mut Finding) {
        call(rt, &mut self.link, given, out)
    }
}

impl Case for LinkCalls<RealLink<TcpStream>> {
    fn find(&mut self, rt: &impl Abort, given: &[u8], out: &mut Finding) {
        call(rt, &mut self.link, given, out)
    }
}

/// Makes the call of a row, and says the count of faults then, and whether the input has ended.
fn call<L: Link>(rt: &impl Abort, link: &mut L, given: &[u8], out: &mut Finding) {
    let (call, rest) = cut(given, b' ');
    match ascii(call) {
        "take" => take(rt, link, rest, out),
        "put" => put(link, rest, out),
        _ => out.put(b"no such call"),
    }
    let (faults, ended) = (link.faults(), link.ended());
    out.say(format_args!(" {faults} {ended}"))
}

fn take<L: Link>(rt: &impl Abort, link: &mut L, room: &[u8], out: &mut Finding) {
    let mut into = [0u8; 16];
    let room = (number(rt, room, 1) as usize).clamp(1, 16);
    let taken: &[u8] = match link.take(&mut into[..room]) {
        Ok(n) => &into[..n.min(16)],
        Err(_) => b"fault",
    };
    out.put(taken);
}

fn put<L: Link>(link: &mut L, bytes: &[u8], out: &mut Finding) {
    let answer: &[u8] = if link.put(bytes).is_ok() {
        b"put"
    } else {
        b"fault"
    };
    out.put(answer);
}

// The input `abcdefgh` in pieces of 3, 0 (which is 1) and 9 bytes, then as they fit; room for 4
// bytes that are put. Calls count from 0, and these fail: 1; 5 after 1 byte.
const LINK_CALLS: &[u8] = b"\
take 16|abc 0 false
take 16|fault 1 false
take 16|d 1 false
put xy|put 1 false
take 2|ef 1 false
put zz|fault 2 false
take 16|gh 2 false
put z|put 2 false
put z|fault 3 false
take 16| 3 true
take 16| 3 true
put |put 3 true
";

#[test]
fn a_link_comes_in_its_pieces(rt: HostRuntime) {
    let link = link_in_pieces(&rt, rt.alloc());
    let mut calls = LinkCalls { link };
    walk(&rt, rt.alloc(), &mut calls, LINK_CALLS);
    check_bytes(&rt, calls.link.sent(), b"xyzz");
}

fn link_in_pieces(rt: &impl Abort, alloc: Global) -> MemoryLink {
    let input = Vec::from_slice(alloc, b"abcdefgh").expect(rt, "memory");
    let sizes = [3, 0, 9].to_vec(alloc).expect(rt, "memory");
    let failing = [Failure::at(1), Failure::after(5, 1)];
    let failing = failing.to_vec(alloc).expect(rt, "memory");
    MemoryLink::new(alloc, input, sizes, 4, failing).expect(rt, "memory")
}

fn link_of(rt: &impl Abort, alloc: Global, input: &[u8]) -> MemoryLink
    ensures { IsUnused result }
{
    let input = Vec::from_slice(alloc, input).expect(rt, "memory");
    MemoryLink::new(alloc, input, Vec::new(alloc), 9, Vec::new(alloc)).expect(rt, "memory")
}

fn two_links(rt: &impl Abort, alloc: Global) -> Vec<MemoryLink>
    ensures { All IsUnused result.items }
{
    let mut links = Vec::new(alloc);
    links.push(link_of(rt, alloc, b"one")).expect(rt, "memory");
    links.push(link_of(rt, alloc, b"two")).expect(rt, "memory");
    links
}

// A door with two links, room for so many, of which some accepts fail.
fn door_of(rt: &impl Abort, alloc: Global, places: usize, failing: &[Failure]) -> MemoryDoor {
    let failing = failing.to_vec(alloc).expect(rt, "memory");
    MemoryDoor::new(alloc, two_links(rt, alloc), places, failing).expect(rt, "memory")
}

/// Links that a door hands out, one a row: what the row gives is put over the link, which is then
/// handed back. Each answers what became of it, and the count of faults.
#[derive(Drop)]
struct Serves<D: Door + Drop> {
    door: D,
}

impl Case for Serves<MemoryDoor> {
    fn find(&mut self, _rt: &impl Abort, given: &[u8], out: &mut Finding) {
        out.put(serve(&mut self.door, given));
        out.say(format_args!(" {}", self.door.faults()))
    }
}

impl Case for Serves<RealDoor<TcpListener>> {
    fn find(&mut self, _rt: &impl Abort, given: &[u8], out: &mut Finding) {
        out.put(serve(&mut self.door, given));
        out.say(format_args!(" {}", self.door.faults()))
    }
}

/// Accepts a link, puts the bytes over it, and hands it back.
fn serve<D: Door>(door: &mut D, bytes: &[u8]) -> &'static [u8] {
    match door.accept() {
        Ok(Some(mut link)) => {
            let served = link.put(bytes).is_ok();
            door.finish(link);
            if served { b"served" } else { b"fault" }
        }
        Ok(None) => b"none",
        Err(DoorFault) => b"no link",
    }
}

// Two links, room for two; the second accept fails.
#[test]
fn a_door_hands_out_its_links(rt: HostRuntime) {
    let door = door_of(&rt, rt.alloc(), 2, &[Failure::at(1)]);
    let mut serves = Serves { door };
    let rows = b"1|served 0\n-|no link 1\n2|served 1\n3|none 1\n";
    walk(&rt, rt.alloc(), &mut serves, rows);
    assert!(rt; kept_two(&serves.door));
}

// Whether two links were kept, and the second was sent its byte.
fn kept_two(door: &MemoryDoor) -> bool {
    match door.kept() {
        [_, second] => second.sent() == b"2".as_slice(),
        _ => false,
    }
}

// More links than there is room for.
#[test]
fn a_full_door_hands_out_no_link(rt: HostRuntime) {
    let door = door_of(&rt, rt.alloc(), 1, &[]);
    walk(
        &rt,
        rt.alloc(),
        &mut Serves { door },
        b"1|served 0\n2|no link 1\n",
    )
}

// A door over a listener of the system: a client that sends and half-closes gets what is put.
#[test]
fn the_system_has_links(rt: HostRuntime) {
    let listener = TcpListener::bind(&rt, "127.0.0.1:0").expect(&rt, "a free port");
    let address = listener.local_addr().expect(&rt, "the address of a port");
    let mut door = RealDoor::new(rt.alloc(), Some(listener), 1).expect(&rt, "memory");
    let mut client = TcpStream::connect(&rt, address).expect(&rt, "a client");
    exchange(&rt, rt.alloc(), &mut door, &mut client);
    assert!(rt; door.accept().is_err());
}

/// The client sends bytes, and gets what is put.
fn exchange(
    rt: &impl Abort,
    alloc: Global,
    door: &mut RealDoor<TcpListener>,
    client: &mut TcpStream,
) {
    client.write_all(b"abc").expect(rt, "the client sends");
    client
        .shutdown(Shutdown::Write)
        .expect(rt, "the client ends its input");
    serve_one(rt, alloc, door);
    has_come(rt, alloc, client);
}

/// Takes the bytes of a client, puts others, and hands the link back.
fn serve_one(rt: &impl Abort, alloc: Global, door: &mut RealDoor<TcpListener>) {
    let Ok(Some(link)) = door.accept() else {
        panic!(rt; "no link comes");
    };
    let mut calls = LinkCalls { link };
    walk(
        rt,
        alloc,
        &mut calls,
        b"take 16|abc 0 false\ntake 16| 0 true\nput xy|put 0 true\n",
    );
    let LinkCalls { link } = calls;
    door.finish(link);
}

/// What was put has come to the client.
fn has_come(rt: &impl Abort, alloc: Global, client: &mut TcpStream) {
    let mut got = Vec::new(alloc);
    client.read_to_end(&mut got).expect(rt, "the client reads");
    check_bytes(rt, &got, b"xy");
}

#[test]
fn a_door_without_a_listener_fails(rt: HostRuntime) {
    let door = RealDoor::<TcpListener>::new(rt.alloc(), None, 1).expect(&rt, "memory");
    walk(&rt, rt.alloc(), &mut Serves { door }, b"1|no link 1\n")
}

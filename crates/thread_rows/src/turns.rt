//! Callers on threads of their own, who write lines into one log.
ghost use Rattle.std.specs.Prelude.{◌≡◌, All};
ghost use Rattle.turn_lock.specs.Seats.{IsAtRest};

use std::process::Abort;
use std::sync::Wait;
use std::thread;
use std::thread::Threads;
use turn_lock::{Story, Turn, TurnSeat, laws};

const CALLERS: u32 = 8;

const LINES_EACH: u32 = 1000;

/// A line: who wrote it, and how many lines this caller had written before.
#[derive(Clone, Copy, Debug)]
struct Line {
    caller: u32,
    place: u32,
}

/// A log, with a name that no caller changes.
#[derive(Drop)]
struct Log {
    name: u32,
    lines: Vec<Line>,
}

impl Story for Log {
    type Origin = u32;

    type Entry = Line;

    ghost origin = { λ log. log.name };

    ghost entries = { λ log. log.lines.items };

    ghost caller = { λ line. line.caller };

    fn length(&self) -> u64 {
        self.lines.len() as u64
    }
}

// Writes one line of this seat's caller. Where there is no memory the log goes back as it came.
fn write_line<R: Wait>(rt: &R, turn: &Turn<Log>, seat: &mut TurnSeat<Log>, place: u32)
    requires { IsAtRest turn.now seat.old }
    ensures { IsAtRest turn.now seat.new }
{
    let mut log = turn.take(rt, seat);
    let line = Line {
        caller: seat.number(),
        place,
    };
    if let Err(_full) = log.lines.push(line) {}
    turn.give(rt, seat, log);
}

fn write_lines<R: Wait>(rt: &R, turn: &Turn<Log>, seat: &mut TurnSeat<Log>)
    requires { IsAtRest turn.now seat.old }
    ensures { IsAtRest turn.now seat.new }
{
    for place in 0..LINES_EACH {
        write_line(rt, turn, seat, place);
    }
}

fn write_on_threads<R: Threads + Wait + Sync>(rt: &R, turn: &Turn<Log>, seats: &mut [TurnSeat<Log>])
    requires { All (IsAtRest turn.now) seats.old }
    ensures { All (IsAtRest turn.now) seats.new }
{
    thread::for_each_mut(
        rt,
        seats,
        CALLERS as usize,
        &|_, seat| write_lines(rt, turn, seat),
    );
}

// Takes the turn and gives the value back as it came.
fn look<R: Wait, T: Story>(rt: &R, turn: &Turn<T>, seat: &mut TurnSeat<T>)
    requires { IsAtRest turn.now seat.old }
    ensures { IsAtRest turn.now seat.new }
{
    let value = turn.take(rt, seat);
    turn.give(rt, seat, value);
}

// A turn and its seats go to other threads wherever the value may.
fn look_on_threads<R: Threads + Wait + Sync, T: Story + Send>(
    rt: &R,
    turn: &Turn<T>,
    seats: &mut [TurnSeat<T>],
)
    requires { All (IsAtRest turn.now) seats.old }
    ensures { All (IsAtRest turn.now) seats.new }
{
    thread::for_each_mut(rt, seats, 2, &|_, seat| look(rt, turn, seat));
}

#[test]
fn lines_of_each_caller_stand_in_its_order(rt: HostRuntime) {
    let log = Log {
        name: 25,
        lines: Vec::new(rt.alloc()),
    };
    let (turn, mut seats) = Turn::new(rt.alloc(), log, CALLERS).expect(&rt, "memory");
    write_on_threads(&rt, &turn, seats.as_mut_slice());
    look_on_threads(&rt, &turn, seats.as_mut_slice());
    let log = turn.close(seats);
    assert_eq!(rt; log.name, 25);
    check_lines(&rt, &log.lines);
}

// 1,000 lines of each of eight callers, those of each in its order.
fn check_lines(rt: &impl Abort, lines: &[Line]) {
    assert!(rt; lines.len() == 8000, "not 8000 lines");
    let mut places = [0u32; 8];
    for line in lines {
        check_line(rt, &mut places, line);
    }
    assert!(rt; places == [1000; 8], "not 1000 lines of each caller");
}

// A line is the next one of its caller.
fn check_line(rt: &impl Abort, places: &mut [u32], line: &Line) {
    let Line { caller, place } = *line;
    let Some(next) = places.get_mut(caller as usize) else {
        panic!(rt; "no caller has the number {caller}")
    };
    let wanted = *next;
    assert!(rt;
        place == wanted,
        "caller {caller} has line {place}, not {wanted}"
    );
    *next = wanted.wrapping_add(1);
}

#[test]
fn a_seat_sees_what_another_gave(rt: HostRuntime) {
    laws::histories::<Log>();
    let log = Log {
        name: 1,
        lines: Vec::new(rt.alloc()),
    };
    let (turn, mut seats) = Turn::new(rt.alloc(), log, 2).expect(&rt, "memory");
    let mut second = seats.pop().expect(&rt, "a second seat");
    let mut first = seats.pop().expect(&rt, "a first seat");
    write_and_look(&rt, &turn, &mut first, &mut second);
    seats.push(second).expect(&rt, "memory");
    seats.push(first).expect(&rt, "memory");
    let log = turn.close(seats);
    assert_eq!(rt; log.lines.len(), 1);
}

// The second caller writes a line, which the first one then sees.
fn write_and_look<R: Abort + Wait>(
    rt: &R,
    turn: &Turn<Log>,
    first: &mut TurnSeat<Log>,
    second: &mut TurnSeat<Log>,
)
    requires { IsAtRest turn.now first.old × IsAtRest turn.now second.old }
    ensures { IsAtRest turn.now first.new × IsAtRest turn.now second.new }
{
    let (one, other) = (first.number(), second.number());
    assert!(rt;
        one == 0 && other == 1,
        "seats {one} and {other}, not 0 and 1"
    );
    write_line(rt, turn, second, 7);
    let log = turn.take(rt, first);
    let length = log.length();
    assert!(rt; length == 1, "{length} lines are seen, not 1");
    turn.give(rt, first, log);
}

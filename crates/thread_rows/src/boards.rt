//! Boards of a search: seats that draw pieces, by one and by several threads.

ghost use Rattle.std.specs.Prelude.{◌≡◌, ◌+◌, ◌≤◌};
ghost use Rattle.std.specs.Thread.{IsSync};
ghost use Rattle.incumbent_word.specs.Seats.{IsSeatOf};

use incumbent_word::{Board, BoardEnd, BoardSeat};
use std::alloc::Global;
use std::process::Abort;
use std::thread::{Threads, join};

#[test]
fn one_seat_draws_until_none_is_left(rt: HostRuntime) {
    let (board, mut seat) = Board::new(rt.alloc(), 1, 2, None).expect(&rt, "memory");
    draw_alone(&rt, &board, &mut seat);
    let end = board.close(seat);
    assert!(rt; end.claimed == 2 && end.taken == 1 && end.least == Some(7));
}

fn draw_alone(rt: &impl Abort, board: &Board, seat: &mut BoardSeat)
    requires { IsSeatOf board.now seat.old }
    ensures { IsSeatOf board.now seat.new × (seat.new.view.share ≡ seat.old.view.share) }
{
    assert!(rt; seat.claim(board) == Some(0) && seat.claim(board) == Some(1));
    assert!(rt; seat.claim(board).is_none() && seat.claim(board).is_none());
    assert!(rt; seat.take(board) == Some(0) && seat.take(board).is_none());
    assert!(rt; seat.least(board).is_none());
    seat.post(board, 7);
    seat.post(board, 9);
    assert!(rt; seat.least(board) == Some(7));
}

#[test]
fn a_second_seat_comes_and_goes(rt: HostRuntime) {
    let (board, mut first) = Board::new(rt.alloc(), 0, 2, Some(5)).expect(&rt, "memory");
    draw_with_another(&rt, &board, &mut first);
    let end = board.close(first);
    assert!(rt; end.claimed == 2 && end.taken == 0 && end.least == Some(5));
}

fn draw_with_another(rt: &impl Abort, board: &Board, first: &mut BoardSeat)
    requires { IsSeatOf board.now first.old × (2 ≤ first.old.view.share) }
    ensures { IsSeatOf board.now first.new × (first.new.view.share ≡ first.old.view.share) }
{
    let mut second = first.split(board);
    let pieces = (first.claim(board), second.claim(board));
    let (none, least) = (second.claim(board), second.least(board));
    first.join(board, second);
    assert!(rt; pieces == (Some(0), Some(1)) && none.is_none() && least == Some(5));
    assert!(rt; first.claim(board).is_none());
}

const PIECES: u32 = 1_000;

const BUDGET: u32 = 10_000;

// As many rounds as there are pieces and numbers: no worker can draw something in more of them.
const ROUNDS: u32 = 11_001;

// What one worker, or several together, drew.
#[derive(Drop)]
struct Drawn {
    pieces: Vec<u64>,
    numbers: Vec<u64>,
}

// A piece, a number, a cost posted for it, and a look at the least cost. It says whether there was
// anything left.
fn draw_once(rt: &impl Abort, board: &Board, seat: &mut BoardSeat, drawn: &mut Drawn) -> bool
    requires { IsSeatOf board.now seat.old }
    ensures { IsSeatOf board.now seat.new × (seat.new.view.share ≡ seat.old.view.share) }
{
    let piece = seat.claim(board);
    let number = seat.take(board);
    let drew = piece.is_some() || number.is_some();
    seat.post(board, 20_000u64.saturating_sub(number.unwrap_or(0)));
    seat.least(board);
    if let Some(piece) = piece {
        drawn.pieces.push(u64::from(piece)).expect(rt, "memory");
    }
    if let Some(number) = number {
        drawn.numbers.push(number).expect(rt, "memory");
    }
    drew
}

fn draw_all(
    rt: &impl Abort,
    alloc: Global,
    board: &Board,
    mut seat: BoardSeat,
) -> (BoardSeat, Drawn)
    requires { IsSeatOf board.now seat }
    ensures { IsSeatOf board.now result.0 × (result.0.view.share ≡ seat.view.share) }
{
    let mut drawn = Drawn {
        pieces: Vec::new(alloc),
        numbers: Vec::new(alloc),
    };
    for _ in 0..ROUNDS {
        if !draw_once(rt, board, &mut seat, &mut drawn) {
            break;
        }
    }
    (seat, drawn)
}

// So many workers, each on a thread of its own, with a seat split from this one and joined again.
fn draw_together<R: Abort + Threads + Sync>(
    rt: &R,
    alloc: Global,
    board: &Board,
    mut seat: BoardSeat,
    workers: u64,
) -> (BoardSeat, Drawn)
    requires own { IsSeatOf board.now seat }
    requires some { 1 ≤ workers }
    requires share { workers ≤ seat.view.share }
    ensures own { IsSeatOf board.now result.0 }
    ensures share { result.0.view.share ≡ seat.view.share }
{
    if workers <= 1 {
        return draw_all(rt, alloc, board, seat);
    }
    let half = workers / 2;
    let rest = workers - half;
    let other = seat.split(board);
    let (one, two) = join(
        rt,
        || -> (BoardSeat, Drawn)
            requires { IsSync R.row × IsSeatOf board.now seat × (1 ≤ rest)
                × (rest ≤ seat.view.share) }
            ensures own { IsSeatOf board.entry.now result.0 }
            ensures share { result.0.view.share ≡ seat.view.share }
        { draw_together(rt, alloc, board, seat, rest) },
        || -> (BoardSeat, Drawn)
            requires { IsSync R.row × IsSeatOf board.now other × (1 ≤ half)
                × (half ≤ other.view.share) }
            ensures own { IsSeatOf board.entry.now result.0 }
            ensures share { result.0.view.share ≡ other.view.share }
        { draw_together(rt, alloc, board, other, half) },
    );
    put_together(rt, board, one, two)
}

fn put_together(
    rt: &impl Abort,
    board: &Board,
    one: (BoardSeat, Drawn),
    two: (BoardSeat, Drawn),
) -> (BoardSeat, Drawn)
    requires { IsSeatOf board.now one.0 × IsSeatOf board.now two.0 }
    ensures own { IsSeatOf board.now result.0 }
    ensures share { result.0.view.share ≡ one.0.view.share + two.0.view.share }
{
    let (mut seat, mut drawn) = one;
    let (other, more) = two;
    seat.join(board, other);
    drawn
        .pieces
        .extend_from_slice(more.pieces.as_slice())
        .expect(rt, "memory");
    drawn
        .numbers
        .extend_from_slice(more.numbers.as_slice())
        .expect(rt, "memory");
    (seat, drawn)
}

#[test]
fn eight_workers_draw_each_piece_and_number_once(rt: HostRuntime) {
    let (end, drawn) = drawn_by_eight(&rt, rt.alloc());
    assert!(rt; end.claimed == 1_000 && end.taken == 10_000 && end.least == Some(10_001));
    let Drawn { pieces, numbers } = drawn;
    check_each_once(&rt, pieces, 1_000);
    check_each_once(&rt, numbers, 10_000);
}

// What eight workers drew from a board, and what it says at its end.
fn drawn_by_eight<R: Abort + Threads + Sync>(rt: &R, alloc: Global) -> (BoardEnd, Drawn) {
    let (board, seat) = Board::new(alloc, BUDGET, PIECES, None).expect(rt, "memory");
    let (seat, drawn) = draw_together(rt, alloc, &board, seat, 8);
    (board.close(seat), drawn)
}

// Each number below a count is there once.
fn check_each_once(rt: &impl Abort, mut numbers: Vec<u64>, count: usize) {
    numbers.sort().expect(rt, "memory");
    check_order(rt, &numbers);
    assert!(rt; numbers.len() == count, "not {count} numbers");
}

fn check_order(rt: &impl Abort, numbers: &[u64]) {
    for (place, number) in numbers.iter().enumerate() {
        assert!(rt; *number == place as u64, "{number} at place {place}");
    }
}

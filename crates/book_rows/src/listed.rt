//! The slow way to tell what an ask is answered: all movements are listed, and those of each window
//! are counted.

use holding_book::{Answer, Holding, HoldingList, State};
use scr_reader::{Code, Flight, Item, Line, Stop};
use season_days::{Day, Declaration, Kind, Night, Period, Rule, Season};
use std::alloc::Global;
use std::process::Abort;

/// An answer, and the holdings after it.
#[derive(Drop)]
pub(crate) struct Listed {
    pub(crate) answer: Answer,
    pub(crate) holdings: Vec<Holding>,
}

/// A movement at a minute that is counted from the begin of the season.
#[derive(Clone, Copy)]
struct Moved {
    arrives: bool,
    at: u32,
}

/// What is answered to an ask, and what is held after it.
pub(crate) fn by_listing(
    rt: &impl Abort,
    alloc: Global,
    declaration: &Declaration,
    held: &[Holding],
    ask: &Item,
) -> Listed {
    match ask {
        Item::One(line) => of_line(rt, alloc, declaration, held, line),
        Item::Pair(historic, request) => of_pair(rt, alloc, declaration, held, historic, request),
        Item::Query(flight) => of_query(rt, alloc, held, flight),
    }
}

fn of_line(
    rt: &impl Abort,
    alloc: Global,
    declaration: &Declaration,
    held: &[Holding],
    line: &Line,
) -> Listed {
    match line.code {
        Code::N | Code::B => of_new(rt, alloc, declaration, held, line),
        Code::D => released(rt, alloc, &declaration.season, held, State::Confirmed, line),
        Code::Z => released(rt, alloc, &declaration.season, held, State::Offered, line),
        Code::A => accepted(rt, alloc, &declaration.season, held, line),
        _ => stays(rt, alloc, held, Answer::W),
    }
}

fn stays(rt: &impl Abort, alloc: Global, held: &[Holding], answer: Answer) -> Listed {
    Listed {
        answer,
        holdings: Vec::from_slice(alloc, held).expect(rt, "memory"),
    }
}

fn of_new(
    rt: &impl Abort,
    alloc: Global,
    declaration: &Declaration,
    held: &[Holding],
    line: &Line,
) -> Listed {
    if clashes(&declaration.season, held, line) {
        return stays(rt, alloc, held, Answer::W);
    }
    match best_of(rt, alloc, declaration, held, line) {
        None => stays(rt, alloc, held, Answer::U),
        Some(best) if best == *line => {
            with_one(rt, alloc, held, best, State::Confirmed, Answer::K)
        }
        Some(best) => with_one(rt, alloc, held, best, State::Offered, Answer::Offer(best)),
    }
}

// An answer, and the holdings with one more.
fn with_one(
    rt: &impl Abort,
    alloc: Global,
    held: &[Holding],
    line: Line,
    state: State,
    answer: Answer,
) -> Listed {
    let mut holdings = Vec::from_slice(alloc, held).expect(rt, "memory");
    holdings.push(Holding { line, state }).expect(rt, "memory");
    Listed { answer, holdings }
}

fn released(
    rt: &impl Abort,
    alloc: Global,
    season: &Season,
    held: &[Holding],
    state: State,
    line: &Line,
) -> Listed {
    match place_of(season, held, state, line) {
        None => stays(rt, alloc, held, Answer::W),
        Some(place) => Listed {
            answer: Answer::X,
            holdings: without(rt, alloc, season, held, place, line.period, None),
        },
    }
}

fn accepted(
    rt: &impl Abort,
    alloc: Global,
    season: &Season,
    held: &[Holding],
    line: &Line,
) -> Listed {
    match place_of(season, held, State::Offered, line) {
        None => stays(rt, alloc, held, Answer::W),
        Some(place) => Listed {
            answer: Answer::K,
            holdings: without(
                rt,
                alloc,
                season,
                held,
                place,
                line.period,
                Some(line.period),
            ),
        },
    }
}

fn of_pair(
    rt: &impl Abort,
    alloc: Global,
    declaration: &Declaration,
    held: &[Holding],
    historic: &Line,
    request: &Line,
) -> Listed {
    let season = &declaration.season;
    let Some(place) = place_of(season, held, State::Confirmed, historic) else {
        return stays(rt, alloc, held, Answer::W);
    };
    let left = without(rt, alloc, season, held, place, historic.period, None);
    of_request(rt, alloc, declaration, held, &left, request)
}

// What is answered to the request of a pair, without whose historic line these holdings are left.
fn of_request(
    rt: &impl Abort,
    alloc: Global,
    declaration: &Declaration,
    held: &[Holding],
    left: &[Holding],
    request: &Line,
) -> Listed {
    if clashes(&declaration.season, left, request) {
        return stays(rt, alloc, held, Answer::W);
    }
    if !fits_among(rt, alloc, declaration, left, request) {
        return stays(rt, alloc, held, Answer::Held);
    }
    with_one(
        rt,
        alloc,
        left,
        *request,
        State::Confirmed,
        Answer::KChanged,
    )
}

fn of_query(rt: &impl Abort, alloc: Global, held: &[Holding], flight: &Flight) -> Listed {
    let mut found = Vec::new(alloc);
    for holding in held {
        if has_flight(&holding.line, flight) {
            found.push(*holding).expect(rt, "memory");
        }
    }
    let answer = if found.is_empty() {
        Answer::W
    } else {
        Answer::Listed(HoldingList::new(found))
    };
    stays(rt, alloc, held, answer)
}

/// Whether the line has the flight as its arrival or its departure.
pub(crate) fn has_flight(line: &Line, flight: &Flight) -> bool {
    is_of(line.arrival, flight) || is_of(line.departure, flight)
}

fn is_of(stop: Option<Stop>, flight: &Flight) -> bool {
    match stop {
        Some(stop) => stop.flight == *flight,
        None => false,
    }
}

// ---- clashes, matches and cuts

fn clashes(season: &Season, held: &[Holding], line: &Line) -> bool {
    for holding in held {
        let other = &holding.line;
        let arrivals = share_flight(line.arrival, other.arrival);
        let departures = share_flight(line.departure, other.departure);
        if (arrivals || departures) && share_day(season, line.period, other.period) {
            return true;
        }
    }
    false
}

fn share_flight(one: Option<Stop>, other: Option<Stop>) -> bool {
    match one {
        Some(stop) => is_of(other, &stop.flight),
        None => false,
    }
}

fn has_day(season: &Season, period: Period, day: u32) -> bool {
    period.first.0 <= day && day <= period.last.0 && season.is_on(period.days, Day(day))
}

// The day behind the last one of a period, or of the season.
fn end_of(season: &Season, period: Period) -> u32 {
    season.length().min(period.last.0.wrapping_add(1))
}

fn share_day(season: &Season, one: Period, other: Period) -> bool {
    for day in one.first.0..end_of(season, one) {
        if has_day(season, one, day) && has_day(season, other, day) {
            return true;
        }
    }
    false
}

fn has_all_days(season: &Season, held: Period, asked: Period) -> bool {
    for day in asked.first.0..end_of(season, asked) {
        if has_day(season, asked, day) && !has_day(season, held, day) {
            return false;
        }
    }
    true
}

fn is_same_stop(one: Option<Stop>, other: Option<Stop>) -> bool {
    match (one, other) {
        (None, None) => true,
        (Some(one), Some(other)) => one.flight == other.flight && one.minute == other.minute,
        _ => false,
    }
}

// The place of the first holding that matches.
fn place_of(season: &Season, held: &[Holding], state: State, line: &Line) -> Option<usize> {
    for (place, holding) in held.iter().enumerate() {
        let other = &holding.line;
        let same = is_same_stop(line.arrival, other.arrival)
            && is_same_stop(line.departure, other.departure)
            && line.nights == other.nights;
        if same && holding.state == state && has_all_days(season, other.period, line.period) {
            return Some(place);
        }
    }
    None
}

// The holdings, of which one is cut by a period and, where a period is given, confirmed in it.
fn without(
    rt: &impl Abort,
    alloc: Global,
    season: &Season,
    held: &[Holding],
    place: usize,
    cut: Period,
    confirmed: Option<Period>,
) -> Vec<Holding> {
    let mut left = Vec::new(alloc);
    for (at, holding) in held.iter().enumerate() {
        if at == place {
            push_parts(rt, &mut left, season, holding, cut);
            if let Some(period) = confirmed {
                left.push(Holding {
                    line: Line {
                        period,
                        ..holding.line
                    },
                    state: State::Confirmed,
                })
                .expect(rt, "memory");
            }
        } else {
            left.push(*holding).expect(rt, "memory");
        }
    }
    left
}

// The parts of a holding before a period, on its other weekdays, and after it.
fn push_parts(
    rt: &impl Abort,
    out: &mut Vec<Holding>,
    season: &Season,
    holding: &Holding,
    cut: Period,
) {
    let held = holding.line.period;
    if cut.first.0 > 0 {
        let last = Day(held.last.0.min(cut.first.0 - 1));
        push_part(rt, out, season, holding, Period { last, ..held });
    }
    let between = Period {
        first: Day(held.first.0.max(cut.first.0)),
        last: Day(held.last.0.min(cut.last.0)),
        days: held.days & !cut.days,
    };
    push_part(rt, out, season, holding, between);
    let first = Day(held.first.0.max(cut.last.0.wrapping_add(1)));
    push_part(rt, out, season, holding, Period { first, ..held })
}

// A part, if it has a day.
fn push_part(
    rt: &impl Abort,
    out: &mut Vec<Holding>,
    season: &Season,
    holding: &Holding,
    period: Period,
) {
    for day in period.first.0..end_of(season, period) {
        if has_day(season, period, day) {
            out.push(Holding {
                line: Line {
                    period,
                    ..holding.line
                },
                state: holding.state,
            })
            .expect(rt, "memory");
            return;
        }
    }
}

// ---- the times that fit

// By so many steps of five minutes a movement may be moved.
const SHIFTS: [i32; 5] = [-2, -1, 0, 1, 2];

// The line at the first of the shifts that displace least, of those at which it fits.
fn best_of(
    rt: &impl Abort,
    alloc: Global,
    declaration: &Declaration,
    held: &[Holding],
    line: &Line,
) -> Option<Line> {
    let moves = moves_of(rt, alloc, &declaration.season, held);
    let mut best = None;
    let mut least = 1_000;
    for one in SHIFTS {
        for two in SHIFTS {
            let cost = one.unsigned_abs().wrapping_add(two.unsigned_abs());
            if cost >= least {
                continue;
            }
            if let Some(moved) = fitting(rt, alloc, declaration, &moves, line, one, two) {
                best = Some(moved);
                least = cost;
            }
        }
    }
    best
}

// The line with so many steps added to each of its movements, if it may be moved so, and fits.
fn fitting(
    rt: &impl Abort,
    alloc: Global,
    declaration: &Declaration,
    moves: &[Moved],
    line: &Line,
    one: i32,
    two: i32,
) -> Option<Line> {
    let Some(moved) = shifted(line, one, two) else {
        return None;
    };
    if fits_beside(rt, alloc, declaration, moves, &moved) {
        Some(moved)
    } else {
        None
    }
}

// The line with so many steps added to each of its movements, if it may be moved so. A movement
// that is not there is not moved. The ground time of a turnaround is at least forty minutes, or
// what was asked for.
fn shifted(line: &Line, one: i32, two: i32) -> Option<Line> {
    let arrival = shifted_stop(line.arrival, one)?;
    let departure = shifted_stop(line.departure, two)?;
    let moved = Line {
        arrival,
        departure,
        ..*line
    };
    if ground(&moved) < ground(line).min(40) {
        return None;
    }
    Some(moved)
}

fn shifted_stop(stop: Option<Stop>, steps: i32) -> Option<Option<Stop>> {
    let Some(stop) = stop else {
        return if steps == 0 { Some(None) } else { None };
    };
    let minute = i32::from(stop.minute).wrapping_add(steps.wrapping_mul(5));
    if minute < 0 || minute >= 1440 {
        return None;
    }
    Some(Some(Stop {
        minute: minute as u16,
        ..stop
    }))
}

// The minutes from arrival to departure; forty where there are not both.
fn ground(line: &Line) -> i32 {
    match (line.arrival, line.departure) {
        (Some(coming), Some(going)) => {
            i32::from(line.nights)
                .wrapping_mul(1440)
                .wrapping_add(i32::from(going.minute))
                .wrapping_sub(i32::from(coming.minute))
        }
        _ => 40,
    }
}

// ---- movements and windows

// Whether each window in which the line has a movement holds no more than it may of these movements
// and the line's own; and so the night.
fn fits_beside(
    rt: &impl Abort,
    alloc: Global,
    declaration: &Declaration,
    moves: &[Moved],
    line: &Line,
) -> bool {
    let mut new = Vec::new(alloc);
    push_moves(rt, &mut new, &declaration.season, line);
    let mut all = Vec::from_slice(alloc, moves).expect(rt, "memory");
    all.extend_from_slice(&new).expect(rt, "memory");
    for moved in &new {
        if !has_room(declaration, &all, *moved) {
            return false;
        }
    }
    true
}

// Whether the line fits beside these holdings.
fn fits_among(
    rt: &impl Abort,
    alloc: Global,
    declaration: &Declaration,
    held: &[Holding],
    line: &Line,
) -> bool {
    let moves = moves_of(rt, alloc, &declaration.season, held);
    fits_beside(rt, alloc, declaration, &moves, line)
}

fn moves_of(rt: &impl Abort, alloc: Global, season: &Season, held: &[Holding]) -> Vec<Moved> {
    let mut all = Vec::new(alloc);
    for holding in held {
        push_moves(rt, &mut all, season, &holding.line);
    }
    all
}

// The movements of a line; those after the season's last date are not listed.
fn push_moves(rt: &impl Abort, out: &mut Vec<Moved>, season: &Season, line: &Line) {
    for day in line.period.first.0..end_of(season, line.period) {
        if has_day(season, line.period, day) {
            push_move(rt, out, season, true, line.arrival, day);
            let later = day.wrapping_add(u32::from(line.nights));
            push_move(rt, out, season, false, line.departure, later);
        }
    }
}

fn push_move(
    rt: &impl Abort,
    out: &mut Vec<Moved>,
    season: &Season,
    arrives: bool,
    stop: Option<Stop>,
    day: u32,
) {
    if let Some(stop) = stop {
        if day < season.length() {
            let at = day.wrapping_mul(1440).wrapping_add(u32::from(stop.minute));
            out.push(Moved { arrives, at }).expect(rt, "memory");
        }
    }
}

// Whether no window with this movement, and no night, holds more than it may.
fn has_room(declaration: &Declaration, all: &[Moved], moved: Moved) -> bool {
    for rule in declaration.rules.items() {
        let day = moved.at / 1440;
        if !has_room_on(declaration, rule, all, moved, day)
            || day > 0 && !has_room_on(declaration, rule, all, moved, day - 1)
        {
            return false;
        }
    }
    match declaration.night {
        Some(night) => !is_at_night(night, moved) || night_load(night, all) <= night.limit,
        None => true,
    }
}

// The same of the windows of a day.
fn has_room_on(
    declaration: &Declaration,
    rule: &Rule,
    all: &[Moved],
    moved: Moved,
    day: u32,
) -> bool {
    if !declaration.season.is_on(rule.days, Day(day)) {
        return true;
    }
    let mut from = rule.from;
    for _ in 0..300 {
        if from > rule.to {
            return true;
        }
        let start = day.wrapping_mul(1440).wrapping_add(from);
        if is_within(rule, start, moved) && load(rule, start, all) > rule.limit {
            return false;
        }
        from = from.wrapping_add(declaration.step);
    }
    false
}

fn is_within(rule: &Rule, start: u32, moved: Moved) -> bool {
    let of_kind = match rule.kind {
        Kind::Arr => moved.arrives,
        Kind::Dep => !moved.arrives,
        Kind::Tot => true,
    };
    of_kind && start <= moved.at && moved.at < start.wrapping_add(rule.length)
}

fn load(rule: &Rule, start: u32, all: &[Moved]) -> u32 {
    let mut count = 0_u32;
    for moved in all {
        if is_within(rule, start, *moved) {
            count = count.wrapping_add(1);
        }
    }
    count
}

fn is_at_night(night: Night, moved: Moved) -> bool {
    let minute = moved.at % 1440;
    if night.from < night.to {
        night.from <= minute && minute < night.to
    } else {
        night.from <= minute || minute < night.to
    }
}

fn night_load(night: Night, all: &[Moved]) -> u32 {
    let mut count = 0_u32;
    for moved in all {
        if is_at_night(night, *moved) {
            count = count.wrapping_add(1);
        }
    }
    count
}

/// Whether all holdings fit: each of their movements has room.
pub(crate) fn all_fit(
    rt: &impl Abort,
    alloc: Global,
    declaration: &Declaration,
    held: &[Holding],
) -> bool {
    let all = moves_of(rt, alloc, &declaration.season, held);
    for moved in &all {
        if !has_room(declaration, &all, *moved) {
            return false;
        }
    }
    true
}

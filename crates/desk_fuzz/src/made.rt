//! The files of a made season, written down anew by its rule.

use slot_text::Memory;
use std::alloc::Global;

/// The generator of made seasons.
#[derive(Clone, Copy)]
struct Made {
    state: u64,
}

impl Made {
    fn draw(&mut self, bound: u64) -> u64 {
        self.state = self.state.wrapping_mul(75).wrapping_add(74) % 65_537;
        self.state.checked_rem(bound).unwrap_or(0)
    }
}

/// The capacity file of so many units.
pub fn made_capacity(alloc: Global, units: u64) -> Result<String, Memory> {
    let limit = (units.wrapping_add(191) / 192)
        .wrapping_mul(3)
        .wrapping_add(2);
    let text = format!(in alloc;
        "AIRPORT ABC\nSEASON S25\nSTEP 5\nFLEX 30\nGROUND 40\nREFUSE 60\n\
        CAP ARR 60 0600 2200 1234567 {limit}\n"
    )?;
    Ok(text)
}

/// The requests of a made season.
pub fn made_requests(alloc: Global, number: u64, units: u64) -> Result<String, Memory> {
    let mut text = String::from_str(alloc, "SCR\nS25\n20NOV\nABC\n")?;
    put_requests(&mut text, number, units)?;
    Ok(text)
}

fn put_requests(text: &mut String, number: u64, units: u64) -> Result<(), Memory> {
    let mut made = Made {
        state: number % 65_537,
    };
    for unit in 0..units {
        put_request(text, &mut made, unit)?;
    }
    Ok(())
}

fn put_request(text: &mut String, made: &mut Made, unit: u64) -> Result<(), Memory> {
    let flight = unit.wrapping_add(1000);
    let minute = match unit % 4 {
        0 => (unit % 192).wrapping_mul(5).wrapping_add(360),
        _ => made.draw(36).wrapping_mul(5).wrapping_add(420),
    };
    if unit % 4 == 3 {
        let stay = made.draw(12).wrapping_mul(5).wrapping_add(45);
        return put_turnaround(text, flight, minute, minute.wrapping_add(stay));
    }
    let code = match unit % 4 {
        0 => "F",
        2 => "B",
        _ => "N",
    };
    let arrival = clock(minute);
    write!(
        text,
        "{code}XY{flight} 30MAR25OCT 1234567 180320 JFK{arrival:04} J\n"
    )?;
    Ok(())
}

/// Appends the request of a turnaround between two minutes.
fn put_turnaround(text: &mut String, flight: u64, from: u64, to: u64) -> Result<(), Memory> {
    let (arrival, departure) = (clock(from), clock(to));
    write!(text, "NXY{flight} XZ{flight} 30MAR25OCT 1234567 180320 ")?;
    write!(text, "JFK{arrival:04} {departure:04}JFK JJ\n")?;
    Ok(())
}

fn clock(minute: u64) -> u64 {
    (minute / 60).wrapping_mul(100).wrapping_add(minute % 60)
}

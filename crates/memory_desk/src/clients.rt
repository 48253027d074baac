//! Doors in memory, by the inputs of their links.

ghost use Rattle.std.specs.Prelude.{All, IfOk};
ghost use Rattle.desk_links.specs.LinksInMemory.{IsUnused};

use desk_links::{MemoryDoor, MemoryLink};
use desk_outside::Failure;
use slot_text::Memory;
use std::alloc::{AllocError, Global};

/// How many bytes a link may be sent, beside as many as its input has.
const ROOM: usize = 300_000;

/// How many links a door keeps.
const MOST_LINKS: usize = 9;

/// The clients of a door, one after the other: what the link of each hands out.
#[derive(Drop)]
pub struct Clients {
    pub inputs: Vec<Vec<u8>>,
}

/// A door with a link for each of these clients, which hands its input out in pieces of so many
/// bytes, or whole where that is 0. An accept is to fail, or a call of the first link.
pub fn door_of(
    alloc: Global,
    clients: &Clients,
    piece: usize,
    call: Option<Failure>,
    accept: Option<Failure>,
) -> Result<MemoryDoor, Memory> {
    let links = links_of(alloc, &clients.inputs, piece, call)?;
    let failing = list_of(alloc, accept)?;
    MemoryDoor::new(alloc, links, MOST_LINKS, failing)
}

fn links_of(
    alloc: Global,
    inputs: &[Vec<u8>],
    piece: usize,
    call: Option<Failure>,
) -> Result<Vec<MemoryLink>, Memory>
    ensures { IfOk result (λ links. All IsUnused links.items) }
{
    let mut links = Vec::new(alloc);
    for input in inputs {
        let failing = if links.is_empty() { call } else { None };
        links.push(link_of(alloc, input, piece, failing)?)?;
    }
    Ok(links)
}

fn link_of(
    alloc: Global,
    input: &[u8],
    piece: usize,
    call: Option<Failure>,
) -> Result<MemoryLink, Memory>
    ensures { IfOk result IsUnused }
{
    let input = Vec::from_slice(alloc, input)?;
    let takes = if piece == 0 {
        0
    } else {
        input.len().saturating_add(1)
    };
    let sizes = vec![in alloc; piece; takes]?;
    let failing = list_of(alloc, call)?;
    let room = ROOM.saturating_add(input.len());
    MemoryLink::new(alloc, input, sizes, room, failing)
}

/// The list of one call that is to fail, or of none.
pub fn list_of(alloc: Global, failing: Option<Failure>) -> Result<Vec<Failure>, AllocError> {
    let mut list = Vec::new(alloc);
    if let Some(failure) = failing {
        list.push(failure)?;
    }
    Ok(list)
}

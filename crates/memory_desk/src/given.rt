//! What a run is given.

use crate::clients::Clients;
use desk_outside::Failure;
use slot_text::Memory;
use std::alloc::Global;

/// A file, by its name.
#[derive(Drop)]
pub struct File {
    pub name: String,
    pub bytes: Vec<u8>,
}

/// The calls that are to fail, one of each object at most: an accept of the first door, a call of
/// that door's first link, and calls of the others.
#[derive(Clone, Copy, Debug, PartialEq, Eq)]
pub struct Fails {
    pub cabinet: Option<Failure>,
    pub sink: Option<Failure>,
    pub accept: Option<Failure>,
    pub link: Option<Failure>,
    pub disk: Option<Failure>,
}

/// No call fails.
pub const NO_FAILS: Fails = Fails {
    cabinet: None,
    sink: None,
    accept: None,
    link: None,
    disk: None,
};

/// The files of a run, with room for so many bytes in each; the clients of each door, whose input
/// comes in pieces of so many bytes, or whole where that is 0; the bytes of a disk, if there is
/// one; and the calls that are to fail.
#[derive(Drop)]
pub struct Given {
    pub files: Vec<File>,
    pub room: usize,
    pub clients: Vec<Clients>,
    pub piece: usize,
    pub journal: Option<Vec<u8>>,
    pub fails: Fails,
}

impl Given {
    /// No file, no door and no disk.
    pub fn new(alloc: Global, room: usize) -> Given {
        Given {
            files: Vec::new(alloc),
            room,
            clients: Vec::new(alloc),
            piece: 0,
            journal: None,
            fails: NO_FAILS,
        }
    }

    /// Keeps a file in place of the one of its name.
    pub fn put(&mut self, alloc: Global, name: &str, bytes: Vec<u8>) -> Result<(), Memory> {
        for file in &mut self.files {
            if file.name.as_str() == name {
                file.bytes = bytes;
                return Ok(());
            }
        }
        let name = String::from_str(alloc, name)?;
        self.files.push(File { name, bytes })?;
        Ok(())
    }

    /// Gives a file another name.
    pub fn rename(&mut self, alloc: Global, name: &str, new: &str) -> Result<(), Memory> {
        for file in &mut self.files {
            if file.name.as_str() == name {
                file.name = String::from_str(alloc, new)?;
            }
        }
        Ok(())
    }

    /// The bytes under a name.
    pub fn file(&self, name: &str) -> Option<&[u8]> {
        for file in &self.files {
            if file.name.as_str() == name {
                return Some(file.bytes.as_slice());
            }
        }
        None
    }

    /// One door more, with one client, which sends this input.
    pub fn open_door(&mut self, alloc: Global, input: Vec<u8>) -> Result<(), Memory> {
        let mut inputs = Vec::new(alloc);
        inputs.push(input)?;
        self.clients.push(Clients { inputs })?;
        Ok(())
    }

    /// One client more at the first door, if there is one.
    pub fn add_client(&mut self, input: Vec<u8>) -> Result<(), Memory> {
        if let Some(clients) = self.clients.first_mut() {
            clients.inputs.push(input)?;
        }
        Ok(())
    }

    /// The input of the first client.
    pub fn client(&self) -> Option<&[u8]> {
        let input = self.clients.first()?.inputs.first()?;
        Some(input.as_slice())
    }

    /// Lets the first client send other input.
    pub fn replace_client(&mut self, input: Vec<u8>) {
        if let Some(clients) = self.clients.first_mut() {
            if let Some(first) = clients.inputs.first_mut() {
                *first = input;
            }
        }
    }
}

// The shelf of a run: records, named by their places.
use crate::fault::{Failure, Fault};
use crate::hex::{decode_behind, say_bytes};
use crate::text::ARGUMENT_MARK;
use std::alloc::Global;
use std::io;
use std::io::Write;

// Room for how many records, and for their bytes. The longest line has records of half of these bytes at most, so that there is room
// for more.
const PLACES: usize = 4_096;

const SHELF_ROOM: usize = 524_288;

// The bytes of the records, one behind the other, and where each one ends.
#[derive(Drop)]
pub(crate) struct Shelf {
    bytes: Vec<u8>,
    ends: Vec<usize>,
}

impl Shelf {
    // It has all its room from the start: a vector that grows has its old place beside the new one for a while, and room that is not
    // written to costs next to nothing.
    fn new(alloc: Global) -> Result<Shelf, Failure> {
        Ok(Shelf {
            bytes: Vec::with_capacity(alloc, SHELF_ROOM)?,
            ends: Vec::with_capacity(alloc, PLACES)?,
        })
    }

    // How many records there are.
    pub(crate) fn len(&self) -> usize {
        self.ends.len()
    }

    // The record at a place. It starts where the one before it ends.
    pub(crate) fn record(&self, place: usize) -> Option<&[u8]> {
        let end = *self.ends.get(place)?;
        let start = match place.checked_sub(1) {
            Some(before) => *self.ends.get(before)?,
            None => 0,
        };
        self.bytes.get(start..end)
    }

    // Makes a record of the bytes behind the last one, where there is a place for it.
    fn end_record(&mut self) -> Result<(), Failure> {
        if self.ends.len() >= PLACES {
            return Err(Fault::Full.into());
        }
        self.ends.push(self.bytes.len())?;
        Ok(())
    }

    // Puts a record behind the others, where there is room for it.
    pub(crate) fn push(&mut self, record: &[u8]) -> Result<(), Failure> {
        if self.bytes.len().saturating_add(record.len()) > SHELF_ROOM {
            return Err(Fault::Full.into());
        }
        self.bytes.extend_from_slice(record)?;
        self.end_record()
    }

    // Takes a record of the starting shelf whole, however long it is.
    fn take(&mut self, text: &[u8]) -> Result<(), Failure> {
        decode_behind(&mut self.bytes, text, SHELF_ROOM)?;
        self.end_record()
    }
}

// Takes the starting shelf, or says which of its records cannot be taken.
pub(crate) fn take_shelf(alloc: Global, text: &[u8]) -> Result<Shelf, Failure> {
    let mut shelf = Shelf::new(alloc)?;
    for record in text.split(|c| *c == ARGUMENT_MARK) {
        let place = shelf.len();
        shelf
            .take(record)
            .map_err(|failure| failure.at_place(place))?;
    }
    Ok(shelf)
}

pub(crate) fn say_shelf<W: Write>(out: &mut W, shelf: &Shelf) -> io::Result<()> {
    write!(out, "shelf ")?;
    for place in 0..shelf.len() {
        if place != 0 {
            write!(out, " ; ")?;
        }
        say_bytes(out, shelf.record(place).unwrap_or(b""))?;
    }
    writeln!(out)
}

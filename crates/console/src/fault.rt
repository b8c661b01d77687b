// What is wrong with a line, and how a call of the console fails.
use std::alloc::{AllocError, AllocFailed};
use std::{fmt, io};

// What is wrong with a call, with an argument, or with a call of a run.
#[derive(Clone, Copy)]
pub(crate) enum Fault {
    // The line, or its word.
    TooLong,
    NoSuchCall,
    NoPreview,
    NoFlight,
    // How many arguments there are.
    OneRecord,
    OneAndLength,
    TwoRecords,
    TwoAndLength,
    TwoGraded,
    OnePointed,
    OnePreviewed,
    TwoPreviewed,
    PathPreviewed,
    OnePayload,
    // An argument.
    Missing,
    NotHex,
    Odd,
    NotDecimal,
    NoPointer,
    NotPointer,
    NoSlice,
    // A maker of a number, or a walk.
    NoMaker,
    NotInt,
    NotUint,
    NotBits,
    NotScaled,
    NoWalk,
    NotArrayWalk,
    NotObjectWalk,
    // A place or a call of a run.
    NotPlace,
    NoRecord,
    NoCall,
    OnePlace,
    PlaceAndPath,
    TwoPlaces,
    Full,
    TooMany,
}

impl Fault {
    fn words(self) -> &'static str {
        match self {
            Fault::TooLong => "the line is too long",
            Fault::NoSuchCall => {
                "there is no such call; there are check, sound, show, chars, get, pointer, delete, concat, strip, append, build, preview, flight, grade, same, make, number, step and run"
            }
            Fault::NoPreview =>
                "there is no such preview; there are delete, concat, strip, append and build",
            Fault::NoFlight =>
                "flight takes a record in hexadecimal, or an edit: there are delete, concat and strip",
            Fault::OneRecord => "this call takes one record",
            Fault::OneAndLength =>
                "this call takes one record, and the buffer's length if you like",
            Fault::TwoRecords => "this call takes two records",
            Fault::TwoAndLength =>
                "this call takes two records, and the buffer's length if you like",
            Fault::TwoGraded => "this call takes two records, the candidate's and the expected one",
            Fault::OnePointed =>
                "this call takes a record, a pointer, and the buffer's length if you like",
            Fault::OnePreviewed => "this preview takes one record, and no buffer's length",
            Fault::TwoPreviewed => "this preview takes two records, and no buffer's length",
            Fault::PathPreviewed =>
                "this preview takes a record and a path, and no buffer's length",
            Fault::OnePayload => "number takes one payload in hexadecimal; an empty one is -",
            Fault::Missing => "a record is missing; an empty one is -",
            Fault::NotHex => "an argument is not hexadecimal",
            Fault::Odd => "an argument has half a byte at its end",
            Fault::NotDecimal => "the buffer's length is not a decimal number",
            Fault::NoPointer => "the pointer is missing; an empty one is -",
            Fault::NotPointer =>
                "a pointer is written with its leading slash, or its bytes in hexadecimal",
            Fault::NoSlice => "the slice is missing; an empty one is -",
            Fault::NoMaker => {
                "make takes i, u, f or d: i NUMBER, u NUMBER, f BITS or d NUMBER SCALE, and the buffer's length if you like"
            }
            Fault::NotInt =>
                "make i takes one number in decimal, from -9223372036854775808 to 9223372036854775807",
            Fault::NotUint => "make u takes one number in decimal, from 0 to 18446744073709551615",
            Fault::NotBits =>
                "make f takes the bits of one float, 16 hexadecimal digits with no spaces",
            Fault::NotScaled => {
                "make d takes a number in decimal, from -9223372036854775808 to 9223372036854775807, and a scale from 0 to 255"
            }
            Fault::NoWalk => {
                "step takes a walk and a slice: array JENTRY ITEM LEFT ; SLICE or object KEY_JENTRY VAL_JENTRY KEY VAL LEFT ; SLICE"
            }
            Fault::NotArrayWalk =>
                "step array takes JENTRY ITEM LEFT, three numbers in decimal, from 0 to 18446744073709551615",
            Fault::NotObjectWalk => {
                "step object takes KEY_JENTRY VAL_JENTRY KEY VAL LEFT, five numbers in decimal, from 0 to 18446744073709551615"
            }
            Fault::NotPlace => "a place is not a decimal number",
            Fault::NoRecord => "there is no record at that place",
            Fault::NoCall =>
                "there is no such call; there are get, delete, concat, strip, append and build",
            Fault::OnePlace => "this call takes a place, and the buffer's length if you like",
            Fault::PlaceAndPath =>
                "this call takes a place, a path, and the buffer's length if you like",
            Fault::TwoPlaces => "this call takes two places, and the buffer's length if you like",
            Fault::Full => "there is no room on the shelf",
            Fault::TooMany => "a run has no room for another call",
        }
    }
}

impl fmt::Display for Fault {
    fn fmt<W: fmt::Write>(&self, f: &mut fmt::Formatter<W>) -> fmt::Result {
        f.write_str(self.words())
    }
}

// How a call fails: its line is at fault, or a place on the starting shelf or a call of its run is; or a read, a write or memory has
// failed, which ends the program.
#[derive(Drop)]
pub(crate) enum Failure {
    Line(Fault),
    Place(usize, Fault),
    Call(usize, Fault),
    Io(io::Error),
}

impl Failure {
    // The same of a record of the starting shelf.
    pub(crate) fn at_place(self, place: usize) -> Failure {
        match self {
            Failure::Line(fault) => Failure::Place(place, fault),
            other => other,
        }
    }

    // The same of a call of a run.
    pub(crate) fn at_call(self, call: usize) -> Failure {
        match self {
            Failure::Line(fault) => Failure::Call(call, fault),
            other => other,
        }
    }
}

impl From<Fault> for Failure {
    fn from(fault: Fault) -> Failure {
        Failure::Line(fault)
    }
}

impl From<io::Error> for Failure {
    fn from(error: io::Error) -> Failure {
        Failure::Io(error)
    }
}

impl From<AllocError> for Failure {
    fn from(error: AllocError) -> Failure {
        Failure::Io(io::Error::from(error))
    }
}

impl<T: Drop> From<AllocFailed<T>> for Failure {
    fn from(failed: AllocFailed<T>) -> Failure {
        Failure::Io(io::Error::from(AllocError::from(failed)))
    }
}

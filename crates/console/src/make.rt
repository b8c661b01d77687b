// The payloads of numbers: made, and read back.
//
//   make i -1          result 40ff
//   number 40ff        signed -1
use crate::decimal::{read_decimal, read_signed, take_length};
use crate::fault::{Failure, Fault};
use crate::hex::digit;
use crate::say::{say_ending, say_refused};
use crate::taken::take_one;
use crate::text::{Words, argument, count_arguments, trim};
use layout::ending::Ending;
use layout::number::{Number, encode_decimal64, encode_float64, encode_int64, encode_uint64};
use layout::refusal::Refusal;
use std::alloc::Global;
use std::io;
use std::io::Write;

// The longest payload that is made, a decimal's: its first byte, eight of the value and the scale. A longer buffer serves as this does.
const MADE_ROOM: usize = 10;

// The digits of a float's bits.
const BITS_DIGITS: usize = 16;

// The sign of a float, and the bits of infinity. Those above them, but for the sign, are NaNs.
const SIGN: u64 = 0x8000_0000_0000_0000;

const INFINITY: u64 = 0x7ff0_0000_0000_0000;

// What is to be made. It is an enum, and no closure in its place: each maker takes a number of a type of its own.
#[derive(Clone, Copy)]
enum Making {
    Int(i64),
    Uint(u64),
    Float(u64),
    Scaled(i64, u8),
}

// ---- what a maker takes

fn ask_int(words: Words) -> Option<Making> {
    Some(Making::Int(read_signed(words.only()?)?))
}

fn ask_uint(words: Words) -> Option<Making> {
    Some(Making::Uint(read_decimal(words.only()?).ok()?))
}

fn ask_float(words: Words) -> Option<Making> {
    let digits = words.only()?;
    if digits.len() != BITS_DIGITS {
        return None;
    }
    let mut bits = 0;
    for c in digits {
        bits = bits << 4 | u64::from(digit(*c)?);
    }
    Some(Making::Float(bits))
}

fn ask_scaled(mut words: Words) -> Option<Making> {
    let value = read_signed(words.next()?)?;
    let scale = read_decimal(words.only()?).ok()?;
    Some(Making::Scaled(value, u8::try_from(scale).ok()?))
}

// What the words of a call ask for, of which the first is the maker.
fn ask(text: &[u8]) -> Result<Making, Fault> {
    let mut words = Words(text);
    match words.next() {
        Some(b"i") => ask_int(words).ok_or(Fault::NotInt),
        Some(b"u") => ask_uint(words).ok_or(Fault::NotUint),
        Some(b"f") => ask_float(words).ok_or(Fault::NotBits),
        Some(b"d") => ask_scaled(words).ok_or(Fault::NotScaled),
        _ => Err(Fault::NoMaker),
    }
}

// ---- making

// The language makes no float of a NaN's bits, so that one is made by a division that has no result.
fn float_of(bits: u64) -> f64 {
    if INFINITY < bits % SIGN {
        return 0.0 / 0.0;
    }
    f64::from_bits(bits)
}

fn encode(making: Making, out: &mut [u8]) -> Ending {
    match making {
        Making::Int(v) => encode_int64(v, out),
        Making::Uint(v) => encode_uint64(v, out),
        Making::Float(bits) => encode_float64(float_of(bits), out),
        Making::Scaled(value, scale) => encode_decimal64(value, scale, out),
    }
}

pub(crate) fn answer_make<W: Write>(out: &mut W, text: &[u8]) -> Result<(), Failure> {
    if count_arguments(text) > 2 {
        return Err(Fault::NoMaker.into());
    }
    let making = ask(argument(text, 0).ok_or(Fault::NoMaker)?)?;
    let length = take_length(text, 1)?.min(MADE_ROOM);
    let mut room = [0; MADE_ROOM];
    let ending = encode(making, &mut room[..length]);
    say_ending(out, ending, &room)?;
    Ok(())
}

// ---- reading back

// Of a float the bits are said, as layout hands them out; of a decimal that is wider than 64 bits how many bytes there are behind
// the first.
fn say_number<W: Write>(out: &mut W, number: Result<Number, Refusal>) -> io::Result<()> {
    match number {
        Ok(Number::Nan) => writeln!(out, "nan"),
        Ok(Number::Infinity) => writeln!(out, "infinity"),
        Ok(Number::NegInfinity) => writeln!(out, "-infinity"),
        Ok(Number::Int64(v)) => writeln!(out, "signed {v}"),
        Ok(Number::UInt64(v)) => writeln!(out, "unsigned {v}"),
        Ok(Number::Float64(bits)) => writeln!(out, "float {bits:016x}"),
        Ok(Number::Decimal64(value, scale)) => writeln!(out, "decimal {value} {scale}"),
        Ok(Number::WideDecimal(bytes)) => writeln!(out, "wide {bytes}"),
        Err(refusal) => say_refused(out, refusal),
    }
}

pub(crate) fn answer_number<W: Write>(
    alloc: Global,
    out: &mut W,
    text: &[u8],
) -> Result<(), Failure> {
    if trim(text).is_empty() {
        return Err(Fault::OnePayload.into());
    }
    let payload = take_one(alloc, text, Fault::OnePayload)?;
    say_number(out, Number::decode(&payload))?;
    Ok(())
}

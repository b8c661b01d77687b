// An item in words: what it is, and what its payload spells, as it stands in an outline.
use crate::hex::{hex_letters, say_bytes};
use layout::item::Kind;
use layout::number::Number;
use std::io;
use std::io::Write;

// The length of the payload 00. It reads as an unsigned 0, as 5000 does, which is longer.
const ZERO_LENGTH: usize = 1;

// ---- text

fn is_escaped(c: u8) -> bool {
    c == b'"' || c == b'\\' || c.is_ascii_control()
}

// A control byte stands as \u00 and two digits, a quotation mark and a reverse solidus behind a reverse solidus.
fn say_escaped<W: Write>(out: &mut W, c: u8) -> io::Result<()> {
    if c.is_ascii_control() {
        let [high, low] = hex_letters(c);
        return out.write_all(&[b'\\', b'u', b'0', b'0', high, low]);
    }
    out.write_all(&[b'\\', c])
}

// Text between quotation marks. The bytes between two that are escaped are written at once.
pub(crate) fn say_text<W: Write>(out: &mut W, text: &[u8]) -> io::Result<()> {
    write!(out, "\"")?;
    for part in text.split_inclusive(|c| is_escaped(*c)) {
        match part {
            [plain @ .., c] if is_escaped(*c) => {
                out.write_all(plain)?;
                say_escaped(out, *c)?;
            }
            plain => out.write_all(plain)?,
        }
    }
    write!(out, "\"")
}

// ---- numbers

// By layout's reading of the payload, which never refuses one of a readable record. Of a float the bits are shown, as layout hands
// them out.
fn say_number<W: Write>(out: &mut W, payload: &[u8]) -> io::Result<()> {
    match Number::decode(payload) {
        Ok(Number::Nan) => write!(out, " NaN"),
        Ok(Number::Infinity) => write!(out, " infinity"),
        Ok(Number::NegInfinity) => write!(out, " minus infinity"),
        Ok(Number::Int64(v)) => write!(out, " {v} (signed)"),
        Ok(Number::UInt64(v)) if payload.len() == ZERO_LENGTH => write!(out, " {v} (zero)"),
        Ok(Number::UInt64(v)) => write!(out, " {v} (unsigned)"),
        Ok(Number::Float64(bits)) => write!(out, " bits {bits:016x} (float)"),
        Ok(Number::Decimal64(value, scale)) => write!(out, " {value} scale {scale} (decimal)"),
        Ok(Number::WideDecimal(bytes)) => write!(out, " of {bytes} bytes (decimal)"),
        Err(_) => write!(out, " "),
    }
}

// ---- items

// The word of a kind. It is a function and no Display, since the type is layout's, which prints nothing.
pub(crate) fn kind_word(kind: Kind) -> &'static str {
    match kind {
        Kind::Null => "null",
        Kind::String => "string",
        Kind::Number => "number",
        Kind::False => "false",
        Kind::True => "true",
        Kind::Container => "container",
        Kind::Extension => "extension",
    }
}

fn say_string<W: Write>(out: &mut W, payload: &[u8]) -> io::Result<()> {
    write!(out, " ")?;
    say_text(out, payload)
}

fn say_extension<W: Write>(out: &mut W, payload: &[u8]) -> io::Result<()> {
    write!(out, " ")?;
    say_bytes(out, payload)
}

// An item that is no container: the word of its kind, and what stands behind one that does not say all.
pub(crate) fn say_leaf<W: Write>(out: &mut W, kind: Kind, payload: &[u8]) -> io::Result<()> {
    write!(out, "{}", kind_word(kind))?;
    match kind {
        Kind::String => say_string(out, payload),
        Kind::Number => say_number(out, payload),
        Kind::Extension => say_extension(out, payload),
        _ => Ok(()),
    }
}

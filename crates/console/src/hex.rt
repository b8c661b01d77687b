// Bytes in hexadecimal, as arguments and in answers.
ghost use Rattle.std.specs.Prelude.{◌<◌, IfSome};

use crate::fault::{Failure, Fault};
use crate::text::{is_space, trim};
use layout::constants::RECORD_LIMIT;
use std::alloc::Global;
use std::io;
use std::io::Write;

// What is kept of a record is one byte more than the longest has: what is longer is refused as that is.
const RECORD_ROOM: usize = RECORD_LIMIT + 1;

// How a digit's value is written.
const DIGITS: [u8; 16] = *b"0123456789abcdef";

// How many bytes are spelled before they are written, so that a long text takes few writes.
const SPELLED: usize = 2048;

// The value of a digit. By hand, since spaces stand among the digits and one that is none is told before half a byte is: the kit's
// reading of hexadecimal takes no space, and tells an odd count first.
pub(crate) fn digit(c: u8) -> Option<u8>
    ensures { IfSome result (λ d. d < 16) }
{
    match c {
        b'0'..=b'9' => Some(c - b'0'),
        b'a'..=b'f' => Some(c - b'a' + 10),
        b'A'..=b'F' => Some(c - b'A' + 10),
        _ => None,
    }
}

// An empty text is written as a -, so that none is left out by mistake.
const EMPTY: &[u8] = b"-";

// Whether a text spells bytes, or would with a digit more.
pub(crate) fn is_hex(text: &[u8]) -> bool {
    trim(text) == EMPTY || text.iter().all(|c| is_space(*c) || digit(*c).is_some())
}

// Fills what is lent with the bytes that digits spell, two for each, as far as it goes: how many bytes of it are left.
fn decode_digits(digits: &[u8], out: &mut [u8]) -> Result<usize, Fault> {
    let mut left = out.iter_mut();
    let mut high = None;
    for c in digits {
        let low = match digit(*c) {
            Some(low) => low,
            None if is_space(*c) => continue,
            None => return Err(Fault::NotHex),
        };
        high = match high {
            None => Some(low),
            Some(high) => {
                if let Some(byte) = left.next() {
                    *byte = high << 4 | low;
                }
                None
            }
        };
    }
    match high {
        None => Ok(left.len()),
        Some(_) => Err(Fault::Odd),
    }
}

// Puts the bytes that a text spells behind others: of what is longer than a limit only the start.
pub(crate) fn decode_behind(bytes: &mut Vec<u8>, text: &[u8], limit: usize) -> Result<(), Failure> {
    let digits = trim(text);
    if digits.is_empty() {
        return Err(Fault::Missing.into());
    }
    if digits == EMPTY {
        return Ok(());
    }
    let start = bytes.len();
    bytes.resize(start.saturating_add(limit.min(digits.len() / 2)), 0)?;
    let left = decode_digits(digits, &mut bytes[start..])?;
    bytes.truncate(bytes.len().saturating_sub(left));
    Ok(())
}

// The bytes that a text spells.
pub(crate) fn decode(alloc: Global, text: &[u8]) -> Result<Vec<u8>, Failure> {
    let mut bytes = Vec::new(alloc);
    decode_behind(&mut bytes, text, usize::MAX)?;
    Ok(bytes)
}

// The bytes of a record, of a path or of a payload.
pub(crate) fn decode_record(alloc: Global, text: &[u8]) -> Result<Vec<u8>, Failure> {
    let mut record = Vec::new(alloc);
    decode_behind(&mut record, text, RECORD_ROOM)?;
    Ok(record)
}

// The two letters of a byte, in lower case.
pub(crate) fn hex_letters(byte: u8) -> [u8; 2] {
    [
        DIGITS[usize::from(byte >> 4)],
        DIGITS[usize::from(byte & 15)],
    ]
}

// Writes bytes, two letters for a byte.
pub(crate) fn say_hex<W: Write>(out: &mut W, bytes: &[u8]) -> io::Result<()> {
    for part in bytes.chunks(SPELLED) {
        let mut letters = [0; 2 * SPELLED];
        for (pair, byte) in letters.chunks_exact_mut(2).zip(part) {
            pair[0] = DIGITS[usize::from(*byte >> 4)];
            pair[1] = DIGITS[usize::from(*byte & 15)];
        }
        out.write_all(&letters[..2 * part.len()])?;
    }
    Ok(())
}

// Bytes as they can be given again.
pub(crate) fn say_bytes<W: Write>(out: &mut W, bytes: &[u8]) -> io::Result<()> {
    if bytes.is_empty() {
        return out.write_all(EMPTY);
    }
    say_hex(out, bytes)
}

// Numbers in decimal: the length of the result's buffer, a place on a shelf, and what numbers and walks are made of.
use crate::fault::Fault;
use crate::text::{argument, trim};
use layout::constants::RECORD_LIMIT;
use std::str;

// The longest result, and the buffer's length where none is given.
pub(crate) const RESULT_ROOM: usize = RECORD_LIMIT;

// Why a text is no number: it is one that 64 bits do not hold, or not written as one.
#[derive(Clone, Copy)]
pub(crate) enum NoNumber {
    TooLarge,
    NotDecimal,
}

fn is_decimal(text: &[u8]) -> bool {
    !text.is_empty() && text.iter().all(|c| c.is_ascii_digit())
}

// A number of any digits, zeros in front among them. The library's reading takes a + in front too.
pub(crate) fn read_decimal(text: &[u8]) -> Result<u64, NoNumber> {
    if !is_decimal(text) {
        return Err(NoNumber::NotDecimal);
    }
    str::from_utf8(text)
        .ok()
        .and_then(|digits| digits.parse().ok())
        .ok_or(NoNumber::TooLarge)
}

// A number with a - in front where it is below zero.
pub(crate) fn read_signed(text: &[u8]) -> Option<i64> {
    if !is_decimal(text.strip_prefix(b"-").unwrap_or(text)) {
        return None;
    }
    str::from_utf8(text).ok()?.parse().ok()
}

// The buffer's length: the argument behind so many others, where there is one. From the longest result on every length serves alike.
pub(crate) fn take_length(text: &[u8], others: usize) -> Result<usize, Fault> {
    let Some(length) = argument(text, others) else {
        return Ok(RESULT_ROOM);
    };
    match read_decimal(trim(length)) {
        Ok(n) => Ok(n.min(RESULT_ROOM as u64) as usize),
        Err(NoNumber::TooLarge) => Ok(RESULT_ROOM),
        Err(NoNumber::NotDecimal) => Err(Fault::NotDecimal),
    }
}

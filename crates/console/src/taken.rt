// What the calls take: records, and the length of the result's buffer.
use crate::decimal::take_length;
use crate::fault::{Failure, Fault};
use crate::hex::decode_record;
use crate::text::{argument, count_arguments};
use std::alloc::Global;

// The record of a number.
pub(crate) fn take_record(alloc: Global, text: &[u8], number: usize) -> Result<Vec<u8>, Failure> {
    decode_record(alloc, argument(text, number).ok_or(Fault::Missing)?)
}

// The one record of a call, which is its whole text, or what the call wants. It and the next are two functions: one for N records was
// tried, and `array::try_from_fn` asks that N of them fit in memory, for which it would need a clause that these do not.
pub(crate) fn take_one(alloc: Global, text: &[u8], wants: Fault) -> Result<Vec<u8>, Failure> {
    if count_arguments(text) != 1 {
        return Err(wants.into());
    }
    decode_record(alloc, text)
}

// The two records of a call, from the left.
pub(crate) fn take_two(
    alloc: Global,
    text: &[u8],
    wants: Fault,
) -> Result<(Vec<u8>, Vec<u8>), Failure> {
    if count_arguments(text) != 2 {
        return Err(wants.into());
    }
    let first = take_record(alloc, text, 0)?;
    let second = take_record(alloc, text, 1)?;
    Ok((first, second))
}

// A buffer for the result, of the length that the argument behind so many others gives.
pub(crate) fn take_room(alloc: Global, text: &[u8], others: usize) -> Result<Vec<u8>, Failure> {
    let mut room = Vec::new(alloc);
    room.resize(take_length(text, others)?, 0)?;
    Ok(room)
}

// What is lent of a room for results: a buffer of a length. The room is as long as the longest result, so that a longer buffer serves
// as it does.
pub(crate) fn lent(room: &mut [u8], length: usize) -> &mut [u8] {
    let n = length.min(room.len());
    &mut room[..n]
}

// That a text has so many arguments, or one more for the buffer's length.
pub(crate) fn check_records(text: &[u8], records: usize, wants: Fault) -> Result<(), Fault> {
    match count_arguments(text).checked_sub(records) {
        Some(0 | 1) => Ok(()),
        _ => Err(wants),
    }
}

// Look-up by a JSON Pointer: its text as it stands where it starts with a slash, else its bytes in hexadecimal.
//
//   pointer 40000001 10000001 20000002 61 5001 ; /a
//   result 20000000200000025001
//   pointer 40000001 10000001 20000002 61 5001 ; 2f61 ; 9
//   refused 10 buffer too short
use crate::fault::{Failure, Fault};
use crate::hex::decode;
use crate::say::say_ending;
use crate::taken::{check_records, take_record, take_room};
use crate::text::{argument, trim};
use pointers::pointer::get_by_pointer;
use std::alloc::Global;
use std::io::Write;

// Why an argument is no pointer, where it is no record.
fn pointer_failure(failure: Failure) -> Failure {
    match failure {
        Failure::Line(Fault::Missing) => Failure::Line(Fault::NoPointer),
        Failure::Line(Fault::NotHex) => Failure::Line(Fault::NotPointer),
        other => other,
    }
}

// Looks up what a pointer finds, with a buffer of the length behind it.
fn answer_found<W: Write>(
    alloc: Global,
    out: &mut W,
    record: &[u8],
    pointer: &[u8],
    text: &[u8],
) -> Result<(), Failure> {
    let mut room = take_room(alloc, text, 2)?;
    let ending = get_by_pointer(record, pointer, &mut room);
    say_ending(out, ending, &room)?;
    Ok(())
}

// Takes the record, the pointer and the buffer's length, or says why one is none. No hexadecimal starts with a slash, and no document
// limits how many bytes a pointer has; its text is not copied.
pub(crate) fn answer_pointer<W: Write>(
    alloc: Global,
    out: &mut W,
    text: &[u8],
) -> Result<(), Failure> {
    check_records(text, 2, Fault::OnePointed)?;
    let record = take_record(alloc, text, 0)?;
    let pointer = trim(argument(text, 1).ok_or(Fault::NoPointer)?);
    if pointer.starts_with(b"/") {
        return answer_found(alloc, out, &record, pointer, text);
    }
    let pointer = decode(alloc, pointer).map_err(pointer_failure)?;
    answer_found(alloc, out, &record, &pointer, text)
}

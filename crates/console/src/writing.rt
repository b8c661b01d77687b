// The calls that write a result.
use crate::fault::{Failure, Fault};
use crate::say::say_ending;
use crate::taken::{check_records, take_record, take_room};
use layout::ending::Ending;
use runs::call::{Edit, make_edit};
use std::alloc::Global;
use std::io::Write;

// A call of one record and the buffer's length. It and the next are two functions, since closures of one record and of two have no
// bound in common.
pub(crate) fn answer_one<W: Write, F: FnOnce(&[u8], &mut [u8]) -> Ending>(
    alloc: Global,
    out: &mut W,
    text: &[u8],
    make: F,
) -> Result<(), Failure>
    requires { F.IsAlwaysCallable make }
{
    check_records(text, 1, Fault::OneAndLength)?;
    let record = take_record(alloc, text, 0)?;
    let mut room = take_room(alloc, text, 1)?;
    let ending = make(&record, &mut room);
    say_ending(out, ending, &room)?;
    Ok(())
}

// A call of two records, of which the second is the path where the call has one, and the buffer's length.
pub(crate) fn answer_two<W: Write, F: FnOnce(&[u8], &[u8], &mut [u8]) -> Ending>(
    alloc: Global,
    out: &mut W,
    text: &[u8],
    make: F,
) -> Result<(), Failure>
    requires { F.IsAlwaysCallable make }
{
    check_records(text, 2, Fault::TwoAndLength)?;
    let first = take_record(alloc, text, 0)?;
    let second = take_record(alloc, text, 1)?;
    let mut room = take_room(alloc, text, 2)?;
    let ending = make(&first, &second, &mut room);
    say_ending(out, ending, &room)?;
    Ok(())
}

pub(crate) fn answer_edit<W: Write>(
    alloc: Global,
    out: &mut W,
    edit: Edit,
    text: &[u8],
) -> Result<(), Failure> {
    match edit {
        Edit::Strip => answer_one(alloc, out, text, |record, room| {
            make_edit(edit, record, b"", b"", room)
        }),
        // The second argument goes in both as the other record and as the path: each edit reads one of the two.
        Edit::Get | Edit::Delete | Edit::Concat | Edit::Append | Edit::Build => {
            answer_two(alloc, out, text, |first, second, room| {
                make_edit(edit, first, second, second, room)
            })
        }
    }
}

// A run: a starting shelf of records and calls that name them by their places, on one line, with the calls' marks between them. A
// call stands as it does on a line of its own, with places for records. The answer has how each call ended, and then the shelf.
//
//   run R ; R : concat 0 ; 1 : get 2 ; PATH : strip 2 ; 100
//   result at 2 : absent : result at 3 : shelf R ; R ; R ; R
use crate::calls::edit_of;
use crate::decimal::{NoNumber, RESULT_ROOM, read_decimal, take_length};
use crate::fault::{Failure, Fault};
use crate::say::words;
use crate::shelf::{Shelf, say_shelf, take_shelf};
use crate::taken::{check_records, lent, take_record};
use crate::text::{CALL_MARK, argument, split_word, trim};
use layout::ending::Ending;
use layout::refusal::Refusal;
use layout::util::slice;
use runs::call::{Edit, make_edit};
use std::alloc::Global;
use std::io;
use std::io::Write;

// Room for how many calls.
const CALLS: usize = 4_096;

// How a call ended: with the place of its result on the shelf, with an absence, or with a refusal. It has a name of its own, though
// it is the type of `Ending`: what it holds is a place, and no length.
type Ended = Result<Option<usize>, Refusal>;

// ---- one call

// The record at the place that an argument names.
fn record_at<'a>(shelf: &'a Shelf, text: &[u8], number: usize) -> Result<&'a [u8], Fault> {
    let place = argument(text, number).ok_or(Fault::NotPlace)?;
    match read_decimal(trim(place)) {
        Ok(place) => shelf.record(place as usize).ok_or(Fault::NoRecord),
        Err(NoNumber::TooLarge) => Err(Fault::NoRecord),
        Err(NoNumber::NotDecimal) => Err(Fault::NotPlace),
    }
}

// Takes the arguments of an edit, from the left, and makes it in the room for results.
fn run_edit(
    alloc: Global,
    edit: Edit,
    text: &[u8],
    shelf: &Shelf,
    room: &mut [u8],
) -> Result<Ending, Failure> {
    match edit {
        Edit::Strip => {
            check_records(text, 1, Fault::OnePlace)?;
            let record = record_at(shelf, text, 0)?;
            let length = take_length(text, 1)?;
            Ok(make_edit(edit, record, b"", b"", lent(room, length)))
        }
        Edit::Get | Edit::Delete => {
            check_records(text, 2, Fault::PlaceAndPath)?;
            let record = record_at(shelf, text, 0)?;
            let path = take_record(alloc, text, 1)?;
            let length = take_length(text, 2)?;
            Ok(make_edit(edit, record, b"", &path, lent(room, length)))
        }
        Edit::Concat | Edit::Append | Edit::Build => {
            check_records(text, 2, Fault::TwoPlaces)?;
            let left = record_at(shelf, text, 0)?;
            let right = record_at(shelf, text, 1)?;
            let length = take_length(text, 2)?;
            Ok(make_edit(edit, left, right, b"", lent(room, length)))
        }
    }
}

// Makes a call. A result joins the shelf, anything else leaves it.
fn run_call(
    alloc: Global,
    text: &[u8],
    shelf: &mut Shelf,
    room: &mut [u8],
) -> Result<Ended, Failure> {
    let (word, rest) = split_word(trim(text));
    let edit = edit_of(word).ok_or(Fault::NoCall)?;
    let ending = run_edit(alloc, edit, rest, shelf, room)?;
    let Ok(Some(n)) = ending else {
        return Ok(ending);
    };
    let place = shelf.len();
    // `slice` takes what there is: that a result of n bytes lies in the buffer is no fact here.
    shelf.push(slice(room, 0, n))?;
    Ok(Ok(Some(place)))
}

// ---- the answer

fn say_ended<W: Write>(out: &mut W, ended: Ended) -> io::Result<()> {
    match ended {
        Ok(Some(place)) => write!(out, "result at {place} : "),
        Ok(None) => write!(out, "absent : "),
        Err(refusal) => write!(out, "refused {} : ", words(refusal)),
    }
}

// Takes the starting shelf, makes the calls, one after the other and all in one room, and says what came of them. Where one cannot be
// taken, nothing else is said.
pub(crate) fn answer_run<W: Write>(alloc: Global, out: &mut W, text: &[u8]) -> Result<(), Failure> {
    let mut parts = text.split(|c| *c == CALL_MARK);
    let mut shelf = take_shelf(alloc, parts.next().unwrap_or(b""))?;
    let mut room = Vec::new(alloc);
    room.resize(RESULT_ROOM, 0)?;
    let mut endings = Vec::with_capacity(alloc, CALLS)?;
    for call in parts {
        let number = endings.len() + 1;
        if number > CALLS {
            return Err(Failure::Call(number, Fault::TooMany));
        }
        let ended = run_call(alloc, call, &mut shelf, &mut room).map_err(|failure| failure.at_call(
            number,
        ))?;
        endings.push(ended)?;
    }
    for ended in &endings {
        say_ended(out, *ended)?;
    }
    say_shelf(out, &shelf)?;
    Ok(())
}

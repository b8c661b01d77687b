// The flight profile: whether the board's loader takes a record, and the edits that take flight records and give flight records.
//
//   flight 40000001 10000001 20000002 61 5001
//   ok
//   flight concat 40000001 10000001 20000002 61 5001 ; 40000001 10000001 40000000 62
//   result 400000021000000110000001200000024000000061625001
//   flight strip 80000001 20000001 10
//   refused 12 outside the flight profile
use crate::calls::{edit_of, say_check};
use crate::fault::{Failure, Fault};
use crate::hex::is_hex;
use crate::taken::take_one;
use crate::text::{argument, split_word, trim};
use crate::writing::{answer_one, answer_two};
use flight::edit::{flight_concat, flight_delete, flight_strip};
use flight::profile::check_flight;
use runs::call::Edit;
use std::alloc::Global;
use std::io::Write;

// Takes the record, where it is no word that stands there.
fn check_aboard<W: Write>(alloc: Global, out: &mut W, text: &[u8]) -> Result<(), Failure> {
    if !argument(text, 0).is_some_and(is_hex) {
        return Err(Fault::NoFlight.into());
    }
    let record = take_one(alloc, text, Fault::OneRecord)?;
    say_check(out, check_flight(&record))?;
    Ok(())
}

// Takes a record, or an edit's word and what the edit takes.
pub(crate) fn answer_aboard<W: Write>(
    alloc: Global,
    out: &mut W,
    text: &[u8],
) -> Result<(), Failure> {
    let call = trim(text);
    let (word, rest) = split_word(call);
    match edit_of(word) {
        Some(Edit::Delete) => answer_two(alloc, out, rest, flight_delete),
        Some(Edit::Concat) => answer_two(alloc, out, rest, flight_concat),
        Some(Edit::Strip) => answer_one(alloc, out, rest, flight_strip),
        Some(Edit::Get | Edit::Append | Edit::Build) => Err(Fault::NoFlight.into()),
        None => check_aboard(alloc, out, call),
    }
}

// The calls of the console.
use crate::aboard::answer_aboard;
use crate::chars::chars_record;
use crate::fault::{Failure, Fault};
use crate::grade::{say_grade, say_same};
use crate::make::{answer_make, answer_number};
use crate::pointer::answer_pointer;
use crate::preview::answer_preview;
use crate::run::answer_run;
use crate::say::say_refused;
use crate::show::show_record;
use crate::step::answer_step;
use crate::taken::{take_one, take_two};
use crate::text::{split_word, trim};
use crate::writing::answer_edit;
use layout::check::check_record;
use layout::refusal::Refusal;
use layout::sound::check_sound;
use runs::call::Edit;
use std::alloc::Global;
use std::io;
use std::io::Write;

pub(crate) fn say_check<W: Write>(out: &mut W, check: Result<(), Refusal>) -> io::Result<()> {
    match check {
        Ok(()) => writeln!(out, "ok"),
        Err(refusal) => say_refused(out, refusal),
    }
}

fn say_sound<W: Write>(out: &mut W, record: &[u8]) -> io::Result<()> {
    match check_sound(record) {
        Ok(true) => writeln!(out, "sound"),
        Ok(false) => writeln!(out, "unsound"),
        Err(refusal) => say_refused(out, refusal),
    }
}

// The edit that a word names. It is a function and no `TryFrom`: runs' `Edit` has no words, and what a word that is none means, another
// call or a fault, its caller says.
pub(crate) fn edit_of(word: &[u8]) -> Option<Edit> {
    match word {
        b"get" => Some(Edit::Get),
        b"delete" => Some(Edit::Delete),
        b"concat" => Some(Edit::Concat),
        b"strip" => Some(Edit::Strip),
        b"append" => Some(Edit::Append),
        b"build" => Some(Edit::Build),
        _ => None,
    }
}

// A call of one record that writes no result. It and the next are two functions, since closures of one record and of two have no bound
// in common.
fn answer_one<W: Write, F: FnOnce(&mut W, &[u8]) -> io::Result<()>>(
    alloc: Global,
    out: &mut W,
    text: &[u8],
    say: F,
) -> Result<(), Failure>
    requires { F.IsAlwaysCallable say }
{
    let record = take_one(alloc, text, Fault::OneRecord)?;
    say(out, &record)?;
    Ok(())
}

// A call of two records that writes no result.
fn answer_two<W: Write, F: FnOnce(&mut W, &[u8], &[u8]) -> io::Result<()>>(
    alloc: Global,
    out: &mut W,
    text: &[u8],
    wants: Fault,
    say: F,
) -> Result<(), Failure>
    requires { F.IsAlwaysCallable say }
{
    let (first, second) = take_two(alloc, text, wants)?;
    say(out, &first, &second)?;
    Ok(())
}

// The calls that are no edits.
fn answer_other<W: Write>(
    alloc: Global,
    out: &mut W,
    word: &[u8],
    rest: &[u8],
) -> Result<(), Failure> {
    match word {
        b"check" => answer_one(alloc, out, rest, |out, record| {
            say_check(out, check_record(record))
        }),
        b"sound" => answer_one(alloc, out, rest, say_sound),
        b"show" => answer_one(alloc, out, rest, show_record),
        b"chars" => answer_one(alloc, out, rest, chars_record),
        b"pointer" => answer_pointer(alloc, out, rest),
        b"preview" => answer_preview(alloc, out, rest),
        b"flight" => answer_aboard(alloc, out, rest),
        b"grade" => answer_two(alloc, out, rest, Fault::TwoGraded, say_grade),
        b"same" => answer_two(alloc, out, rest, Fault::TwoRecords, say_same),
        b"make" => answer_make(out, rest),
        b"number" => answer_number(alloc, out, rest),
        b"step" => answer_step(alloc, out, rest),
        b"run" => answer_run(alloc, out, rest),
        _ => Err(Fault::NoSuchCall.into()),
    }
}

fn answer_call<W: Write>(alloc: Global, out: &mut W, text: &[u8]) -> Result<(), Failure> {
    let (word, rest) = split_word(text);
    match edit_of(word) {
        Some(edit) => answer_edit(alloc, out, edit, rest),
        None => answer_other(alloc, out, word, rest),
    }
}

// The answer to a line, which comes without its end. The allocator and the writer are passed apart and are no struct with methods, as
// in the library: what only takes arguments has no writer, and what only says something no allocator.
pub(crate) fn answer<W: Write>(alloc: Global, out: &mut W, line: &[u8]) -> io::Result<()> {
    let text = trim(line);
    if text.is_empty() || text.starts_with(b"#") {
        out.write_all(line)?;
        return writeln!(out);
    }
    match answer_call(alloc, out, text) {
        Ok(()) => Ok(()),
        Err(Failure::Line(fault)) => writeln!(out, "? {fault}"),
        Err(Failure::Place(place, fault)) => writeln!(out, "? place {place}: {fault}"),
        Err(Failure::Call(call, fault)) => writeln!(out, "? call {call}: {fault}"),
        Err(Failure::Io(error)) => Err(error),
    }
}

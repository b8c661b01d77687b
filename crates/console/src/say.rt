// What the console writes. Each function takes the writer, and ends with the first error that it gives.
use crate::hex::say_hex;
use layout::ending::Ending;
use layout::refusal::Refusal;
use layout::util::slice;
use std::io;
use std::io::Write;

// A number of the documents with its words. It is a function and no Display, since the type is layout's, which prints nothing.
pub(crate) fn words(refusal: Refusal) -> &'static str {
    match refusal {
        Refusal::Short => "1 short",
        Refusal::Layout => "2 layout",
        Refusal::Text => "3 text",
        Refusal::Number => "4 number",
        Refusal::Limit => "5 too long or deep",
        Refusal::Path => "6 path",
        Refusal::Kind => "7 kind",
        Refusal::Repeated => "8 repeated name",
        Refusal::Result => "9 result too long or deep",
        Refusal::Buffer => "10 buffer too short",
        Refusal::Pointer => "11 pointer",
        Refusal::Profile => "12 outside the flight profile",
    }
}

pub(crate) fn say_refused<W: Write>(out: &mut W, refusal: Refusal) -> io::Result<()> {
    writeln!(out, "refused {}", words(refusal))
}

fn say_result<W: Write>(out: &mut W, res: &[u8]) -> io::Result<()> {
    write!(out, "result ")?;
    say_hex(out, res)?;
    writeln!(out)
}

// How a call that writes has ended, with the bytes that it filled. `slice` takes what there is: that they lie in the buffer is no fact
// here.
pub(crate) fn say_ending<W: Write>(out: &mut W, ending: Ending, room: &[u8]) -> io::Result<()> {
    match ending {
        Ok(Some(n)) => say_result(out, slice(room, 0, n)),
        Ok(None) => writeln!(out, "absent"),
        Err(refusal) => say_refused(out, refusal),
    }
}

// A preview is never an absence.
pub(crate) fn say_preview<W: Write>(out: &mut W, ending: Ending) -> io::Result<()> {
    match ending {
        Ok(Some(n)) => writeln!(out, "length {n}"),
        Ok(None) => writeln!(out, "absent"),
        Err(refusal) => say_refused(out, refusal),
    }
}

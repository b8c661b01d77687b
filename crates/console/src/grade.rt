// Two records beside each other: the grade of a candidate's record against the expected one, and whether two have one value.
use crate::say::{say_refused, words};
use layout::check::check_record;
use layout::refusal::Refusal;
use std::io;
use std::io::Write;
use values::grade::{Grade, grade_record};
use values::value::is_same_value;

fn say_damaged<W: Write>(out: &mut W, refusal: Refusal) -> io::Result<()> {
    writeln!(out, "damaged {}", words(refusal))
}

// Against a record that is not readable nothing can be graded: then the line is at fault, and not the candidate.
fn say_ungraded<W: Write>(out: &mut W, refusal: Refusal) -> io::Result<()> {
    write!(out, "? the expected record is ")?;
    say_refused(out, refusal)
}

pub(crate) fn say_grade<W: Write>(
    out: &mut W,
    candidate: &[u8],
    expected: &[u8],
) -> io::Result<()> {
    match grade_record(candidate, expected) {
        Grade::Right => writeln!(out, "right"),
        Grade::SameValue => writeln!(out, "other bytes, same value"),
        Grade::OtherValue => writeln!(out, "other value"),
        Grade::Damaged(refusal) => say_damaged(out, refusal),
        Grade::Ungraded(refusal) => say_ungraded(out, refusal),
    }
}

pub(crate) fn say_same<W: Write>(out: &mut W, left: &[u8], right: &[u8]) -> io::Result<()> {
    if let Err(refusal) = check_record(left) {
        return say_refused(out, refusal);
    }
    if let Err(refusal) = check_record(right) {
        return say_refused(out, refusal);
    }
    if is_same_value(left, right) {
        return writeln!(out, "same");
    }
    writeln!(out, "other")
}

// The characters of a record's names and strings: the numbers that a walk over the record hands out, a - where an item is no string.
//
//   chars 40000002 10000001 10000002 10000003 20000002 61 C3A9 61C3A9 5001
//   chars 1:2 1:-
use crate::say::say_refused;
use crate::walk::Steps;
use layout::item::JsonbItem;
use layout::iterator::{ArrayIterator, ObjectIterator};
use std::io;
use std::io::Write;

fn say_characters<W: Write>(out: &mut W, item: JsonbItem) -> io::Result<()> {
    match item.characters {
        Some(n) => write!(out, "{n}"),
        None => write!(out, "-"),
    }
}

// The items of an array.
fn say_items<W: Write>(out: &mut W, walk: ArrayIterator, s: &[u8]) -> io::Result<()> {
    for item in Steps::of(s, walk) {
        write!(out, " ")?;
        say_characters(out, item)?;
    }
    Ok(())
}

// The same for an object: a name's and its value's, for each member. The two share the iterator, and are no instances of one function:
// the walks hand out different things, and these are said differently.
fn say_members<W: Write>(out: &mut W, walk: ObjectIterator, s: &[u8]) -> io::Result<()> {
    for member in Steps::of(s, walk) {
        write!(out, " ")?;
        say_characters(out, member.key)?;
        write!(out, ":")?;
        say_characters(out, member.val)?;
    }
    Ok(())
}

fn chars_object<W: Write>(out: &mut W, s: &[u8]) -> io::Result<()> {
    match ObjectIterator::new(s) {
        Ok(Some(walk)) => {
            write!(out, "chars")?;
            say_members(out, walk, s)?;
            writeln!(out)
        }
        Ok(None) => writeln!(out, "absent"),
        Err(refusal) => say_refused(out, refusal),
    }
}

// A record of another kind has no walk, and so no characters to hand out.
pub(crate) fn chars_record<W: Write>(out: &mut W, s: &[u8]) -> io::Result<()> {
    match ArrayIterator::new(s) {
        Ok(Some(walk)) => {
            write!(out, "chars")?;
            say_items(out, walk, s)?;
            writeln!(out)
        }
        Ok(None) => chars_object(out, s),
        Err(refusal) => say_refused(out, refusal),
    }
}

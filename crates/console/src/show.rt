// The outline of a record: a line for the root, and one for each item at every level, in stored order. A line has the place of the
// payload in the whole record, its length, and what it is, two columns further in for each level.
//
//   show 40000001 10000001 20000002 61 5001
//       0    15  object of 1
//      13     2    "a": number 1 (unsigned)
ghost use Rattle.std.specs.Prelude.{◌+◌, ◌^◌, ◌≤◌, ◌<◌, length};

use crate::say::say_refused;
use crate::spell::{say_leaf, say_text};
use crate::walk::Steps;
use layout::check::check_record;
use layout::constants::{DEPTH_LIMIT, HEADER_SIZE, JENTRY_SIZE, SCALAR_START};
use layout::item::{JsonbItem, Kind};
use layout::iterator::{ArrayIterator, ObjectIterator};
use layout::jentry::{kind_of, read_jentry, type_code};
use layout::sound::is_rising;
use layout::util::{Header, read_header, slice};
use std::io;
use std::io::Write;

// A line: how wide the columns of the place and of the length are, where the root's words start, how much further in those of each
// level start, and where those of the deepest do.
const PLACE_WIDTH: usize = 5;

const LENGTH_WIDTH: usize = 6;

const WORDS_START: usize = 13;

const INDENT: usize = 2;

const WORDS_LIMIT: usize = WORDS_START + INDENT * DEPTH_LIMIT as usize;

// A slice of the record: its place in the whole, and how many levels may stand in it. The allowance starts at the depth limit and
// falls level by level, so that it tells the level.
#[derive(Clone, Copy)]
struct Part<'a> {
    s: &'a [u8],
    place: usize,
    allowance: u32,
    ghost inside: { place + length s.now ≤ 65536 },
    ghost shallow: { allowance ≤ 64 },
}

// ---- the columns

// What a line has in front of its words, for what stands at a place of a part. It is put together in an array, so that it is one write
// and not one for each space.
fn say_columns<W: Write>(out: &mut W, part: Part, start: usize, length: usize) -> io::Result<()>
    requires { start ≤ 65536 }
{
    let place = part.place + start;
    let level = (DEPTH_LIMIT - part.allowance) as usize;
    let mut columns = [b' '; WORDS_LIMIT];
    let mut front = &mut columns[..WORDS_START];
    write!(front, "{place:PLACE_WIDTH$}{length:LENGTH_WIDTH$}")?;
    out.write_all(&columns[..WORDS_START + INDENT * level])
}

// ---- words

fn say_array<W: Write>(out: &mut W, n: usize) -> io::Result<()> {
    writeln!(out, "array of {n}")
}

// Names that do not rise are told at their own object, and not at the containers around it.
fn say_object<W: Write>(out: &mut W, s: &[u8], n: usize) -> io::Result<()>
    requires { n < 2 ^ 29 }
{
    if is_rising(s, n, HEADER_SIZE + JENTRY_SIZE * (n + n)) {
        return writeln!(out, "object of {n}");
    }
    writeln!(out, "object of {n}, names do not rise")
}

fn say_name<W: Write>(out: &mut W, name: &[u8]) -> io::Result<()> {
    say_text(out, name)?;
    write!(out, ": ")
}

// ---- levels

// The words of an item of a part, and below its line those of what stands in it.
#[cycle(outlines)]
fn show_item<W: Write>(out: &mut W, part: Part, item: JsonbItem) -> io::Result<()>
    requires { item.place ≤ length part.s.now }
{
    // `slice` takes what there is: that a payload ends inside its part is no fact here, nor below, only that a value's starts there.
    let payload = slice(part.s, item.place, item.length);
    let kind = item.kind;
    if let Kind::Container = kind {
        let inner = Part {
            s: payload,
            place: part.place + item.place,
            allowance: part.allowance,
        };
        return show_container(out, inner);
    }
    say_leaf(out, kind, payload)?;
    writeln!(out)
}

// A line for each item of an array, and below it those of what stands in it. It and the next share the iterator: what they write of a
// step differs.
#[cycle(outlines)]
fn show_items<W: Write>(out: &mut W, part: Part) -> io::Result<()> {
    let Ok(Some(walk)) = ArrayIterator::new(part.s) else {
        return Ok(());
    };
    for (index, item) in Steps::of(part.s, walk).enumerate() {
        say_columns(out, part, item.place, item.length)?;
        write!(out, "[{index}]: ")?;
        show_item(out, part, item)?;
    }
    Ok(())
}

// The same for an object, where a name stands in the place of the index.
#[cycle(outlines)]
fn show_members<W: Write>(out: &mut W, part: Part) -> io::Result<()> {
    let Ok(Some(walk)) = ObjectIterator::new(part.s) else {
        return Ok(());
    };
    for member in Steps::of(part.s, walk) {
        say_columns(out, part, member.val.place, member.val.length)?;
        say_name(out, slice(part.s, member.key.place, member.key.length))?;
        show_item(out, part, member.val)?;
    }
    Ok(())
}

// The words of a container, and below its line its items, one level further in. No readable record is deeper than the allowance, and
// none has a scalar in it.
#[cycle(outlines)]
fn show_container<W: Write>(out: &mut W, part: Part) -> io::Result<()> {
    if part.allowance == 0 {
        return Ok(());
    }
    let lower = Part {
        s: part.s,
        place: part.place,
        allowance: part.allowance - 1,
    };
    match read_header(part.s) {
        Err(_) => Ok(()),
        Ok(Header::Scalar(_)) => Ok(()),
        Ok(Header::Array(n)) => {
            say_array(out, n)?;
            show_items(out, lower)
        }
        Ok(Header::Object(n)) => {
            say_object(out, part.s, n)?;
            show_members(out, lower)
        }
    }
}

// ---- the root

// A scalar record is its one item.
fn show_scalar<W: Write>(out: &mut W, whole: Part) -> io::Result<()> {
    let payload = whole.s.get(SCALAR_START..).unwrap_or(&[]);
    say_columns(out, whole, SCALAR_START, payload.len())?;
    say_leaf(out, kind_of(type_code(read_jentry(whole.s, 0))), payload)?;
    writeln!(out)
}

fn show_root<W: Write>(out: &mut W, s: &[u8]) -> io::Result<()>
    requires { length s.now ≤ 65536 }
{
    let whole = Part {
        s,
        place: 0,
        allowance: DEPTH_LIMIT,
    };
    if let Ok(Header::Scalar(_)) = read_header(s) {
        return show_scalar(out, whole);
    }
    say_columns(out, whole, 0, s.len())?;
    show_container(out, whole)
}

pub(crate) fn show_record<W: Write>(out: &mut W, s: &[u8]) -> io::Result<()> {
    match check_record(s) {
        Ok(()) => show_root(out, s),
        Err(refusal) => say_refused(out, refusal),
    }
}

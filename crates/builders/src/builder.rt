// Builders, after the Rust's builder.rs: a record in, a record out.
ghost use Rattle.std.specs.Prelude.{◌≡◌, true, ◌+◌, ◌*◌, length};
ghost use Rattle.layout.specs.Parts.{texts, parts_of};
ghost use Rattle.layout.specs.Ended.{Ended};
ghost use Rattle.layout.specs.Room.{EndedIn};
ghost use Rattle.builders.specs.Order.{distinct};
ghost use Rattle.builders.specs.Build.{append as appendOf, build, on_two};
ghost use Rattle.builders.specs.Names.{Pairs};

use crate::join::{Given, Piece, as_item, write_joined};
use crate::names::{are_strings, is_distinct};
use crate::room::check_room;
use crate::search::{Kept, Members};
use layout::check::{check_nesting, check_record};
use layout::constants::{ARRAY_CONTAINER_TAG, HEADER_SIZE, JENTRY_SIZE, OBJECT_CONTAINER_TAG};
use layout::ending::Ending;
use layout::parts::Places;
use layout::refusal::Refusal;
use layout::sound::is_rising;
use layout::util::{Header, read_header};
use layout::writer::put_u32;

// Puts a record, as one item, at the end of an array record, where the result goes into `room` bytes.
fn write_appended(array: &[u8], item: &[u8], out: &mut [u8], room: usize) -> Ending
    ensures { EndedIn result out.old out.new (on_two appendOf array.now item.now room) }
{
    check_record(array)?;
    let fits = check_nesting(item)?;
    let Header::Array(n) = read_header(array)? else {
        return Err(Refusal::Kind);
    };
    if !fits {
        return Err(Refusal::Result);
    }
    let header = ARRAY_CONTAINER_TAG | (n + 1) as u32;
    let left = Piece {
        record: array,
        given: Given::Table(n),
    };
    let right = Piece {
        record: item,
        given: as_item(item),
    };
    write_joined(header, &left, &right, out, room)
}

// The same, for the edit and for its preview: with two callers the compiler keeps it apart. A slice that is handed on as it came is
// copied by one move of 16 bytes, which waits for the two stores of 8 bytes before it; so here slices are handed on as `&array[0..]`.
pub fn append_in(array: &[u8], item: &[u8], out: &mut [u8], room: usize) -> Ending
    ensures { EndedIn result out.old out.new (on_two appendOf array.now item.now room) }
{
    write_appended(&array[0..], &item[0..], out, room)
}

// Puts a record, as one item, at the end of an array record.
pub fn append(array: &[u8], item: &[u8], out: &mut [u8]) -> Ending
    ensures { Ended result out.old out.new
        (on_two appendOf array.now item.now (length out.old)) }
{
    let room = out.len();
    append_in(array, item, out, room)
}

// Stores the object of n members with distinct names, in byte order of the names, where there is room for it. It is as long as
// both records less one header; where no bytes are lent, as by a preview, the names need no search.
fn write_sorted(names: &[u8], values: &[u8], n: usize, out: &mut [u8], room: usize) -> Ending
    requires { Pairs names.now values.now n × (distinct (texts (parts_of names.now n)) ≡ true) }
    ensures { EndedIn result out.old out.new (on_two build names.now values.now room) }
{
    let len = names.len() + (values.len() - HEADER_SIZE);
    check_room(len, room)?;
    if out.len() == 0 {
        return Ok(Some(len));
    }
    let start = HEADER_SIZE + JENTRY_SIZE * n;
    let from = Places {
        key_jentry: HEADER_SIZE,
        val_jentry: HEADER_SIZE,
        key: start,
        val: start,
    };
    let to = Places {
        key_jentry: HEADER_SIZE,
        val_jentry: start,
        key: start + JENTRY_SIZE * n,
        val: names.len() + JENTRY_SIZE * n,
    };
    put_u32(out, 0, OBJECT_CONTAINER_TAG | n as u32);
    let members = Members {
        keys: names,
        vals: values,
        from,
        count: n,
        kept: Kept::All,
    };
    members.put_members(out, to);
    Ok(Some(len))
}

// The object of n names, all strings, with n values. Names that rise already stay as they stand.
fn build_members(names: &[u8], values: &[u8], n: usize, out: &mut [u8], room: usize) -> Ending
    requires { Pairs names.now values.now n }
    ensures { EndedIn result out.old out.new (on_two build names.now values.now room) }
{
    let start = HEADER_SIZE + JENTRY_SIZE * n;
    if is_rising(names, n, start) {
        let header = OBJECT_CONTAINER_TAG | n as u32;
        let left = Piece {
            record: names,
            given: Given::Table(n),
        };
        let right = Piece {
            record: values,
            given: Given::Table(n),
        };
        return write_joined(header, &left, &right, out, room);
    }
    if is_distinct(names, n, start) {
        return write_sorted(names, values, n, out, room);
    }
    Err(Refusal::Repeated)
}

// Builds an object from an array of names and an array of values, where it goes into `room` bytes.
fn write_built(names: &[u8], values: &[u8], out: &mut [u8], room: usize) -> Ending
    ensures { EndedIn result out.old out.new (on_two build names.now values.now room) }
{
    check_record(names)?;
    check_record(values)?;
    let Header::Array(n) = read_header(names)? else {
        return Err(Refusal::Kind);
    };
    let Header::Array(count) = read_header(values)? else {
        return Err(Refusal::Kind);
    };
    if n != count {
        return Err(Refusal::Kind);
    }
    if are_strings(names, n) {
        return build_members(names, values, n, out, room);
    }
    Err(Refusal::Kind)
}

// The same, for the edit and for its preview; slices are handed on as in `append_in`.
pub fn build_object_in(names: &[u8], values: &[u8], out: &mut [u8], room: usize) -> Ending
    ensures { EndedIn result out.old out.new (on_two build names.now values.now room) }
{
    write_built(&names[0..], &values[0..], out, room)
}

// Builds an object from an array of names and an array of values.
pub fn build_object(names: &[u8], values: &[u8], out: &mut [u8]) -> Ending
    ensures { Ended result out.old out.new
        (on_two build names.now values.now (length out.old)) }
{
    let room = out.len();
    build_object_in(names, values, out, room)
}

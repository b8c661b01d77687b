// Look-up and delete by a path, after the Rust's path.rs.
ghost use Rattle.std.specs.Prelude.{◌≡◌, ◌+◌, ◌*◌, ◌^◌, ◌≤◌, ◌<◌, length, Ok, Some};
ghost use Rattle.layout.specs.Entry.{code_of};
ghost use Rattle.layout.specs.Read.{nested};
ghost use Rattle.layout.specs.Check.{checked};
ghost use Rattle.layout.specs.Parts.{parts_of};
ghost use Rattle.layout.specs.Ended.{Ended, into};
ghost use Rattle.layout.specs.Room.{EndedIn};
ghost use Rattle.edits.specs.Steps.{code_key, step, part_steps};
ghost use Rattle.edits.specs.Path.{get_by, delete_by, on_path};
ghost use Rattle.edits.specs.Held.{Stands, Leads, Finds, item_in, item_record};
ghost use Rattle.layout.specs.declared.parts.PartAt.{PartAt as At};
ghost use Rattle.edits.specs.Find.{step_into, look_up};

use crate::delete::write_deleted;
use crate::find::find_step;
use crate::keypath::check_path;
use layout::check::check_record;
use layout::constants::{
    CONTAINER_CODE, EXTENSION_CODE, HEADER_SIZE, SCALAR_CONTAINER_TAG, SCALAR_START,
};
use layout::ending::Ending;
use layout::jentry::{encoded, jentry_at, read_jentry, type_code};
use layout::parts::{ItemAt, PartAt, payload_at};
use layout::refusal::Refusal;
use layout::table::{Part, Parts};
use layout::util::{Header, read_header};
use layout::writer::{copy, put_u32};

// The item that a part of a container is, where the container's bytes start at a place of the record.
pub fn item_in(inner: &[u8], place: usize, spot: Option<PartAt>) -> Option<ItemAt>
    requires { (a : At) → spot ≡ Some a → (a.index < 2 ^ 61) × (place + a.place < 2 ^ 64) }
    ensures { result ≡ item_in inner.now place spot }
{
    let part = spot?;
    Some(ItemAt {
        jentry: jentry_at(inner, part.index),
        place: place + part.place,
    })
}

// The item that a step finds, from an item of the record on.
fn step_from(s: &[u8], item: ItemAt, part: Part) -> Option<ItemAt>
    requires { Stands s.now item }
    ensures { Leads s.now item (step_into (step (code_key (code_of part.entry.jentry) part.entry.payload.now) part.entry.payload.now)) result }
{
    if type_code(item.jentry) != CONTAINER_CODE {
        return None;
    }
    let inner = payload_at(s, item);
    item_in(
        inner,
        item.place,
        find_step(inner, part.jentry, part.payload),
    )
}

// What a path of n steps finds in a container.
fn find_path(s: &[u8], path: &[u8], n: usize) -> Option<ItemAt>
    requires { (length s.now ≤ 65536) × (checked (nested 64 s.now) ≡ Ok tt) × (n < 2 ^ 29) }
    ensures { Finds s.now (look_up (part_steps (parts_of path.now n))) result }
{
    let mut item = ItemAt {
        jentry: encoded(CONTAINER_CODE, s.len() as u32),
        place: 0,
    };
    for part in Parts::of(path, n) {
        item = step_from(s, item, part)?;
    }
    Some(item)
}

// Stores bytes as they are, where they go into `room` bytes.
pub fn write_copy(s: &[u8], out: &mut [u8], room: usize) -> Ending
    ensures { EndedIn result out.old out.new (into room s.now) }
{
    if room < s.len() {
        return Err(Refusal::Buffer);
    }
    copy(s, out, 0);
    Ok(Some(s.len()))
}

// Stores an item as a record, where it goes into `room` bytes: a container as it is, anything else as a scalar record.
pub fn write_item(s: &[u8], item: ItemAt, out: &mut [u8], room: usize) -> Ending
    requires { Stands s.now item }
    ensures { EndedIn result out.old out.new (into room (item_record s.now item)) }
{
    let payload = payload_at(s, item);
    if type_code(item.jentry) == CONTAINER_CODE {
        return write_copy(payload, out, room);
    }
    let len = SCALAR_START + payload.len();
    if room < len {
        return Err(Refusal::Buffer);
    }
    put_u32(out, 0, SCALAR_CONTAINER_TAG);
    put_u32(out, HEADER_SIZE, item.jentry);
    copy(payload, out, SCALAR_START);
    Ok(Some(len))
}

// Looks up what a path finds in a record, where it goes into `room` bytes.
pub fn get_by_keypath_in(target: &[u8], path: &[u8], out: &mut [u8], room: usize) -> Ending
    ensures { EndedIn result out.old out.new
        (on_path get_by target.now path.now room) }
{
    check_record(target)?;
    let n = check_path(path)?;
    if n == 0 {
        return write_copy(target, out, room);
    }
    if let Header::Scalar(_) = read_header(target)? {
        return Ok(None);
    }
    let Some(item) = find_path(target, path, n) else {
        return Ok(None);
    };
    write_item(target, item, out, room)
}

// Deletes what a path finds in a record, where what is left goes into `room` bytes.
fn write_remains(target: &[u8], path: &[u8], out: &mut [u8], room: usize) -> Ending
    ensures { EndedIn result out.old out.new
        (on_path delete_by target.now path.now room) }
{
    check_record(target)?;
    let n = check_path(path)?;
    if let Header::Scalar(_) = read_header(target)? {
        if type_code(read_jentry(target, 0)) == EXTENSION_CODE {
            return write_copy(target, out, room);
        }
        return Err(Refusal::Kind);
    }
    if n == 0 {
        return write_copy(target, out, room);
    }
    let Some(_) = find_path(target, path, n) else {
        return write_copy(target, out, room);
    };
    write_deleted(target, path, n, out, room)
}

// The same, for the edit and for its preview; slices are handed on as in `append_in` of builders.
pub fn delete_by_keypath_in(target: &[u8], path: &[u8], out: &mut [u8], room: usize) -> Ending
    ensures { EndedIn result out.old out.new
        (on_path delete_by target.now path.now room) }
{
    write_remains(&target[0..], &path[0..], out, room)
}

// Looks up what a path finds in a record.
pub fn get_by_keypath(target: &[u8], path: &[u8], out: &mut [u8]) -> Ending
    ensures { Ended result out.old out.new
        (on_path get_by target.now path.now (length out.old)) }
{
    let room = out.len();
    get_by_keypath_in(target, path, out, room)
}

// Deletes what a path finds in a record.
pub fn delete_by_keypath(target: &[u8], path: &[u8], out: &mut [u8]) -> Ending
    ensures { Ended result out.old out.new
        (on_path delete_by target.now path.now (length out.old)) }
{
    let room = out.len();
    delete_by_keypath_in(target, path, out, room)
}

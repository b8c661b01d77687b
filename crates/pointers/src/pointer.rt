// Look-up by a pointer.
ghost use Rattle.std.specs.Prelude.{◌≡◌, ◌≤◌, length, Ok};
ghost use Rattle.layout.specs.Read.{nested};
ghost use Rattle.layout.specs.Check.{checked};
ghost use Rattle.layout.specs.Ended.{Ended};
ghost use Rattle.layout.specs.Room.{EndedIn};
ghost use Rattle.edits.specs.Held.{Stands, Leads, Finds};
ghost use Rattle.pointers.specs.Pointer.{undo, tokens, token_into, point, on_pointer};

use crate::token::{SLASH, find_token, is_pointer};
use edits::path::{item_in, write_copy, write_item};
use layout::check::check_record;
use layout::constants::CONTAINER_CODE;
use layout::ending::Ending;
use layout::jentry::{encoded, type_code};
use layout::parts::{ItemAt, payload_at};
use layout::refusal::Refusal;
use layout::util::{Header, read_header};

// The item that a token finds, from an item of the record on.
fn step_from(s: &[u8], item: ItemAt, token: &[u8]) -> Option<ItemAt>
    requires { Stands s.now item }
    ensures { Leads s.now item (token_into (undo token.now)) result }
{
    if type_code(item.jentry) != CONTAINER_CODE {
        return None;
    }
    let inner = payload_at(s, item);
    item_in(inner, item.place, find_token(inner, token))
}

// What a pointer finds in a container: its tokens stand between slashes, behind the one at its front.
fn find_pointer(s: &[u8], pointer: &[u8]) -> Option<ItemAt>
    requires { (length s.now ≤ 65536) × (checked (nested 64 s.now) ≡ Ok tt) }
    ensures { Finds s.now (point (tokens pointer.now)) result }
{
    let mut item = ItemAt {
        jentry: encoded(CONTAINER_CODE, s.len() as u32),
        place: 0,
    };
    let [_, tokens @ ..] = pointer else {
        return Some(item);
    };
    for token in tokens.split(|byte| *byte == SLASH) {
        item = step_from(s, item, token)?;
    }
    Some(item)
}

// Looks up what a pointer finds in a record, where it goes into `room` bytes. It is get_by_keypath_in of edits but for what is read of
// the pointer, what is empty and what is searched: a function for both would take three closures to share four tests.
pub fn get_by_pointer_in(target: &[u8], pointer: &[u8], out: &mut [u8], room: usize) -> Ending
    ensures { EndedIn result out.old out.new
        (on_pointer target.now pointer.now room) }
{
    check_record(target)?;
    if !is_pointer(pointer) {
        return Err(Refusal::Pointer);
    }
    if pointer.len() == 0 {
        return write_copy(target, out, room);
    }
    if let Header::Scalar(_) = read_header(target)? {
        return Ok(None);
    }
    let Some(item) = find_pointer(target, pointer) else {
        return Ok(None);
    };
    write_item(target, item, out, room)
}

// Looks up what a pointer finds in a record.
pub fn get_by_pointer(target: &[u8], pointer: &[u8], out: &mut [u8]) -> Ending
    ensures { Ended result out.old out.new
        (on_pointer target.now pointer.now (length out.old)) }
{
    let room = out.len();
    get_by_pointer_in(target, pointer, out, room)
}

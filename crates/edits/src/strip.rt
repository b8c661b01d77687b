// A container without the members whose value is null, at every level: it and every container in it are written anew.
ghost use Rattle.std.specs.Prelude.{◌≡◌, true, ◌+◌, ◌-◌, ◌*◌, ◌^◌, ◌≤◌, ◌<◌, length, Ok};
ghost use Rattle.layout.specs.Bytes.{be32};
ghost use Rattle.layout.specs.Entry.{code_of};
ghost use Rattle.layout.specs.Read.{header, nested};
ghost use Rattle.layout.specs.Check.{checked};
ghost use Rattle.layout.specs.Patch.{patch};
ghost use Rattle.layout.specs.Room.{EndedIn};
ghost use Rattle.layout.specs.Parts.{bytes_at, name_in, value_in};
ghost use Rattle.builders.specs.Weave.{stored};
ghost use Rattle.edits.specs.Stripping.{Strippable, Prepared, Strips};
ghost use Rattle.edits.specs.Stripping.{stripped_of, unrepeated_of};
ghost use Rattle.edits.specs.Stripping.{strip_item, strip_entry, unrepeated_item};
ghost use Rattle.edits.specs.Stripping.{strip_value, value_entry, strip_out};

use crate::members::{Ahead, Sizes, measure_ahead, members_ahead, next_searched, places_for};
use builders::search::{Kept, is_kept};
use layout::constants::{
    ARRAY_CONTAINER_TAG, CONTAINER_CODE, DEPTH_LIMIT, HEADER_SIZE, JENTRY_SIZE,
    OBJECT_CONTAINER_TAG,
};
use layout::ending::Ending;
use layout::jentry::{encoded, jentry_at, payload_len, type_code};
use layout::parts::{
    Cursor, ItemAt, MemberAt, Places, first_part, payload_at, places_behind, places_past,
    read_member,
};
use layout::refusal::Refusal;
use layout::util::{Header, read_header, slice};
use layout::writer::{copy, put_u32};

// How storing ends is an Option: with the length of what was stored, or none at a name that is repeated among the members kept. A
// `Result<usize, Refusal>` does not fit two registers, and strip of a record of nulls took a tenth longer by it.

// Stores an item, a container stripped and anything else as it is, and gives the length of its payload.
#[cycle(stripping)]
fn put_item_stripped(
    s: &[u8],
    item: ItemAt,
    out: &mut [u8],
    at: Cursor,
    allowance: u32,
) -> Option<usize>
    requires { (code_of item.jentry ≡ 5 → Strippable (bytes_at s.now item) allowance)
        × (at.jentry + 4 ≤ at.place) × (at.place ≤ 65536 * (64 - allowance)) }
    ensures { Strips result (unrepeated_item s.now item) (strip_item s.now item) out.new
        (patch (patch out.old at.jentry (be32 (strip_entry s.now item))) at.place (strip_item s.now item)) }
{
    let payload = payload_at(s, item);
    if type_code(item.jentry) == CONTAINER_CODE {
        let len = put_stripped(payload, out, at.place, allowance)?;
        put_u32(out, at.jentry, encoded(CONTAINER_CODE, len as u32));
        return Some(len);
    }
    put_u32(out, at.jentry, item.jentry);
    copy(payload, out, at.place);
    Some(payload.len())
}

// Stores a member with its value stripped, and gives the length of the value.
#[cycle(stripping)]
fn put_member_stripped(
    s: &[u8],
    member: MemberAt,
    out: &mut [u8],
    at: Places,
    allowance: u32,
) -> Option<usize>
    requires { (code_of member.val.jentry ≡ 5 → Strippable (value_in s.now member) allowance)
        × (at.key_jentry < 2 ^ 60) × (at.key < 2 ^ 60) × (at.val_jentry + 4 ≤ at.key) × (at.val_jentry + 4 ≤ at.val)
        × (at.val ≤ 65536 * (64 - allowance)) }
    ensures { Strips result (unrepeated_item s.now member.val) (strip_item s.now member.val) out.new
        (stored (name_in s.now) (strip_value s.now) (value_entry s.now) out.old
        at.key_jentry at.val_jentry at.key at.val member) }
{
    put_u32(out, at.key_jentry, member.key.jentry);
    copy(payload_at(s, member.key), out, at.key);
    let value = Cursor {
        jentry: at.val_jentry,
        place: at.val,
    };
    put_item_stripped(s, member.val, out, value, allowance)
}

// Stores an array of n items, each stripped, and gives its length.
#[cycle(stripping)]
fn put_items_stripped(
    s: &[u8],
    n: usize,
    out: &mut [u8],
    at: usize,
    allowance: u32,
) -> Option<usize>
    requires { Strippable s.now allowance × (header s.now ≡ Ok (Header.Array n)) × (at ≤ 65536 * (64 - allowance)) }
    ensures { Strips result (unrepeated_of s.now) (stripped_of s.now) out.new
        (patch out.old at (stripped_of s.now)) }
{
    let first = first_part(n);
    let mut here = Cursor {
        jentry: at + HEADER_SIZE,
        place: at + first.place,
    };
    put_u32(out, at, ARRAY_CONTAINER_TAG | n as u32);
    let mut place = first.place;
    for i in 0..n {
        let jentry = jentry_at(s, i);
        let item = ItemAt { jentry, place };
        let len = put_item_stripped(s, item, out, here, allowance - 1)?;
        here = Cursor {
            jentry: here.jentry + JENTRY_SIZE,
            place: here.place + len,
        };
        place += payload_len(jentry) as usize;
    }
    Some(here.place - at)
}

// Stores an object whose names do not rise: of the members that are kept, each is searched for in byte order. Where fewer names are
// found than members are kept, one is repeated.
#[cycle(stripping)]
fn put_sorted_stripped(
    s: &[u8],
    ahead: Ahead,
    sizes: Sizes,
    out: &mut [u8],
    at: usize,
    allowance: u32,
) -> Option<usize>
    requires { Prepared s.now ahead sizes allowance × (at ≤ 65536 * (64 - allowance)) }
    ensures { Strips result (unrepeated_of s.now) (stripped_of s.now) out.new
        (patch out.old at (stripped_of s.now)) }
{
    let mut to = places_for(sizes, at);
    put_u32(out, at, OBJECT_CONTAINER_TAG | sizes.count as u32);
    let mut last = None;
    for _ in 0..sizes.count {
        let Some(member) = next_searched(s, &ahead, Kept::NonNull, last) else {
            return None;
        };
        let len = put_member_stripped(s, member, out, to, allowance - 1)?;
        let name = payload_at(s, member.key);
        to = places_past(to, name.len(), len);
        last = Some(name);
    }
    Some(to.val - at)
}

// Stores an object whose names rise: the members that are kept are stored as they stand, and no name of theirs is repeated.
#[cycle(stripping)]
fn put_rising_stripped(
    s: &[u8],
    ahead: Ahead,
    sizes: Sizes,
    out: &mut [u8],
    at: usize,
    allowance: u32,
) -> Option<usize>
    requires { Prepared s.now ahead sizes allowance × (at ≤ 65536 * (64 - allowance)) × (ahead.is_rising ≡ true) }
    ensures { Strips result (unrepeated_of s.now) (stripped_of s.now) out.new
        (patch out.old at (stripped_of s.now)) }
{
    let mut to = places_for(sizes, at);
    put_u32(out, at, OBJECT_CONTAINER_TAG | sizes.count as u32);
    let mut from = ahead.at;
    for i in ahead.index..ahead.count {
        let member = read_member(s, s, from);
        if is_kept(Kept::NonNull, i, member) {
            let len = put_member_stripped(s, member, out, to, allowance - 1)?;
            to = places_past(to, payload_at(s, member.key).len(), len);
        }
        from = places_behind(from, member);
    }
    Some(to.val - at)
}

// Stores an object of n members without those whose value is null, the others stripped and in byte order of their names, and gives
// its length. A slice that is handed on as it came is copied by one move of 16 bytes, which waits for the two stores of 8 bytes
// before it; so here and in `put_stripped` slices are handed on as `&s[0..]`.
#[cycle(stripping)]
fn put_members_stripped(
    s: &[u8],
    n: usize,
    out: &mut [u8],
    at: usize,
    allowance: u32,
) -> Option<usize>
    requires { Strippable s.now allowance × (header s.now ≡ Ok (Header.Object n)) × (at ≤ 65536 * (64 - allowance)) }
    ensures { Strips result (unrepeated_of s.now) (stripped_of s.now) out.new
        (patch out.old at (stripped_of s.now)) }
{
    let ahead = members_ahead(&s[0..], n);
    let sizes = measure_ahead(&s[0..], ahead, Kept::NonNull);
    if ahead.is_rising {
        return put_rising_stripped(&s[0..], ahead, sizes, &mut out[0..], at, allowance);
    }
    put_sorted_stripped(&s[0..], ahead, sizes, &mut out[0..], at, allowance)
}

// Stores a container stripped, and gives its length. What is no container is not met here.
#[cycle(stripping)]
fn put_stripped(s: &[u8], out: &mut [u8], at: usize, allowance: u32) -> Option<usize>
    requires { Strippable s.now allowance × (at ≤ 65536 * (64 - allowance)) }
    ensures { Strips result (unrepeated_of s.now) (stripped_of s.now) out.new
        (patch out.old at (stripped_of s.now)) }
{
    let Ok(header) = read_header(s) else {
        return None;
    };
    match header {
        Header::Array(n) => put_items_stripped(&s[0..], n, &mut out[0..], at, allowance),
        Header::Object(n) => put_members_stripped(&s[0..], n, &mut out[0..], at, allowance),
        Header::Scalar(_) => Some(0),
    }
}

// Stores a container stripped, where no name is repeated among the members kept and there is room for it. It is measured first, on
// no bytes; where none are lent, as by a preview, a second run would store nothing, and is left out.
pub(crate) fn write_stripped(s: &[u8], out: &mut [u8], room: usize) -> Ending
    requires { (checked (nested 64 s.now) ≡ Ok tt) × (length s.now ≤ 65536) }
    ensures { EndedIn result out.old out.new (strip_out s.now room) }
{
    let Some(len) = put_stripped(s, &mut out[0..0], 0, DEPTH_LIMIT) else {
        return Err(Refusal::Repeated);
    };
    if room < len {
        return Err(Refusal::Buffer);
    }
    if out.len() == 0 {
        return Ok(Some(len));
    }
    put_stripped(s, out, 0, DEPTH_LIMIT);
    Ok(Some(len))
}

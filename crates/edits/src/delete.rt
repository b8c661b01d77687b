// A container without the item that a path finds in it: it and the containers on the way to it are written anew. Arrays, and
// objects whose names rise, are copied in runs; the members of other objects are put in order by the search.
ghost use Rattle.std.specs.Prelude.{◌≡◌, true, ◌+◌, ◌-◌, ◌*◌, ◌^◌, ◌≤◌, ◌<◌, length, Ok, Some};
ghost use Rattle.layout.specs.Tree.{Tree};
ghost use Rattle.layout.specs.Encode.{record_of};
ghost use Rattle.layout.specs.Read.{header, nested};
ghost use Rattle.layout.specs.Check.{checked};
ghost use Rattle.layout.specs.Patch.{patch};
ghost use Rattle.layout.specs.Ended.{into};
ghost use Rattle.layout.specs.Room.{EndedIn};
ghost use Rattle.layout.specs.Order.{same_bytes};
ghost use Rattle.layout.specs.Parts.{name_in, value_in, PartOf, parts_of};
ghost use Rattle.builders.specs.Weave.{behind, stored};
ghost use Rattle.edits.specs.Steps.{part_steps};
ghost use Rattle.edits.specs.Held.{finding};
ghost use Rattle.edits.specs.Cut.{Stores, LedTo, StoresBy, name_of, anew_value};
ghost use Rattle.edits.specs.Cut.{anew_entry};
ghost use Rattle.edits.specs.Way.{Cuts, Onward, steps_from};
ghost use Rattle.edits.specs.Manner.{InRuns, manner_of};
ghost use Rattle.edits.specs.Runs.{Table, without, without_member, run_entries};
ghost use Rattle.edits.specs.Runs.{run_payloads, run_behind};
ghost use Rattle.edits.specs.Remains.{remains_of};

use crate::find::{find_step, part_at};
use crate::members::{measure_members, places_for};
use builders::search::{Kept, Members, put_member};
use layout::constants::{
    ARRAY_CONTAINER_TAG, CONTAINER_CODE, DEPTH_LIMIT, HEADER_SIZE, JENTRY_SIZE,
    OBJECT_CONTAINER_TAG,
};
use layout::ending::Ending;
use layout::jentry::{encoded, jentry_at, payload_len};
use layout::order::is_same_bytes;
use layout::parts::{
    Cursor, MemberAt, PartAt, Places, first_part, members_of, part_behind, part_payload, parts_end,
    payload_at, places_past,
};
use layout::refusal::Refusal;
use layout::sound::is_rising;
use layout::util::{Header, read_header, read_u32, slice};
use layout::writer::{copy, put_u32};

// A path of `count` steps, of which `step` is the next. It is a plain value, and no iterator that is used up: each member of an
// object that is put in order is handed the same way.
#[derive(Clone, Copy)]
pub struct Way<'a> {
    pub path: &'a [u8],
    pub step: PartAt,
    pub count: usize,
}

// How a container is written anew: an array of n items, an object of n members whose names rise, or one whose names do not.
#[derive(Clone, Copy)]
pub enum Manner {
    Items(usize),
    Rising(usize),
    Unsorted(usize),
}

// The manner of a record's container; a scalar, or what is no record, has none.
fn manner_of(s: &[u8]) -> Option<Manner>
    ensures { result ≡ manner_of (header s.now) s.now }
{
    match read_header(s) {
        Ok(Header::Array(n)) => Some(Manner::Items(n)),
        Ok(Header::Object(n)) => {
            if is_rising(s, n, HEADER_SIZE + JENTRY_SIZE * (n + n)) {
                return Some(Manner::Rising(n));
            }
            Some(Manner::Unsorted(n))
        }
        Ok(Header::Scalar(_)) | Err(_) => None,
    }
}

// Stores the parts from one up to another, entries and payloads in one go each, and gives the places behind them. It stays apart from
// those that call themselves at each level, as `put_without` does.
#[inline(never)]
pub fn put_run(s: &[u8], from: PartAt, to: PartAt, out: &mut [u8], at: Cursor) -> Cursor
    requires { (from.index ≤ to.index) × (to.index ≤ 2 ^ 20) × (from.place ≤ to.place) × (to.place ≤ 2 ^ 20)
        × (at.jentry ≤ 2 ^ 30) × (at.place ≤ 2 ^ 30) }
    ensures is { result ≡ run_behind from to at }
    ensures kept { out.new
        ≡ patch (patch out.old at.jentry (run_entries s.now from to)) at.place (run_payloads s.now from to) }
{
    let table = JENTRY_SIZE * (to.index - from.index);
    let len = to.place - from.place;
    copy(
        slice(s, HEADER_SIZE + JENTRY_SIZE * from.index, table),
        out,
        at.jentry,
    );
    copy(slice(s, from.place, len), out, at.place);
    Cursor {
        jentry: at.jentry + table,
        place: at.place + len,
    }
}

// Stores an array of n items without one of them, and gives its length: two runs around one part. The three of an object below are
// written out too, since a loop over the runs would carry by hand what each run hands to the next.
pub fn put_array_without(s: &[u8], n: usize, item: PartAt, out: &mut [u8], at: usize) -> usize
    requires { Table s.now n × PartOf s.now n item × (at ≤ 2 ^ 23) }
    ensures { Stores result out.old out.new at
        (record_of (2 ^ 31 + (n - 1)) (without item.index (parts_of s.now n))) }
{
    let first = first_part(n);
    let last = parts_end(s, n);
    let start = Cursor {
        jentry: at + HEADER_SIZE,
        place: at + JENTRY_SIZE * n,
    };
    put_u32(out, at, ARRAY_CONTAINER_TAG | (n - 1) as u32);
    let middle = put_run(s, first, item, out, start);
    let end = put_run(s, part_behind(s, item), last, out, middle);
    end.place - at
}

// Stores an object of n members whose names rise, without the one with this value, and gives its length.
pub fn put_object_without(s: &[u8], n: usize, val: PartAt, out: &mut [u8], at: usize) -> usize
    requires { Table s.now (n + n) × PartOf s.now (n + n) val × (n ≤ val.index) × (at ≤ 2 ^ 23) }
    ensures { Stores result out.old out.new at
        (record_of (2 ^ 30 + (n - 1)) (without_member n (val.index - n) (parts_of s.now (n + n)))) }
{
    let first = first_part(n + n);
    let last = parts_end(s, n + n);
    let key = part_at(s, n + n, val.index - n);
    let start = Cursor {
        jentry: at + HEADER_SIZE,
        place: at + HEADER_SIZE + JENTRY_SIZE * (n - 1 + (n - 1)),
    };
    put_u32(out, at, OBJECT_CONTAINER_TAG | (n - 1) as u32);
    let keys = put_run(s, first, key, out, start);
    let vals = put_run(s, part_behind(s, key), val, out, keys);
    let end = put_run(s, part_behind(s, val), last, out, vals);
    end.place - at
}

// The name of member k of n.
fn name_of(s: &[u8], n: usize, k: usize) -> &[u8]
    requires { (n < 2 ^ 29) × (k < n) }
    ensures { result.now ≡ name_of s.now n k }
{
    part_payload(s, part_at(s, n + n, k))
}

// Stores an object of n members in byte order of the names, without the member with this value, and gives its length.
fn put_sorted_without(s: &[u8], n: usize, val: PartAt, out: &mut [u8], at: usize) -> usize
    requires { (checked (nested 64 s.now) ≡ Ok tt) × (length s.now ≤ 65536) × (header s.now ≡ Ok (Header.Object n))
        × LedTo s.now val × (at ≤ 2 ^ 23) }
    ensures { StoresBy s.now val result out.old out.new at }
{
    let members = Members {
        keys: s,
        vals: s,
        from: members_of(s, n),
        count: n,
        kept: Kept::But(val.index - n),
    };
    let sizes = measure_members(&members);
    let to = places_for(sizes, at);
    put_u32(out, at, OBJECT_CONTAINER_TAG | sizes.count as u32);
    members.put_members(out, to);
    to.val + sizes.vals - at
}

// Stores a container without a part that a step finds, and gives its length. It stays apart from `put_deleted`, which calls itself
// at each level: include/jsonb.h says how little stack a deletion takes.
#[inline(never)]
fn put_without(s: &[u8], part: PartAt, out: &mut [u8], at: usize) -> usize
    requires { (checked (nested 64 s.now) ≡ Ok tt) × (length s.now ≤ 65536)
        × LedTo s.now part × (at ≤ 2 ^ 23) }
    ensures { StoresBy s.now part result out.old out.new at }
{
    let Some(manner) = manner_of(s) else {
        return 0;
    };
    match manner {
        Manner::Items(n) => put_array_without(s, n, part, out, at),
        Manner::Rising(n) => put_object_without(s, n, part, out, at),
        Manner::Unsorted(n) => put_sorted_without(s, n, part, out, at),
    }
}

// Stores a container with one of its parts written anew, and gives its length.
#[cycle(deletions)]
fn put_part_anew(
    s: &[u8],
    total: usize,
    part: PartAt,
    way: Way,
    out: &mut [u8],
    at: usize,
    allowance: u32,
) -> usize
    requires { Cuts s.now way.path.now way allowance × Onward s.now way.path.now way part × InRuns s.now total
        × (at ≤ 65536 * (64 - allowance)) }
    ensures { Stores result out.old out.new at (remains_of s.now (steps_from way.entry.path.now way.entry)) }
{
    let first = first_part(total);
    let last = parts_end(s, total);
    let next = part_behind(s, part);
    let start = Cursor {
        jentry: at + HEADER_SIZE,
        place: at + first.place,
    };
    put_u32(out, at, read_u32(s, 0));
    let here = put_run(s, first, part, out, start);
    let from = part.place;
    let to = next.place;
    let rest = Way {
        step: part_behind(way.path, way.step),
        ..way
    };
    let len = put_deleted(&s[from..to], rest, out, here.place, allowance - 1);
    put_u32(out, here.jentry, encoded(CONTAINER_CODE, len as u32));
    let behind = Cursor {
        jentry: here.jentry + JENTRY_SIZE,
        place: here.place + len,
    };
    let end = put_run(s, next, last, out, behind);
    end.place - at
}

// Stores a member, its value written anew where it has this name, and gives the places behind it.
#[cycle(deletions)]
fn put_member_anew(
    s: &[u8],
    member: MemberAt,
    name: &[u8],
    next: Way,
    out: &mut [u8],
    at: Places,
    allowance: u32,
) -> Places
    requires { (at.key_jentry < 2 ^ 60) × (at.key < 2 ^ 60) × (at.val < 2 ^ 60)
        × (at.val_jentry + 4 ≤ at.key) × (at.val_jentry + 4 ≤ at.val)
        × (same_bytes name.now (name_in s.now member) ≡ true
        → Cuts (value_in s.now member) next.path.now next allowance × (at.val ≤ 65536 * (64 - allowance))) }
    ensures is { result ≡ behind (name_in s.now member)
        (anew_value s.now name.now (steps_from next.entry.path.now next.entry) member) at }
    ensures kept { out.new ≡ stored (name_in s.now)
        (anew_value s.now name.now (steps_from next.entry.path.now next.entry))
        (anew_entry s.now name.now (steps_from next.entry.path.now next.entry))
        out.old at.key_jentry at.val_jentry at.key at.val member }
{
    let key = payload_at(s, member.key);
    if is_same_bytes(name, key) {
        put_u32(out, at.key_jentry, member.key.jentry);
        copy(key, out, at.key);
        let len = put_deleted(payload_at(s, member.val), next, out, at.val, allowance);
        put_u32(out, at.val_jentry, encoded(CONTAINER_CODE, len as u32));
        return places_past(at, key.len(), len);
    }
    put_member(s, s, member, out, at)
}

// Stores an object of n members in byte order of the names, with one value written anew, and gives its length.
#[cycle(deletions)]
fn put_sorted_anew(
    s: &[u8],
    n: usize,
    val: PartAt,
    way: Way,
    out: &mut [u8],
    at: usize,
    allowance: u32,
) -> usize
    requires { Cuts s.now way.path.now way allowance × Onward s.now way.path.now way val × (header s.now ≡ Ok (Header.Object n))
        × (at ≤ 65536 * (64 - allowance)) }
    ensures { Stores result out.old out.new at (remains_of s.now (steps_from way.entry.path.now way.entry)) }
{
    let members = Members {
        keys: s,
        vals: s,
        from: members_of(s, n),
        count: n,
        kept: Kept::All,
    };
    let name = name_of(s, n, val.index - n);
    let next = Way {
        step: part_behind(way.path, way.step),
        ..way
    };
    let sizes = measure_members(&members);
    let mut to = places_for(sizes, at);
    put_u32(out, at, OBJECT_CONTAINER_TAG | sizes.count as u32);
    let mut last = None;
    for _ in 0..n {
        let Some(member) = members.next_member(last) else {
            return to.val - at;
        };
        to = put_member_anew(s, member, name, next, out, to, allowance - 1);
        last = Some(payload_at(s, member.key));
    }
    to.val - at
}

// Stores a container without the item that the rest of a path finds in it, and gives its length.
#[cycle(deletions)]
fn put_deleted(s: &[u8], way: Way, out: &mut [u8], at: usize, allowance: u32) -> usize
    requires { Cuts s.now way.path.now way allowance × (at ≤ 65536 * (64 - allowance)) }
    ensures { Stores result out.old out.new at (remains_of s.now (steps_from way.entry.path.now way.entry)) }
{
    let jentry = jentry_at(way.path, way.step.index);
    let text = slice(way.path, way.step.place, payload_len(jentry) as usize);
    let Some(part) = find_step(s, jentry, text) else {
        return 0;
    };
    if way.step.index + 1 == way.count {
        return put_without(s, part, out, at);
    }
    let Some(manner) = manner_of(s) else {
        return 0;
    };
    match manner {
        Manner::Items(n) => put_part_anew(s, n, part, way, out, at, allowance),
        Manner::Rising(n) => put_part_anew(s, n + n, part, way, out, at, allowance),
        Manner::Unsorted(n) => put_sorted_anew(s, n, part, way, out, at, allowance),
    }
}

// Stores a container without the item that a path of n steps finds in it, where there is room for it. It is never longer than before,
// so only where `room` is shorter than that it is measured first, on no bytes.
pub(crate) fn write_deleted(s: &[u8], path: &[u8], n: usize, out: &mut [u8], room: usize) -> Ending
    requires { (checked (nested 64 s.now) ≡ Ok tt) × (length s.now ≤ 65536) × (n < 2 ^ 29) × (0 < n)
        × ((t : Tree) × (finding s.now (part_steps (parts_of path.now n)) ≡ Some t)) }
    ensures { EndedIn result out.old out.new
        (into room (remains_of s.now (part_steps (parts_of path.now n)))) }
{
    let way = Way {
        path,
        step: first_part(n),
        count: n,
    };
    if s.len() <= room {
        let len = put_deleted(s, way, out, 0, DEPTH_LIMIT);
        return Ok(Some(len));
    }
    let len = put_deleted(s, way, &mut out[0..0], 0, DEPTH_LIMIT);
    if room < len {
        return Err(Refusal::Buffer);
    }
    put_deleted(s, way, out, 0, DEPTH_LIMIT);
    Ok(Some(len))
}

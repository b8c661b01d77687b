// The parts of a container by their places: a part of one container by the number of its entry, a member by the places of its two
// entries and payloads. What walks, searches and writes containers goes by these.
ghost use Rattle.std.specs.Prelude.{◌≡◌, ◌+◌, ◌-◌, ◌^◌, ◌≤◌, ◌<◌};
ghost use Rattle.layout.specs.Entry.{lengths};
ghost use Rattle.layout.specs.Parts.{bytes_at, member_at, next_part};
ghost use Rattle.layout.specs.Parts.{first_part, parts_end, part_payload};
ghost use Rattle.layout.specs.Parts.{members_of, past, behind_member};

use crate::constants::{HEADER_SIZE, JENTRY_SIZE};
use crate::jentry::{jentry_at, payload_len};
use crate::util::{read_u32, slice};

// A part of a container: the number of its entry, and the place of its payload. An object of n members has 2n parts, the names
// and then the values.
#[derive(Clone, Copy)]
pub struct PartAt {
    pub index: usize,
    pub place: usize,
}

// The places of the entry and of the payload that are stored next.
#[derive(Clone, Copy)]
pub struct Cursor {
    pub jentry: usize,
    pub place: usize,
}

// An item as it stands in a record: its entry, and the place of its payload.
#[derive(Clone, Copy)]
pub struct ItemAt {
    pub jentry: u32,
    pub place: usize,
}

// A member as it stands in one record, or in an array of names and one of values.
#[derive(Clone, Copy)]
pub struct MemberAt {
    pub key: ItemAt,
    pub val: ItemAt,
}

// The places of a member's two entries, its name and its value, in records to read or in a buffer to write.
#[derive(Clone, Copy)]
pub struct Places {
    pub key_jentry: usize,
    pub val_jentry: usize,
    pub key: usize,
    pub val: usize,
}

// The first part of a container of n.
pub fn first_part(n: usize) -> PartAt
    requires { n < 2 ^ 30 }
    ensures { result ≡ first_part n }
{
    PartAt {
        index: 0,
        place: HEADER_SIZE + JENTRY_SIZE * n,
    }
}

// What stands behind the last part of a container of n: the end of its bytes.
pub fn parts_end(s: &[u8], n: usize) -> PartAt
    ensures { result ≡ parts_end s.now n }
{
    PartAt {
        index: n,
        place: s.len(),
    }
}

// The payload of a part.
pub fn part_payload(s: &[u8], part: PartAt) -> &[u8]
    requires { part.index ≤ 2 ^ 30 }
    ensures { result.now ≡ part_payload s.now part }
{
    slice(
        s,
        part.place,
        payload_len(jentry_at(s, part.index)) as usize,
    )
}

// Where the payload of part `to` stands: the place of `from` is carried on over the parts between them.
pub fn place_after(s: &[u8], from: PartAt, to: usize) -> usize
    requires { (from.index ≤ to) × (to < 2 ^ 30) × (from.place < 2 ^ 60) }
    ensures { result ≡ from.place + lengths s.now from.index (to - from.index) }
{
    let mut place = from.place;
    for i in from.index..to {
        place += payload_len(jentry_at(s, i)) as usize;
    }
    place
}

// The part behind this one.
pub fn part_behind(s: &[u8], part: PartAt) -> PartAt
    requires { (part.index ≤ 2 ^ 30) × (part.place < 2 ^ 60) }
    ensures { result ≡ next_part s.now part }
{
    PartAt {
        index: part.index + 1,
        place: part.place + payload_len(jentry_at(s, part.index)) as usize,
    }
}

// The payload of an item.
pub fn payload_at(s: &[u8], item: ItemAt) -> &[u8]
    ensures { result.now ≡ bytes_at s.now item }
{
    slice(s, item.place, payload_len(item.jentry) as usize)
}

// The member at these places.
pub fn read_member(keys: &[u8], vals: &[u8], at: Places) -> MemberAt
    ensures { result
        ≡ member_at keys.now vals.now at.key_jentry at.val_jentry at.key at.val }
{
    MemberAt {
        key: ItemAt {
            jentry: read_u32(keys, at.key_jentry),
            place: at.key,
        },
        val: ItemAt {
            jentry: read_u32(vals, at.val_jentry),
            place: at.val,
        },
    }
}

// The places of the members of an object. The first value stands behind all names, whose lengths are summed for it once.
pub fn members_of(s: &[u8], n: usize) -> Places
    requires { n < 2 ^ 29 }
    ensures { result ≡ members_of s.now n }
{
    let first = first_part(n + n);
    Places {
        key_jentry: HEADER_SIZE,
        val_jentry: HEADER_SIZE + JENTRY_SIZE * n,
        key: first.place,
        val: place_after(s, first, n),
    }
}

// The places behind a member whose name and value are so long.
pub fn places_past(at: Places, key: usize, val: usize) -> Places
    requires { (at.key_jentry < 2 ^ 60) × (at.val_jentry < 2 ^ 60) × (at.key + key < 2 ^ 64) × (at.val + val < 2 ^ 64) }
    ensures { result ≡ past at key val }
{
    Places {
        key_jentry: at.key_jentry + JENTRY_SIZE,
        val_jentry: at.val_jentry + JENTRY_SIZE,
        key: at.key + key,
        val: at.val + val,
    }
}

// The places of the member behind one.
pub fn places_behind(at: Places, member: MemberAt) -> Places
    requires { (at.key_jentry < 2 ^ 60) × (at.val_jentry < 2 ^ 60) × (at.key < 2 ^ 60) × (at.val < 2 ^ 60) }
    ensures { result ≡ behind_member at member }
{
    places_past(
        at,
        payload_len(member.key.jentry) as usize,
        payload_len(member.val.jentry) as usize,
    )
}

// The members of an object, taken one by one in byte order of their names: as they stand where the names rise, else by the search.
ghost use Rattle.std.specs.Prelude.{◌≡◌, false, None, option_copied, ◌+◌, ◌^◌, ◌≤◌, ◌<◌};
ghost use Rattle.layout.specs.Parts.{name_in, members_at};
ghost use Rattle.builders.specs.Search.{kept_of, least};
ghost use Rattle.builders.specs.Searched.{searched};
ghost use Rattle.builders.specs.Sorted.{sorted};
ghost use Rattle.edits.specs.Members.{places_for};
ghost use Rattle.edits.specs.Members.{sizes_in, sizes_of, all_ahead};
ghost use Rattle.edits.specs.Members.{kept_ahead};
ghost use Rattle.edits.specs.Members.{Near, Standing, Next};

use builders::search::{Kept, Members, is_kept};
use layout::constants::{HEADER_SIZE, JENTRY_SIZE};
use layout::parts::{MemberAt, Places, members_of, payload_at, places_behind, read_member};
use layout::sound::is_rising;

// How many members are written anew, and how long their names and values are.
#[derive(Clone, Copy)]
pub struct Sizes {
    pub count: usize,
    pub keys: usize,
    pub vals: usize,
}

// Members that are still to be taken, of `count` those from the one behind `index` others on. Where the names rise they are taken
// as they stand; elsewhere `index` stays 0, and each is searched for among all.
#[derive(Clone, Copy)]
pub struct Ahead {
    pub at: Places,
    pub index: usize,
    pub count: usize,
    pub is_rising: bool,
}

// The sizes of the members that are searched, of equal names the first.
pub(crate) fn measure_members(members: &Members) -> Sizes
    ensures { result ≡ sizes_in members.now.keys.now members.now.vals.now
        (sorted (name_in members.now.keys.now) (searched members.now)) }
{
    let mut last = None;
    let mut sizes = Sizes {
        count: 0,
        keys: 0,
        vals: 0,
    };
    for _ in 0..members.count {
        let Some(member) = members.next_member(last) else {
            return sizes;
        };
        let name = payload_at(members.keys, member.key);
        sizes = Sizes {
            count: sizes.count + 1,
            keys: sizes.keys + name.len(),
            vals: sizes.vals + payload_at(members.vals, member.val).len(),
        };
        last = Some(name);
    }
    sizes
}

// Where an object of these sizes stores its members.
pub fn places_for(sizes: Sizes, at: usize) -> Places
    requires { (sizes.count < 2 ^ 29) × (sizes.keys < 2 ^ 60) × (at ≤ 2 ^ 23) }
    ensures { result ≡ places_for sizes at }
{
    let start = at + HEADER_SIZE + JENTRY_SIZE * sizes.count;
    Places {
        key_jentry: at + HEADER_SIZE,
        val_jentry: start,
        key: start + JENTRY_SIZE * sizes.count,
        val: start + JENTRY_SIZE * sizes.count + sizes.keys,
    }
}

// All n members of an object.
pub fn members_ahead(s: &[u8], n: usize) -> Ahead
    requires { n < 2 ^ 29 }
    ensures { result ≡ all_ahead s.now n }
{
    Ahead {
        at: members_of(s, n),
        index: 0,
        count: n,
        is_rising: is_rising(s, n, HEADER_SIZE + JENTRY_SIZE * (n + n)),
    }
}

// The next member as they stand, those left out aside, and what is ahead behind it.
fn next_standing(s: &[u8], ahead: Ahead, kept: Kept) -> Option<(MemberAt, Ahead)>
    requires { Near ahead }
    ensures { Standing s.now kept ahead result }
{
    let mut at = ahead.at;
    for i in ahead.index..ahead.count {
        let member = read_member(s, s, at);
        at = places_behind(at, member);
        if is_kept(kept, i, member) {
            let next = Ahead {
                at,
                index: i + 1,
                ..ahead
            };
            return Some((member, next));
        }
    }
    None
}

// The sizes of the members ahead, those left out aside.
pub(crate) fn measure_ahead(s: &[u8], ahead: Ahead, kept: Kept) -> Sizes
    requires { Near ahead }
    ensures { result ≡ sizes_of s.now (kept_ahead s.now kept ahead) }
{
    let mut sizes = Sizes {
        count: 0,
        keys: 0,
        vals: 0,
    };
    let mut at = ahead.at;
    for i in ahead.index..ahead.count {
        let member = read_member(s, s, at);
        if is_kept(kept, i, member) {
            sizes = Sizes {
                count: sizes.count + 1,
                keys: sizes.keys + payload_at(s, member.key).len(),
                vals: sizes.vals + payload_at(s, member.val).len(),
            };
        }
        at = places_behind(at, member);
    }
    sizes
}

// The first of all the members ahead with the least name behind the last one taken, those left out aside. What is searched is put
// together here, in a frame that is gone when this returns: strip asks this at each level, and include/jsonb.h says how little stack
// that takes.
#[inline(never)]
pub(crate) fn next_searched(
    s: &[u8],
    ahead: &Ahead,
    kept: Kept,
    last: Option<&[u8]>,
) -> Option<MemberAt>
    requires { (ahead.now.count < 2 ^ 29) × (ahead.now.at.key_jentry < 2 ^ 32) × (ahead.now.at.val_jentry < 2 ^ 32)
        × (ahead.now.at.key < 2 ^ 32) × (ahead.now.at.val < 2 ^ 32) }
    ensures { result ≡ least (name_in s.now) (option_copied last.entry) None
        (kept_of kept 0 (members_at s.now s.now ahead.now.at ahead.now.count)) }
{
    let members = Members {
        keys: s,
        vals: s,
        from: ahead.at,
        count: ahead.count,
        kept,
    };
    members.next_member(last)
}

// The next member in byte order behind the last one taken, those left out aside, and what is ahead behind it.
pub fn next_in_order(
    s: &[u8],
    ahead: Ahead,
    kept: Kept,
    last: Option<&[u8]>,
) -> Option<(MemberAt, Ahead)>
    requires { Near ahead × (ahead.is_rising ≡ false → ahead.index ≡ 0) }
    ensures { Next s.now kept (option_copied last.entry) ahead result }
{
    if ahead.is_rising {
        return next_standing(s, ahead, kept);
    }
    let member = next_searched(s, &ahead, kept, last)?;
    Some((member, ahead))
}

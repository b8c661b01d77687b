// Two objects written as one: the members of both in byte order of their names, of equal names the right one's. Where names rise on
// both sides this is one walk through both.
ghost use Rattle.std.specs.Prelude.{◌≡◌, true, ◌&&◌, ◌++◌, ◌<◌, ◌^◌, length};
ghost use Rattle.layout.specs.Room.{EndedIn};
ghost use Rattle.builders.specs.Build.{on_two};
ghost use Rattle.layout.specs.Parts.{members_at, name_in, value_in};
ghost use Rattle.builders.specs.Weave.{own_entry, woven};
ghost use Rattle.edits.specs.Concat.{concat};
ghost use Rattle.edits.specs.Merge.{chosen, Objects, merged};
ghost use Rattle.layout.specs.Parts.{rises};
ghost use Rattle.edits.specs.Merge.{behind_members, behind_all};

use crate::members::{Ahead, Sizes, members_ahead, next_in_order, places_for};
use builders::names::is_distinct;
use builders::room::check_room;
use builders::search::{Kept, put_member};
use layout::constants::{HEADER_SIZE, JENTRY_SIZE, OBJECT_CONTAINER_TAG};
use layout::ending::Ending;
use layout::order::compare;
use layout::parts::{MemberAt, Places, members_of, payload_at, places_behind, read_member};
use layout::refusal::Refusal;
use layout::sound::is_rising;
use layout::writer::put_u32;
use std::cmp::Ordering;

// Where the next member comes from: the side, the member and what is then ahead there; of equal names both sides, the right one's
// member and what is then ahead on the left and on the right.
#[derive(Clone, Copy)]
pub enum Turn {
    Left(MemberAt, Ahead),
    Right(MemberAt, Ahead),
    Both(MemberAt, Ahead, Ahead),
}

// Which of the next members of both sides is taken, if any is left; of equal names the right one's, and the left one's is passed over.
fn turn_of(
    left: &[u8],
    l: Option<(MemberAt, Ahead)>,
    right: &[u8],
    r: Option<(MemberAt, Ahead)>,
) -> Option<Turn>
    ensures { result ≡ chosen left.now right.now l r }
{
    match (l, r) {
        (None, None) => None,
        (Some((member, next)), None) => Some(Turn::Left(member, next)),
        (None, Some((member, next))) => Some(Turn::Right(member, next)),
        (Some((left_member, left_next)), Some((right_member, right_next))) => {
            let left_name = payload_at(left, left_member.key);
            let right_name = payload_at(right, right_member.key);
            Some(match compare(left_name, right_name) {
                Ordering::Less => Turn::Left(left_member, left_next),
                Ordering::Equal => Turn::Both(right_member, left_next, right_next),
                Ordering::Greater => Turn::Right(right_member, right_next),
            })
        }
    }
}

// Stores the members of two objects, of m and n members, in byte order of their names, and gives the places behind them. The next
// member of a side is kept until it is taken or passed over, and only then the one behind it is looked for.
fn put_merged(left: &[u8], m: usize, right: &[u8], n: usize, out: &mut [u8], to: Places) -> Places
    requires { Objects left.now m right.now n
        × (to.key_jentry < 2 ^ 32) × (to.val_jentry < 2 ^ 32) × (to.key < 2 ^ 32) × (to.val < 2 ^ 32) }
    ensures is { result ≡ behind_all left.now m right.now n to }
    ensures kept { out.new
        ≡ woven (name_in (right.now ++ left.now)) (value_in (right.now ++ left.now)) own_entry
        out.old to.key_jentry to.val_jentry to.key to.val
        (merged left.now m right.now n) }
{
    let mut l = next_in_order(left, members_ahead(left, m), Kept::All, None);
    let mut r = next_in_order(right, members_ahead(right, n), Kept::All, None);
    let mut at = to;
    for _ in 0..m + n {
        let Some(turn) = turn_of(left, l, right, r) else {
            return at;
        };
        match turn {
            Turn::Left(member, ahead) => {
                let name = payload_at(left, member.key);
                at = put_member(left, left, member, out, at);
                l = next_in_order(left, ahead, Kept::All, Some(name));
            }
            Turn::Right(member, ahead) => {
                let name = payload_at(right, member.key);
                at = put_member(right, right, member, out, at);
                r = next_in_order(right, ahead, Kept::All, Some(name));
            }
            Turn::Both(member, left_ahead, right_ahead) => {
                let name = payload_at(right, member.key);
                at = put_member(right, right, member, out, at);
                l = next_in_order(left, left_ahead, Kept::All, Some(name));
                r = next_in_order(right, right_ahead, Kept::All, Some(name));
            }
        }
    }
    at
}

// Stores `count` members as they stand, and gives the places behind them.
pub fn put_standing(s: &[u8], from: Places, count: usize, out: &mut [u8], to: Places) -> Places
    requires { (count < 2 ^ 29)
        × (from.key_jentry < 2 ^ 59) × (from.val_jentry < 2 ^ 59) × (from.key < 2 ^ 59) × (from.val < 2 ^ 59)
        × (to.key_jentry < 2 ^ 59) × (to.val_jentry < 2 ^ 59) × (to.key < 2 ^ 59) × (to.val < 2 ^ 59) }
    ensures is { result ≡ behind_members s.now (members_at s.now s.now from count) to }
    ensures kept { out.new
        ≡ woven (name_in s.now) (value_in s.now) own_entry
        out.old to.key_jentry to.val_jentry to.key to.val
        (members_at s.now s.now from count) }
{
    let mut here = from;
    let mut at = to;
    for _ in 0..count {
        let member = read_member(s, s, here);
        at = put_member(s, s, member, out, at);
        here = places_behind(here, member);
    }
    at
}

// What `put_merged` does where the names rise on both sides: one walk through both, with no more in hand than the places of the
// next members. In a turn either side goes on, or both do, so the loop counts by hand.
fn put_rising(left: &[u8], m: usize, right: &[u8], n: usize, out: &mut [u8], to: Places) -> Places
    requires { Objects left.now m right.now n × (rises left.now m ≡ true) × (rises right.now n ≡ true)
        × (to.key_jentry < 2 ^ 32) × (to.val_jentry < 2 ^ 32) × (to.key < 2 ^ 32) × (to.val < 2 ^ 32) }
    ensures is { result ≡ behind_all left.now m right.now n to }
    ensures kept { out.new
        ≡ woven (name_in (right.now ++ left.now)) (value_in (right.now ++ left.now)) own_entry
        out.old to.key_jentry to.val_jentry to.key to.val
        (merged left.now m right.now n) }
{
    let mut l = members_of(left, m);
    let mut r = members_of(right, n);
    let mut at = to;
    let mut i = 0;
    let mut j = 0;
    while (i < m) & (j < n) {
        let left_member = read_member(left, left, l);
        let right_member = read_member(right, right, r);
        match compare(
            payload_at(left, left_member.key),
            payload_at(right, right_member.key),
        ) {
            Ordering::Less => {
                at = put_member(left, left, left_member, out, at);
                l = places_behind(l, left_member);
                i += 1;
            }
            Ordering::Equal => {
                at = put_member(right, right, right_member, out, at);
                l = places_behind(l, left_member);
                r = places_behind(r, right_member);
                i += 1;
                j += 1;
            }
            Ordering::Greater => {
                at = put_member(right, right, right_member, out, at);
                r = places_behind(r, right_member);
                j += 1;
            }
        }
    }
    at = put_standing(left, l, m - i, out, at);
    put_standing(right, r, n - j, out, at)
}

// Stores the members of two objects in byte order of their names, and gives the places behind them: by one walk where the names
// rise on both sides.
fn put_both(
    are_rising: bool,
    left: &[u8],
    m: usize,
    right: &[u8],
    n: usize,
    out: &mut [u8],
    to: Places,
) -> Places
    requires { Objects left.now m right.now n × (are_rising ≡ (rises left.now m && rises right.now n))
        × (to.key_jentry < 2 ^ 32) × (to.val_jentry < 2 ^ 32) × (to.key < 2 ^ 32) × (to.val < 2 ^ 32) }
    ensures is { result ≡ behind_all left.now m right.now n to }
    ensures kept { out.new
        ≡ woven (name_in (right.now ++ left.now)) (value_in (right.now ++ left.now)) own_entry
        out.old to.key_jentry to.val_jentry to.key to.val
        (merged left.now m right.now n) }
{
    if are_rising {
        return put_rising(left, m, right, n, out, to);
    }
    put_merged(left, m, right, n, out, to)
}

// Writes two objects, of m and n members, as one, where no name is repeated on the right and there is room for it. It is measured
// first, on no bytes; where none are lent, as by a preview, a second run would store nothing, and is left out.
pub(crate) fn write_merged(
    left: &[u8],
    m: usize,
    right: &[u8],
    n: usize,
    out: &mut [u8],
    room: usize,
) -> Ending
    requires { Objects left.now m right.now n }
    ensures { EndedIn result out.old out.new
        (on_two concat left.now right.now room) }
{
    if !is_distinct(right, n, HEADER_SIZE + JENTRY_SIZE * (n + n)) {
        return Err(Refusal::Repeated);
    }
    let nowhere = Places {
        key_jentry: 0,
        val_jentry: 0,
        key: 0,
        val: 0,
    };
    let are_rising = is_rising(left, m, HEADER_SIZE + JENTRY_SIZE * (m + m))
        & is_rising(right, n, HEADER_SIZE + JENTRY_SIZE * (n + n));
    let end = put_both(are_rising, left, m, right, n, &mut out[0..0], nowhere);
    let sizes = Sizes {
        count: end.key_jentry / JENTRY_SIZE,
        keys: end.key,
        vals: end.val,
    };
    let len = HEADER_SIZE + JENTRY_SIZE * (sizes.count + sizes.count) + sizes.keys + sizes.vals;
    check_room(len, room)?;
    if out.len() == 0 {
        return Ok(Some(len));
    }
    put_u32(out, 0, OBJECT_CONTAINER_TAG | sizes.count as u32);
    put_both(are_rising, left, m, right, n, out, places_for(sizes, 0));
    Ok(Some(len))
}

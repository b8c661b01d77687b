// Equal values: document 01, "The value of a number or extension is its kind and payload; that of an object, its names with
// their values, in no order; of an array, its items' values in order".
ghost use Rattle.std.specs.Prelude.{◌≡◌, ◌^◌, ◌<◌, min};
ghost use Rattle.layout.specs.Parts.{parts_of};
ghost use Rattle.values.specs.Value.{equal_values};
ghost use Rattle.values.specs.Alike.{part_of, member_of, members, members_left};
ghost use Rattle.values.specs.Alike.{same_part, same_parts};
ghost use Rattle.values.specs.Alike.{like, likes};
ghost use Rattle.values.specs.Alike.{same_members, same_at};

use crate::members::{Member, Members};
use layout::check::check_record;
use layout::constants::DEPTH_LIMIT;
use layout::item::Kind;
use layout::jentry::{kind_of, type_code};
use layout::order::is_same_bytes;
use layout::parts::PartAt;
use layout::table::{Part, Parts};
use layout::util::{Header, read_header, read_u32};

// Where a member of an object stands: the parts of its name and of its value.
#[derive(Clone, Copy)]
pub struct PairAt {
    pub key: PartAt,
    pub val: PartAt,
}

// Whether two items have equal values: they are of one kind, and their payloads are equal bytes or, in containers, equal values.
// Containers are gone through down to `allowance` levels.
#[cycle(likeness)]
fn is_same_item(item: Part, other: Part, allowance: u32) -> bool
    ensures { result ≡ same_part (same_at allowance) (part_of item.entry) (part_of other.entry) }
{
    let kind = kind_of(type_code(item.jentry));
    if kind != kind_of(type_code(other.jentry)) {
        return false;
    }
    match kind {
        Kind::Container => is_same_nested(item.payload, other.payload, allowance),
        _ => is_same_bytes(item.payload, other.payload),
    }
}

// Whether two containers' n items have equal values in turn.
#[cycle(likeness)]
fn are_same_items(a: &[u8], b: &[u8], n: usize, allowance: u32) -> bool
    requires { n < 2 ^ 30 }
    ensures { result ≡ same_parts (same_at allowance) (parts_of a.now n) (parts_of b.now n) }
{
    for (item, other) in Parts::of(a, n).zip(Parts::of(b, n)) {
        if !is_same_item(item, other, allowance) {
            return false;
        }
    }
    true
}

// Whether two members are alike: equal names, and equal values. Values are only looked at where the names are equal.
#[cycle(likeness)]
fn is_like(member: Member, other: Member, allowance: u32) -> bool
    ensures { result ≡ like (same_at allowance) (member_of member.entry) (member_of other.entry) }
{
    is_same_bytes(member.name, other.name) && is_same_item(member.value, other.value, allowance)
}

// How many of some members are like another; `limit` where there are as many or more, so that no more are looked for.
#[cycle(likeness)]
fn count_like(member: Member, others: Members, limit: usize, allowance: u32) -> usize
    ensures { result ≡ min limit (likes (same_at allowance) (member_of member.entry) (members_left others.entry)) }
{
    let mut count = 0;
    for other in others {
        if count == limit {
            return count;
        }
        count += is_like(member, other, allowance) as usize;
    }
    count
}

// Whether two objects of n members have equal values: each member of the one has fewer like it behind it than there are in the
// other. As the counts are equal, no member of the other is then left over. No member is compared with itself, which would double
// the work at each level.
#[cycle(likeness)]
fn are_same_members(a: &[u8], b: &[u8], n: usize, allowance: u32) -> bool
    requires { n < 2 ^ 29 }
    ensures { result ≡ same_members (same_at allowance) (members a.now n) (members b.now n) }
{
    let others = Members::new(b, n);
    let mut behind = Members::new(a, n);
    while let Some(member) = behind.next() {
        let left = count_like(member, behind, n, allowance);
        let found = count_like(member, others, left + 1, allowance);
        if found <= left {
            return false;
        }
    }
    true
}

// Whether two records have equal values, where the first is readable and nests at most `allowance` levels deep, and the other is
// readable. Equal headers are of one sort and count.
#[cycle(likeness)]
pub(crate) fn is_same_nested(a: &[u8], b: &[u8], allowance: u32) -> bool
    ensures { result ≡ same_at allowance a.now b.now }
{
    if allowance == 0 {
        return false;
    }
    if read_u32(a, 0) != read_u32(b, 0) {
        return false;
    }
    match read_header(a) {
        Err(_) => false,
        Ok(Header::Scalar(_)) => are_same_items(a, b, 1, allowance - 1),
        Ok(Header::Array(n)) => are_same_items(a, b, n, allowance - 1),
        Ok(Header::Object(n)) => are_same_members(a, b, n, allowance - 1),
    }
}

// Whether two records have equal values; one that is not readable has none.
pub fn is_same_value(a: &[u8], b: &[u8]) -> bool
    ensures { result ≡ equal_values a.now b.now }
{
    if check_record(a).is_err() {
        return false;
    }
    if check_record(b).is_err() {
        return false;
    }
    is_same_nested(a, b, DEPTH_LIMIT)
}

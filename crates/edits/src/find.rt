// One step inward: the part of a container that a step finds.
ghost use Rattle.std.specs.Prelude.{◌≡◌, ℕ, ◌+◌, ◌-◌, ◌*◌, ◌^◌, ◌≤◌, ◌<◌, Some, Bool};
ghost use Rattle.std.specs.Fn.{FnReturnsAt};
ghost use Rattle.layout.specs.Bytes.{Bytes};
ghost use Rattle.layout.specs.Entry.{code_of, lengths};
ghost use Rattle.layout.specs.Parts.{names_of, nth_part};
ghost use Rattle.layout.specs.Read.{header};
ghost use Rattle.edits.specs.Steps.{code_key, key_place, step};
ghost use Rattle.layout.specs.declared.parts.PartAt.{PartAt as Part};
ghost use Rattle.edits.specs.Spot.{among, first, spot_at, first_meant, Tells};
ghost use Rattle.edits.specs.Spot.{value_of, spot_member, spot};
ghost use Rattle.edits.specs.Find.{place, step_name};

use crate::keypath::{KeyPath, key_of, put_index};
use layout::order::is_same_bytes;
use layout::parts::{PartAt, first_part, place_after};
use layout::table::Parts;
use layout::util::{Header, read_header, slice};

// Room for the decimal text of an index: a sign and ten digits.
const INDEX_ROOM: usize = 11;

// The item at a place, where there is one: a place is a sum here, and may lie before the first item.
fn place_in(z: i64, n: usize) -> Option<usize>
    ensures { result ≡ among z n }
{
    let k = usize::try_from(z).ok()?;
    (k < n).then_some(k)
}

// The item that an index stands for: a negative one counts back from the end, so it is added to the count.
fn place_of(i: i32, n: usize) -> Option<usize>
    requires { n < 2 ^ 29 }
    ensures { result ≡ place i n }
{
    if i < 0 {
        return place_in(n as i64 + i64::from(i), n);
    }
    place_in(i64::from(i), n)
}

// The first of n names that is meant.
pub fn find_name<F: Fn(&[u8]) -> bool>(s: &[u8], n: usize, is_meant: F) -> Option<PartAt>
    requires few { n < 2 ^ 29 }
    requires callable { F.IsAlwaysCallable is_meant }
    ensures { (meant : Bytes → Bool) → Tells (FnReturnsAt F.Fn is_meant) meant → result ≡ spot_at s.now (n + n) (first_meant meant (names_of s.now n)) }
{
    for part in Parts::names(s, n) {
        if is_meant(part.payload) {
            return Some(part.at);
        }
    }
    None
}

// The value of the one of n members whose name is there.
pub fn value_of(s: &[u8], n: usize, name: Option<PartAt>) -> Option<PartAt>
    requires { (n < 2 ^ 29) × ((a : Part) → name ≡ Some a → (a.index < n) × (a.place < 2 ^ 60)) }
    ensures { result ≡ value_of s.now n name }
{
    let key = name?;
    let index = n + key.index;
    Some(PartAt {
        index,
        place: place_after(s, key, index),
    })
}

// The value of the first of n members whose name has equal bytes.
fn find_member(s: &[u8], n: usize, name: &[u8]) -> Option<PartAt>
    requires { n < 2 ^ 29 }
    ensures { result ≡ spot_member s.now n (first name.now (names_of s.now n)) }
{
    value_of(s, n, find_name(s, n, |other| is_same_bytes(name, other)))
}

// Part k of a container of n parts.
pub(crate) fn part_at(s: &[u8], n: usize, k: usize) -> PartAt
    requires { (n < 2 ^ 30) × (k < 2 ^ 30) }
    ensures { result ≡ nth_part s.now n k }
{
    PartAt {
        index: k,
        place: place_after(s, first_part(n), k),
    }
}

// The item of an array of n that is at a place.
pub fn item_at(s: &[u8], n: usize, place: Option<usize>) -> Option<PartAt>
    requires { (n < 2 ^ 29) × ((k : ℕ) → place ≡ Some k → k < n) }
    ensures { result ≡ spot_at s.now n place }
{
    let k = place?;
    Some(part_at(s, n, k))
}

// The item of an array that a step finds: a name finds nothing.
fn find_item(s: &[u8], n: usize, key: Option<KeyPath>) -> Option<PartAt>
    requires { n < 2 ^ 29 }
    ensures { result ≡ spot_at s.now n (key_place key n) }
{
    let KeyPath::Index(i) = key? else {
        return None;
    };
    item_at(s, n, place_of(i, n))
}

// The value of an object that a step finds: an index stands for its decimal text.
fn find_value(s: &[u8], n: usize, key: Option<KeyPath>, text: &[u8]) -> Option<PartAt>
    requires { n < 2 ^ 29 }
    ensures { result ≡ spot_member s.now n (first (step_name (step key text.now)) (names_of s.now n)) }
{
    let Some(key) = key else {
        return find_member(s, n, text);
    };
    match key {
        KeyPath::Index(i) => {
            let mut digits = [0u8; INDEX_ROOM];
            let len = put_index(i, &mut digits);
            find_member(s, n, slice(&digits, 0, len))
        }
        KeyPath::Name => find_member(s, n, text),
    }
}

// The part that the step with this entry and payload finds in a record; a step into a scalar finds nothing. They are no `Part` of a
// table: a pointer's token is looked up too, and stands in none.
pub fn find_step(s: &[u8], jentry: u32, text: &[u8]) -> Option<PartAt>
    ensures { result ≡ spot (header s.now) s.now (step (code_key (code_of jentry) text.now) text.now) }
{
    let key = key_of(jentry, text);
    match read_header(s) {
        Ok(Header::Array(n)) => find_item(s, n, key),
        Ok(Header::Object(n)) => find_value(s, n, key, text),
        Ok(Header::Scalar(_)) => None,
        Err(_) => None,
    }
}

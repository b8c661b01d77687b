// Walks over arrays and objects, after the Rust's iterator.rs. A walk is a small value: a step takes it and the slice to read
// in, and gives the next one. Every walk is taken, one made by hand too, on every slice.
ghost use Rattle.std.specs.Prelude.{◌≡◌, ◌+◌, ◌^◌, ◌≤◌, ◌<◌, length};
ghost use Rattle.layout.specs.Pass.{handed, entry_told, length_told};
ghost use Rattle.layout.specs.Walk.{item_of, item_at};
ghost use Rattle.layout.specs.Walk.{array_step, array_walk, array_open};
ghost use Rattle.layout.specs.Walk.{object_step, member_step};
ghost use Rattle.layout.specs.Walk.{object_walk, object_open};

use crate::check::check_record;
use crate::constants::{HEADER_SIZE, JENTRY_SIZE, STRING_CODE};
use crate::item::JsonbItem;
use crate::jentry::{is_item_jentry, kind_of, payload_len, type_code};
use crate::parts::{first_part, members_of};
use crate::refusal::Refusal;
use crate::utf8::check_text;
use crate::util::{Header, is_inside, read_header, read_u32, slice};

// Where the next entry and the next payload stand, and how many items are left.
#[derive(Clone, Copy)]
pub struct ArrayIterator {
    pub jentry_offset: usize,
    pub item_offset: usize,
    pub remaining: usize,
}

// Where the entries and the payloads of the next name and the next value stand, and how many members are left.
#[derive(Clone, Copy)]
pub struct ObjectIterator {
    pub key_jentry_offset: usize,
    pub val_jentry_offset: usize,
    pub key_offset: usize,
    pub val_offset: usize,
    pub remaining: usize,
}

#[derive(Clone, Copy)]
pub struct ObjectMember {
    pub key: JsonbItem,
    pub val: JsonbItem,
}

// The item of an entry whose payload stands at a place, with its characters.
fn jentry_to_jsonb_item(jentry: u32, place: usize, characters: Option<usize>) -> JsonbItem
    ensures { result ≡ item_of jentry place characters }
{
    JsonbItem {
        kind: kind_of(type_code(jentry)),
        place,
        length: payload_len(jentry) as usize,
        characters,
    }
}

// The item that a step hands out of an entry, or the refusal of a string that is no text: its text is tested, and its characters are
// counted.
fn hand_out(s: &[u8], jentry: u32, place: usize) -> Result<JsonbItem, Refusal>
    ensures { result ≡ handed (item_at s.now jentry place) }
{
    if type_code(jentry) != STRING_CODE {
        return Ok(jentry_to_jsonb_item(jentry, place, None));
    }
    let count = check_text(slice(s, place, payload_len(jentry) as usize))?;
    Ok(jentry_to_jsonb_item(jentry, place, Some(count)))
}

// The entry at a place, or why a step is refused there: 1 where it is not whole in the slice, 2 where it is no entry, or not a name's.
fn entry_in(s: &[u8], place: usize, is_name: bool) -> Result<u32, Refusal>
    ensures { result ≡ entry_told s.now place is_name }
{
    if !is_inside(s, place, JENTRY_SIZE) {
        return Err(Refusal::Short);
    }
    let jentry = read_u32(s, place);
    if !is_item_jentry(is_name, jentry) {
        return Err(Refusal::Layout);
    }
    Ok(jentry)
}

// The length of the payload of an entry, or the refusal where it is not whole in the slice.
fn length_in(s: &[u8], place: usize, jentry: u32) -> Result<usize, Refusal>
    ensures { result ≡ length_told s.now place jentry }
{
    let length = payload_len(jentry) as usize;
    if !is_inside(s, place, length) {
        return Err(Refusal::Layout);
    }
    Ok(length)
}

impl ArrayIterator {
    // The walk over a readable array; on a readable record of another kind there is none.
    pub fn new(s: &[u8]) -> Result<Option<ArrayIterator>, Refusal>
        ensures { result ≡ array_open s.now }
    {
        check_record(s)?;
        let Header::Array(count) = read_header(s)? else {
            return Ok(None);
        };
        Ok(Some(ArrayIterator::new_with_len(count)))
    }

    // The walk from the first item on, of an array of `count`.
    fn new_with_len(count: usize) -> ArrayIterator
        requires { count < 2 ^ 29 }
        ensures { result ≡ array_walk count }
    {
        let first = first_part(count);
        ArrayIterator {
            jentry_offset: HEADER_SIZE,
            item_offset: first.place,
            remaining: count,
        }
    }

    // The next item and the walk behind it; none past the last. A refused step has not moved: the walk that it took can be used again.
    pub fn next(self, s: &[u8]) -> Result<Option<(JsonbItem, ArrayIterator)>, Refusal>
        ensures { result ≡ array_step s.now self }
    {
        if self.remaining == 0 {
            return Ok(None);
        }
        let jentry = entry_in(s, self.jentry_offset, false)?;
        let length = length_in(s, self.item_offset, jentry)?;
        let item = hand_out(s, jentry, self.item_offset)?;
        let next = ArrayIterator {
            jentry_offset: self.jentry_offset + JENTRY_SIZE,
            item_offset: self.item_offset + length,
            remaining: self.remaining - 1,
        };
        Ok(Some((item, next)))
    }
}

impl ObjectIterator {
    // The walk over a readable object; on a readable record of another kind there is none.
    pub fn new(s: &[u8]) -> Result<Option<ObjectIterator>, Refusal>
        ensures { result ≡ object_open s.now }
    {
        check_record(s)?;
        let Header::Object(count) = read_header(s)? else {
            return Ok(None);
        };
        Ok(Some(ObjectIterator::new_with_len(s, count)))
    }

    // The walk from the first member on, of an object of `count`.
    fn new_with_len(s: &[u8], count: usize) -> ObjectIterator
        requires { count < 2 ^ 29 }
        ensures { result ≡ object_walk s.now count }
    {
        let first = members_of(s, count);
        ObjectIterator {
            key_jentry_offset: first.key_jentry,
            val_jentry_offset: first.val_jentry,
            key_offset: first.key,
            val_offset: first.val,
            remaining: count,
        }
    }

    // The next member and the walk behind it; none past the last. Both entries are tested before either payload, and both payloads
    // before either text.
    pub fn next(self, s: &[u8]) -> Result<Option<(ObjectMember, ObjectIterator)>, Refusal>
        ensures { result ≡ object_step s.now self }
    {
        if self.remaining == 0 {
            return Ok(None);
        }
        let key_jentry = entry_in(s, self.key_jentry_offset, true)?;
        let val_jentry = entry_in(s, self.val_jentry_offset, false)?;
        self.next_member(s, key_jentry, val_jentry)
    }

    // The step behind the tests of both entries.
    fn next_member(
        self,
        s: &[u8],
        key_jentry: u32,
        val_jentry: u32,
    ) -> Result<Option<(ObjectMember, ObjectIterator)>, Refusal>
        requires { (0 < self.remaining)
            × (self.key_jentry_offset + 4 ≤ length s.now)
            × (self.val_jentry_offset + 4 ≤ length s.now) }
        ensures { result ≡ member_step s.now self key_jentry val_jentry }
    {
        let key_length = length_in(s, self.key_offset, key_jentry)?;
        let val_length = length_in(s, self.val_offset, val_jentry)?;
        let key = hand_out(s, key_jentry, self.key_offset)?;
        let val = hand_out(s, val_jentry, self.val_offset)?;
        let next = ObjectIterator {
            key_jentry_offset: self.key_jentry_offset + JENTRY_SIZE,
            val_jentry_offset: self.val_jentry_offset + JENTRY_SIZE,
            key_offset: self.key_offset + key_length,
            val_offset: self.val_offset + val_length,
            remaining: self.remaining - 1,
        };
        Ok(Some((ObjectMember { key, val }, next)))
    }
}

// Entries: the Rust's jentry.rs. The type code is kept as its number, bits 28 to 30 moved down.
ghost use Rattle.std.specs.Prelude.{◌≡◌, ◌+◌, ◌*◌, ◌%◌, ◌^◌, ◌<◌};
ghost use Rattle.layout.specs.Entry.{code_of, length_of, entry_of};
ghost use Rattle.layout.specs.Entry.{entry_at, kind_of, entry_good};
ghost use Rattle.layout.specs.Read.{entry_ok};

use crate::constants::{
    CONTAINER_CODE, EXTENSION_CODE, FALSE_CODE, HEADER_SIZE, JENTRY_CODE_MASK, JENTRY_CODE_SHIFT,
    JENTRY_IS_OFF_SHIFT, JENTRY_OFF_LEN_MASK, JENTRY_SIZE, NULL_CODE, NUMBER_CODE, STRING_CODE,
    TRUE_CODE, UNUSED_CODE,
};
use crate::item::Kind;
use crate::util::{read_u32, read_whole};

// Half of all places, 2^63, in entries: a slice is shorter than that.
const JENTRY_LIMIT: usize = 0x2000_0000_0000_0000;

// The type code of an entry.
pub fn type_code(encoded: u32) -> u32
    ensures { result ≡ code_of encoded }
{
    (encoded >> JENTRY_CODE_SHIFT) & JENTRY_CODE_MASK
}

// The length of an entry's payload.
pub fn payload_len(encoded: u32) -> u32
    ensures { result ≡ length_of encoded }
{
    encoded & JENTRY_OFF_LEN_MASK
}

// A type code and a length put together as an entry; of each only the bits that an entry has count.
pub fn encoded(code: u32, len: u32) -> u32
    ensures { result ≡ entry_of (code % 2 ^ 3) (len % 2 ^ 28) }
{
    ((code & JENTRY_CODE_MASK) << JENTRY_CODE_SHIFT) | (len & JENTRY_OFF_LEN_MASK)
}

// The kind of a type code. Null is also what the code without a meaning counts as: no readable record has it. Codes are numbers and
// no enum with a `TryFrom`: the check and a walk made by hand meet code 7 as well, and `kind_of` of the definitions gives every number
// a kind, so that each caller would turn the conversion's error back into what is said here.
pub fn kind_of(code: u32) -> Kind
    ensures { result ≡ kind_of code }
{
    match code {
        STRING_CODE => Kind::String,
        NUMBER_CODE => Kind::Number,
        FALSE_CODE => Kind::False,
        TRUE_CODE => Kind::True,
        CONTAINER_CODE => Kind::Container,
        EXTENSION_CODE => Kind::Extension,
        _ => Kind::Null,
    }
}

// Entry i of the table behind a header; what lies outside the slice counts as 0. Below the limit the place is no sum beyond the
// machine's word, so that one test tells whether the entry is whole: loops over a table, whose count is far below it, come here.
pub fn jentry_at(s: &[u8], i: usize) -> u32
    requires { i < 2 ^ 61 }
    ensures { result ≡ entry_at s.now i }
{
    let at = HEADER_SIZE + JENTRY_SIZE * i;
    if at + JENTRY_SIZE <= s.len() {
        return read_whole(s, at);
    }
    read_u32(s, at)
}

// The same of every index: no slice reaches the entry at the limit.
pub fn read_jentry(s: &[u8], i: usize) -> u32
    ensures { result ≡ entry_at s.now i }
{
    if JENTRY_LIMIT <= i {
        return 0;
    }
    jentry_at(s, i)
}

// What a walk's step and the check both ask of an entry by itself. Rule 5 asks more: a step hands out null, true and false with
// their length. `is_name` is a flag and no enum: the loop over a table has it from a comparison, and here it is joined with others.
pub(crate) fn is_item_jentry(is_name: bool, entry: u32) -> bool
    ensures { result ≡ entry_good is_name entry }
{
    let code = type_code(entry);
    (entry >> JENTRY_IS_OFF_SHIFT == 0)
        & ((code != UNUSED_CODE) & (!is_name | (code == STRING_CODE)))
}

// Rule 5 of document 01's check, for one entry.
pub(crate) fn is_jentry(is_name: bool, entry: u32) -> bool
    ensures { result ≡ entry_ok is_name entry }
{
    let code = type_code(entry);
    let empty = (code == NULL_CODE) | ((code == FALSE_CODE) | (code == TRUE_CODE));
    is_item_jentry(is_name, entry) & (!empty | (payload_len(entry) == 0))
}

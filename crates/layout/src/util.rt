// Reading bytes, fields and headers, after the Rust's util.rs. What lies outside the slice counts as 0 or is left out, so no
// caller owes that it lies inside.
ghost use Rattle.std.specs.Prelude.{◌≡◌, ◌+◌, ◌≤◌, length, take, drop, get_or};
ghost use Rattle.layout.specs.Entry.{sort_of, count_of};
ghost use Rattle.layout.specs.Bytes.{inside, word_at};
ghost use Rattle.layout.specs.Read.{header};

use crate::constants::{
    ARRAY_CONTAINER_TAG, CONTAINER_HEADER_LEN_MASK, CONTAINER_HEADER_TYPE_SHIFT, HEADER_SIZE,
    OBJECT_CONTAINER_TAG, SCALAR_CONTAINER_TAG,
};
use crate::refusal::Refusal;

// What the first four bytes of a record say: its sort with its count.
#[derive(Clone, Copy)]
pub enum Header {
    Array(usize),
    Object(usize),
    Scalar(usize),
}

// The byte at a place, and 0 past the end.
pub fn byte(s: &[u8], at: usize) -> u8
    ensures { result ≡ get_or s.now at 0 }
{
    s.get(at).copied().unwrap_or(0)
}

// Whether the n bytes from a place on lie in the slice. A sum beyond the machine's word does not.
pub fn is_inside(s: &[u8], at: usize, n: usize) -> bool
    ensures { result ≡ inside s.now at n }
{
    n <= s.len() && at <= s.len() - n
}

// The n bytes from a place on, or as many as there are.
pub fn slice(s: &[u8], at: usize, n: usize) -> &[u8]
    ensures { result.now ≡ take n (drop at s.now) }
{
    let rest = s.get(at..).unwrap_or(&[]);
    rest.get(..n).unwrap_or(rest)
}

// The field at a place where the slice has it whole.
pub(crate) fn read_whole(s: &[u8], at: usize) -> u32
    requires { at + 4 ≤ length s.now }
    ensures { result ≡ word_at s.now at }
{
    u32::from_be_bytes([s[at], s[at + 1], s[at + 2], s[at + 3]])
}

// The field at a place where a byte of it is missing: that counts as 0. It stays apart from the reading of a whole field, which is
// then one read.
#[inline(never)]
fn read_part(s: &[u8], at: usize) -> u32
    ensures { result ≡ word_at s.now at }
{
    if s.len() <= at {
        return 0;
    }
    u32::from_be_bytes([
        byte(s, at),
        byte(s, at + 1),
        byte(s, at + 2),
        byte(s, at + 3),
    ])
}

// The field at a place, the high byte first.
pub fn read_u32(s: &[u8], at: usize) -> u32
    ensures { result ≡ word_at s.now at }
{
    if is_inside(s, at, 4) {
        return read_whole(s, at);
    }
    read_part(s, at)
}

// The top three bits.
fn header_type(header: u32) -> u32
    ensures { result ≡ sort_of header }
{
    header >> CONTAINER_HEADER_TYPE_SHIFT
}

fn header_len(header: u32) -> u32
    ensures { result ≡ count_of header }
{
    header & CONTAINER_HEADER_LEN_MASK
}

// Rule 2 of document 01's check.
pub fn read_header(s: &[u8]) -> Result<Header, Refusal>
    ensures { result ≡ header s.now }
{
    if s.len() < HEADER_SIZE {
        return Err(Refusal::Short);
    }
    let header = read_u32(s, 0);
    let sort = header_type(header);
    let count = header_len(header) as usize;
    if sort == ARRAY_CONTAINER_TAG >> CONTAINER_HEADER_TYPE_SHIFT {
        return Ok(Header::Array(count));
    }
    if sort == OBJECT_CONTAINER_TAG >> CONTAINER_HEADER_TYPE_SHIFT {
        return Ok(Header::Object(count));
    }
    if sort == SCALAR_CONTAINER_TAG >> CONTAINER_HEADER_TYPE_SHIFT {
        return Ok(Header::Scalar(count));
    }
    Err(Refusal::Layout)
}

// Writers into a lent buffer. Each is total: a byte whose place lies outside the buffer is not stored, so no caller owes that
// there is room.
ghost use Rattle.std.specs.Prelude.{◌≡◌, ◌≤◌, min, set};
ghost use Rattle.layout.specs.Bytes.{be32, be_bytes};
ghost use Rattle.layout.specs.Patch.{patch};

use crate::util::is_inside;

// Stores one byte.
pub fn put(out: &mut [u8], at: usize, b: u8)
    ensures { out.new ≡ set out.old at b }
{
    if at < out.len() {
        out[at] = b;
    }
}

// Stores a few bytes one by one, as far as the buffer goes, as `copy` does. They may stand in a local array, from which LLVM makes the
// loop of `copy` a call of C's memcpy, and the library for C is to need nothing from outside; the test of each byte keeps it from that.
fn put_each(bytes: &[u8], out: &mut [u8], at: usize)
    ensures { out.new ≡ patch out.old at bytes.now }
{
    if at < out.len() {
        for (i, byte) in bytes.iter().enumerate() {
            put(out, at + i, *byte);
        }
    }
}

// Stores the four bytes of v, the high byte first. Where all of them have a place this is one store.
pub fn put_u32(out: &mut [u8], at: usize, v: u32)
    ensures { out.new ≡ patch out.old at (be32 v) }
{
    let bytes = v.to_be_bytes();
    if is_inside(out, at, 4) {
        out[at..at + 4].copy_from_slice(&bytes);
    } else {
        put_each(&bytes, out, at);
    }
}

// Stores the low n bytes of v, the high byte first.
pub(crate) fn put_be(out: &mut [u8], at: usize, n: usize, v: u64)
    requires { n ≤ 8 }
    ensures { out.new ≡ patch out.old at (be_bytes n v) }
{
    put_each(&v.to_be_bytes()[8 - n..], out, at);
}

// The lesser of two lengths.
pub fn least(a: usize, b: usize) -> usize
    ensures { result ≡ min a b }
{
    a.min(b)
}

// Stores all of src, as far as the buffer goes. Most of what is stored is a name or a number of a few bytes, for which a call of
// `copy_from_slice` takes longer than a loop: by it concat and build of the telemetry limits took 6 to 8 percent longer.
pub fn copy(src: &[u8], out: &mut [u8], at: usize)
    ensures { out.new ≡ patch out.old at src.now }
{
    if at < out.len() {
        for i in 0..least(src.len(), out.len() - at) {
            out[at + i] = src[i];
        }
    }
}

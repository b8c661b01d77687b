// Byte order of names: what the Rust's `str` comparison is on bytes.
ghost use Rattle.std.specs.Prelude.{◌≡◌};
ghost use Rattle.layout.specs.Order.{order, before, same_bytes};

use std::cmp::Ordering;

// By the first byte that differs; where one name begins the other, the shorter comes first. A byte a turn, by an index: the library's
// `a.iter().cmp(b.iter())` takes twice the instructions for each byte, and objects whose names fall a quarter longer; `a.cmp(&b)` gains
// on long equal fronts alone, and the search at its longest, over names of two bytes, took up to 1.6 times as long by it.
pub fn compare(a: &[u8], b: &[u8]) -> Ordering
    ensures { result ≡ order a.now b.now }
{
    for i in 0..a.len().min(b.len()) {
        if a[i] != b[i] {
            return a[i].cmp(&b[i]);
        }
    }
    a.len().cmp(&b.len())
}

// Whether the first name comes before the second.
pub fn is_before(a: &[u8], b: &[u8]) -> bool
    ensures { result ≡ before a.now b.now }
{
    compare(a, b).is_lt()
}

// Whether two texts, payloads or records are equal bytes. They are compared from their ends, where names of one table differ more
// often than at their fronts: over such names `a == b`, which begins at the front, takes up to twice as long.
pub fn is_same_bytes(a: &[u8], b: &[u8]) -> bool
    ensures { result ≡ same_bytes a.now b.now }
{
    a.len() == b.len() && a.iter().rev().eq(b.iter().rev())
}

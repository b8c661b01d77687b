// The parts of a container one after another: an iterator over a table, from any of its entries on. It carries the place of the next
// payload on from part to part, so that no caller does.
ghost use Rattle.std.specs.Prelude.{◌≡◌, ◌+◌, ◌-◌, ◌*◌, ◌^◌, ◌<◌, ◌≤◌};

use crate::jentry::{jentry_at, payload_len};
use crate::parts::{PartAt, first_part, place_after};
use crate::util::slice;

// A part as a walk over a table meets it: where it stands, its entry and its payload.
#[derive(Clone, Copy)]
pub struct Part<'a> {
    pub at: PartAt,
    pub jentry: u32,
    pub payload: &'a [u8],
}

// What is left of a table: so many parts, the first of them at a place. However long the payloads are, no place is a sum beyond the
// machine's word.
#[derive(Clone, Copy)]
pub struct Parts<'a> {
    s: &'a [u8],
    at: PartAt,
    count: usize,
    ghost bounded: { (at.index + count ≤ 2 ^ 30) × (at.place + 2 ^ 28 * count < 2 ^ 61) },
}

impl<'a> Parts<'a> {
    ghost use Rattle.layout.specs.Left.{left, placed_at, placed_from};
    ghost use Rattle.layout.specs.Parts.{start_of, nth_part};

    // The first n parts of a table whose payloads start at a place.
    pub fn starting_at(s: &'a [u8], start: usize, n: usize) -> Parts<'a>
        requires { (n < 2 ^ 30) × (start < 2 ^ 60) }
        ensures { left result ≡ placed_at s.now start n }
    {
        let at = PartAt {
            index: 0,
            place: start,
        };
        Parts { s, at, count: n }
    }

    // All the parts of a container of n.
    pub fn of(s: &'a [u8], n: usize) -> Parts<'a>
        requires { n < 2 ^ 30 }
        ensures { left result ≡ placed_at s.now (start_of n) n }
    {
        Parts::starting_at(s, first_part(n).place, n)
    }

    // The names of an object of n members.
    pub fn names(s: &'a [u8], n: usize) -> Parts<'a>
        requires { n < 2 ^ 29 }
        ensures { left result ≡ placed_at s.now (start_of (n + n)) n }
    {
        Parts::starting_at(s, first_part(n + n).place, n)
    }

    // The values of an object of n members, which stand behind its names.
    pub fn values(s: &'a [u8], n: usize) -> Parts<'a>
        requires { n < 2 ^ 29 }
        ensures { left result ≡ placed_from s.now (nth_part s.now (n + n) n) n }
    {
        let at = PartAt {
            index: n,
            place: place_after(s, first_part(n + n), n),
        };
        Parts { s, at, count: n }
    }

    // Those that this has left, for a walk of their own.
    pub fn rest(&self) -> Parts<'a>
        ensures { left result ≡ left self.now }
    {
        *self
    }
}

impl<'a> Iterator for Parts<'a> {
    type Item = Part<'a>;

    ghost use Rattle.std.specs.Iterator.{YieldsFirstBy, at_most};
    ghost use Rattle.layout.specs.Left.{left, shown};

    ghost next_gives = { YieldsFirstBy shown left };

    ghost remaining = { λ w. at_most w.count };

    fn next(&mut self) -> Option<Part<'a>> {
        if self.count == 0 {
            return None;
        }
        let at = self.at;
        let jentry = jentry_at(self.s, at.index);
        let len = payload_len(jentry) as usize;
        self.at = PartAt {
            index: at.index + 1,
            place: at.place + len,
        };
        self.count -= 1;
        Some(Part {
            at,
            jentry,
            payload: slice(self.s, at.place, len),
        })
    }
}

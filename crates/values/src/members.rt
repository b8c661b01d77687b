// The members of an object, one after another: its names beside its values.
ghost use Rattle.std.specs.Prelude.{◌≡◌, ◌^◌, ◌<◌};

use crate::value::PairAt;
use layout::table::{Part, Parts};

// A member of an object: where it stands, its name and its value.
#[derive(Clone, Copy)]
pub(crate) struct Member<'a> {
    pub(crate) at: PairAt,
    pub(crate) name: &'a [u8],
    pub(crate) value: Part<'a>,
}

// The members of an object, from one on. A Zip of the two would do but for one thing: a copy of what is left is wanted, and a Zip is
// no Copy, while its clone counts as one that may want heap.
#[derive(Clone, Copy)]
pub(crate) struct Members<'a> {
    names: Parts<'a>,
    values: Parts<'a>,
}

impl<'a> Members<'a> {
    ghost use Rattle.values.specs.Alike.{members, members_left};

    // The members of an object of n.
    pub(crate) fn new(bytes: &'a [u8], n: usize) -> Members<'a>
        requires { n < 2 ^ 29 }
        ensures { members_left result ≡ members bytes.now n }
    {
        Members {
            names: Parts::names(bytes, n),
            values: Parts::values(bytes, n),
        }
    }
}

impl<'a> Iterator for Members<'a> {
    ghost use Rattle.std.specs.Iterator.{YieldsFirstBy, at_most};
    ghost use Rattle.values.specs.Alike.{member_of, members_left};

    type Item = Member<'a>;

    ghost next_gives = { YieldsFirstBy member_of members_left };

    ghost remaining = { λ s. at_most s.names.count };

    fn next(&mut self) -> Option<Member<'a>> {
        let name = self.names.next()?;
        let value = self.values.next()?;
        Some(Member {
            at: PairAt {
                key: name.at,
                val: value.at,
            },
            name: name.payload,
            value,
        })
    }
}

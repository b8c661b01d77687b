// The walks over arrays and objects as one: a step of either, and an iterator over what the steps hand out.
ghost use Rattle.std.specs.Prelude.{◌≡◌, ◌+◌, ◌≤◌, ℕ, length, IfOk, IfSome};
ghost use Rattle.std.specs.Iterator.{at_most};

use layout::item::JsonbItem;
use layout::iterator::{ArrayIterator, ObjectIterator, ObjectMember};
use layout::refusal::Refusal;

// A walk of layout: what a step of it hands out, which stands inside the slice, and how many of those are left.
pub(crate) trait Walk: Copy {
    type Found: Drop;

    // Where it stands, and of a member the value.
    ghost place: { Self.Found → ℕ };

    fn left(self) -> usize;

    fn step(self, s: &[u8]) -> Result<Option<(Self::Found, Self)>, Refusal>
        ensures { IfOk result (λ o. IfSome o (λ f. place f.0 ≤ length s.now)) };
}

impl Walk for ArrayIterator {
    type Found = JsonbItem;

    ghost place = { λ item. item.place };

    fn left(self) -> usize {
        self.remaining
    }

    fn step(self, s: &[u8]) -> Result<Option<(JsonbItem, ArrayIterator)>, Refusal> {
        self.next(s)
    }
}

impl Walk for ObjectIterator {
    type Found = ObjectMember;

    ghost place = { λ member. member.val.place };

    fn left(self) -> usize {
        self.remaining
    }

    fn step(self, s: &[u8]) -> Result<Option<(ObjectMember, ObjectIterator)>, Refusal> {
        self.next(s)
    }
}

// What the steps of a walk over a slice hand out, up to the first that hands out nothing. It counts by itself, so that it ends whatever
// the steps say.
#[derive(Drop)]
pub(crate) struct Steps<'a, K> {
    s: &'a [u8],
    walk: K,
    count: usize,
}

impl<'a, K: Walk> Steps<'a, K> {
    pub(crate) fn of(s: &'a [u8], walk: K) -> Steps<'a, K>
        ensures { result.s.now ≡ s.now }
    {
        Steps {
            s,
            walk,
            count: walk.left(),
        }
    }
}

impl<'a, K: Walk> Iterator for Steps<'a, K> {
    type Item = K::Found;

    ghost next_gives = { λ steps found next. (next.s.now ≡ steps.s.now) × IfSome found (λ f. K.place f ≤ length steps.s.now) };

    ghost remaining = { λ steps. at_most steps.count };

    fn next(&mut self) -> Option<K::Found> {
        self.count = self.count.checked_sub(1)?;
        let (found, next) = self.walk.step(self.s).ok()??;
        self.walk = next;
        Some(found)
    }
}

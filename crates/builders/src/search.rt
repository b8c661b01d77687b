// The search for the next name in byte order. It stands in for the Rust's BTreeMap of members: no
// work buffer is lent, so each name is searched for anew.
ghost use Rattle.std.specs.Prelude.{◌≡◌, cond, option_copied, ◌+◌, ◌^◌, ◌<◌, Some, None};
ghost use Rattle.layout.specs.Parts.{bytes_at};
ghost use Rattle.builders.specs.Search.{over, better, turn, least};
ghost use Rattle.builders.specs.Sorted.{sorted};
ghost use Rattle.builders.specs.Search.{is_kept};
ghost use Rattle.layout.specs.Parts.{name_in, value_in};
ghost use Rattle.builders.specs.Weave.{behind, own_entry, stored, woven};

use layout::constants::NULL_CODE;
use layout::jentry::type_code;
use layout::order::is_before;
use layout::parts::{MemberAt, Places, payload_at, places_behind, places_past, read_member};
use layout::writer::{copy, put_u32};

// Which members are searched: all, all but one, told by how many stand before it, or those whose value is not null.
#[derive(Clone, Copy)]
pub enum Kept {
    All,
    But(usize),
    NonNull,
}

// The members that are searched: of `count` names and values from these places on, those that are kept. However long they are, no
// place is a sum beyond the machine's word.
#[derive(Clone, Copy)]
pub struct Members<'a> {
    pub keys: &'a [u8],
    pub vals: &'a [u8],
    pub from: Places,
    pub count: usize,
    pub kept: Kept,
    ghost near: { (count < 2 ^ 29)
        × (from.key_jentry < 2 ^ 32) × (from.val_jentry < 2 ^ 32) × (from.key < 2 ^ 32) × (from.val < 2 ^ 32) },
}

// Whether a name comes behind the last one taken; at first each does.
#[tactic(auto, unfolding(crate::specs::Search::over))]
fn is_over(last: Option<&[u8]>, name: &[u8]) -> bool
    ensures { result ≡ over (option_copied last.entry) name.now }
{
    match last {
        None => true,
        Some(last) => is_before(last, name),
    }
}

// Whether a member has a lesser name than the best so far; of equal names the earlier stays.
#[tactic(auto, unfolding(crate::specs::Search::better))]
fn is_better(keys: &[u8], best: Option<MemberAt>, member: MemberAt) -> bool
    ensures { better (name_in keys.now) best member ≡ cond result (Some member) best }
{
    let Some(other) = best else {
        return true;
    };
    is_before(payload_at(keys, member.key), payload_at(keys, other.key))
}

// Whether the member behind `i` others is searched.
#[tactic(auto, unfolding(crate::specs::Search::is_kept))]
pub fn is_kept(kept: Kept, i: usize, member: MemberAt) -> bool
    ensures { result ≡ is_kept kept i member }
{
    match kept {
        Kept::All => true,
        Kept::But(k) => i != k,
        Kept::NonNull => type_code(member.val.jentry) != NULL_CODE,
    }
}

// Whether a member is taken for the best so far: where it is searched, and its name comes behind the last and before the best's.
#[tactic(auto, unfolding(crate::specs::Search::turn, crate::specs::Search::step))]
fn is_taken(
    keys: &[u8],
    is_searched: bool,
    last: Option<&[u8]>,
    best: Option<MemberAt>,
    member: MemberAt,
) -> bool
    ensures { turn (name_in keys.now) (option_copied last.entry) is_searched best member
        ≡ cond result (Some member) best }
{
    is_searched && is_over(last, payload_at(keys, member.key)) && is_better(keys, best, member)
}

// Stores a member's entries, name and value, and gives the places behind them.
pub fn put_member(keys: &[u8], vals: &[u8], member: MemberAt, out: &mut [u8], at: Places) -> Places
    requires { (at.key_jentry < 2 ^ 60) × (at.val_jentry < 2 ^ 60) × (at.key < 2 ^ 60) × (at.val < 2 ^ 60) }
    ensures is { result ≡ behind (name_in keys.now member) (value_in vals.now member) at }
    ensures kept { out.new ≡ stored (name_in keys.now) (value_in vals.now) own_entry out.old
        at.key_jentry at.val_jentry at.key at.val member }
{
    let name = payload_at(keys, member.key);
    let value = payload_at(vals, member.val);
    put_u32(out, at.key_jentry, member.key.jentry);
    put_u32(out, at.val_jentry, member.val.jentry);
    copy(name, out, at.key);
    copy(value, out, at.val);
    places_past(at, name.len(), value.len())
}

impl<'a> Members<'a> {
    ghost use Rattle.builders.specs.Searched.{searched};

    // Of these the first with the least name behind the last one taken. Laid into its callers, so that what is searched need not
    // stand in memory beside it: include/jsonb.h says how little stack an edit takes.
    #[inline(always)]
    pub fn next_member(&self, last: Option<&[u8]>) -> Option<MemberAt>
        ensures { result ≡ least (name_in self.now.keys.now) (option_copied last.entry) None (searched self.now) }
    {
        let mut best = None;
        let mut at = self.from;
        for i in 0..self.count {
            let member = read_member(self.keys, self.vals, at);
            if is_taken(self.keys, is_kept(self.kept, i, member), last, best, member) {
                best = Some(member);
            }
            at = places_behind(at, member);
        }
        best
    }

    // Stores these in byte order of their names, of equal names the first, each behind the one before.
    pub fn put_members(&self, out: &mut [u8], to: Places)
        requires { (to.key_jentry < 2 ^ 32) × (to.val_jentry < 2 ^ 32) × (to.key < 2 ^ 32) × (to.val < 2 ^ 32) }
        ensures { out.new
            ≡ woven (name_in self.now.keys.now) (value_in self.now.vals.now) own_entry out.old
            to.key_jentry to.val_jentry to.key to.val
            (sorted (name_in self.now.keys.now) (searched self.now)) }
    {
        let mut last = None;
        let mut at = to;
        for _ in 0..self.count {
            let Some(member) = self.next_member(last) else {
                return;
            };
            at = put_member(self.keys, self.vals, member, out, at);
            last = Some(payload_at(self.keys, member.key));
        }
    }
}

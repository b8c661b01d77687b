// The grade of a record against the one that was expected.
ghost use Rattle.std.specs.Prelude.{◌≡◌};
ghost use Rattle.values.specs.Grade.{grade_of};

use crate::value::is_same_nested;
use layout::check::check_record;
use layout::constants::DEPTH_LIMIT;
use layout::order::is_same_bytes;
use layout::refusal::Refusal;
use layout::sound::is_sound_where_readable;

#[derive(Clone, Copy, Debug, PartialEq, Eq)]
pub enum Grade {
    // The expected record itself.
    Right,
    // Other bytes of the same value: an object's members in another order.
    SameValue,
    // A readable record of another value.
    OtherValue,
    // No readable record.
    Damaged(Refusal),
    // The expected record is not readable, so nothing can be graded against it.
    Ungraded(Refusal),
}

// The grade of a candidate. The expected record is checked first, then the candidate.
#[tactic(auto, using(crate::proofs::Grades::graded_other))]
pub fn grade_record(candidate: &[u8], expected: &[u8]) -> Grade
    ensures { result ≡ grade_of candidate.now expected.now }
{
    if let Err(refusal) = check_record(expected) {
        return Grade::Ungraded(refusal);
    }
    if let Err(refusal) = check_record(candidate) {
        return Grade::Damaged(refusal);
    }
    if is_same_bytes(candidate, expected) {
        return Grade::Right;
    }
    // Sound records of other bytes have other values, and no members need be searched for.
    if is_sound_where_readable(candidate, DEPTH_LIMIT)
        && is_sound_where_readable(expected, DEPTH_LIMIT)
    {
        return Grade::OtherValue;
    }
    if is_same_nested(candidate, expected, DEPTH_LIMIT) {
        return Grade::SameValue;
    }
    Grade::OtherValue
}

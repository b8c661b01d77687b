// Which records the board's loader takes: document 02 §5, "A flight record is sound, at most 8 deep, has names of 1 to 32 characters,
// and holds no extension, float, decimal, NaN or infinity".
ghost use Rattle.std.specs.Prelude.{◌≡◌, ◌≤◌};
ghost use Rattle.layout.specs.Read.{read};
ghost use Rattle.layout.specs.Check.{checked};
ghost use Rattle.layout.specs.EveryAt.{profile_ask};
ghost use Rattle.flight.specs.Flight.{flight};
ghost use Rattle.flight.specs.Profile.{profile_in, both_in};

use layout::check::check_levels;
use layout::constants::DEPTH_LIMIT;
use layout::every::{Question, are_named, passes};
use layout::number::is_integer;
use layout::refusal::Refusal;
use layout::sound::is_rising;

// How deep a flight record nests at the most, and how many characters its names have.
pub(crate) const FLIGHT_DEPTH: u32 = 8;

const LONGEST_NAME: usize = 32;

// The profile as a question, which may be asked of any record: names rise and have 1 to `longest` characters, and there is no extension,
// float, decimal, NaN or infinity.
#[derive(Clone, Copy)]
pub struct Profile {
    pub longest: usize,
}

impl Question for Profile {
    ghost asked = { λ q. profile_ask q.longest };

    fn number(&self, payload: &[u8]) -> bool {
        is_integer(payload)
    }

    fn extension(&self, payload: &[u8]) -> bool {
        false
    }

    fn names(&self, s: &[u8], n: usize, start: usize) -> bool {
        is_rising(s, n, start) & are_named(s, n, start, self.longest)
    }
}

// How a record stands to it that may have so many levels. The check tells the depth at once; the rest of the profile is one question,
// asked of a record that has passed.
pub(crate) fn profile_of(s: &[u8], levels: u32) -> Result<bool, Refusal>
    requires { levels ≤ 64 }
    ensures { result ≡ profile_in levels (read s.now) }
{
    if check_levels(s, levels)? {
        let profile = Profile {
            longest: LONGEST_NAME,
        };
        return Ok(passes(&profile, s, DEPTH_LIMIT));
    }
    Ok(false)
}

// How two records stand to it together: a number comes before 12, the left one's first.
pub(crate) fn profile_of_both(
    left: &[u8],
    left_levels: u32,
    right: &[u8],
    right_levels: u32,
) -> Result<bool, Refusal>
    requires { (left_levels ≤ 64) × (right_levels ≤ 64) }
    ensures { result
        ≡ both_in (profile_in left_levels (read left.now)) (profile_in right_levels (read right.now)) }
{
    let left_inside = profile_of(left, left_levels)?;
    let right_inside = profile_of(right, right_levels)?;
    Ok(left_inside & right_inside)
}

// Whether the loader takes a record, or why it does not.
pub fn check_flight(s: &[u8]) -> Result<(), Refusal>
    ensures { result ≡ checked (flight s.now) }
{
    if profile_of(s, FLIGHT_DEPTH)? {
        return Ok(());
    }
    Err(Refusal::Profile)
}

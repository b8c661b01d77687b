// Soundness: document 01, "Sound means readable, with names in strictly rising byte order in every object".
ghost use Rattle.std.specs.Prelude.{◌≡◌, ◌^◌, ◌<◌};
ghost use Rattle.layout.specs.Read.{read};
ghost use Rattle.layout.specs.Place.{parts_at, rising_parts};
ghost use Rattle.layout.specs.Every.{sound_ask};
ghost use Rattle.layout.specs.EveryAt.{sound_at};
ghost use Rattle.layout.specs.Check.{soundness};

use crate::check::check_record;
use crate::constants::DEPTH_LIMIT;
use crate::every::{Question, passes};
use crate::order::is_before;
use crate::refusal::Refusal;
use crate::table::Parts;

// Whether n names rise strictly, the first of them at `start`: each is compared with the one before.
pub fn is_rising(s: &[u8], n: usize, start: usize) -> bool
    requires { (n < 2 ^ 29) × (start < 2 ^ 33) }
    ensures { result ≡ rising_parts (parts_at s.now 0 start n) }
{
    Parts::starting_at(s, start, n).is_sorted_by(|name, next| is_before(name.payload, next.payload))
}

// Soundness as a question: names rise, and nothing is asked of numbers and extensions.
#[derive(Clone, Copy)]
pub struct Sound;

impl Question for Sound {
    ghost asked = { λ q. sound_ask };

    fn number(&self, payload: &[u8]) -> bool {
        true
    }

    fn extension(&self, payload: &[u8]) -> bool {
        true
    }

    fn names(&self, s: &[u8], n: usize, start: usize) -> bool {
        is_rising(s, n, start)
    }
}

// Whether every object in a record has rising names, down to `allowance` levels: where it is readable and nests no deeper, whether
// it is sound.
pub fn is_sound_where_readable(s: &[u8], allowance: u32) -> bool
    ensures { result ≡ sound_at allowance s.now }
{
    passes(&Sound, s, allowance)
}

// Whether a record is sound, or why it is not even readable.
pub fn check_sound(s: &[u8]) -> Result<bool, Refusal>
    ensures { result ≡ soundness (read s.now) }
{
    check_record(s)?;
    Ok(is_sound_where_readable(s, DEPTH_LIMIT))
}

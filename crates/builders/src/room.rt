// Room for a result: the numbers 9, by its length, and 10, in their order, before a byte is written.
ghost use Rattle.std.specs.Prelude.{◌≡◌};
ghost use Rattle.builders.specs.Room.{room_for};

use layout::constants::RECORD_LIMIT;
use layout::refusal::Refusal;

// Whether a buffer of `room` bytes serves for a result of `len`.
#[tactic(auto, unfolding(crate::specs::Room::room_for))]
pub fn check_room(len: usize, room: usize) -> Result<(), Refusal>
    ensures { result ≡ room_for len room }
{
    if RECORD_LIMIT < len {
        return Err(Refusal::Result);
    }
    if room < len {
        return Err(Refusal::Buffer);
    }
    Ok(())
}

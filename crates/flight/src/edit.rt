// Delete, concat and strip that take flight records and give flight records: document 02 §5. Each is the plain edit behind a look
// at what it takes; only of concat can a result leave the profile.
ghost use Rattle.std.specs.Prelude.{◌≡◌, length};
ghost use Rattle.layout.specs.Read.{header};
ghost use Rattle.layout.specs.Ended.{Ended};
ghost use Rattle.edits.specs.Keypath.{path_of};
ghost use Rattle.edits.specs.Path.{on_path};
ghost use Rattle.edits.specs.Strip.{on_one};
ghost use Rattle.flight.specs.Flight.{flight_delete_by, flight_strip};
ghost use Rattle.flight.specs.Flight.{on_flights};
ghost use Rattle.flight.specs.Profile.{beside_outside, is_object};
ghost use Rattle.flight.specs.Profile.{levels_beside, OutsideBeside, or_profile};

use crate::profile::{FLIGHT_DEPTH, profile_of, profile_of_both};
use edits::keypath::check_path;
use edits::operator::{concat, concat_in, strip_nulls};
use edits::path::delete_by_keypath;
use layout::constants::RECORD_LIMIT;
use layout::ending::Ending;
use layout::refusal::Refusal;
use layout::util::{Header, read_header};

// Deletes what a path finds in a flight record. Of a record outside the profile 6 comes before 12: the path is read too.
pub fn flight_delete(target: &[u8], path: &[u8], out: &mut [u8]) -> Ending
    ensures { Ended result out.old out.new
        (on_path flight_delete_by target.now path.now (length out.old)) }
{
    if profile_of(target, FLIGHT_DEPTH)? {
        return delete_by_keypath(target, path, out);
    }
    check_path(path)?;
    Err(Refusal::Profile)
}

// Takes the members whose value is null out of a flight record, at every level.
pub fn flight_strip(target: &[u8], out: &mut [u8]) -> Ending
    ensures { Ended result out.old out.new
        (on_one flight_strip target.now (length out.old)) }
{
    if profile_of(target, FLIGHT_DEPTH)? {
        return strip_nulls(target, out);
    }
    Err(Refusal::Profile)
}

fn is_object(s: &[u8]) -> bool
    ensures { result ≡ is_object (header s.now) }
{
    matches!(read_header(s), Ok(Header::Object(_)))
}

// How many levels a flight record may have beside another in an overlay: an object beside a record that is none becomes an item of
// an array, one level deeper than it was.
fn levels_beside(s: &[u8], other: &[u8]) -> u32
    ensures { result ≡ levels_beside (header s.now) (header other.now) }
{
    if is_object(s) & !is_object(other) {
        return FLIGHT_DEPTH - 1;
    }
    FLIGHT_DEPTH
}

// Refuses an overlay that is none for the loader: with 12 of a record; or, where only the overlay would be too deep, with what the
// plain edit is refused for, which comes before a result's 12. It is lent no bytes.
fn refuse_overlay(left: &[u8], right: &[u8], out: &mut [u8]) -> Ending
    requires { OutsideBeside left.now right.now }
    ensures { Ended result out.old out.new
        (on_flights left.now right.now (length out.old)) }
{
    if !profile_of_both(left, FLIGHT_DEPTH, right, FLIGHT_DEPTH)? {
        return Err(Refusal::Profile);
    }
    concat_in(left, right, &mut out[0..0], RECORD_LIMIT)?;
    Err(Refusal::Profile)
}

// Overlays a flight record with another: two objects become one, anything else an array. That the result is a flight record is known
// before a byte is written.
pub fn flight_concat(left: &[u8], right: &[u8], out: &mut [u8]) -> Ending
    ensures { Ended result out.old out.new
        (on_flights left.now right.now (length out.old)) }
{
    let left_levels = levels_beside(left, right);
    let right_levels = levels_beside(right, left);
    if profile_of_both(left, left_levels, right, right_levels)? {
        return concat(left, right, out);
    }
    refuse_overlay(left, right, out)
}

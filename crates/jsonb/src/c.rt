// The functions for the flight computer's C code, which crate jsonb_c exports under these names; include/jsonb.h is for its
// programmers. A slice is a pointer and a length there.
ghost use Rattle.std.specs.Prelude.{◌≡◌, ◌+◌, ◌-◌, ◌^◌, length};
ghost use Rattle.layout.specs.Read.{read};
ghost use Rattle.layout.specs.Check.{checked, text_checked};
ghost use Rattle.layout.specs.Text.{code_points};
ghost use Rattle.layout.specs.Refusal.{number};
ghost use Rattle.builders.specs.Build.{append as appendOf, build, on_two};
ghost use Rattle.edits.specs.Path.{get_by, delete_by, on_path};
ghost use Rattle.edits.specs.Concat.{concat as concatOf};
ghost use Rattle.edits.specs.Strip.{strip, on_one};
ghost use Rattle.pointers.specs.Pointer.{on_pointer};
ghost use Rattle.previews.specs.Preview.{previewed};
ghost use Rattle.flight.specs.Flight.{flight, flight_delete_by, flight_strip, on_flights};
ghost use Rattle.jsonb.specs.C.{c_check, c_text, c_ending, EndedC};

use builders::builder::{append, build_object};
use edits::operator::{concat, strip_nulls};
use edits::path::{delete_by_keypath, get_by_keypath};
use flight::edit::{flight_concat, flight_delete, flight_strip};
use flight::profile::check_flight;
use layout::check::check_record;
use layout::ending::Ending;
use layout::refusal::Refusal;
use layout::utf8::check_text;
use pointers::pointer::get_by_pointer;
use previews::preview::{
    preview_append, preview_build, preview_concat, preview_delete, preview_strip,
};

// The answer where a record passes its check, and that of an absence, which is above every length. A refusal's number is added to
// it.
const READABLE: u64 = 0;

const ABSENT: u64 = 0x1_0000_0000;

// The most code points that an answer can tell.
const MOST: u64 = ABSENT - 1;

// What the answers share. The functions that call it differ in what a value tells, and not in its type alone, so a trait would have
// an impl as long as each of them.
fn c_refused(refusal: Refusal) -> u64
    ensures { result ≡ 2 ^ 32 + number refusal }
{
    ABSENT + refusal.number()
}

fn c_check(check: Result<(), Refusal>) -> u64
    ensures { result ≡ c_check check }
{
    match check {
        Ok(()) => READABLE,
        Err(refusal) => c_refused(refusal),
    }
}

fn c_ending(ending: Ending) -> u64
    ensures { result ≡ c_ending ending }
{
    match ending {
        Ok(Some(n)) => n as u64,
        Ok(None) => ABSENT,
        Err(refusal) => c_refused(refusal),
    }
}

// Checks a record.
pub fn jsonb_check(s: &[u8]) -> u64
    ensures { result ≡ c_check (checked (read s.now)) }
{
    c_check(check_record(s))
}

// Checks a text, and counts its code points.
pub fn jsonb_check_text(s: &[u8]) -> u64
    ensures { result ≡ c_text (text_checked (code_points s.now)) }
{
    match check_text(s) {
        Ok(count) => (count as u64).min(MOST),
        Err(refusal) => c_refused(refusal),
    }
}

// Looks up what a path finds in a record.
pub fn jsonb_get_by_keypath(target: &[u8], path: &[u8], out: &mut [u8]) -> u64
    ensures { EndedC result out.old out.new
        (on_path get_by target.now path.now (length out.old)) }
{
    c_ending(get_by_keypath(target, path, out))
}

// Looks up what a pointer finds in a record.
pub fn jsonb_get_by_pointer(target: &[u8], pointer: &[u8], out: &mut [u8]) -> u64
    ensures { EndedC result out.old out.new
        (on_pointer target.now pointer.now (length out.old)) }
{
    c_ending(get_by_pointer(target, pointer, out))
}

// Deletes what a path finds in a record.
pub fn jsonb_delete_by_keypath(target: &[u8], path: &[u8], out: &mut [u8]) -> u64
    ensures { EndedC result out.old out.new
        (on_path delete_by target.now path.now (length out.old)) }
{
    c_ending(delete_by_keypath(target, path, out))
}

// Overlays a record with another: two objects become one, anything else an array.
pub fn jsonb_concat(left: &[u8], right: &[u8], out: &mut [u8]) -> u64
    ensures { EndedC result out.old out.new
        (on_two concatOf left.now right.now (length out.old)) }
{
    c_ending(concat(left, right, out))
}

// Takes the members whose value is null out of a record, at every level.
pub fn jsonb_strip_nulls(target: &[u8], out: &mut [u8]) -> u64
    ensures { EndedC result out.old out.new
        (on_one strip target.now (length out.old)) }
{
    c_ending(strip_nulls(target, out))
}

// Puts a record, as one item, at the end of an array record.
pub fn jsonb_append(array: &[u8], item: &[u8], out: &mut [u8]) -> u64
    ensures { EndedC result out.old out.new
        (on_two appendOf array.now item.now (length out.old)) }
{
    c_ending(append(array, item, out))
}

// Builds an object from an array of names and an array of values.
pub fn jsonb_build_object(names: &[u8], values: &[u8], out: &mut [u8]) -> u64
    ensures { EndedC result out.old out.new
        (on_two build names.now values.now (length out.old)) }
{
    c_ending(build_object(names, values, out))
}

// How long a record without what a path finds in it would be, or the number.
pub fn jsonb_preview_delete(target: &[u8], path: &[u8]) -> u64
    ensures { result ≡ c_ending (previewed (on_path delete_by target.now path.now)) }
{
    c_ending(preview_delete(target, path))
}

// How long a record overlaid with another would be, or the number.
pub fn jsonb_preview_concat(left: &[u8], right: &[u8]) -> u64
    ensures { result ≡ c_ending (previewed (on_two concatOf left.now right.now)) }
{
    c_ending(preview_concat(left, right))
}

// How long a record without its null members would be, or the number.
pub fn jsonb_preview_strip(target: &[u8]) -> u64
    ensures { result ≡ c_ending (previewed (on_one strip target.now)) }
{
    c_ending(preview_strip(target))
}

// How long an array with a record as one more item would be, or the number.
pub fn jsonb_preview_append(array: &[u8], item: &[u8]) -> u64
    ensures { result ≡ c_ending (previewed (on_two appendOf array.now item.now)) }
{
    c_ending(preview_append(array, item))
}

// How long the object of an array of names and an array of values would be, or the number.
pub fn jsonb_preview_build(names: &[u8], values: &[u8]) -> u64
    ensures { result ≡ c_ending (previewed (on_two build names.now values.now)) }
{
    c_ending(preview_build(names, values))
}

// Checks a record for the board's loader, which takes flight records.
pub fn jsonb_flight_check(s: &[u8]) -> u64
    ensures { result ≡ c_check (checked (flight s.now)) }
{
    c_check(check_flight(s))
}

// Deletes what a path finds in a flight record.
pub fn jsonb_flight_delete(target: &[u8], path: &[u8], out: &mut [u8]) -> u64
    ensures { EndedC result out.old out.new
        (on_path flight_delete_by target.now path.now (length out.old)) }
{
    c_ending(flight_delete(target, path, out))
}

// Overlays a flight record with another: two objects become one, anything else an array.
pub fn jsonb_flight_concat(left: &[u8], right: &[u8], out: &mut [u8]) -> u64
    ensures { EndedC result out.old out.new
        (on_flights left.now right.now (length out.old)) }
{
    c_ending(flight_concat(left, right, out))
}

// Takes the members whose value is null out of a flight record, at every level.
pub fn jsonb_flight_strip(target: &[u8], out: &mut [u8]) -> u64
    ensures { EndedC result out.old out.new
        (on_one flight_strip target.now (length out.old)) }
{
    c_ending(flight_strip(target, out))
}

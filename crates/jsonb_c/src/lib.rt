// The functions for C: crate jsonb's, exported under their names. include/jsonb.h declares them; a slice is a pointer and a length there.
#![tactic(auto)]

ghost use Rattle.std.specs.Prelude.{◌≡◌, length};
ghost use Rattle.layout.specs.Read.{read};
ghost use Rattle.layout.specs.Check.{checked, text_checked};
ghost use Rattle.layout.specs.Text.{code_points};
ghost use Rattle.builders.specs.Build.{append as appendOf, build, on_two};
ghost use Rattle.edits.specs.Path.{get_by, delete_by, on_path};
ghost use Rattle.edits.specs.Concat.{concat as concatOf};
ghost use Rattle.edits.specs.Strip.{strip, on_one};
ghost use Rattle.pointers.specs.Pointer.{on_pointer};
ghost use Rattle.previews.specs.Preview.{previewed};
ghost use Rattle.flight.specs.Flight.{flight, flight_delete_by, flight_strip, on_flights};
ghost use Rattle.jsonb.specs.C.{c_check, c_text, c_ending, EndedC};

use jsonb::c;

// Checks a record.
#[unsafe(no_mangle)]
pub extern "C" fn jsonb_check(s: &[u8]) -> u64
    ensures { result ≡ c_check (checked (read s.now)) }
{
    c::jsonb_check(s)
}

// Checks a text, and counts its code points.
#[unsafe(no_mangle)]
pub extern "C" fn jsonb_check_text(s: &[u8]) -> u64
    ensures { result ≡ c_text (text_checked (code_points s.now)) }
{
    c::jsonb_check_text(s)
}

// Looks up what a path finds in a record.
#[unsafe(no_mangle)]
pub extern "C" fn jsonb_get_by_keypath(target: &[u8], path: &[u8], out: &mut [u8]) -> u64
    ensures { EndedC result out.old out.new
        (on_path get_by target.now path.now (length out.old)) }
{
    c::jsonb_get_by_keypath(target, path, out)
}

// Looks up what a pointer finds in a record.
#[unsafe(no_mangle)]
pub extern "C" fn jsonb_get_by_pointer(target: &[u8], pointer: &[u8], out: &mut [u8]) -> u64
    ensures { EndedC result out.old out.new
        (on_pointer target.now pointer.now (length out.old)) }
{
    c::jsonb_get_by_pointer(target, pointer, out)
}

// Deletes what a path finds in a record.
#[unsafe(no_mangle)]
pub extern "C" fn jsonb_delete_by_keypath(target: &[u8], path: &[u8], out: &mut [u8]) -> u64
    ensures { EndedC result out.old out.new
        (on_path delete_by target.now path.now (length out.old)) }
{
    c::jsonb_delete_by_keypath(target, path, out)
}

// Overlays a record with another: two objects become one, anything else an array.
#[unsafe(no_mangle)]
pub extern "C" fn jsonb_concat(left: &[u8], right: &[u8], out: &mut [u8]) -> u64
    ensures { EndedC result out.old out.new
        (on_two concatOf left.now right.now (length out.old)) }
{
    c::jsonb_concat(left, right, out)
}

// Takes the members whose value is null out of a record, at every level.
#[unsafe(no_mangle)]
pub extern "C" fn jsonb_strip_nulls(target: &[u8], out: &mut [u8]) -> u64
    ensures { EndedC result out.old out.new
        (on_one strip target.now (length out.old)) }
{
    c::jsonb_strip_nulls(target, out)
}

// Puts a record, as one item, at the end of an array record.
#[unsafe(no_mangle)]
pub extern "C" fn jsonb_append(array: &[u8], item: &[u8], out: &mut [u8]) -> u64
    ensures { EndedC result out.old out.new
        (on_two appendOf array.now item.now (length out.old)) }
{
    c::jsonb_append(array, item, out)
}

// Builds an object from an array of names and an array of values.
#[unsafe(no_mangle)]
pub extern "C" fn jsonb_build_object(names: &[u8], values: &[u8], out: &mut [u8]) -> u64
    ensures { EndedC result out.old out.new
        (on_two build names.now values.now (length out.old)) }
{
    c::jsonb_build_object(names, values, out)
}

// How long a record without what a path finds in it would be, or the number.
#[unsafe(no_mangle)]
pub extern "C" fn jsonb_preview_delete(target: &[u8], path: &[u8]) -> u64
    ensures { result ≡ c_ending (previewed (on_path delete_by target.now path.now)) }
{
    c::jsonb_preview_delete(target, path)
}

// How long a record overlaid with another would be, or the number.
#[unsafe(no_mangle)]
pub extern "C" fn jsonb_preview_concat(left: &[u8], right: &[u8]) -> u64
    ensures { result ≡ c_ending (previewed (on_two concatOf left.now right.now)) }
{
    c::jsonb_preview_concat(left, right)
}

// How long a record without its null members would be, or the number.
#[unsafe(no_mangle)]
pub extern "C" fn jsonb_preview_strip(target: &[u8]) -> u64
    ensures { result ≡ c_ending (previewed (on_one strip target.now)) }
{
    c::jsonb_preview_strip(target)
}

// How long an array with a record as one more item would be, or the number.
#[unsafe(no_mangle)]
pub extern "C" fn jsonb_preview_append(array: &[u8], item: &[u8]) -> u64
    ensures { result ≡ c_ending (previewed (on_two appendOf array.now item.now)) }
{
    c::jsonb_preview_append(array, item)
}

// How long the object of an array of names and an array of values would be, or the number.
#[unsafe(no_mangle)]
pub extern "C" fn jsonb_preview_build(names: &[u8], values: &[u8]) -> u64
    ensures { result ≡ c_ending (previewed (on_two build names.now values.now)) }
{
    c::jsonb_preview_build(names, values)
}

// Checks a record for the board's loader, which takes flight records.
#[unsafe(no_mangle)]
pub extern "C" fn jsonb_flight_check(s: &[u8]) -> u64
    ensures { result ≡ c_check (checked (flight s.now)) }
{
    c::jsonb_flight_check(s)
}

// Deletes what a path finds in a flight record.
#[unsafe(no_mangle)]
pub extern "C" fn jsonb_flight_delete(target: &[u8], path: &[u8], out: &mut [u8]) -> u64
    ensures { EndedC result out.old out.new
        (on_path flight_delete_by target.now path.now (length out.old)) }
{
    c::jsonb_flight_delete(target, path, out)
}

// Overlays a flight record with another: two objects become one, anything else an array.
#[unsafe(no_mangle)]
pub extern "C" fn jsonb_flight_concat(left: &[u8], right: &[u8], out: &mut [u8]) -> u64
    ensures { EndedC result out.old out.new
        (on_flights left.now right.now (length out.old)) }
{
    c::jsonb_flight_concat(left, right, out)
}

// Takes the members whose value is null out of a flight record, at every level.
#[unsafe(no_mangle)]
pub extern "C" fn jsonb_flight_strip(target: &[u8], out: &mut [u8]) -> u64
    ensures { EndedC result out.old out.new
        (on_one flight_strip target.now (length out.old)) }
{
    c::jsonb_flight_strip(target, out)
}

// Previews. Each is the edit's own inside, which takes its room as a number beside the buffer: with the room of the longest record,
// and lent no bytes, it measures and stores nothing. They differ in the edit that they call; with a closure for it each would be longer.
ghost use Rattle.std.specs.Prelude.{◌≡◌};
ghost use Rattle.builders.specs.Build.{append as appendOf, build, on_two};
ghost use Rattle.edits.specs.Path.{delete_by, on_path};
ghost use Rattle.edits.specs.Concat.{concat as concatOf};
ghost use Rattle.edits.specs.Strip.{strip, on_one};
ghost use Rattle.previews.specs.Preview.{previewed};

use builders::builder::{append_in, build_object_in};
use edits::operator::{concat_in, strip_nulls_in};
use edits::path::delete_by_keypath_in;
use layout::constants::RECORD_LIMIT;
use layout::ending::Ending;

// How long a record without what a path finds in it would be, or the number.
pub fn preview_delete(target: &[u8], path: &[u8]) -> Ending
    ensures { result ≡ previewed (on_path delete_by target.now path.now) }
{
    delete_by_keypath_in(target, path, &mut [], RECORD_LIMIT)
}

// How long the left record overlaid with the right one would be, or the number.
pub fn preview_concat(left: &[u8], right: &[u8]) -> Ending
    ensures { result ≡ previewed (on_two concatOf left.now right.now) }
{
    concat_in(left, right, &mut [], RECORD_LIMIT)
}

// How long a record without its null members would be, or the number.
pub fn preview_strip(target: &[u8]) -> Ending
    ensures { result ≡ previewed (on_one strip target.now) }
{
    strip_nulls_in(target, &mut [], RECORD_LIMIT)
}

// How long an array with a record as one more item would be, or the number.
pub fn preview_append(array: &[u8], item: &[u8]) -> Ending
    ensures { result ≡ previewed (on_two appendOf array.now item.now) }
{
    append_in(array, item, &mut [], RECORD_LIMIT)
}

// How long the object of an array of names and an array of values would be, or the number.
pub fn preview_build(names: &[u8], values: &[u8]) -> Ending
    ensures { result ≡ previewed (on_two build names.now values.now) }
{
    build_object_in(names, values, &mut [], RECORD_LIMIT)
}

// Concat and strip, after the Rust's operator.rs.
ghost use Rattle.std.specs.Prelude.{◌≡◌, length, Ok};
ghost use Rattle.layout.specs.Read.{header, read};
ghost use Rattle.layout.specs.Check.{nesting as nestingOf};
ghost use Rattle.layout.specs.Ended.{Ended};
ghost use Rattle.layout.specs.Room.{EndedIn};
ghost use Rattle.builders.specs.Build.{on_two};
ghost use Rattle.edits.specs.Concat.{concat as concatOf};
ghost use Rattle.edits.specs.Strip.{strip, on_one};
ghost use Rattle.edits.specs.Joining.{as_given, is_deep, NoPair};

use crate::merge::write_merged;
use crate::path::write_copy;
use crate::strip::write_stripped;
use builders::join::{Given, Piece, as_item, given_count, write_joined};
use layout::check::{check_nesting, check_record};
use layout::constants::ARRAY_CONTAINER_TAG;
use layout::ending::Ending;
use layout::refusal::Refusal;
use layout::util::{Header, read_header};

// What a record gives to an array: an array its items, any other record itself as one item.
fn items_of(s: &[u8]) -> Given
    ensures { result ≡ as_given (header s.now) }
{
    match read_header(s) {
        Ok(Header::Array(n)) => Given::Table(n),
        Ok(Header::Object(_)) | Ok(Header::Scalar(_)) | Err(_) => as_item(s),
    }
}

// Whether a record that gives itself whole would stand too deep: one that is as deep as it may be already does.
fn is_deep(given: Given, fits: bool) -> bool
    ensures { result ≡ is_deep given fits }
{
    match given {
        Given::Table(_) => false,
        Given::Whole => !fits,
    }
}

// Writes the items of two records, not both objects, as one array, where it is not too deep and there is room for it.
fn write_items(
    left: &[u8],
    left_fits: bool,
    right: &[u8],
    right_fits: bool,
    out: &mut [u8],
    room: usize,
) -> Ending
    requires { (nestingOf (read left.now) ≡ Ok left_fits) × (nestingOf (read right.now) ≡ Ok right_fits)
        × NoPair (header left.now) (header right.now) }
    ensures { EndedIn result out.old out.new
        (on_two concatOf left.now right.now room) }
{
    let l = items_of(left);
    let r = items_of(right);
    if is_deep(l, left_fits) {
        return Err(Refusal::Result);
    }
    if is_deep(r, right_fits) {
        return Err(Refusal::Result);
    }
    let header = ARRAY_CONTAINER_TAG | (given_count(l) + given_count(r)) as u32;
    let left = Piece {
        record: left,
        given: l,
    };
    let right = Piece {
        record: right,
        given: r,
    };
    write_joined(header, &left, &right, out, room)
}

// Overlays the left record with the right one: two objects become one, anything else an array; where that goes into `room`
// bytes.
fn write_concat(left: &[u8], right: &[u8], out: &mut [u8], room: usize) -> Ending
    ensures { EndedIn result out.old out.new
        (on_two concatOf left.now right.now room) }
{
    let left_fits = check_nesting(left)?;
    let right_fits = check_nesting(right)?;
    let Header::Object(m) = read_header(left)? else {
        return write_items(left, left_fits, right, right_fits, out, room);
    };
    let Header::Object(n) = read_header(right)? else {
        return write_items(left, left_fits, right, right_fits, out, room);
    };
    write_merged(left, m, right, n, out, room)
}

// The same, for the edit and for its preview; slices are handed on as in `append_in` of builders.
pub fn concat_in(left: &[u8], right: &[u8], out: &mut [u8], room: usize) -> Ending
    ensures { EndedIn result out.old out.new
        (on_two concatOf left.now right.now room) }
{
    write_concat(&left[0..], &right[0..], out, room)
}

// Takes the members whose value is null out of a record, at every level, where what is left goes into `room` bytes.
pub fn strip_nulls_in(target: &[u8], out: &mut [u8], room: usize) -> Ending
    ensures { EndedIn result out.old out.new
        (on_one strip target.now room) }
{
    check_record(target)?;
    if let Header::Scalar(_) = read_header(target)? {
        return write_copy(target, out, room);
    }
    write_stripped(target, out, room)
}

// Overlays the left record with the right one: two objects become one, anything else an array.
pub fn concat(left: &[u8], right: &[u8], out: &mut [u8]) -> Ending
    ensures { Ended result out.old out.new
        (on_two concatOf left.now right.now (length out.old)) }
{
    let room = out.len();
    concat_in(left, right, out, room)
}

// Takes the members whose value is null out of a record, at every level.
pub fn strip_nulls(target: &[u8], out: &mut [u8]) -> Ending
    ensures { Ended result out.old out.new
        (on_one strip target.now (length out.old)) }
{
    let room = out.len();
    strip_nulls_in(target, out, room)
}

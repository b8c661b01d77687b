// Path records, after the Rust's keypath.rs: an array record whose strings are names and whose integers are indexes.
ghost use Rattle.std.specs.Prelude.{◌≡◌, ◌+◌, ◌*◌, ◌^◌, ◌≤◌, ◌<◌, length};
ghost use Rattle.layout.specs.Entry.{code_of};
ghost use Rattle.layout.specs.Patch.{patch};
ghost use Rattle.layout.specs.Parts.{parts_of};
ghost use Rattle.edits.specs.Keypath.{index_text, path_of};
ghost use Rattle.edits.specs.Steps.{number_key, int_key, code_key};
ghost use Rattle.edits.specs.Steps.{are_steps, steps_told};

use layout::check::check_record;
use layout::constants::{NUMBER_CODE, STRING_CODE};
use layout::decimal::put_decimal;
use layout::jentry::type_code;
use layout::number::Number;
use layout::refusal::Refusal;
use layout::table::Parts;
use layout::util::{Header, read_header};
use layout::writer::put;

// No index has more decimal digits.
const INDEX_DIGITS: u32 = 10;

const MINUS_SIGN: u8 = 0x2d;

// What a step of a path record is. The text of a name is the item's payload.
#[derive(Clone, Copy)]
pub enum KeyPath {
    Index(i32),
    Name,
}

// A number as an index: only integers are, those of i32.
fn number_key(number: Number) -> Option<KeyPath>
    ensures { result ≡ number_key number }
{
    let index = match number {
        Number::Int64(v) => i32::try_from(v).ok()?,
        Number::UInt64(v) => i32::try_from(v).ok()?,
        _ => return None,
    };
    Some(KeyPath::Index(index))
}

// What the item with this entry and payload is, where it is a step. Laid into its callers, so that no answer is handed over in
// memory: a path of 3,000 names is read in six sevenths of the time.
#[inline(always)]
pub(crate) fn key_of(jentry: u32, payload: &[u8]) -> Option<KeyPath>
    ensures { result ≡ code_key (code_of jentry) payload.now }
{
    match type_code(jentry) {
        STRING_CODE => Some(KeyPath::Name),
        NUMBER_CODE => number_key(Number::decode(payload).ok()?),
        _ => None,
    }
}

// Whether n items are steps, all of them.
fn are_steps(path: &[u8], n: usize) -> bool
    requires { n < 2 ^ 29 }
    ensures { result ≡ are_steps (parts_of path.now n) }
{
    Parts::of(path, n).all(|part| key_of(part.jentry, part.payload).is_some())
}

// How many steps a path has, or that it is no path. It is read whole, before any step is taken.
pub fn check_path(path: &[u8]) -> Result<usize, Refusal>
    ensures { result ≡ steps_told (path_of path.now) }
{
    if check_record(path).is_err() {
        return Err(Refusal::Path);
    }
    // In two steps: the `else` of a pattern within a pattern leaves the proof no fact on what the header is not.
    let Ok(header) = read_header(path) else {
        return Err(Refusal::Path);
    };
    let Header::Array(n) = header else {
        return Err(Refusal::Path);
    };
    if are_steps(path, n) {
        return Ok(n);
    }
    Err(Refusal::Path)
}

// Stores the decimal text of an index, and gives its length.
pub(crate) fn put_index(i: i32, out: &mut [u8]) -> usize
    ensures is { (result ≡ length (index_text i)) × (result ≤ 11) }
    ensures kept { out.new ≡ patch out.old 0 (index_text i) }
{
    let digits = u64::from(i.unsigned_abs());
    if i < 0 {
        put(out, 0, MINUS_SIGN);
        return put_decimal(digits, INDEX_DIGITS, out, 1);
    }
    put_decimal(digits, INDEX_DIGITS, out, 0)
}

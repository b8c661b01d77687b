// A question asked of everything in a record: of each number, of each extension and of the names of each object, at every level.
// Soundness is one; the flight profile of document 02 §5 is another.
ghost use Rattle.std.specs.Prelude.{◌≡◌, ◌+◌, ◌*◌, ◌^◌, ◌<◌};
ghost use Rattle.layout.specs.Entry.{kind_of};
ghost use Rattle.layout.specs.Place.{parts_at};
ghost use Rattle.layout.specs.Parts.{texts};
ghost use Rattle.layout.specs.Every.{Ask, each, has_characters};
ghost use Rattle.layout.specs.EveryAt.{every_part, every_parts};
ghost use Rattle.layout.specs.EveryAt.{every_at};

use crate::constants::{
    CONTAINER_CODE, EXTENSION_CODE, HEADER_SIZE, JENTRY_SIZE, NUMBER_CODE, SCALAR_START,
};
use crate::jentry::{payload_len, read_jentry, type_code};
use crate::table::Parts;
use crate::utf8::check_text;
use crate::util::{Header, read_header, slice};

// What is asked, as its `Ask`. A type stands for each question, so that the cycle below is compiled for it, and what it asks nothing of
// costs nothing.
pub trait Question {
    ghost asked: { Self → Ask };

    // What is asked of a number.
    fn number(&self, payload: &[u8]) -> bool
        ensures { result ≡ (asked self.now).number payload.now };

    // What is asked of an extension, whatever it holds.
    fn extension(&self, payload: &[u8]) -> bool
        ensures { result ≡ (asked self.now).extension payload.now };

    // What is asked of the n names of an object, the first of them at `start`.
    fn names(&self, s: &[u8], n: usize, start: usize) -> bool
        requires { (n < 2 ^ 29) × (start < 2 ^ 33) }
        ensures { result ≡ (asked self.now).names (texts (parts_at s.now 0 start n)) };
}

// Whether a name has 1 to so many characters.
fn is_named(name: &[u8], longest: usize) -> bool
    ensures { result ≡ has_characters 1 longest name.now }
{
    let Ok(count) = check_text(name) else {
        return false;
    };
    (1 <= count) & (count <= longest)
}

// The same of n names, the first of them at `start`: what a profile may ask of names.
pub fn are_named(s: &[u8], n: usize, start: usize, longest: usize) -> bool
    requires { (n < 2 ^ 29) × (start < 2 ^ 33) }
    ensures { result ≡ each (has_characters 1 longest) (texts (parts_at s.now 0 start n)) }
{
    Parts::starting_at(s, start, n).all(|part| is_named(part.payload, longest))
}

// What is asked of an item, and of what a container holds, down to `allowance` levels.
#[cycle(questions)]
fn part_passes<Q: Question>(question: &Q, code: u32, payload: &[u8], allowance: u32) -> bool
    ensures { result ≡ every_part (Q.asked question.now) (every_at (Q.asked question.now) allowance) (kind_of code) payload.now }
{
    match code {
        NUMBER_CODE => question.number(payload),
        CONTAINER_CODE => passes(question, payload, allowance),
        EXTENSION_CODE => question.extension(payload),
        _ => true,
    }
}

// The same of n items, the payload of the first at `start`.
#[cycle(questions)]
fn parts_pass<Q: Question>(question: &Q, s: &[u8], n: usize, start: usize, allowance: u32) -> bool
    requires { (n < 2 ^ 30) × (start < 2 ^ 33) }
    ensures { result ≡ every_parts (Q.asked question.now) (every_at (Q.asked question.now) allowance) (parts_at s.now 0 start n) }
{
    for part in Parts::starting_at(s, start, n) {
        if !part_passes(question, type_code(part.jentry), part.payload, allowance) {
            return false;
        }
    }
    true
}

// The same of a record: where it is readable and nests at most `allowance` levels deep, whether everything in it passes. Of other
// bytes it says true unless it meets something that does not, so that nothing may be taken from it without the check.
#[cycle(questions)]
pub fn passes<Q: Question>(question: &Q, s: &[u8], allowance: u32) -> bool
    ensures { result ≡ every_at (Q.asked question.now) allowance s.now }
{
    if allowance == 0 {
        return true;
    }
    match read_header(s) {
        Err(_) => true,
        Ok(Header::Scalar(_)) => {
            let entry = read_jentry(s, 0);
            let payload = slice(s, SCALAR_START, payload_len(entry) as usize);
            part_passes(question, type_code(entry), payload, 0)
        }
        Ok(Header::Array(n)) => parts_pass(
            question,
            s,
            n,
            HEADER_SIZE + JENTRY_SIZE * n,
            allowance - 1,
        ),
        Ok(Header::Object(n)) => {
            let start = HEADER_SIZE + JENTRY_SIZE * (n + n);
            if question.names(s, n, start) {
                return parts_pass(question, s, n + n, start, allowance - 1);
            }
            false
        }
    }
}

// The names of an object, or of an array of names: n of them, the first payload at `start`.
ghost use Rattle.std.specs.Prelude.{◌≡◌, ◌^◌, ◌<◌};
ghost use Rattle.layout.specs.Left.{names_left};
ghost use Rattle.layout.specs.Place.{parts_at};
ghost use Rattle.builders.specs.Order.{has, distinct};
ghost use Rattle.layout.specs.Parts.{texts};
ghost use Rattle.builders.specs.Names.{strings_at};

use layout::constants::STRING_CODE;
use layout::jentry::type_code;
use layout::order::is_same_bytes;
use layout::sound::is_rising;
use layout::table::Parts;

// Whether the first n entries are those of strings.
pub fn are_strings(s: &[u8], n: usize) -> bool
    requires { n < 2 ^ 29 }
    ensures { result ≡ strings_at s.now 0 n }
{
    Parts::of(s, n).all(|part| type_code(part.jentry) == STRING_CODE)
}

// Whether a name is among others.
fn is_among(name: &[u8], mut others: Parts) -> bool
    ensures { result ≡ has name.now (names_left others.entry) }
{
    others.any(|other| is_same_bytes(name, other.payload))
}

// Whether no name is there twice. Names that rise are gone through once; of others each is compared with all behind it.
pub fn is_distinct(s: &[u8], n: usize, start: usize) -> bool
    requires { (n < 2 ^ 29) × (start < 2 ^ 33) }
    ensures { result ≡ distinct (texts (parts_at s.now 0 start n)) }
{
    if is_rising(s, n, start) {
        return true;
    }
    let mut names = Parts::starting_at(s, start, n);
    while let Some(name) = names.next() {
        if is_among(name.payload, names.rest()) {
            return false;
        }
    }
    true
}

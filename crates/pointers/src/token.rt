// Pointers as text: which texts are pointers, their tokens, and what a token finds in a container.
ghost use Rattle.std.specs.Prelude.{◌≡◌, ◌+◌, ◌^◌, ◌≤◌, ◌<◌, length, drop, Ok, [], ◌∷◌, MatchOption};
ghost use Rattle.layout.specs.Order.{same_bytes};
ghost use Rattle.layout.specs.Parts.{names_of};
ghost use Rattle.layout.specs.Read.{header};
ghost use Rattle.layout.specs.declared.util.Header.TheVariants.{Object};
ghost use Rattle.edits.specs.Spot.{first, spot_at, spot_member, spot};
ghost use Rattle.pointers.specs.Pointer.{has_slash, escape_good, escaped, is_pointer, marked};
ghost use Rattle.pointers.specs.Pointer.{undo, index_of};
ghost use Rattle.pointers.specs.Token.{unescape, undone_bytes, plain, padded};
ghost use Rattle.pointers.specs.Token.{index_in, token_at};

use edits::find::{find_name, find_step, item_at, value_of};
use layout::constants::STRING_CODE;
use layout::jentry::encoded;
use layout::parts::PartAt;
use layout::utf8::is_utf8;
use layout::util::{Header, byte, read_header, slice};

// What stands before each token, and what an escape starts with.
pub(crate) const SLASH: u8 = b'/';

const TILDE: u8 = b'~';

// The bytes of a token with ~1 and ~0 undone, from what is left of it on.
#[derive(Clone, Copy)]
pub(crate) struct Undone<'a> {
    left: &'a [u8],
}

impl<'a> Iterator for Undone<'a> {
    ghost use Rattle.std.specs.Iterator.{YieldsFirst, item_count};

    type Item = u8;

    ghost next_gives = { YieldsFirst undone_bytes };

    ghost remaining = { item_count undone_bytes };

    fn next(&mut self) -> Option<u8> {
        let (byte, left) = first_undone(self.left)?;
        self.left = left;
        Some(byte)
    }
}

// The first byte of a token, with ~1 and ~0 undone, and what is left behind it.
#[tactic(auto, using(crate::proofs::Tokens::undoing))]
fn first_undone(token: &[u8]) -> Option<(u8, &[u8])>
    ensures { MatchOption result (unescape token.now ≡ []) (λ p. unescape token.now ≡ p.0 ∷ unescape p.1.now) }
{
    match token {
        [TILDE, b'1', left @ ..] => Some((SLASH, left)),
        [TILDE, b'0', left @ ..] => Some((TILDE, left)),
        [byte, left @ ..] => Some((*byte, left)),
        [] => None,
    }
}

// Whether the text is empty or starts with a slash.
#[tactic(auto, using(crate::proofs::Texts::slashes))]
fn has_slash(text: &[u8]) -> bool
    ensures { result ≡ has_slash text.now }
{
    text.is_empty() || text[0] == SLASH
}

// Whether a text starts with 0 or 1, one of which is to stand behind a ~.
#[tactic(auto, using(crate::proofs::Texts::marks))]
fn is_marked(text: &[u8]) -> bool
    ensures { result ≡ marked text.now }
{
    matches!(text, [b'0' | b'1', ..])
}

// Whether behind each ~ stands 0 or 1. The parts between tildes, by the library's `split`, took twice the time where every other byte
// is a ~.
fn is_escaped(text: &[u8]) -> bool
    ensures { result ≡ escaped text.now }
{
    let mut left = text;
    while let [byte, behind @ ..] = left {
        if *byte == TILDE && !is_marked(behind) {
            return false;
        }
        left = behind;
    }
    true
}

// Whether a text is a pointer.
#[tactic(auto, unfolding(crate::specs::Pointer::is_pointer))]
pub fn is_pointer(text: &[u8]) -> bool
    ensures { result ≡ is_pointer text.now }
{
    is_utf8(text) && has_slash(text) && is_escaped(text)
}

// Whether a token has no ~, so that it is the name that it stands for.
fn is_plain(token: &[u8]) -> bool
    ensures { result ≡ plain token.now }
{
    !token.contains(&TILDE)
}

// Whether a token, undone, is this name.
fn is_named(token: &[u8], name: &[u8]) -> bool
    ensures { result ≡ same_bytes (undo token.now) name.now }
{
    Undone { left: token }.eq(name.iter().copied())
}

// Whether a token starts with a zero that more stands behind.
#[tactic(auto, using(crate::proofs::Indexes::padding))]
fn is_padded(token: &[u8]) -> bool
    ensures { result ≡ padded token.now }
{
    matches!(token, [b'0', _, ..])
}

// Which of n items a token means: 0, or digits without a leading zero. A token with a ~ is no index, undone or not, so that its
// bytes are read as they stand. The number only grows, so that it is enough to have reached n: no sum wraps.
fn token_place(token: &[u8], n: usize) -> Option<usize>
    requires { n < 2 ^ 29 }
    ensures { result ≡ index_in (index_of (undo token.now)) n }
{
    if token.is_empty() || is_padded(token) {
        return None;
    }
    let mut k = 0;
    for digit in token {
        if n <= k || !digit.is_ascii_digit() {
            return None;
        }
        k = k * 10 + (*digit - b'0') as usize;
    }
    if k < n {
        return Some(k);
    }
    None
}

// The value of the first of n members that a token names. Most tokens have nothing to be undone: such a one is the name of a path's
// step, of whose entry the code alone counts.
fn find_value(s: &[u8], n: usize, token: &[u8]) -> Option<PartAt>
    requires { (n < 2 ^ 29) × (header s.now ≡ Ok (Object n)) }
    ensures { result ≡ spot_member s.now n (first (undo token.now) (names_of s.now n)) }
{
    if is_plain(token) {
        return find_step(s, encoded(STRING_CODE, 0), token);
    }
    value_of(s, n, find_name(s, n, |name| is_named(token, name)))
}

// The part that a token finds in a record; a token on a scalar finds nothing.
pub(crate) fn find_token(s: &[u8], token: &[u8]) -> Option<PartAt>
    ensures { result ≡ spot (header s.now) s.now (token_at (header s.now) token.now) }
{
    match read_header(s) {
        Ok(Header::Array(n)) => item_at(s, n, token_place(token, n)),
        Ok(Header::Object(n)) => find_value(s, n, token),
        Ok(Header::Scalar(_)) => None,
        Err(_) => None,
    }
}

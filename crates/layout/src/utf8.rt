// Text by RFC 3629. The Rust leaves it to its standard library.
ghost use Rattle.std.specs.Prelude.{◌≡◌, ◌≤◌, Some, option_copied};
ghost use Rattle.layout.specs.Text.{between, lead, code_points, utf8, ascii};
ghost use Rattle.layout.specs.Behind.{behind_tails, behind_character};
ghost use Rattle.layout.specs.Check.{text_checked};

use crate::refusal::Refusal;

// What the first byte of a character asks for: how many tail bytes, and the range of the first of them.
type Lead = (u8, u8, u8);

fn is_between(low: u8, high: u8, x: u8) -> bool
    ensures { result ≡ between low high x }
{
    (low <= x) & (x <= high)
}

// What a first byte asks for; no character starts with the others. One test after another: a `match` on the byte becomes a jump by a
// table, with which the text check took 1.6 times as long over lines with accents, and 1.2 times over Greek.
fn lead_of(x: u8) -> Option<Lead>
    ensures { result ≡ lead x }
{
    if is_between(0x00, 0x7f, x) {
        return Some((0, 0x80, 0xbf));
    }
    if is_between(0xc2, 0xdf, x) {
        return Some((1, 0x80, 0xbf));
    }
    if is_between(0xe0, 0xe0, x) {
        return Some((2, 0xa0, 0xbf));
    }
    if is_between(0xe1, 0xec, x) {
        return Some((2, 0x80, 0xbf));
    }
    if is_between(0xed, 0xed, x) {
        return Some((2, 0x80, 0x9f));
    }
    if is_between(0xee, 0xef, x) {
        return Some((2, 0x80, 0xbf));
    }
    if is_between(0xf0, 0xf0, x) {
        return Some((3, 0x90, 0xbf));
    }
    if is_between(0xf1, 0xf3, x) {
        return Some((3, 0x80, 0xbf));
    }
    if is_between(0xf4, 0xf4, x) {
        return Some((3, 0x80, 0x8f));
    }
    None
}

// Whether every byte is below 128. The greatest of them tells it, by a fold that has no way out, so that many bytes are taken at
// once: over a text of 65,520 bytes the library's `is_ascii` takes a fifth longer.
pub(crate) fn is_ascii(s: &[u8]) -> bool
    ensures { result ≡ ascii s.now }
{
    s.iter().fold(0, |greatest: u8, x: &u8| greatest.max(*x)) < 0x80
}

// What is behind the next byte of a text, where that is a tail byte from `low` to `high`.
fn behind_tail(s: &[u8], low: u8, high: u8) -> Option<&[u8]>
    ensures { option_copied result ≡ behind_tails s.now (Some (1, low, high)) }
{
    let (tail, behind) = s.split_first()?;
    if is_between(low, high, *tail) {
        return Some(behind);
    }
    None
}

// What is behind the tail bytes that a first byte asks for, where they are there. Each number of them has its own way, so that nothing
// keeps count of those still to come: by a loop the text check took a quarter to a half longer over texts of other characters than ASCII.
fn behind_tails(s: &[u8], lead: Lead) -> Option<&[u8]>
    requires { lead.0 ≤ 3 }
    ensures { option_copied result ≡ behind_tails s.now (Some lead) }
{
    let (due, low, high) = lead;
    match due {
        0 => Some(s),
        1 => behind_tail(s, low, high),
        2 => behind_tail(behind_tail(s, low, high)?, 0x80, 0xbf),
        _ => behind_tail(
            behind_tail(behind_tail(s, low, high)?, 0x80, 0xbf)?,
            0x80,
            0xbf,
        ),
    }
}

// What is behind the first character of a text.
fn behind_character(s: &[u8]) -> Option<&[u8]>
    ensures { option_copied result ≡ behind_character s.now }
{
    let (first, tails) = s.split_first()?;
    behind_tails(tails, lead_of(*first)?)
}

// The number of code points of a text, character by character: `count` so far.
fn count_code_points(s: &[u8]) -> Option<usize>
    ensures { result ≡ code_points s.now }
{
    let mut count: usize = 0;
    let mut left = s;
    while !left.is_empty() {
        left = behind_character(left)?;
        count += 1;
    }
    Some(count)
}

// The number of code points of a text, or why it is none. Most texts are ASCII, which is told at once: there each byte is one.
pub fn check_text(s: &[u8]) -> Result<usize, Refusal>
    ensures { result ≡ text_checked (code_points s.now) }
{
    if is_ascii(s) {
        return Ok(s.len());
    }
    count_code_points(s).ok_or(Refusal::Text)
}

// Whether the bytes are UTF-8. The check of a record asks this of every text: it takes the same short cut without an answer to take
// apart.
pub fn is_utf8(s: &[u8]) -> bool
    ensures { result ≡ utf8 s.now }
{
    if is_ascii(s) {
        return true;
    }
    count_code_points(s).is_some()
}

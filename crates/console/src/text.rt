// Lines taken apart: spaces, words, arguments.
ghost use Rattle.std.specs.Prelude.{◌≡◌, ◌+◌, ◌≤◌, length};
ghost use Rattle.std.specs.Iterator.{at_most};

// What stands between the arguments of a call, and between the calls of a run.
pub(crate) const ARGUMENT_MARK: u8 = b';';

pub(crate) const CALL_MARK: u8 = b':';

// What may stand around words and digits. The library's white space has the form feed too, which is none here.
pub(crate) fn is_space(c: u8) -> bool {
    matches!(c, b' ' | b'\t' | b'\r')
}

// A text without the spaces in front of it.
fn trim_start(text: &[u8]) -> &[u8]
    ensures { length result.now ≤ length text.now }
{
    let start = text
        .iter()
        .position(|c| !is_space(*c))
        .unwrap_or(text.len());
    &text[start..]
}

// A text without the spaces around it.
pub(crate) fn trim(text: &[u8]) -> &[u8] {
    let text = trim_start(text);
    match text.iter().rposition(|c| !is_space(*c)) {
        Some(last) => &text[..=last],
        None => text,
    }
}

// The first word of a text that starts with one, and what stands behind it.
pub(crate) fn split_word(text: &[u8]) -> (&[u8], &[u8])
    ensures { length result.0.now + length result.1.now ≡ length text.now }
{
    let end = text.iter().position(|c| is_space(*c)).unwrap_or(text.len());
    text.split_at(end)
}

// The words of a text, with one space or more between them.
#[derive(Drop)]
pub(crate) struct Words<'a>(pub(crate) &'a [u8]);

impl<'a> Iterator for Words<'a> {
    type Item = &'a [u8];

    ghost remaining = { λ words. at_most (length words.0.now) };

    fn next(&mut self) -> Option<&'a [u8]> {
        let (word, rest) = split_word(trim_start(self.0));
        if word.is_empty() {
            return None;
        }
        self.0 = rest;
        Some(word)
    }
}

impl<'a> Words<'a> {
    // The word that is left, where it is the only one.
    pub(crate) fn only(mut self) -> Option<&'a [u8]> {
        let word = self.next()?;
        match self.next() {
            Some(_) => None,
            None => Some(word),
        }
    }
}

// How many arguments a text has.
pub(crate) fn count_arguments(text: &[u8]) -> usize {
    text.split(|c| *c == ARGUMENT_MARK).count()
}

// The argument of a number, of which the first is number 0.
pub(crate) fn argument(text: &[u8], number: usize) -> Option<&[u8]> {
    text.split(|c| *c == ARGUMENT_MARK).nth(number)
}

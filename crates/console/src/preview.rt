// What an edit would give, without making it: the length of its result, or its number.
//
//   preview concat 40000001 10000001 20000002 61 5001 ; 40000001 10000001 40000000 62
//   length 24
//   preview strip 400000
//   refused 1 short
use crate::calls::edit_of;
use crate::fault::{Failure, Fault};
use crate::say::say_preview;
use crate::taken::{take_one, take_two};
use crate::text::{split_word, trim};
use layout::ending::Ending;
use previews::preview::{
    preview_append, preview_build, preview_concat, preview_delete, preview_strip,
};
use runs::call::Edit;
use std::alloc::Global;
use std::io::Write;

// The preview of an edit of two records, or of a record and a path. Only strip takes one, and a closure of one has no bound in common
// with these.
fn preview_two<F: FnOnce(&[u8], &[u8]) -> Ending>(
    alloc: Global,
    text: &[u8],
    wants: Fault,
    preview: F,
) -> Result<Ending, Failure>
    requires { F.IsAlwaysCallable preview }
{
    let (first, second) = take_two(alloc, text, wants)?;
    Ok(preview(&first, &second))
}

// Takes what the edit takes but for the buffer's length.
fn preview(alloc: Global, edit: Edit, text: &[u8]) -> Result<Ending, Failure> {
    match edit {
        Edit::Get => Err(Fault::NoPreview.into()),
        Edit::Delete => preview_two(alloc, text, Fault::PathPreviewed, preview_delete),
        Edit::Concat => preview_two(alloc, text, Fault::TwoPreviewed, preview_concat),
        Edit::Strip => {
            let record = take_one(alloc, text, Fault::OnePreviewed)?;
            Ok(preview_strip(&record))
        }
        Edit::Append => preview_two(alloc, text, Fault::TwoPreviewed, preview_append),
        Edit::Build => preview_two(alloc, text, Fault::TwoPreviewed, preview_build),
    }
}

// Takes the edit's word.
pub(crate) fn answer_preview<W: Write>(
    alloc: Global,
    out: &mut W,
    text: &[u8],
) -> Result<(), Failure> {
    let (word, rest) = split_word(trim(text));
    let edit = edit_of(word).ok_or(Fault::NoPreview)?;
    say_preview(out, preview(alloc, edit, rest)?)?;
    Ok(())
}

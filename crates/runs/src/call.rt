// The calls of a run: one function for the six edits, with one promise.
ghost use Rattle.std.specs.Prelude.{length};
ghost use Rattle.layout.specs.Ended.{Ended};
ghost use Rattle.runs.specs.Call.{outcome};

use builders::builder::{append, build_object};
use edits::operator::{concat, strip_nulls};
use edits::path::{delete_by_keypath, get_by_keypath};
use layout::ending::Ending;

// What a call does.
#[derive(Clone, Copy, Debug, PartialEq, Eq)]
pub enum Edit {
    Get,
    Delete,
    Concat,
    Strip,
    Append,
    Build,
}

// Makes an edit of the records that it takes, the left one alone or both, by the path where it has one.
pub fn make_edit(edit: Edit, left: &[u8], right: &[u8], path: &[u8], out: &mut [u8]) -> Ending
    ensures { Ended result out.old out.new
        (outcome edit left.now right.now path.now (length out.old)) }
{
    match edit {
        Edit::Get => get_by_keypath(left, path, out),
        Edit::Delete => delete_by_keypath(left, path, out),
        Edit::Concat => concat(left, right, out),
        Edit::Strip => strip_nulls(left, out),
        Edit::Append => append(left, right, out),
        Edit::Build => build_object(left, right, out),
    }
}

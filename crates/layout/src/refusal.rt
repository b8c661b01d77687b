// Why a call is refused: document 01, "Who can cause each number", and what document 02 adds to it. It stands for the Rust's error
// type.
ghost use Rattle.std.specs.Prelude.{◌≡◌};
ghost use Rattle.layout.specs.Refusal.{number};

#[derive(Clone, Copy, Debug, PartialEq, Eq)]
pub enum Refusal {
    // The sender of a record.
    Short,
    Layout,
    Text,
    Number,
    Limit,
    // The writer of a path.
    Path,
    // The author of an edit.
    Kind,
    Repeated,
    Result,
    // The lender of the result buffer.
    Buffer,
    // The writer of a pointer.
    Pointer,
    // The sender of a record to the board's loader, and the author of an edit aboard.
    Profile,
}

impl Refusal {
    // The number that the documents give the refusal. A method and no `From`: its name says which number it is, and it is the word of
    // the contracts that speak of it.
    pub fn number(self) -> u64
        ensures { result ≡ number self }
    {
        match self {
            Refusal::Short => 1,
            Refusal::Layout => 2,
            Refusal::Text => 3,
            Refusal::Number => 4,
            Refusal::Limit => 5,
            Refusal::Path => 6,
            Refusal::Kind => 7,
            Refusal::Repeated => 8,
            Refusal::Result => 9,
            Refusal::Buffer => 10,
            Refusal::Pointer => 11,
            Refusal::Profile => 12,
        }
    }
}

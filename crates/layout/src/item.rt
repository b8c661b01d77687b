// What an entry describes.

// The kinds of an item, one for each type code.
#[derive(Clone, Copy, Debug, PartialEq, Eq)]
pub enum Kind {
    Null,
    String,
    Number,
    False,
    True,
    Container,
    Extension,
}

// An item of a record: its kind, where its payload stands, and its characters, the number of code points of a name or a string; what
// is no text has none.
#[derive(Clone, Copy)]
pub struct JsonbItem {
    pub kind: Kind,
    pub place: usize,
    pub length: usize,
    pub characters: Option<usize>,
}

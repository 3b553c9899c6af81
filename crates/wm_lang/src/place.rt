// Where something stands: in the text of a file, and in the list of tokens.

/// A place in the text of the source files, as a message names it.
#[derive(Clone, Copy, Debug, PartialEq, Eq)]
pub struct Place {
    /// The file's number in the order of the sources, from 0.
    pub file: u32,
    /// The line, from 1.
    pub line: u32,
    /// The column in bytes of the text as it is written, from 1.
    pub column: u32,
}

/// A token as a node of a tree remembers it: its number in the list of tokens, from 0, and its place.
#[derive(Clone, Copy, Debug, PartialEq, Eq)]
pub struct Position {
    pub token: usize,
    pub place: Place,
}

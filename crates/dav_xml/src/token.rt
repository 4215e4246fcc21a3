//! Pieces of markup.

/// A piece of markup of a document. An attribute is its name and what its value means.
#[derive(Debug, Drop)]
pub enum Token {
    /// A start tag.
    Open(String, Vec<(String, String)>),
    /// An empty element's tag.
    Empty(String, Vec<(String, String)>),
    /// An end tag.
    Close(String),
    /// A text or a CDATA section, with the characters that references stand for. Whether it is written as white space alone.
    Text(bool, String),
    /// A comment or a processing instruction.
    Nothing,
}

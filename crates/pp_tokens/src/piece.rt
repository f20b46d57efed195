use crate::token::Kind;

/// What the text is cut into (C17 5.1.1.2 phase 3).
#[derive(Clone, Copy, Debug, PartialEq, Eq)]
pub enum PieceKind {
    /// One byte of white space.
    Blank,
    /// The line feed that ends a line of tokens.
    LineEnd,
    /// A comment, white space as a whole.
    Comment,
    /// A preprocessing token.
    Word(Kind),
}

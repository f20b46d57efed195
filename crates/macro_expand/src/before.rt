/// What is directly before a token of a replacement list.
#[derive(Clone, Copy, Debug, Drop)]
pub enum Before {
    /// No operator.
    Else,
    /// `##`.
    Paste,
    /// A `#` that is an operator, with its mark.
    Hash(bool),
}

/// What a token is to the arguments of a call (C17 6.10.3 p11).
#[derive(Clone, Copy, Debug, PartialEq, Eq, Drop)]
pub enum Delimiter {
    /// `(`.
    Opens,
    /// `)`.
    Closes,
    /// `,`.
    Comma,
    /// Any other token.
    Inner,
}

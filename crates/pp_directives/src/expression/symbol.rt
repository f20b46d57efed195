use crate::expression::number::Number;

/// An operator before its operand (C17 6.5.3).
#[derive(Clone, Copy, Debug, PartialEq, Eq)]
pub enum Prefix {
    Plus,
    Minus,
    Complement,
    Not,
}

/// An operator between its operands (C17 6.5.5 to 6.5.14).
#[derive(Clone, Copy, Debug, PartialEq, Eq)]
pub enum Infix {
    /// `||`.
    LogicalOr,
    /// `&&`.
    LogicalAnd,
    /// `|`.
    Or,
    /// `^`.
    Xor,
    /// `&`.
    And,
    /// `==`.
    Equal,
    /// `!=`.
    Unequal,
    /// `<`.
    Less,
    /// `>`.
    Greater,
    /// `<=`.
    AtMost,
    /// `>=`.
    AtLeast,
    /// `<<`.
    ShiftLeft,
    /// `>>`.
    ShiftRight,
    /// `+`.
    Add,
    /// `-`.
    Subtract,
    /// `*`.
    Multiply,
    /// `/`.
    Divide,
    /// `%`.
    Remain,
}

/// What a token is to the grammar of conditions (C17 6.6).
#[derive(Clone, Copy, Debug, PartialEq, Eq)]
pub enum Symbol {
    Constant(Number),
    /// An operator between operands; `+` and `-` may also come before one.
    Operator(Infix),
    /// `~`.
    Tilde,
    /// `!`.
    Bang,
    /// `(`.
    Open,
    /// `)`.
    Close,
    /// `?`.
    Question,
    /// `:`.
    Colon,
    /// What no condition has.
    Other,
}

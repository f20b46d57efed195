//! The value of a condition after its macros are expanded (C17 6.10.1 p4, 6.6).

pub mod arithmetic;
pub mod constants;
pub mod number;
pub mod operand_context;
pub mod parser;
pub mod symbol;
pub mod symbols;
pub mod typed_value;
pub mod value;

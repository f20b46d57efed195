//! The header of a macro unit (DWARF 5, 6.3.1), with its operand table, and the opcodes of entries.
#![tactic(auto)]

mod fault;
mod header;
mod laws;
mod opcode;
mod operands;
mod rows;
mod writing;

pub use fault::{UnitFault, UnitKind};
pub use header::{Header, read_header};
pub use laws::{headers_are_exact, writing_is_exact};
pub use opcode::Opcode;
pub use operands::Operands;
pub use writing::write_header;

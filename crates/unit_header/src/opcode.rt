ghost use Rattle.std.specs.Prelude.{◌≡◌};
ghost use Rattle.std.specs.Option.{option_copied};
ghost use Rattle.unit_header.specs.Opcodes.{opcode_by_byte, standard_forms};

/// The opcodes of macro entries (DWARF 5, 7.23), and one for all others.
#[derive(Clone, Copy, Debug, PartialEq, Eq)]
pub enum Opcode {
    Define,
    Undef,
    StartFile,
    EndFile,
    DefineStrp,
    UndefStrp,
    Import,
    DefineSup,
    UndefSup,
    ImportSup,
    DefineStrx,
    UndefStrx,
    /// An opcode above 0c, which an operand table has to list.
    Other,
}

impl Opcode {
    /// The opcode of a byte. 0 is none: it closes a macro unit.
    pub fn of(byte: u8) -> Opcode
        ensures { result ≡ opcode_by_byte byte }
    {
        match byte {
            0x01 => Opcode::Define,
            0x02 => Opcode::Undef,
            0x03 => Opcode::StartFile,
            0x04 => Opcode::EndFile,
            0x05 => Opcode::DefineStrp,
            0x06 => Opcode::UndefStrp,
            0x07 => Opcode::Import,
            0x08 => Opcode::DefineSup,
            0x09 => Opcode::UndefSup,
            0x0a => Opcode::ImportSup,
            0x0b => Opcode::DefineStrx,
            0x0c => Opcode::UndefStrx,
            _ => Opcode::Other,
        }
    }

    /// The codes of the forms of a standard opcode's operands.
    pub fn forms(self) -> Option<&'static [u8]>
        ensures { option_copied result ≡ standard_forms self }
    {
        match self {
            Opcode::Define | Opcode::Undef => Some(&[0x0f, 0x08]),
            Opcode::StartFile => Some(&[0x0f, 0x0f]),
            Opcode::EndFile => Some(&[]),
            Opcode::DefineStrp | Opcode::UndefStrp => Some(&[0x0f, 0x0e]),
            Opcode::Import | Opcode::ImportSup => Some(&[0x17]),
            Opcode::DefineSup | Opcode::UndefSup => Some(&[0x0f, 0x1d]),
            Opcode::DefineStrx | Opcode::UndefStrx => Some(&[0x0f, 0x1a]),
            Opcode::Other => None,
        }
    }
}

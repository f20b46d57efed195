ghost use Rattle.std.specs.Prelude.{◌≡◌};
ghost use Rattle.mac_base.specs.Forms.{form_by_code, layout_by_form};

/// How an attribute's value is spelled (DWARF 5, 7.5.6). `DW_FORM_indirect` is none of them: it means the form
/// that is named before the value.
#[derive(Clone, Copy, Debug, PartialEq, Eq)]
pub enum Form {
    Addr,
    Block2,
    Block4,
    Data2,
    Data4,
    Data8,
    String,
    Block,
    Block1,
    Data1,
    Flag,
    Sdata,
    Strp,
    Udata,
    RefAddr,
    Ref1,
    Ref2,
    Ref4,
    Ref8,
    RefUdata,
    SecOffset,
    Exprloc,
    FlagPresent,
    Strx,
    Addrx,
    RefSup4,
    StrpSup,
    Data16,
    LineStrp,
    RefSig8,
    ImplicitConst,
    Loclistx,
    Rnglistx,
    RefSup8,
    Strx1,
    Strx2,
    Strx3,
    Strx4,
    Addrx1,
    Addrx2,
    Addrx3,
    Addrx4,
}

/// Which bytes a value has.
#[derive(Clone, Copy, Debug, PartialEq, Eq)]
pub enum Layout {
    /// No bytes: the form itself, or the abbreviation, says the value.
    Nothing,
    /// A number of one byte.
    One,
    /// A number of two bytes.
    Two,
    /// A number of three bytes.
    Three,
    /// A number of four bytes.
    Four,
    /// A number of eight bytes.
    Eight,
    /// Sixteen bytes.
    Sixteen,
    /// As many bytes as the unit's addresses have.
    Address,
    /// An offset into a section: four bytes, or eight in the 64-bit format.
    Offset,
    /// A number in ULEB128.
    Uleb,
    /// A number in SLEB128.
    Sleb,
    /// A string up to its NUL.
    Text,
    /// A length of one byte, and so many bytes.
    Counted1,
    /// A length of two bytes, and so many bytes.
    Counted2,
    /// A length of four bytes, and so many bytes.
    Counted4,
    /// A length in ULEB128, and so many bytes.
    CountedUleb,
}

/// The form of a code (table 7.6).
pub fn form_of(code: u64) -> Option<Form>
    ensures { result ≡ form_by_code code }
{
    match code {
        0x01 => Some(Form::Addr),
        0x03 => Some(Form::Block2),
        0x04 => Some(Form::Block4),
        0x05 => Some(Form::Data2),
        0x06 => Some(Form::Data4),
        0x07 => Some(Form::Data8),
        0x08 => Some(Form::String),
        0x09 => Some(Form::Block),
        0x0a => Some(Form::Block1),
        0x0b => Some(Form::Data1),
        0x0c => Some(Form::Flag),
        0x0d => Some(Form::Sdata),
        0x0e => Some(Form::Strp),
        0x0f => Some(Form::Udata),
        0x10 => Some(Form::RefAddr),
        0x11 => Some(Form::Ref1),
        0x12 => Some(Form::Ref2),
        0x13 => Some(Form::Ref4),
        0x14 => Some(Form::Ref8),
        0x15 => Some(Form::RefUdata),
        0x17 => Some(Form::SecOffset),
        0x18 => Some(Form::Exprloc),
        0x19 => Some(Form::FlagPresent),
        0x1a => Some(Form::Strx),
        0x1b => Some(Form::Addrx),
        0x1c => Some(Form::RefSup4),
        0x1d => Some(Form::StrpSup),
        0x1e => Some(Form::Data16),
        0x1f => Some(Form::LineStrp),
        0x20 => Some(Form::RefSig8),
        0x21 => Some(Form::ImplicitConst),
        0x22 => Some(Form::Loclistx),
        0x23 => Some(Form::Rnglistx),
        0x24 => Some(Form::RefSup8),
        0x25 => Some(Form::Strx1),
        0x26 => Some(Form::Strx2),
        0x27 => Some(Form::Strx3),
        0x28 => Some(Form::Strx4),
        0x29 => Some(Form::Addrx1),
        0x2a => Some(Form::Addrx2),
        0x2b => Some(Form::Addrx3),
        0x2c => Some(Form::Addrx4),
        _ => None,
    }
}

/// Which bytes a value in this form has.
pub fn layout_of(form: Form) -> Layout
    ensures { result ≡ layout_by_form form }
{
    match form {
        Form::FlagPresent | Form::ImplicitConst => Layout::Nothing,
        Form::Data1 | Form::Flag | Form::Ref1 | Form::Strx1 | Form::Addrx1 => Layout::One,
        Form::Data2 | Form::Ref2 | Form::Strx2 | Form::Addrx2 => Layout::Two,
        Form::Strx3 | Form::Addrx3 => Layout::Three,
        Form::Data4 | Form::Ref4 | Form::RefSup4 | Form::Strx4 | Form::Addrx4 => Layout::Four,
        Form::Data8 | Form::Ref8 | Form::RefSig8 | Form::RefSup8 => Layout::Eight,
        Form::Data16 => Layout::Sixteen,
        Form::Addr => Layout::Address,
        Form::Strp | Form::RefAddr | Form::SecOffset | Form::StrpSup | Form::LineStrp =>
            Layout::Offset,
        Form::Udata | Form::RefUdata | Form::Strx | Form::Addrx | Form::Loclistx | Form::Rnglistx =>
            Layout::Uleb,
        Form::Sdata => Layout::Sleb,
        Form::String => Layout::Text,
        Form::Block1 => Layout::Counted1,
        Form::Block2 => Layout::Counted2,
        Form::Block4 => Layout::Counted4,
        Form::Block | Form::Exprloc => Layout::CountedUleb,
    }
}

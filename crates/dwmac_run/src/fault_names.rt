// The names of faults: those of the variants.
ghost use Rattle.std.specs.Prelude.{◌≡◌};
ghost use Rattle.dwmac_run.specs.FaultNames as spec;

use info_roots::InfoKind;
use line_names::LineKind;
use macro_table::DefFault;
use pp_directives::{ExprFault, StructFault};
use pp_tokens::LexFault;
use pp_unit::DirectiveFault;
use unit_header::UnitKind;

/// The name of a kind of fault of a macro unit.
pub fn unit_name<'n>(kind: UnitKind) -> &'n [u8]
    ensures { result.now ≡ spec.unit_name kind }
{
    match kind {
        UnitKind::Version => b"Version",
        UnitKind::Flags => b"Flags",
        UnitKind::Cut => b"Cut",
        UnitKind::Leb => b"Leb",
        UnitKind::NoNul => b"NoNul",
        UnitKind::OperandTable => b"OperandTable",
        UnitKind::Form => b"Form",
        UnitKind::Opcode => b"Opcode",
        UnitKind::StrRange => b"StrRange",
        UnitKind::ImportRange => b"ImportRange",
        UnitKind::LineRange => b"LineRange",
        UnitKind::NoStrBase => b"NoStrBase",
        UnitKind::StrxRange => b"StrxRange",
        UnitKind::NoLineTable => b"NoLineTable",
        UnitKind::FileIndex => b"FileIndex",
        UnitKind::ImportCycle => b"ImportCycle",
        UnitKind::EndWithoutStart => b"EndWithoutStart",
        UnitKind::StartWithoutEnd => b"StartWithoutEnd",
        UnitKind::Supplementary => b"Supplementary",
        UnitKind::TooManyEntries => b"TooManyEntries",
    }
}

/// The name of a kind of fault of `.debug_info`.
pub fn info_name<'n>(kind: InfoKind) -> &'n [u8]
    ensures { result.now ≡ spec.info_name kind }
{
    match kind {
        InfoKind::Cut => b"Cut",
        InfoKind::Leb => b"Leb",
        InfoKind::NoNul => b"NoNul",
        InfoKind::Length => b"Length",
        InfoKind::Version => b"Version",
        InfoKind::AbbrevRange => b"AbbrevRange",
        InfoKind::Abbrev => b"Abbrev",
        InfoKind::Form => b"Form",
        InfoKind::StrRange => b"StrRange",
        InfoKind::NoStrBase => b"NoStrBase",
        InfoKind::StrxRange => b"StrxRange",
        InfoKind::TooManyRoots => b"TooManyRoots",
        InfoKind::NoMemory => b"NoMemory",
    }
}

/// The name of a kind of fault of a line table.
pub fn line_name<'n>(kind: LineKind) -> &'n [u8]
    ensures { result.now ≡ spec.line_name kind }
{
    match kind {
        LineKind::Cut => b"Cut",
        LineKind::Leb => b"Leb",
        LineKind::NoNul => b"NoNul",
        LineKind::Length => b"Length",
        LineKind::Version => b"Version",
        LineKind::OpcodeBase => b"OpcodeBase",
        LineKind::NoPath => b"NoPath",
        LineKind::Form => b"Form",
        LineKind::StrRange => b"StrRange",
        LineKind::DirIndex => b"DirIndex",
        LineKind::NoMemory => b"NoMemory",
    }
}

/// The name of a fault of tokens.
pub fn lex_name<'n>(fault: LexFault) -> &'n [u8]
    ensures { result.now ≡ spec.lex_name fault }
{
    match fault {
        LexFault::NulByte { .. } => b"NulByte",
        LexFault::OpenComment { .. } => b"OpenComment",
        LexFault::NoMemory => b"NoMemory",
    }
}

/// The name of a fault of a definition.
pub fn def_name<'n>(fault: DefFault) -> &'n [u8]
    ensures { result.now ≡ spec.def_name fault }
{
    match fault {
        DefFault::NoName => b"NoName",
        DefFault::Reserved => b"Reserved",
        DefFault::ParamSyntax => b"ParamSyntax",
        DefFault::RepeatedParam => b"RepeatedParam",
        DefFault::VaArgs => b"VaArgs",
        DefFault::LoneQuote => b"LoneQuote",
        DefFault::EdgePaste => b"EdgePaste",
        DefFault::LoneHash => b"LoneHash",
        DefFault::NoMemory => b"NoMemory",
    }
}

/// The name of a fault of a directive.
pub fn directive_name<'n>(fault: DirectiveFault) -> &'n [u8]
    ensures { result.now ≡ spec.directive_name fault }
{
    match fault {
        DirectiveFault::NoName => b"NoName",
        DirectiveFault::UnknownName => b"UnknownName",
    }
}

/// The name of a fault of a condition.
pub fn expr_name<'n>(fault: ExprFault) -> &'n [u8]
    ensures { result.now ≡ spec.expr_name fault }
{
    match fault {
        ExprFault::Syntax => b"Syntax",
        ExprFault::Overflow => b"Overflow",
        ExprFault::ZeroDivisor => b"ZeroDivisor",
        ExprFault::BadShift => b"BadShift",
        ExprFault::BadNumber => b"BadNumber",
        ExprFault::BadChar => b"BadChar",
        ExprFault::DefinedFromMacro => b"DefinedFromMacro",
        ExprFault::NoMemory => b"NoMemory",
    }
}

/// The name of a fault of the structure of groups.
pub fn struct_name<'n>(fault: StructFault) -> &'n [u8]
    ensures { result.now ≡ spec.struct_name fault }
{
    match fault {
        StructFault::StrayElse => b"StrayElse",
        StructFault::StrayElif => b"StrayElif",
        StructFault::StrayEndif => b"StrayEndif",
        StructFault::ElseAfterElse => b"ElseAfterElse",
        StructFault::ElifAfterElse => b"ElifAfterElse",
        StructFault::OpenIf => b"OpenIf",
        StructFault::NoMemory => b"NoMemory",
    }
}

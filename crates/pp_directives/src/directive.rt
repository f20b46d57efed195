use mac_base::Bytes;

/// What a line of tokens is (C17 6.10). The operands of a directive are the tokens after its name.
#[derive(Debug, Drop)]
pub enum Directive {
    /// No directive.
    Text,
    /// A `#` alone.
    Null,
    /// `#if`.
    If,
    /// `#ifdef`, with the name that follows, if one does.
    Ifdef(Option<Bytes>),
    /// `#ifndef`, with the name that follows, if one does.
    Ifndef(Option<Bytes>),
    /// `#elif`.
    Elif,
    /// `#else`.
    Else,
    /// `#endif`.
    Endif,
    /// `#include`.
    Include,
    /// `#define`.
    Define,
    /// `#undef`, with the name that follows, if one does.
    Undef(Option<Bytes>),
    /// `#line`.
    LineNumber,
    /// `#error`.
    Error,
    /// `#pragma`.
    Pragma,
    /// A name that is no directive's, or something else than a name.
    Unknown,
}

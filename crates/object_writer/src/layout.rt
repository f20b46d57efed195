ghost use Rattle.std.specs.Prelude.{◌≡◌, ◌≤◌, ◌<◌};
ghost use Rattle.object_writer.specs.Layouts.{group_number, piece_macro_number, macro_number, str_number, offsets_number, line_number, info_number, abbrev_number, symtab_number, piece_symbol};

/// How many sections an object has, and which are where. The symbol of a section has the section's number.
#[derive(Clone, Copy, Debug)]
pub struct Layout {
    /// How many pieces there are.
    pub pieces: u32,
    /// Whether definitions of the root have their strings by index, so that there is a `.debug_str_offsets`.
    pub indexed: bool,
}

/// The number of the group of a piece.
pub fn group_of(k: u32) -> u32
    requires { k ≤ 16384 }
    ensures { result ≡ group_number k }
{
    3 * k + 1
}

/// The number of `.debug_macro` of a piece.
pub fn piece_macro(k: u32) -> u32
    requires { k ≤ 16384 }
    ensures { result ≡ piece_macro_number k }
{
    3 * k + 2
}

impl Layout {
    /// The number of `.debug_macro` of the root.
    pub fn macros(self) -> u32
        requires { self.pieces ≤ 16384 }
        ensures number { result ≡ macro_number self }
        ensures small { result ≤ 49153 }
    {
        3 * self.pieces + 1
    }

    /// The number of `.debug_str`.
    pub fn strs(self) -> u32
        requires { self.pieces ≤ 16384 }
        ensures { result ≡ str_number self }
    {
        self.macros() + 2
    }

    /// The number of `.debug_str_offsets`.
    pub fn offsets(self) -> u32
        requires { self.pieces ≤ 16384 }
        ensures { result ≡ offsets_number self }
    {
        self.macros() + 3
    }

    /// The number of `.debug_line`.
    pub fn lines(self) -> u32
        requires { self.pieces ≤ 16384 }
        ensures number { result ≡ line_number self }
        ensures small { result ≤ 49158 }
    {
        self.macros() + if self.indexed { 5 } else { 3 }
    }

    /// The number of `.debug_info`.
    pub fn info(self) -> u32
        requires { self.pieces ≤ 16384 }
        ensures { result ≡ info_number self }
    {
        self.lines() + 1
    }

    /// The number of `.debug_abbrev`.
    pub fn abbrevs(self) -> u32
        requires { self.pieces ≤ 16384 }
        ensures number { result ≡ abbrev_number self }
        ensures small { result ≤ 49161 }
    {
        self.lines() + 3
    }

    /// The number of `.symtab`.
    pub fn symbols(self) -> u32
        requires { self.pieces ≤ 16384 }
        ensures number { result ≡ symtab_number self }
        ensures small { result ≤ 49162 }
    {
        self.lines() + 4
    }

    /// The number of a piece's symbol.
    pub fn piece_symbol(self, k: u32) -> u32
        requires few { self.pieces ≤ 16384 }
        requires within { k ≤ self.pieces }
        ensures { result ≡ piece_symbol self k }
    {
        self.abbrevs() + 1 + k
    }
}

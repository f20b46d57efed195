// A line on a fault, as the pieces that it has.
ghost use Rattle.std.specs.Prelude.{◌≡◌, [], ◌∷◌};
ghost use Rattle.dwmac_run.specs.Pieces.{pieces, line_pieces};

/// A piece of a line.
#[derive(Clone, Copy)]
pub enum Piece<'f> {
    /// No piece.
    Nothing,
    /// A word of the program's own, or a name or text of its input.
    Text(&'f [u8]),
    /// A number in decimal.
    Decimal(u64),
    /// A number as `0x` and lower-case hexadecimal digits.
    Hex(u64),
    /// The file that has the fault: its path and `:`.
    File(&'f [u8]),
    /// The line that has the fault: the path of its file, `:`, its number and `:`.
    Line(&'f [u8], u64),
}

/// The pieces that tell a fault.
pub type Words<'f> = [Piece<'f>; 6];

/// A line: where the fault is, and the pieces that tell it. It begins with `dwmac:`, and each piece follows a space.
#[derive(Clone, Copy)]
pub struct FaultLine<'f> {
    pub place: Piece<'f>,
    pub words: Words<'f>,
}

/// A line on a fault of no file.
pub fn alone(words: Words<'_>) -> FaultLine<'_>
    ensures { line_pieces result ≡ pieces words.entry }
{
    FaultLine {
        place: Piece::Nothing,
        words,
    }
}

/// A line of one text.
pub fn of_text(text: &[u8]) -> FaultLine<'_>
    ensures { line_pieces result ≡ text.now ∷ [] }
{
    alone(one(text))
}

/// One text.
pub fn one(text: &[u8]) -> Words<'_>
    ensures { pieces result ≡ text.now ∷ [] }
{
    of_four(
        Piece::Text(text),
        Piece::Nothing,
        Piece::Nothing,
        Piece::Nothing,
    )
}

/// Two texts.
pub fn two<'f>(first: &'f [u8], second: &'f [u8]) -> Words<'f>
    ensures { pieces result ≡ first.now ∷ second.now ∷ [] }
{
    of_four(
        Piece::Text(first),
        Piece::Text(second),
        Piece::Nothing,
        Piece::Nothing,
    )
}

/// At most four pieces.
pub fn of_four<'f>(
    first: Piece<'f>,
    second: Piece<'f>,
    third: Piece<'f>,
    fourth: Piece<'f>,
) -> Words<'f>
    ensures { pieces result ≡ pieces (first.entry ∷ second.entry ∷ third.entry ∷ fourth.entry ∷ []) }
{
    [first, second, third, fourth, Piece::Nothing, Piece::Nothing]
}

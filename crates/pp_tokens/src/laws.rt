ghost use Rattle.pp_tokens.specs.Lines.{FileIsSplit, TextIsSplit, OpenIsSplit};
ghost use Rattle.pp_tokens.specs.Spelled.{FileIsSpelled, TextIsSpelled, OperatorsArePunctuators, NamesAreIdentifiers};
ghost use Rattle.pp_tokens.specs.Laws.{CutIsUnique, CutExists, FileHasOneAnswer, TextHasOneAnswer, EachFileIsLexed, EachTextIsLexed, LineNumbersRise, TokensHaveOneText, PrintedIsReadBack};

/// A text is cut in one way, so a file and a text have one answer, want of memory aside.
pub fn cut_is_unique()
    ensures cut { CutIsUnique }
    ensures file { FileHasOneAnswer }
    ensures text { TextHasOneAnswer }
{}

/// Every text can be cut, up to its end or up to a comment that is not closed. So every file and every text has exactly
/// one answer: its lines or tokens, or its first fault.
pub fn each_is_lexed()
    ensures cut { CutExists }
    ensures file { EachFileIsLexed }
    ensures text { EachTextIsLexed }
{}

/// The lines of a file are read off the list of its pieces: it is split at line ends, and a token is marked where a blank
/// or a comment is between it and the token before it on its line. A text is one line.
pub fn lines_are_split_at_ends()
    ensures file { FileIsSplit }
    ensures text { TextIsSplit }
    ensures open { OpenIsSplit }
{}

/// In the tokens of a file and of a text kind and spelling agree: what is an identifier, a punctuator or a quote that
/// nothing closes is so by its kind exactly where it is by its text, and `#` and `##` are punctuators. The bytes of identifiers are those of
/// the names of macros.
pub fn kinds_are_spelled()
    ensures file { FileIsSpelled }
    ensures text { TextIsSpelled }
    ensures operators { OperatorsArePunctuators }
    ensures names { NamesAreIdentifiers }
{}

/// The lines of a file have numbers that rise strictly.
pub fn line_numbers_rise()
    ensures { LineNumbersRise }
{}

/// Each list of tokens has exactly one printed text. If each of them is a token of its kind by its text, with no byte 0
/// and no lone quote or header name among them, and they don't begin with `#` `include`, after which a header name would
/// be read, then the printed text has tokens, and these are of the same kinds and texts.
pub fn printed_is_read_back()
    ensures text { TokensHaveOneText }
    ensures again { PrintedIsReadBack }
{}

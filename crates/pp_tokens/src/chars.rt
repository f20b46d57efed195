ghost use Rattle.std.specs.Prelude.{◌≡◌, ◌==◌, ◌<◌, ◌≢◌, ◌+◌, ◌^◌, false, [], take, drop, length, IfSome};
ghost use Rattle.pp_tokens.specs.Cleaning.{bytes_of, on_line_one, cleaned, cleaned_from};
ghost use Rattle.pp_tokens.specs.Cut.{line_of, line_rest};
ghost use Rattle.pp_tokens.specs.Kinds.{first_is};
ghost use Rattle.pp_tokens.specs.Raw.{left_of, line_behind};
ghost use Rattle.pp_tokens.specs.Scan.{first_byte};

use crate::phases12::{behind, front, in_front, is_plain, past_return, past_splices, plain_run};
use std::marker::Model;

/// The bytes of a text that are left, each with its line. Of a file they are cleaned as they are read.
#[derive(Drop)]
pub struct Chars<'a> {
    rest: &'a [u8],
    line: u64,
    cleans: bool,
    /// So many bytes in front are known to be plain: each spells itself, and nothing after it goes away.
    plain: usize,
}

impl<'a> Model for Chars<'a> {
    ghost use Rattle.std.specs.Prelude.{List};
    ghost use Rattle.pp_tokens.specs.Cleaning.{Char};
    ghost use Rattle.pp_tokens.specs.Raw.{left_of, IsPlace, ArePlain};

    ghost Value = { List Char };

    ghost view = { λ c. left_of c.cleans c.line c.rest.now };

    ghost invariant = { λ c. IsPlace c.cleans c.line c.rest.now × ArePlain c.plain c.rest.now };
}

impl<'a> Chars<'a> {
    /// The bytes of one text as they are, all on line 1.
    pub fn of_text(bytes: &'a [u8]) -> Chars<'a>
        ensures { result ≡ on_line_one bytes.now }
    {
        Chars {
            rest: bytes,
            line: 1,
            cleans: false,
            plain: 0,
        }
    }

    /// The bytes of a file that phases 1 and 2 leave.
    pub fn of_file(bytes: &'a [u8]) -> Chars<'a>
        ensures { result ≡ cleaned bytes.now }
    {
        Chars::settled(bytes, 1)
    }

    /// What is left of a file, from these bytes and this line on.
    fn settled(bytes: &'a [u8], line: u64) -> Chars<'a>
        requires { line + length bytes.now < 2 ^ 64 }
        ensures { result ≡ cleaned_from line bytes.now }
    {
        let (rest, line) = past_splices(bytes, line);
        Chars {
            rest: past_return(rest),
            line,
            cleans: true,
            plain: 0,
        }
    }

    /// What is left after a byte on this line.
    fn behind(cleans: bool, rest: &'a [u8], line: u64, byte: u8) -> Chars<'a>
        requires bound { line + 1 + length rest.now < 2 ^ 64 }
        requires one { cleans ≡ false → line ≡ 1 }
        ensures { result ≡ left_of cleans (line_behind line byte) rest.now }
    {
        if !cleans {
            return Chars::of_text(rest);
        }
        let line = if byte == b'\n' { line + 1 } else { line };
        Chars::settled(rest, line)
    }

    /// The byte in front.
    #[inline]
    pub fn peek(&self) -> Option<u8>
        ensures { result ≡ first_byte self.now }
    {
        match front(self.cleans, self.rest) {
            Some((byte, _)) => Some(byte),
            None => None,
        }
    }

    /// Whether this byte is in front.
    #[inline]
    pub fn is_at(&self, byte: u8) -> bool
        ensures { result ≡ first_is (λ b. b == byte) (bytes_of self.now) }
    {
        match self.peek() {
            Some(first) => first == byte,
            None => false,
        }
    }

    /// The line of the byte in front.
    pub fn line(&self) -> u64
        ensures { self.now ≢ [] → result ≡ line_of self.now }
    {
        self.line
    }

    /// Finds out how many bytes in front are plain, where none is known to be.
    pub fn look_ahead(&mut self)
        ensures { self.new ≡ self.old }
    {
        if self.plain == 0 {
            self.plain = plain_run(self.rest);
        }
    }

    /// Goes past the byte in front.
    #[inline]
    pub fn advance(&mut self)
        ensures { self.new ≡ drop 1 self.old }
    {
        if self.plain > 0 {
            self.rest = behind(self.rest, 1);
            self.plain -= 1;
        } else {
            self.advance_slowly();
        }
    }

    /// Goes past the byte in front, whatever spells it and comes after it.
    #[inline(never)]
    fn advance_slowly(&mut self)
        ensures { self.new ≡ drop 1 self.old }
    {
        if is_plain(self.rest) {
            self.rest = behind(self.rest, 1);
            self.plain = 0;
        } else if let Some((byte, width)) = front(self.cleans, self.rest) {
            *self = Chars::behind(self.cleans, behind(self.rest, width), self.line, byte);
        }
    }

    /// Goes past the bytes in front, as many as there are.
    pub fn skip(&mut self, count: usize)
        ensures { self.new ≡ drop count self.old }
    {
        if count <= self.plain {
            self.rest = behind(self.rest, count);
            self.plain -= count;
            return;
        }
        for _ in 0..count {
            self.advance();
        }
    }

    /// The bytes in front, as many as there are, where each spells itself.
    pub fn plain_text(&self, count: usize) -> Option<&'a [u8]>
        ensures { IfSome result (λ text. text.now ≡ bytes_of (take count self.now)) }
    {
        if count <= self.plain {
            Some(in_front(self.rest, count))
        } else {
            None
        }
    }

    /// The bytes in front that are known to be plain: each spells itself, and none is a line feed.
    #[inline]
    pub fn plain_front(&self) -> &'a [u8]
        ensures front { result.now ≡ bytes_of (take (length result.now) self.now) }
        ensures no_feed { line_rest result.now ≡ length result.now }
    {
        in_front(self.rest, self.plain)
    }

    /// A second cursor at the same place.
    pub fn fork(&self) -> Chars<'a>
        ensures same { result ≡ self.now }
        ensures bound { length result < 2 ^ 63 }
    {
        Chars {
            rest: self.rest,
            line: self.line,
            cleans: self.cleans,
            plain: self.plain,
        }
    }
}

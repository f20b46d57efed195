ghost use Rattle.std.specs.Prelude.{◌≡◌, ◌-◌};
ghost use Rattle.pp_tokens.specs.Cleaning.{bytes_of};
ghost use Rattle.pp_tokens.specs.Scan.{count_of, IsKnown};

use crate::chars::Chars;
use crate::measures::{closing, line_rest};

/// How many of the next bytes hold no quote of each sort that is closed on its line. Without it a line of many escaped
/// quotes would be searched anew at each of them.
#[derive(Clone, Copy, Debug)]
pub struct QuoteScan {
    /// For `'`.
    pub single: usize,
    /// For `"`.
    pub double: usize,
}

impl QuoteScan {
    /// Nothing is known yet.
    pub fn unknown() -> QuoteScan
        ensures { result ≡ record { single = 0; double = 0 } }
    {
        QuoteScan {
            single: 0,
            double: 0,
        }
    }

    /// The count for this quote.
    pub fn count(&self, quote: u8) -> usize
        ensures { result ≡ count_of quote self.now.single self.now.double }
    {
        match quote {
            b'\'' => self.single,
            b'"' => self.double,
            _ => 0,
        }
    }

    /// What is known after so many bytes.
    pub fn after(&self, count: usize) -> QuoteScan
        ensures { result ≡ record { single = self.now.single - count; double = self.now.double - count } }
    {
        QuoteScan {
            single: self.single.saturating_sub(count),
            double: self.double.saturating_sub(count),
        }
    }

    /// What is known after a quote that is alone.
    pub fn learned(self, quote: u8, chars: &Chars<'_>) -> QuoteScan
        requires { IsKnown self.single self.double (bytes_of chars.now) }
        ensures { IsKnown result.single result.double (bytes_of chars.now) }
    {
        if self.count(quote) > 0 || closing(quote, chars).is_some() {
            return self;
        }
        let count = line_rest(chars);
        match quote {
            b'\'' => QuoteScan {
                single: count,
                double: self.double,
            },
            b'"' => QuoteScan {
                single: self.single,
                double: count,
            },
            _ => self,
        }
    }
}

ghost use Rattle.std.specs.Prelude.{◌≡◌, ◌==◌, IsTrue, not, drop};
ghost use Rattle.std.specs.List.{list_all};
ghost use Rattle.std.specs.Option.{is_none};
ghost use Rattle.mac_base.specs.Fields.{before_nul};
ghost use Rattle.section_views.specs.Family.{is_text};

use mac_base::end_of_strings;
use std::marker::Model;

/// A table of strings, each with its NUL (gABI, "String Table").
#[derive(Drop)]
pub struct Names<'a> {
    bytes: &'a [u8],
    /// The place after the last NUL.
    end: usize,
}

impl<'a> Model for Names<'a> {
    ghost use Rattle.std.specs.Prelude.{List, ℕ};
    ghost use Rattle.mac_base.specs.Strings.{AreOpenFrom};

    ghost Value = { List ℕ };

    ghost view = { λ n. n.bytes.now };

    ghost invariant = { λ n. AreOpenFrom n.bytes.now n.end };
}

impl<'a> Names<'a> {
    /// The table of these bytes.
    pub fn new(bytes: &'a [u8]) -> Names<'a>
        ensures { result ≡ bytes.now }
    {
        Names {
            bytes,
            end: end_of_strings(bytes),
        }
    }

    /// Whether no NUL ends the string at a place.
    pub fn is_open(&self, at: u32) -> bool
        ensures { result ≡ is_none (before_nul (drop at self.now)) }
    {
        at as usize >= self.end
    }

    /// Whether a text without a NUL is the string at a place.
    pub fn is_text(&self, at: u32, text: &[u8]) -> bool
        requires { IsTrue (list_all (λ b. not (b == 0)) text.now) }
        ensures { result ≡ is_text text.now (before_nul (drop at self.now)) }
    {
        let at = self.bytes.len().min(at as usize);
        begins(&self.bytes[at..], text)
    }
}

/// Whether bytes begin with a text and a NUL.
fn begins(bytes: &[u8], text: &[u8]) -> bool
    requires { IsTrue (list_all (λ b. not (b == 0)) text.now) }
    ensures { result ≡ is_text text.now (before_nul bytes.now) }
{
    match bytes.strip_prefix(text) {
        Some(rest) => rest.starts_with(&[0]),
        None => false,
    }
}

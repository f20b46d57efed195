// Lists of names. Their texts are one after the other, so that two lists are compared at once.
ghost use Rattle.std.specs.Prelude.{◌≡◌, ◌++◌, ◌∷◌, [], IfOk};
ghost use Rattle.macro_expand.specs.Listed.{names_in};

use crate::hide_set::name_iter::NameIter;
use smallvec::SmallVec;
use std::alloc::{AllocError, Global};
use std::marker::Model;

/// Some names.
#[derive(Drop)]
pub struct Names {
    lengths: SmallVec<usize, 8>,
    text: SmallVec<u8, 64>,
}

impl Model for Names {
    ghost use Rattle.std.specs.Prelude.{◌≡◌, ℕ, List, sum, length};
    ghost use Rattle.macro_expand.specs.Listed.{names_in};

    ghost Value = { List (List ℕ) };

    ghost view = { λ n. names_in n.lengths.items n.text.items };

    ghost invariant = { λ n. sum n.lengths.items ≡ length n.text.items };
}

impl Names {
    /// No names.
    pub fn new(alloc: Global) -> Names
        ensures { result ≡ [] }
    {
        Names {
            lengths: SmallVec::new(alloc),
            text: SmallVec::new(alloc),
        }
    }

    /// The same names, and one more after them.
    pub fn with(self, name: &[u8]) -> Result<Names, AllocError>
        ensures { IfOk result (λ more. more ≡ self ++ name.now ∷ []) }
    {
        let Names {
            mut lengths,
            mut text,
        } = self;
        lengths.push(name.len())?;
        text.extend_from_slice(name)?;
        Ok(Names { lengths, text })
    }

    /// A list of its own with the same names.
    pub fn copy(&self) -> Result<Names, AllocError>
        ensures { IfOk result (λ copied. copied ≡ self.now) }
    {
        let lengths = SmallVec::from_slice(*self.lengths.allocator(), self.lengths.as_slice())?;
        let text = SmallVec::from_slice(*self.text.allocator(), self.text.as_slice())?;
        Ok(Names { lengths, text })
    }

    /// All of them.
    pub fn left(&self) -> NameIter<'_>
        ensures { names_in result.lengths.now result.text.now ≡ self.now }
    {
        NameIter {
            lengths: self.lengths.as_slice(),
            text: self.text.as_slice(),
        }
    }
}

ghost use Rattle.std.specs.Prelude.{◌≡◌, [], ◌∷◌, ◌++◌, length, OnOk, OnErr};

use mac_base::{Bytes, NoMemory};
use std::alloc::Global;
use std::marker::Model;

/// A `-D` or `-U` word of the command, which changes macros before the primary file begins.
#[derive(Debug, Drop)]
pub enum Command {
    /// A definition, as `NAME=REST` or `NAME`, which stands for `NAME=1`.
    Define(Bytes),
    /// A name that is no macro any more.
    Undef(Bytes),
}

/// A list of such words.
#[derive(Debug, Drop)]
pub struct Commands {
    items: Vec<Command>,
}

impl Model for Commands {
    ghost use Rattle.std.specs.Prelude.{List};
    ghost use Rattle.pp_unit.specs.declared.request.Command.{Command};

    ghost Value = { List Command };

    ghost view = { λ c. c.items.items };
}

impl Commands {
    /// No words. Takes no memory.
    pub fn new(alloc: Global) -> Commands
        ensures { result ≡ [] }
    {
        Commands {
            items: Vec::new(alloc),
        }
    }

    /// Puts a word at the end.
    pub fn push(&mut self, x: Command) -> Result<(), NoMemory>
        ensures ok { OnOk result (self.new ≡ self.old ++ x ∷ []) }
        ensures err { OnErr result (self.new ≡ self.old) }
    {
        self.items.push(x)?;
        Ok(())
    }

    /// How many words there are.
    pub fn len(&self) -> usize
        ensures { result ≡ length self.now }
    {
        self.items.len()
    }

    /// The words in order.
    pub fn as_slice(&self) -> &[Command]
        ensures { result.now ≡ self.now }
    {
        self.items.as_slice()
    }
}

/// A translation unit: the name of its primary file in the first store, and the words in order.
#[derive(Debug, Drop)]
pub struct UnitSpec {
    pub source: Bytes,
    pub commands: Commands,
}

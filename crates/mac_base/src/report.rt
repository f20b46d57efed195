ghost use Rattle.std.specs.Prelude.{◌≡◌, false, [], ◌++◌, List, ℕ, codes, decimal, OnOk};
ghost use Rattle.mac_base.specs.Items.{renamed};
ghost use Rattle.mac_base.specs.ItemLines.{item_of, item_line, path_in};
ghost use Rattle.mac_base.specs.ReportText.{Tells, Adds, kept};

use crate::bytes::Bytes;
use crate::events::Event;
use crate::item_lines::{push_event, push_item};
use crate::memory::NoMemory;
use std::alloc::Global;

/// The most bytes that a report may have.
const MOST_REPORT: usize = 1_073_741_824;

/// A report that is made line by line. Of one with more than 1,073,741,824 bytes nothing is kept.
#[derive(Drop)]
pub struct ReportBuilder {
    /// The bytes so far, while there are not too many.
    pub text: Vec<u8>,
    /// Whether there were too many.
    pub is_long: bool,
}

impl ReportBuilder {
    /// An empty report. Takes no memory.
    pub fn new(alloc: Global) -> ReportBuilder
        ensures { Tells result.is_long result.text.items [] }
    {
        ReportBuilder {
            text: Vec::new(alloc),
            is_long: false,
        }
    }

    /// Lets go of a text that has grown too long. To be called after each line that is appended to `text`.
    pub fn settle(&mut self)
        requires { self.old.is_long ≡ false }
        ensures { Tells self.new.is_long self.new.text.items self.old.text.items }
    {
        if self.text.len() > MOST_REPORT {
            self.text = Vec::new(*self.text.allocator());
            self.is_long = true;
        }
    }

    /// Adds the line of an item: a verb, a line number and words.
    pub fn add_item(&mut self, verb: &[u8], line: u64, words: &[u8]) -> Result<(), NoMemory>
        ensures { OnOk result (Adds self.old self.new (verb.now ++ codes " " ++ decimal line ++ codes " " ++ words.now ++ codes "\n")) }
    {
        if self.is_long {
            return Ok(());
        }
        push_item(&mut self.text, verb, line, words)?;
        self.settle();
        Ok(())
    }

    /// Adds the line of an event, whose file is one of these paths.
    pub fn add_event(&mut self, paths: &[Bytes], event: &Event) -> Result<(), NoMemory>
        ensures { OnOk result (Adds self.old self.new (item_line (renamed (path_in paths.now) (item_of event.now)))) }
    {
        if self.is_long {
            return Ok(());
        }
        push_event(&mut self.text, paths, event)?;
        self.settle();
        Ok(())
    }

    /// The report; none exactly where it is too long.
    pub fn finish(self) -> Option<Bytes>
        ensures { (whole : List ℕ) → Tells self.is_long self.text.items whole → result ≡ kept whole }
    {
        let ReportBuilder { text, is_long } = self;
        if is_long {
            None
        } else {
            Some(Bytes::from_vec(text))
        }
    }
}

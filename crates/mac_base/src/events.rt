ghost use Rattle.std.specs.Prelude.{◌≡◌, [], ◌∷◌, ◌++◌, length, OnOk, OnErr};

use crate::bytes::Bytes;
use crate::memory::NoMemory;
use crate::paths::Paths;
use std::alloc::Global;
use std::marker::Model;

/// What a translation unit does to its macros, or where one of its files begins or ends (DWARF 5, 6.3.2 and 6.3.3).
#[derive(Debug, Drop)]
pub enum Event {
    /// A macro is defined.
    Define {
        line: u64,
        /// The name with its parameters, a space, and the replacement list.
        text: Bytes,
    },
    /// A name is no macro any more.
    Undef {
        line: u64,
        name: Bytes,
    },
    /// A file begins, which is included in this line of the file around it.
    Start {
        line: u64,
        /// The number of its path.
        file: u32,
    },
    /// The file that began last, of those that have not ended, ends.
    End,
}

/// A list of events.
#[derive(Debug, Drop)]
pub struct EventList {
    items: Vec<Event>,
}

impl Model for EventList {
    ghost use Rattle.std.specs.Prelude.{List};
    ghost use Rattle.mac_base.specs.declared.events.Event.{Event};

    ghost Value = { List Event };

    ghost view = { λ e. e.items.items };
}

impl EventList {
    /// No events. Takes no memory.
    pub fn new(alloc: Global) -> EventList
        ensures { result ≡ [] }
    {
        EventList {
            items: Vec::new(alloc),
        }
    }

    /// The same events, without taking memory.
    pub fn from_vec(items: Vec<Event>) -> EventList
        ensures { result ≡ items.items }
    {
        EventList { items }
    }

    /// The same events, without taking memory.
    pub fn into_vec(self) -> Vec<Event>
        ensures { result.items ≡ self }
    {
        let EventList { items } = self;
        items
    }

    /// Puts an event at the end.
    pub fn push(&mut self, x: Event) -> Result<(), NoMemory>
        ensures ok { OnOk result (self.new ≡ self.old ++ x ∷ []) }
        ensures err { OnErr result (self.new ≡ self.old) }
    {
        self.items.push(x)?;
        Ok(())
    }

    /// How many events there are.
    pub fn len(&self) -> usize
        ensures { result ≡ length self.now }
    {
        self.items.len()
    }

    /// The events in order.
    pub fn as_slice(&self) -> &[Event]
        ensures { result.now ≡ self.now }
    {
        self.items.as_slice()
    }
}

/// The events of a translation unit, and the paths that they number.
#[derive(Debug, Drop)]
pub struct Events {
    pub list: EventList,
    /// Each different path once, in the order in which the files were opened first.
    pub files: Paths,
}

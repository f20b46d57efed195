ghost use Rattle.std.specs.Prelude.{◌≡◌, ◌⊎◌, [], length, OnOk, OnErr, IfErr, Ok, Err};
ghost use Rattle.pp_directives.specs.declared.fault.StructFault.TheVariants.{NoMemory as RanOut};
ghost use Rattle.pp_directives.specs.Groups.{IfLine, role_of, line as cond_line};
ghost use Rattle.pp_directives.specs.Conditions.{is_active, is_due, open_line, turned};

use crate::conditional::open_section::{
    OpenSection, innermost, is_active, is_waiting, turn_elif, turn_else, turn_endif, turn_if,
};
use crate::directive::Directive;
use crate::fault::StructFault;
use std::alloc::Global;
use std::marker::Model;

/// The conditions that are open after the lines of a file, the innermost last (C17 6.10.1). Contracts see the
/// innermost first.
#[derive(Debug, Drop)]
pub struct Conditions {
    items: Vec<OpenSection>,
}

impl Model for Conditions {
    ghost use Rattle.std.specs.Prelude.{List, reverse};
    ghost use Rattle.pp_directives.specs.declared.conditional.open_section.OpenSection.{OpenSection};

    ghost Value = { List OpenSection };

    ghost view = { λ c. reverse c.items.items };
}

impl Conditions {
    /// No condition is open. Takes no memory.
    pub fn new(alloc: Global) -> Conditions
        ensures { result ≡ [] }
    {
        Conditions {
            items: Vec::new(alloc),
        }
    }

    /// Whether the group that is open is taken. Where no condition is open it is the whole file.
    pub fn active(&self) -> bool
        ensures { result ≡ is_active self.now }
    {
        is_active(self.items.as_slice())
    }

    /// Whether the condition of this line decides a group: that of `#if`, `#ifdef` and `#ifndef` in a taken group, and that of
    /// `#elif` where the section is in a taken group and none of its own was taken yet.
    pub fn due(&self, directive: &Directive) -> bool
        ensures { result ≡ is_due (role_of directive.now) self.now }
    {
        match directive {
            Directive::If | Directive::Ifdef(_) | Directive::Ifndef(_) => self.active(),
            Directive::Elif => is_waiting(self.items.as_slice()),
            _ => false,
        }
    }

    /// How many conditions are open.
    pub fn depth(&self) -> usize
        ensures { result ≡ length self.now }
    {
        self.items.len()
    }

    /// The line of the innermost condition that is open.
    pub fn open_line(&self) -> Option<u64>
        ensures { result ≡ open_line self.now }
    {
        match innermost(self.items.as_slice()) {
            Some(open) => Some(open.line),
            None => None,
        }
    }

    /// Follows a line, with the answer to its condition, which counts only where it is `due`. An error is the fault of
    /// a line that breaks the structure of groups (C17 6.10 p1), and leaves all as it was.
    pub fn turn(
        &mut self,
        directive: &Directive,
        line: u64,
        answer: bool,
    ) -> Result<(), StructFault>
        ensures ok { OnOk result (turned self.old (cond_line (role_of directive.now) (record { number = line; answer = answer })) ≡ Ok self.new) }
        ensures err { IfErr result (λ fault. ((fault ≡ RanOut) × (role_of directive.now ≡ IfLine)) ⊎ (turned self.old (cond_line (role_of directive.now) (record { number = line; answer = answer })) ≡ Err fault)) }
        ensures kept { OnErr result (self.new ≡ self.old) }
    {
        match directive {
            Directive::If | Directive::Ifdef(_) | Directive::Ifndef(_) => {
                turn_if(&mut self.items, line, answer)?;
            }
            Directive::Elif => turn_elif(self.items.as_mut_slice(), answer)?,
            Directive::Else => turn_else(self.items.as_mut_slice())?,
            Directive::Endif => turn_endif(&mut self.items)?,
            _ => {}
        }
        Ok(())
    }
}

ghost use Rattle.std.specs.Prelude.{◌≡◌, ◌∷◌, Ok, Err, OnOk, OnErr, IfErr, reverse};
ghost use Rattle.pp_directives.specs.Groups.{ElifLine};
ghost use Rattle.pp_directives.specs.Conditions.{first_open, with_first, is_active, is_due, opened, elif_turned, else_turned, endif_turned};
ghost use Rattle.pp_directives.specs.declared.fault.StructFault.TheVariants.{NoMemory as RanOut};

use crate::fault::StructFault;

/// An if-section whose `#endif` has not come yet. Sections are kept in a list, the innermost last.
#[derive(Clone, Copy, Debug, PartialEq, Eq)]
pub struct OpenSection {
    /// The line of its `#if`.
    pub line: u64,
    /// Whether the group that is open is taken.
    pub active: bool,
    /// Whether the section is in a taken group and none of its own was taken yet.
    pub waiting: bool,
    /// Whether its `#else` was there.
    pub has_else: bool,
}

/// The innermost section.
pub fn innermost(items: &[OpenSection]) -> Option<OpenSection>
    ensures { result ≡ first_open (reverse items.now) }
{
    match items.split_last() {
        Some((section, _)) => Some(*section),
        None => None,
    }
}

/// Puts a section in the place of the innermost one.
fn replace_innermost(items: &mut [OpenSection], section: OpenSection)
    ensures { reverse items.new ≡ with_first section (reverse items.old) }
{
    let n = items.len();
    if n > 0 {
        items[n - 1] = section;
    }
}

/// Whether the group that is open is taken.
pub fn is_active(items: &[OpenSection]) -> bool
    ensures { result ≡ is_active (reverse items.now) }
{
    match innermost(items) {
        Some(section) => section.active,
        None => true,
    }
}

/// Whether a group of the innermost section may still be taken.
pub fn is_waiting(items: &[OpenSection]) -> bool
    ensures { result ≡ is_due ElifLine (reverse items.now) }
{
    match innermost(items) {
        Some(section) => section.waiting,
        None => false,
    }
}

/// Follows `#if`, `#ifdef` or `#ifndef`.
pub fn turn_if(items: &mut Vec<OpenSection>, line: u64, answer: bool) -> Result<(), StructFault>
    ensures ok { OnOk result (reverse items.new.items ≡ opened (is_active (reverse items.old.items)) (record { number = line; answer = answer }) ∷ reverse items.old.items) }
    ensures err { IfErr result (λ fault. fault ≡ RanOut) }
    ensures kept { OnErr result (items.new.items ≡ items.old.items) }
{
    let taken = is_active(items.as_slice());
    items.push(OpenSection {
        line,
        active: taken && answer,
        waiting: taken && !answer,
        has_else: false,
    })?;
    Ok(())
}

/// Follows `#elif`.
pub fn turn_elif(items: &mut [OpenSection], answer: bool) -> Result<(), StructFault>
    ensures ok { OnOk result (elif_turned answer (reverse items.old) ≡ Ok (reverse items.new)) }
    ensures err { IfErr result (λ fault. elif_turned answer (reverse items.old) ≡ Err fault) }
    ensures kept { OnErr result (items.new ≡ items.old) }
{
    let Some(section) = innermost(items) else {
        return Err(StructFault::StrayElif);
    };
    if section.has_else {
        return Err(StructFault::ElifAfterElse);
    }
    replace_innermost(
        items,
        OpenSection {
            active: section.waiting && answer,
            waiting: section.waiting && !answer,
            ..section
        },
    );
    Ok(())
}

/// Follows `#else`.
pub fn turn_else(items: &mut [OpenSection]) -> Result<(), StructFault>
    ensures ok { OnOk result (else_turned (reverse items.old) ≡ Ok (reverse items.new)) }
    ensures err { IfErr result (λ fault. else_turned (reverse items.old) ≡ Err fault) }
    ensures kept { OnErr result (items.new ≡ items.old) }
{
    let Some(section) = innermost(items) else {
        return Err(StructFault::StrayElse);
    };
    if section.has_else {
        return Err(StructFault::ElseAfterElse);
    }
    replace_innermost(
        items,
        OpenSection {
            active: section.waiting,
            waiting: false,
            has_else: true,
            ..section
        },
    );
    Ok(())
}

/// Follows `#endif`.
pub fn turn_endif(items: &mut Vec<OpenSection>) -> Result<(), StructFault>
    ensures ok { OnOk result (endif_turned (reverse items.old.items) ≡ Ok (reverse items.new.items)) }
    ensures err { IfErr result (λ fault. endif_turned (reverse items.old.items) ≡ Err fault) }
    ensures kept { OnErr result (items.new.items ≡ items.old.items) }
{
    match items.pop() {
        Some(_) => Ok(()),
        None => Err(StructFault::StrayEndif),
    }
}

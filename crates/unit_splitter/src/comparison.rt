// Whether events are equal, and events of their own with the same content.
ghost use Rattle.std.specs.Prelude.{◌≡◌, IfOk};
ghost use Rattle.unit_splitter.specs.Split.{same_event, same_part};

use mac_base::{Event, NoMemory};
use std::alloc::Global;

/// Whether two events are equal.
fn same_event(one: &Event, other: &Event) -> bool
    ensures { result ≡ same_event one.now other.now }
{
    match (one, other) {
        (
            Event::Define { line, text },
            Event::Define {
                line: other,
                text: words,
            },
        ) => { line == other && text.as_slice() == words.as_slice() }
        (
            Event::Undef { line, name },
            Event::Undef {
                line: other,
                name: words,
            },
        ) => { line == other && name.as_slice() == words.as_slice() }
        (
            Event::Start { line, file },
            Event::Start {
                line: other,
                file: number,
            },
        ) => { line == other && file == number }
        (Event::End, Event::End) => true,
        _ => false,
    }
}

/// Whether two parts are equal, event by event.
pub fn same_part(one: &[Event], other: &[Event]) -> bool
    ensures { result ≡ same_part one.now other.now }
{
    let mut left = one;
    let mut right = other;
    while let ([x, xs @ ..], [y, ys @ ..]) = (left, right) {
        if !same_event(x, y) {
            return false;
        }
        left = xs;
        right = ys;
    }
    left.is_empty() && right.is_empty()
}

/// An event of its own with the same content.
pub fn copy_event(event: &Event) -> Result<Event, NoMemory>
    ensures { IfOk result (λ copied. copied ≡ event.now) }
{
    match event {
        Event::Define { line, text } => Ok(Event::Define {
            line: *line,
            text: text.copy()?,
        }),
        Event::Undef { line, name } => Ok(Event::Undef {
            line: *line,
            name: name.copy()?,
        }),
        Event::Start { line, file } => Ok(Event::Start {
            line: *line,
            file: *file,
        }),
        Event::End => Ok(Event::End),
    }
}

/// The same events as a list of its own.
pub fn copy_part(alloc: Global, part: &[Event]) -> Result<Vec<Event>, NoMemory>
    ensures { IfOk result (λ copied. copied.items ≡ part.now) }
{
    let mut copied = Vec::with_capacity(alloc, part.len())?;
    for event in part {
        copied.push(copy_event(event)?)?;
    }
    Ok(copied)
}

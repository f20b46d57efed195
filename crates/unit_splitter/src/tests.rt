use crate::{Piece, RootEntries, RootEntry, piece_name, split};
use mac_base::{Bytes, Event, EventList, Events, Paths};
use std::alloc::Global;
use std::test::Fail;

/// A definition.
fn define(alloc: Global, line: u64, text: &[u8]) -> Result<Event, Fail> {
    Ok(Event::Define {
        line,
        text: Bytes::from_slice(alloc, text)?,
    })
}

/// An undefinition.
fn undef(alloc: Global, line: u64, name: &[u8]) -> Result<Event, Fail> {
    Ok(Event::Undef {
        line,
        name: Bytes::from_slice(alloc, name)?,
    })
}

#[test]
fn a_piece_has_the_digest_of_its_entries_as_its_name(rt: HostRuntime) -> Result<(), Fail> {
    let mut entries = EventList::new(rt.alloc());
    entries.push(define(rt.alloc(), 1, b"A 1")?)?;
    let mut other = EventList::new(rt.alloc());
    other.push(define(rt.alloc(), 1, b"A 1")?)?;
    entries.push(define(rt.alloc(), 2, b"B 2")?)?;
    other.push(undef(rt.alloc(), 150, b"A")?)?;
    let piece = Piece { entries };
    let narrow = piece_name(rt.alloc(), &piece, false)?;
    assert_eq!(rt;
        narrow.as_slice(),
        b"dwm5.3076e92863dbaa4540175d99095a5b82c45dc2f95d0c544ea21ff6fa2434442d".as_slice()
    );
    let wide = piece_name(rt.alloc(), &piece, true)?;
    assert_eq!(rt;
        wide.as_slice(),
        b"dwm5w.3076e92863dbaa4540175d99095a5b82c45dc2f95d0c544ea21ff6fa2434442d".as_slice()
    );
    let other = piece_name(rt.alloc(), &Piece { entries: other }, false)?;
    assert_eq!(rt;
        other.as_slice(),
        b"dwm5.a47f80177ce38893fdadf4461c5e4b054456991155fa7ef803392c112e90c924".as_slice()
    );
    Ok(())
}

/// The beginning of a file.
fn start(line: u64) -> Event {
    Event::Start { line, file: 0 }
}

/// The entries of a root, a letter each: `d`, `u`, `s`, `e`, and the number of the piece of an import.
fn outline(alloc: Global, root: &RootEntries) -> Result<Vec<u8>, Fail> {
    let mut text = Vec::new(alloc);
    for entry in root.as_slice() {
        let letter = match entry {
            RootEntry::Own(Event::Define { .. }) => b'd',
            RootEntry::Own(Event::Undef { .. }) => b'u',
            RootEntry::Own(Event::Start { .. }) => b's',
            RootEntry::Own(Event::End) => b'e',
            RootEntry::Import(number) => b'0' + (*number % 10) as u8,
        };
        text.push(letter)?;
    }
    Ok(text)
}

/// The events as a unit without paths.
fn unit(alloc: Global, list: EventList) -> Events {
    Events {
        list,
        files: Paths::new(alloc),
    }
}

#[test]
fn runs_of_included_files_are_pieces(rt: HostRuntime) -> Result<(), Fail> {
    let alloc = rt.alloc();
    let mut list = EventList::new(alloc);
    list.push(define(alloc, 0, b"P 1")?)?;
    list.push(define(alloc, 0, b"Q 1")?)?;
    list.push(start(0))?;
    list.push(define(alloc, 1, b"A 1")?)?;
    list.push(define(alloc, 2, b"B 2")?)?;
    for line in [3, 4] {
        list.push(start(line))?;
        list.push(define(alloc, 1, b"C 3")?)?;
        list.push(undef(alloc, 2, b"C")?)?;
        list.push(Event::End)?;
    }
    list.push(start(5))?;
    list.push(define(alloc, 1, b"C 3")?)?;
    list.push(start(2))?;
    list.push(Event::End)?;
    list.push(undef(alloc, 2, b"C")?)?;
    list.push(undef(alloc, 3, b"D")?)?;
    list.push(Event::End)?;
    list.push(Event::End)?;
    list.push(define(alloc, 6, b"E 1")?)?;
    let made = split(alloc, &unit(alloc, list))?;
    let text = outline(alloc, &made.root)?;
    assert_eq!(rt; text.as_slice(), b"ddsdds0es0esdse1eed".as_slice());
    assert_eq!(rt; made.pieces.len(), 2);
    Ok(())
}

#[test]
fn an_end_too_many_closes_nothing(rt: HostRuntime) -> Result<(), Fail> {
    let alloc = rt.alloc();
    let mut list = EventList::new(alloc);
    list.push(Event::End)?;
    list.push(start(0))?;
    list.push(start(1))?;
    list.push(define(alloc, 1, b"A 1")?)?;
    list.push(define(alloc, 2, b"B 2")?)?;
    let made = split(alloc, &unit(alloc, list))?;
    let text = outline(alloc, &made.root)?;
    assert_eq!(rt; text.as_slice(), b"ess0".as_slice());
    Ok(())
}

#[test]
fn runs_after_the_limit_stay_in_the_root(rt: HostRuntime) -> Result<(), Fail> {
    let alloc = rt.alloc();
    let mut list = EventList::new(alloc);
    list.push(start(0))?;
    for line in 1..16_386 {
        list.push(start(line))?;
        list.push(undef(alloc, line, b"A")?)?;
        list.push(undef(alloc, line, b"B")?)?;
        list.push(Event::End)?;
    }
    list.push(start(1))?;
    list.push(undef(alloc, 16_384, b"A")?)?;
    list.push(undef(alloc, 16_384, b"B")?)?;
    let made = split(alloc, &unit(alloc, list))?;
    assert_eq!(rt; made.pieces.len(), 16_384);
    let text = outline(alloc, &made.root)?;
    assert!(rt; text.as_slice().ends_with(b"s3esuues3"));
    Ok(())
}

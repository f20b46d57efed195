use crate::{Entry, Table};
use mac_base::{Frame, Frames, NoMemory, Place};
use std::alloc::Global;
use std::process::Abort;
use std::test::Fail;

/// Line `line` of file 1, which file 0 includes in line 7.
fn place_of(alloc: Global, line: u64) -> Result<Place, NoMemory> {
    let mut frames = Frames::new(alloc);
    frames.push(Frame { path: 0, line: 0 })?;
    frames.push(Frame { path: 1, line: 7 })?;
    Ok(Place { frames, line })
}

fn stands(entry: Option<&Entry>, text: &[u8], line: u64) -> bool {
    entry.is_some_and(|entry| {
        entry.text.as_slice() == text
            && entry.place.line == line
            && entry.place.frames.as_slice()
                == [Frame { path: 0, line: 0 }, Frame { path: 1, line: 7 }].as_slice()
    })
}

#[test]
fn the_last_definition_of_a_name_stands(rt: HostRuntime) -> Result<(), Fail> {
    let alloc = rt.alloc();
    let mut table = Table::new(alloc);
    table.define(b"MAX(a,b) a", &place_of(alloc, 1)?)?;
    table.define(b"A 1", &place_of(alloc, 2)?)?;
    table.define(b"_b$\xc3\xa9-", &place_of(alloc, 3)?)?;
    table.define(b"A 2", &place_of(alloc, 4)?)?;
    table.define(b"AB", &place_of(alloc, 5)?)?;
    table.undef(b"AB");
    table.undef(b"M");
    assert!(rt; stands(table.get(b"A"), b"A 2", 4));
    assert!(rt; stands(table.get(b"MAX"), b"MAX(a,b) a", 1));
    assert!(rt; stands(table.get(b"_b$\xc3\xa9"), b"_b$\xc3\xa9-", 3));
    assert!(rt; table.get(b"AB").is_none());
    check_names(&rt, &table)
}

fn check_names(rt: &impl Abort, table: &Table) -> Result<(), Fail> {
    let names = table.names()?;
    assert_eq!(rt; names.len(), 3);
    let names = names.as_slice();
    assert_eq!(rt; names.len(), 3);
    assert_eq!(rt; names[0].as_slice(), b"A".as_slice());
    assert_eq!(rt; names[1].as_slice(), b"MAX".as_slice());
    assert_eq!(rt; names[2].as_slice(), b"_b$\xc3\xa9".as_slice());
    Ok(())
}

#[test]
fn copied_places_are_the_same(rt: HostRuntime) -> Result<(), Fail> {
    let alloc = rt.alloc();
    let place = place_of(alloc, 4)?.copy()?;
    assert_eq!(rt; place.line, 4);
    let frames = Frames::from_vec(place.frames.copy()?.into_vec());
    assert_eq!(rt; frames.len(), 2);
    assert_eq!(rt;
        frames.as_slice(),
        [Frame { path: 0, line: 0 }, Frame { path: 1, line: 7 }].as_slice()
    );
    Ok(())
}

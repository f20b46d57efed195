use crate::{Forms, LinkedParts, UnitInfo, WriteFault, write_linked, write_object, written_object};
use info_roots::RootList;
use mac_base::{Bytes, Event, EventList, Events, NoMemory, Paths};
use std::alloc::Global;
use std::test::Fail;
use unit_splitter::{split, splits_are_exact};

/// The object of `a.c`, whose one line is `#define N 28`, laid out by hand.
const OBJECT: &[u8] =
    b"\x7fELF\x02\x01\x01\0\0\0\0\0\0\0\0\0\x01\0>\0\x01\0\0\0\0\0\0\0\0\0\0\0\0\0\0\0\0\0\0\0 \x03\0\0\0\0\0\0\0\
    \0\0\0@\0\0\0\0\0@\0\x0b\0\x0a\0\x05\0\x02\0\0\0\0\x05\0\0\0\0\0\x05\0\0\0\0\0\x05\0\0\0\0\0\x03\0\0\x05\x01\
    \0\0\0\0\x04\0\x03\0\0\0\0\0\0\0\x0a\0\0\0\x04\0\0\0\0\0\0\0\0\0\0\0\x09\0\0\0\0\0\0\0\x0a\0\0\0\x03\0\0\0\0\
    \0\0\0\0\0\0\0\x0f\0\0\0\0\0\0\0\x0a\0\0\0\x03\0\0\0\x0b\0\0\0\0\0\0\0\x15\0\0\0\0\0\0\0\x0a\0\0\0\x03\0\0\0\
    \x1d\0\0\0\0\0\0\0\x1e\0\0\0\0\0\0\0\x0a\0\0\0\x03\0\0\06\0\0\0\0\0\0\0__STDC__ 1\0__STDC_HOSTED__ 1\0__STDC\
    _VERSION__ 201710L\0N 28\0+\0\0\0\x05\0\x08\0#\0\0\0\x01\x01\x01\xfb\x0e\x0d\0\x01\x01\x01\x01\0\0\0\x01\0\0\
    \x01\x01\x01\x08\x01.\0\x02\x01\x08\x02\x0f\x01a.c\0\0\x17\0\0\0\x05\0\x01\x08\0\0\0\0\x01a.c\0.\0\0\0\0\0\0\
    \0\0\0\x08\0\0\0\0\0\0\0\x0a\0\0\0\x07\0\0\0\0\0\0\0\0\0\0\0\x13\0\0\0\0\0\0\0\x0a\0\0\0\x01\0\0\0\0\0\0\0\0\
    \0\0\0\x17\0\0\0\0\0\0\0\x0a\0\0\0\x04\0\0\0\0\0\0\0\0\0\0\0\x01\x11\0\x03\x08\x1b\x08y\x17\x10\x17\0\0\x02\
    \x11\0\x03\x08\x1b\x08y\x17\x10\x17r\x17\0\0\x03\x11\0\x03\x08\x1b\x08y\x17\0\0\x04\x11\0\x03\x08\x1b\x08y\
    \x17r\x17\0\0\0\0\0\0\0\0\0\0\0\0\0\0\0\0\0\0\0\0\0\0\0\0\0\0\0\0\0\0\0\x03\0\x01\0\0\0\0\0\0\0\0\0\0\0\0\0\
    \0\0\0\0\0\0\0\0\x03\0\x02\0\0\0\0\0\0\0\0\0\0\0\0\0\0\0\0\0\0\0\0\0\x03\0\x03\0\0\0\0\0\0\0\0\0\0\0\0\0\0\0\
    \0\0\0\0\0\0\x03\0\x04\0\0\0\0\0\0\0\0\0\0\0\0\0\0\0\0\0\0\0\0\0\x03\0\x05\0\0\0\0\0\0\0\0\0\0\0\0\0\0\0\0\0\
    \0\0\0\0\x03\0\x06\0\0\0\0\0\0\0\0\0\0\0\0\0\0\0\0\0\0\0\0\0\x03\0\x07\0\0\0\0\0\0\0\0\0\0\0\0\0\0\0\0\0\0\0\
    .debug_macro\0.rela.debug_macro\0.debug_str\0.debug_line\0.debug_info\0.rela.debug_info\0.debug_abbrev\0.sym\
    tab\0.strtab\0.shstrtab\0\0\0\0\0\0\0\0\0\0\0\0\0\0\0\0\0\0\0\0\0\0\0\0\0\0\0\0\0\0\0\0\0\0\0\0\0\0\0\0\0\0\
    \0\0\0\0\0\0\0\0\0\0\0\0\0\0\0\0\0\0\0\0\0\0\0\0\0\0\0\0\x01\0\0\0\x01\0\0\0\0\0\0\0\0\0\0\0\0\0\0\0\0\0\0\0\
    @\0\0\0\0\0\0\0$\0\0\0\0\0\0\0\0\0\0\0\0\0\0\0\x01\0\0\0\0\0\0\0\0\0\0\0\0\0\0\0\x0e\0\0\0\x04\0\0\0@\0\0\0\
    \0\0\0\0\0\0\0\0\0\0\0\0d\0\0\0\0\0\0\0x\0\0\0\0\0\0\0\x08\0\0\0\x01\0\0\0\x01\0\0\0\0\0\0\0\x18\0\0\0\0\0\0\
    \0 \0\0\0\x01\0\0\00\0\0\0\0\0\0\0\0\0\0\0\0\0\0\0\xdc\0\0\0\0\0\0\0;\0\0\0\0\0\0\0\0\0\0\0\0\0\0\0\x01\0\0\
    \0\0\0\0\0\x01\0\0\0\0\0\0\0+\0\0\0\x01\0\0\0\0\0\0\0\0\0\0\0\0\0\0\0\0\0\0\0\x17\x01\0\0\0\0\0\0/\0\0\0\0\0\
    \0\0\0\0\0\0\0\0\0\0\x01\0\0\0\0\0\0\0\0\0\0\0\0\0\0\07\0\0\0\x01\0\0\0\0\0\0\0\0\0\0\0\0\0\0\0\0\0\0\0F\x01\
    \0\0\0\0\0\0\x1b\0\0\0\0\0\0\0\0\0\0\0\0\0\0\0\x01\0\0\0\0\0\0\0\0\0\0\0\0\0\0\0C\0\0\0\x04\0\0\0\0\0\0\0\0\
    \0\0\0\0\0\0\0\0\0\0\0a\x01\0\0\0\0\0\0H\0\0\0\0\0\0\0\x08\0\0\0\x05\0\0\0\x01\0\0\0\0\0\0\0\x18\0\0\0\0\0\0\
    \0T\0\0\0\x01\0\0\0\0\0\0\0\0\0\0\0\0\0\0\0\0\0\0\0\xa9\x01\0\0\0\0\0\05\0\0\0\0\0\0\0\0\0\0\0\0\0\0\0\x01\0\
    \0\0\0\0\0\0\0\0\0\0\0\0\0\0b\0\0\0\x02\0\0\0\0\0\0\0\0\0\0\0\0\0\0\0\0\0\0\0\xde\x01\0\0\0\0\0\0\xc0\0\0\0\
    \0\0\0\0\x09\0\0\0\x08\0\0\0\x01\0\0\0\0\0\0\0\x18\0\0\0\0\0\0\0j\0\0\0\x03\0\0\0\0\0\0\0\0\0\0\0\0\0\0\0\0\
    \0\0\0\x9e\x02\0\0\0\0\0\0\x01\0\0\0\0\0\0\0\0\0\0\0\0\0\0\0\x01\0\0\0\0\0\0\0\0\0\0\0\0\0\0\0r\0\0\0\x03\0\
    \0\0\0\0\0\0\0\0\0\0\0\0\0\0\0\0\0\0\x9f\x02\0\0\0\0\0\0|\0\0\0\0\0\0\0\0\0\0\0\0\0\0\0\x01\0\0\0\0\0\0\0\0\
    \0\0\0\0\0\0\0";

fn define(alloc: Global, line: u64, text: &[u8]) -> Result<Event, NoMemory> {
    let text = Bytes::from_slice(alloc, text)?;
    Ok(Event::Define { line, text })
}

/// Events with the predefined macros and the beginning of the primary file.
fn beginning(alloc: Global) -> Result<EventList, NoMemory> {
    let mut list = EventList::new(alloc);
    list.push(define(alloc, 0, b"__STDC__ 1")?)?;
    list.push(define(alloc, 0, b"__STDC_HOSTED__ 1")?)?;
    list.push(define(alloc, 0, b"__STDC_VERSION__ 201710L")?)?;
    list.push(Event::Start { line: 0, file: 0 })?;
    Ok(list)
}

/// A file with one definition.
fn one_definition(alloc: Global) -> Result<Events, NoMemory> {
    let mut list = beginning(alloc)?;
    list.push(define(alloc, 1, b"N 28")?)?;
    list.push(Event::End)?;
    let mut files = Paths::new(alloc);
    files.push(Bytes::from_slice(alloc, b"a.c")?)?;
    Ok(Events { list, files })
}

/// A file that includes another, which has two definitions.
fn one_piece(alloc: Global) -> Result<Events, NoMemory> {
    let mut list = beginning(alloc)?;
    list.push(Event::Start { line: 1, file: 1 })?;
    list.push(define(alloc, 1, b"A 1")?)?;
    list.push(define(alloc, 2, b"B 2")?)?;
    list.push(Event::End)?;
    list.push(Event::End)?;
    let mut files = Paths::new(alloc);
    files.push(Bytes::from_slice(alloc, b"v.c")?)?;
    files.push(Bytes::from_slice(alloc, b"h.h")?)?;
    Ok(Events { list, files })
}

/// The object of a unit with these events, and the number of its strings.
fn object_of(
    alloc: Global,
    events: Events,
    name: &[u8],
    forms: Forms,
) -> Result<(Bytes, u64), WriteFault> {
    splits_are_exact();
    let made = split(alloc, &events)?;
    let Events { files, .. } = events;
    let unit = UnitInfo {
        name: Bytes::from_slice(alloc, name)?,
        dir: Bytes::from_slice(alloc, b".")?,
        files,
    };
    let bytes = write_object(alloc, &made, &unit, forms)?;
    let written = written_object(alloc, &made, &unit, forms)?;
    Ok((bytes, written.strings))
}

#[test]
fn the_smallest_object_has_its_bytes(rt: HostRuntime) -> Result<(), Fail> {
    let alloc = rt.alloc();
    let forms = Forms {
        strx: false,
        wide: false,
    };
    let (object, strings) = object_of(alloc, one_definition(alloc)?, b"a.c", forms)?;
    assert_eq!(rt; object.as_slice(), OBJECT);
    assert_eq!(rt; strings, 4);
    Ok(())
}

#[test]
fn objects_have_their_sizes_in_each_form(rt: HostRuntime) -> Result<(), Fail> {
    let alloc = rt.alloc();
    let cases = [
        (false, false, 1504, 1952),
        (true, false, 1760, 2216),
        (false, true, 1552, 2016),
        (true, true, 1824, 2288),
    ];
    for (strx, wide, plain, with_piece) in cases {
        let forms = Forms { strx, wide };
        let (object, _) = object_of(alloc, one_definition(alloc)?, b"a.c", forms)?;
        assert_eq!(rt; object.len(), plain);
        let (object, strings) = object_of(alloc, one_piece(alloc)?, b"v.c", forms)?;
        assert_eq!(rt; object.len(), with_piece);
        assert_eq!(rt; strings, 5);
    }
    Ok(())
}

#[test]
fn a_linked_file_has_its_size(rt: HostRuntime) -> Result<(), Fail> {
    let alloc = rt.alloc();
    let parts = LinkedParts {
        macros: Bytes::from_slice(alloc, &[0; 94])?,
        strs: Bytes::from_slice(alloc, &[0; 62])?,
        str_offsets: Bytes::new(alloc),
        lines: Bytes::from_slice(alloc, &[0; 52])?,
        roots: RootList::new(alloc),
        pieces: 1,
        strings: 5,
    };
    let file = write_linked(alloc, &parts)?;
    // the header, the contents with zero bytes to a multiple of 8, and eight section headers
    assert_eq!(rt; file.len(), 64 + 94 + 62 + 52 + 53 + 92 + 7 + 8 * 64);
    Ok(())
}

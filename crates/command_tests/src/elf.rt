use std::alloc::{AllocError, Global};

/// The names of two sections, and of that which holds them.
const NAMES: &[u8] = b"\x00.debug_macro\x00.debug_str\x00.shstrtab\x00";

/// The names of all sections of a written file, and of that which holds them.
const ALL_NAMES: &[u8] =
    b"\x00.debug_macro\x00.debug_str\x00.debug_str_offsets\x00.debug_line\x00.debug_info\x00.debug_abbrev\x00.shstrtab\x00";

/// A section: where its name begins, its type and its bytes.
#[derive(Clone, Copy)]
struct Section<'a> {
    name: u64,
    kind: u64,
    bytes: &'a [u8],
}

/// A linked ELF64 file with a section of macro units, a string section and the names of the sections.
pub fn linked(alloc: Global, macros: &[u8], strs: &[u8]) -> Result<Vec<u8>, AllocError> {
    laid_out(alloc, &[data(1, macros), data(14, strs), names(25, NAMES)])
}

/// A linked ELF64 file with all sections: macro units, line tables, roots and abbreviations, and no strings.
pub fn whole(
    alloc: Global,
    macros: &[u8],
    lines: &[u8],
    info: &[u8],
    abbrevs: &[u8],
) -> Result<Vec<u8>, AllocError> {
    laid_out(
        alloc,
        &[
            data(1, macros),
            data(14, b""),
            data(25, b""),
            data(44, lines),
            data(56, info),
            data(68, abbrevs),
            names(82, ALL_NAMES),
        ],
    )
}

/// A section with contents.
fn data(name: u64, bytes: &[u8]) -> Section<'_> {
    Section {
        name,
        kind: 1,
        bytes,
    }
}

/// The section of names.
fn names(name: u64, bytes: &[u8]) -> Section<'_> {
    Section {
        name,
        kind: 3,
        bytes,
    }
}

/// A file with these sections, the last of which has the names.
fn laid_out(alloc: Global, sections: &[Section<'_>]) -> Result<Vec<u8>, AllocError> {
    let mut file = Vec::from_slice(
        alloc,
        b"\x7fELF\x02\x01\x01\x00\x00\x00\x00\x00\x00\x00\x00\x00",
    )?;
    let mut end = 64u64;
    for section in sections {
        end = end.saturating_add(section.bytes.len() as u64);
    }
    let table = end.saturating_add(7) & !7;
    let count = sections.len() as u64;
    number(&mut file, 2, 2)?;
    number(&mut file, 62, 2)?;
    number(&mut file, 1, 4)?;
    number(&mut file, 0, 8)?;
    number(&mut file, 0, 8)?;
    number(&mut file, table, 8)?;
    number(&mut file, 0, 4)?;
    number(&mut file, 64, 2)?;
    number(&mut file, 0, 4)?;
    number(&mut file, 64, 2)?;
    number(&mut file, count.saturating_add(1), 2)?;
    number(&mut file, count, 2)?;
    for section in sections {
        file.extend_from_slice(section.bytes)?;
    }
    number(&mut file, 0, table.saturating_sub(end) as usize)?;
    put_table(&mut file, sections)?;
    Ok(file)
}

/// Appends the table of sections, which lie one after another from 64 on.
fn put_table(file: &mut Vec<u8>, sections: &[Section<'_>]) -> Result<(), AllocError> {
    put_section(file, [0, 0, 0, 0])?;
    let mut offset = 64u64;
    for section in sections {
        let size = section.bytes.len() as u64;
        put_section(file, [section.name, section.kind, offset, size])?;
        offset = offset.saturating_add(size);
    }
    Ok(())
}

/// Appends the header of a section with this name, type, offset and size.
fn put_section(file: &mut Vec<u8>, [name, kind, offset, size]: [u64; 4]) -> Result<(), AllocError> {
    number(file, name, 4)?;
    number(file, kind, 4)?;
    number(file, 0, 8)?;
    number(file, 0, 8)?;
    number(file, offset, 8)?;
    number(file, size, 8)?;
    number(file, 0, 8)?;
    number(file, 1, 8)?;
    number(file, 0, 8)
}

/// Appends the lowest bytes of a number.
fn number(file: &mut Vec<u8>, value: u64, width: usize) -> Result<(), AllocError> {
    let bytes = value.to_le_bytes();
    for i in 0..width {
        file.push(bytes.get(i).copied().unwrap_or(0))?;
    }
    Ok(())
}

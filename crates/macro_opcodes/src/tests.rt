use crate::{OutEntry, write_entry};
use std::test::Fail;
use unit_header::write_header;

#[test]
fn a_macro_unit_is_written_entry_by_entry(rt: HostRuntime) -> Result<(), Fail> {
    let mut unit = Vec::new(rt.alloc());
    write_header(&mut unit, Some(0x20), false)?;
    let entries: [OutEntry<'_>; 5] = [
        OutEntry::Start { line: 0, file: 1 },
        OutEntry::Define {
            line: 300,
            text: b"A 1",
        },
        OutEntry::UndefStr { line: 2, at: 9 },
        OutEntry::Import { at: 0x0102 },
        OutEntry::End,
    ];
    for e in entries.iter() {
        write_entry(&mut unit, e, false)?;
    }
    write_entry(&mut unit, &OutEntry::Import { at: 7 }, true)?;
    let wanted: &[u8] =
        b"\x05\0\x02\x20\0\0\0\x03\0\x01\x01\xac\x02A 1\0\x06\x02\x09\0\0\0\x07\x02\x01\0\0\x04\x07\x07\0\0\0\0\0\0\0";
    assert_eq!(rt; unit.as_slice(), wanted);
    Ok(())
}

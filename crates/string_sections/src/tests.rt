use crate::{OffsetsView, StrFault, StrPool, Strings, string_at, write_offsets};
use std::test::Fail;

#[test]
fn strings_end_at_their_nul(rt: HostRuntime) -> Result<(), Fail> {
    let section = b"A 1\0\0B\0open";
    let found: [Option<&[u8]>; 12] = [
        Some(b"A 1"),
        Some(b" 1"),
        Some(b"1"),
        Some(b""),
        Some(b""),
        Some(b"B"),
        Some(b""),
        None,
        None,
        None,
        None,
        None,
    ];
    let strings = Strings::new(section);
    for (off, text) in found.iter().enumerate() {
        assert_eq!(rt; string_at(section, off as u64).ok(), *text);
        assert_eq!(rt; strings.is_string(off as u64), text.is_some());
    }
    assert_eq!(rt; string_at(section, u64::MAX), Err(StrFault::Range));
    assert!(rt; !strings.is_string(u64::MAX));
    assert!(rt; !Strings::new(b"").is_string(0));
    Ok(())
}

#[test]
fn entries_follow_the_base(rt: HostRuntime) -> Result<(), Fail> {
    let section = [8, 0, 0, 0, 5, 0, 0, 0, 4, 3, 2, 1, 8, 7, 6, 5];
    let narrow = OffsetsView::new(&section, false);
    assert_eq!(rt; narrow.at(8, 0), Ok(0x0102_0304));
    assert_eq!(rt; narrow.at(8, 1), Ok(0x0506_0708));
    assert_eq!(rt; narrow.at(8, 2), Err(StrFault::Range));
    assert_eq!(rt; narrow.at(13, 0), Err(StrFault::Range));
    assert_eq!(rt; narrow.at(u64::MAX, 1), Err(StrFault::Range));
    assert_eq!(rt; narrow.at(0, 1 << 62), Err(StrFault::Range));
    let wide = OffsetsView::new(&section, true);
    assert_eq!(rt; wide.at(8, 0), Ok(0x0506_0708_0102_0304));
    assert_eq!(rt; wide.at(8, 1), Err(StrFault::Range));
    Ok(())
}

#[test]
fn written_offsets_are_zero(rt: HostRuntime) -> Result<(), Fail> {
    let mut bytes = Vec::new(rt.alloc());
    write_offsets(&mut bytes, 2, false)?;
    write_offsets(&mut bytes, 1, true)?;
    assert_eq!(rt;
        bytes.as_slice(),
        b"\x0c\0\0\0\x05\0\0\0\0\0\0\0\0\0\0\0\xff\xff\xff\xff\x0c\0\0\0\0\0\0\0\x05\0\0\0\0\0\0\0\0\0\0\0".as_slice()
    );
    assert_eq!(rt; OffsetsView::new(bytes.as_slice(), true).at(32, 0), Ok(0));
    Ok(())
}

#[test]
fn equal_strings_share_an_offset(rt: HostRuntime) -> Result<(), Fail> {
    let mut pool = StrPool::new(rt.alloc());
    let added: [&[u8]; 8] = [b"A 1", b"", b"A 10", b"A", b"A 1", b"", b"1", b"A 10"];
    let offsets = [0, 4, 5, 10, 0, 4, 12, 5];
    for (text, offset) in added.iter().zip(offsets.iter()) {
        assert!(rt; pool.add(text).is_ok_and(|found| found == *offset));
    }
    assert_eq!(rt; pool.count(), 5);
    assert_eq!(rt;
        pool.bytes()?.as_slice(),
        b"A 1\0\0A 10\0A\x001\0".as_slice()
    );
    assert_eq!(rt;
        pool.into_bytes().as_slice(),
        b"A 1\0\0A 10\0A\x001\0".as_slice()
    );
    Ok(())
}

#[test]
fn new_pool_is_empty(rt: HostRuntime) -> Result<(), Fail> {
    let mut pool = StrPool::new(rt.alloc());
    assert_eq!(rt; pool.count(), 0);
    assert_eq!(rt; pool.bytes()?.len(), 0);
    assert!(rt; pool.add(b"").is_ok_and(|found| found == 0));
    assert_eq!(rt; pool.count(), 1);
    assert_eq!(rt; pool.bytes()?.as_slice(), b"\0".as_slice());
    Ok(())
}

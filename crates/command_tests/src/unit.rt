use crate::elf::linked;
use crate::stage::{check, prints, refuses};
use std::test::Fail;

/// A unit with one entry, whose text is at 4 of the string section.
const MACROS: &[u8] = b"\x05\x00\x00\x05\x07\x04\x00\x00\x00\x00";

/// The same, whose text would be after the string section.
const FAR: &[u8] = b"\x05\x00\x00\x05\x07\x08\x00\x00\x00\x00";

const STRS: &[u8] = b"A 1\x00B 2\x00";

#[test]
fn unit_resolves_strings(rt: HostRuntime) -> Result<(), Fail> {
    let file = linked(rt.alloc(), MACROS, STRS)?;
    for offset in [b"0x0".as_slice(), b"0x0000000000000000"] {
        let words = [b"unit".as_slice(), b"f", offset];
        let case = prints(&words, b"f", file.as_slice(), b"0x3 define_strp 7 B 2\n");
        check(&rt, rt.alloc(), &case)?;
    }
    Ok(())
}

#[test]
fn unit_names_the_first_fault(rt: HostRuntime) -> Result<(), Fail> {
    let good = linked(rt.alloc(), MACROS, STRS)?;
    let far = linked(rt.alloc(), FAR, STRS)?;
    for (file, offset, err) in [
        (
            &good,
            b"0xa".as_slice(),
            b"dwmac: f: Unit ImportRange at 0xa\n".as_slice(),
        ),
        (
            &good,
            b"0xFFFFffffFFFFffff",
            b"dwmac: f: Unit ImportRange at 0xffffffffffffffff\n",
        ),
        (&good, b"0x1", b"dwmac: f: Unit Version at 0x1\n"),
        (&good, b"0x9", b"dwmac: f: Unit Cut at 0x9\n"),
        (&far, b"0x0", b"dwmac: f: Unit StrRange at 0x3\n"),
    ] {
        let words = [b"unit".as_slice(), b"f", offset];
        let case = refuses(&words, b"f", file.as_slice(), err);
        check(&rt, rt.alloc(), &case)?;
    }
    Ok(())
}

#[test]
fn unit_names_the_fault_of_the_headers(rt: HostRuntime) -> Result<(), Fail> {
    let good = linked(rt.alloc(), MACROS, STRS)?;
    for (place, byte, err) in [
        (1, b'F', b"dwmac: f: Elf NotElf\n".as_slice()),
        (4, 1, b"dwmac: f: Elf Class\n"),
        (5, 2, b"dwmac: f: Elf Order\n"),
        (16, 1, b"dwmac: f: Elf Kind\n"),
        (60, 0, b"dwmac: f: Elf Extended\n"),
        (58, 63, b"dwmac: f: Elf Table at 0x3a\n"),
        (60, 200, b"dwmac: f: Elf Table at 0x78\n"),
        (62, 7, b"dwmac: f: Elf Name section 7\n"),
    ] {
        let mut bad = Vec::from_slice(rt.alloc(), good.as_slice())?;
        assert!(&rt; place < bad.len());
        bad[place] = byte;
        let words = [b"unit".as_slice(), b"f", b"0x0"];
        let case = refuses(&words, b"f", bad.as_slice(), err);
        check(&rt, rt.alloc(), &case)?;
    }
    Ok(())
}

use crate::stage::{Case, check, prints, refuses};
use dwmac_run::Status;
use std::test::Fail;

const RAW: [&[u8]; 2] = [b"raw", b"t"];

#[test]
fn raw_prints_a_line_for_each_entry(rt: HostRuntime) -> Result<(), Fail> {
    for (file, out) in [
        (
            b"\x05\x00\x00\x01\x04N 28\x00\x00".as_slice(),
            b"0x3 define 4 N 28\n".as_slice(),
        ),
        (b"\x05\x00\x00\x00", b""),
        (
            b"\x05\x00\x00\x03\x00\x00\x02\x07A\x00\x04\x00",
            b"0x3 start_file 0 0\n0x6 undef 7 A\n0xa end_file\n",
        ),
        (
            b"\x05\x00\x00\x01\x81\x00A\x00\x00 and more",
            b"0x3 define 1 A\n",
        ),
        (
            b"\x05\x00\x00\x01\xff\xff\xff\xff\xff\xff\xff\xff\xff\x01A\n\xffB\x00\x00",
            b"0x3 define 18446744073709551615 A\n\xffB\n",
        ),
    ] {
        check(&rt, rt.alloc(), &prints(&RAW, b"t", file, out))?;
    }
    Ok(())
}

#[test]
fn raw_prints_all_forms_of_entries(rt: HostRuntime) -> Result<(), Fail> {
    for (file, out) in [
        (
            b"\x05\x00\x04\x01\xe1\x02\x0f\x0a\x01\x01A 1\x00\xe1\x81\x01\x02\xaa\xbb\x01\x02B 2\x00\x00".as_slice(),
            b"0x8 define 1 A 1\n0xe vendor 0xe1\n0x14 define 2 B 2\n".as_slice(),
        ),
        (
            b"\x05\x00\x00\x05\x07\x04\x00\x00\x00\x00",
            b"0x3 define_strp 7 0x4\n",
        ),
        (
            b"\x05\x00\x03\x01\x00\x00\x00\x00\x00\x00\x00\x06\x02\xff\x00\x00\x00\x00\x00\x00\x00\x07\x10\x00\x00\x00\x00\x00\x00\x00\x00",
            b"0xb undef_strp 2 0xff\n0x15 import 0x10\n",
        ),
        (
            b"\x05\x00\x02\x00\x00\x00\x00\x08\x01\x02\x00\x00\x00\x09\x01\x03\x00\x00\x00\x0a\x04\x00\x00\x00\x0b\x05\x06\x0c\x05\x07\x00",
            b"0x7 define_sup 1 0x2\n0xd undef_sup 1 0x3\n0x13 import_sup 0x4\n0x18 define_strx 5 6\n0x1b undef_strx 5 7\n",
        ),
        (
            b"\x05\x00\x04\x01\x01\x02\x0f\x08\x01\x01A\x00\x00",
            b"0x8 define 1 A\n",
        ),
        (
            b"\x05\x00\x04\x01\x0d\x04\x0d\x1e\x0c\x27\x0d\x7f0123456789abcdef\x01abc\x00",
            b"0xa vendor 0xd\n",
        ),
    ] {
        check(&rt, rt.alloc(), &prints(&RAW, b"t", file, out))?;
    }
    Ok(())
}

#[test]
fn raw_names_the_first_fault(rt: HostRuntime) -> Result<(), Fail> {
    for (file, err) in [
        (
            b"\x05\x00\x00\x01\x04N".as_slice(),
            b"dwmac: t: Unit NoNul at 0x5\n".as_slice(),
        ),
        (
            b"\x05\x00\x00\x01\x01A 1\x00\xe1\x00",
            b"dwmac: t: Unit Opcode at 0x9\n",
        ),
        (b"", b"dwmac: t: Unit Cut at 0x0\n"),
        (b"\x05", b"dwmac: t: Unit Cut at 0x0\n"),
        (b"\x06\x00\x00\x00", b"dwmac: t: Unit Version at 0x0\n"),
        (b"\x05\x00\x08\x00", b"dwmac: t: Unit Flags at 0x2\n"),
        (b"\x05\x00", b"dwmac: t: Unit Cut at 0x2\n"),
        (b"\x05\x00\x02\x00\x00", b"dwmac: t: Unit Cut at 0x3\n"),
        (b"\x05\x00\x00", b"dwmac: t: Unit Cut at 0x3\n"),
        (
            b"\x05\x00\x04\x01\x00\x00\x00",
            b"dwmac: t: Unit OperandTable at 0x4\n",
        ),
        (
            b"\x05\x00\x04\x02\xe1\x00\xe1\x00\x00",
            b"dwmac: t: Unit OperandTable at 0x6\n",
        ),
        (
            b"\x05\x00\x04\x01\x01\x01\x0f\x00",
            b"dwmac: t: Unit OperandTable at 0x4\n",
        ),
        (
            b"\x05\x00\x04\x01\x01\x02\x99\x08",
            b"dwmac: t: Unit OperandTable at 0x4\n",
        ),
        (
            b"\x05\x00\x04\x01\x01\x02\x0f",
            b"dwmac: t: Unit Cut at 0x7\n",
        ),
        (
            b"\x05\x00\x04\x01\xe1\x01\x99\x00",
            b"dwmac: t: Unit Form at 0x6\n",
        ),
        (
            b"\x05\x00\x04\x01\xe1\x01\x19\x00",
            b"dwmac: t: Unit Form at 0x6\n",
        ),
        (
            b"\x05\x00\x00\x01\x80\x80\x80\x80\x80\x80\x80\x80\x80\x02A\x00\x00",
            b"dwmac: t: Unit Leb at 0x4\n",
        ),
        (
            b"\x05\x00\x00\x05\x07\x04\x00",
            b"dwmac: t: Unit Cut at 0x5\n",
        ),
    ] {
        check(&rt, rt.alloc(), &refuses(&RAW, b"t", file, err))?;
    }
    Ok(())
}

#[test]
fn raw_refuses_a_missing_file(rt: HostRuntime) -> Result<(), Fail> {
    let missing = refuses(
        &[b"raw", b"n"],
        b"t",
        b"\x05\x00\x00\x00",
        b"dwmac: n: NoSuchFile\n",
    );
    check(&rt, rt.alloc(), &missing)
}

#[test]
fn other_words_are_misuse(rt: HostRuntime) -> Result<(), Fail> {
    for words in [
        [].as_slice(),
        [b"raw".as_slice()].as_slice(),
        [b"raw".as_slice(), b""].as_slice(),
        [b"raw".as_slice(), b"t\x00"].as_slice(),
        [b"raw".as_slice(), b"-t"].as_slice(),
        [b"raw".as_slice(), b"t", b"t"].as_slice(),
        [b"list".as_slice(), b"t", b"0"].as_slice(),
        [b"--help".as_slice(), b"raw"].as_slice(),
        [b"unit".as_slice(), b"t"].as_slice(),
        [b"unit".as_slice(), b"t", b"0"].as_slice(),
        [b"unit".as_slice(), b"t", b"0x"].as_slice(),
        [b"unit".as_slice(), b"t", b"0x12345678123456781"].as_slice(),
        [b"unit".as_slice(), b"t", b"0xg"].as_slice(),
    ] {
        let case = Case {
            status: Status::Usage,
            ..refuses(words, b"t", b"\x05\x00\x00\x00", b"dwmac: usage\n")
        };
        check(&rt, rt.alloc(), &case)?;
    }
    Ok(())
}

#[test]
fn help_and_version_are_printed(rt: HostRuntime) -> Result<(), Fail> {
    let help =
        b"usage: dwmac raw FILE\n       dwmac unit FILE OFF\n       dwmac dump FILE\n       dwmac info FILE POS NAME\n       dwmac list FILE POS\n       dwmac expand FILE POS TEXT\n       dwmac once FILE POS TEXT\n       dwmac events [-I DIR].. [-D DEF].. [-U NAME].. SRC\n       dwmac record [-I DIR].. [-D DEF].. [-U NAME].. [--strx] [--dwarf64] -o FILE SRC\n       dwmac --help\n       dwmac --version\nThe words of -I, -D, -U and -o stand apart: -D X=1\n";
    check(&rt, rt.alloc(), &prints(&[b"--help"], b"t", b"", help))?;
    check(
        &rt,
        rt.alloc(),
        &prints(&[b"--version"], b"t", b"", b"dwmac 0.1.0\n"),
    )
}

use crate::{
    Bytes, Cursor, CursorFault, Event, Extent, ExtentFault, Form, ReportBuilder, Sizes, Value,
    end_of_strings, extent_at, form_of, number_of, push_fixed, push_offset, push_uleb, read_value,
};
use std::test::Fail;

const NARROW: Sizes = Sizes {
    wide: false,
    address: 4,
};

#[test]
fn a_form_says_which_bytes_a_value_has(rt: HostRuntime) -> Result<(), Fail> {
    let bytes = b"?\x03\x02\x01\0efgh\0";
    let rows: [(u64, Value<'_>, usize); 8] = [
        (0x01, Value::Bytes(b"\x03\x02\x01\0"), 5),
        (0x08, Value::Text(b"\x03\x02\x01"), 5),
        (0x0a, Value::Bytes(b"\x02\x01\0"), 5),
        (0x0d, Value::Signed(3), 2),
        (0x17, Value::Number(0x0001_0203), 5),
        (0x19, Value::Nothing, 1),
        (0x24, Value::Number(0x6867_6665_0001_0203), 9),
        (0x27, Value::Number(0x0001_0203), 4),
    ];
    for (code, value, end) in rows.iter() {
        let mut cursor = Cursor::new(bytes, 1);
        let form = form_of(*code).ok_or("an unknown form")?;
        assert_eq!(rt; read_value(&mut cursor, form, NARROW)?, *value);
        assert_eq!(rt; cursor.at(), *end);
    }
    let mut cursor = Cursor::new(bytes, 1);
    let wide = Sizes {
        wide: true,
        address: 2,
    };
    assert_eq!(rt;
        read_value(&mut cursor, Form::Strp, wide)?,
        Value::Number(0x6867_6665_0001_0203)
    );
    assert_eq!(rt;
        read_value(&mut cursor, Form::Block1, wide)?,
        Value::Bytes(b"")
    );
    let mut cursor = Cursor::new(bytes, 1);
    // The bytes of a block are a field of their own.
    assert_eq!(rt;
        read_value(&mut cursor, Form::Block2, wide).err(),
        Some(CursorFault::Cut { at: 3 })
    );
    assert_eq!(rt; cursor.at(), 1);
    assert_eq!(rt; form_of(0x02), None);
    assert_eq!(rt; form_of(0x16), None);
    assert_eq!(rt; form_of(0x2d), None);
    Ok(())
}

#[test]
fn a_unit_ends_in_its_section(rt: HostRuntime) -> Result<(), Fail> {
    let narrow = extent_at(b"?\x02\0\0\0ab?", 1);
    assert_eq!(rt;
        narrow,
        Ok(Extent {
            wide: false,
            start: 5,
            end: 7
        })
    );
    let wide = extent_at(b"\xff\xff\xff\xff\x01\0\0\0\0\0\0\0a", 0);
    assert_eq!(rt;
        wide,
        Ok(Extent {
            wide: true,
            start: 12,
            end: 13
        })
    );
    let rows: [(&[u8], usize, ExtentFault); 7] = [
        (b"", 0, ExtentFault::Cut { at: 0 }),
        (b"\0\0\0\0", 9, ExtentFault::Cut { at: 9 }),
        (b"\x01\0\0", 0, ExtentFault::Cut { at: 0 }),
        (b"?\x03\0\0\0ab", 1, ExtentFault::Cut { at: 1 }),
        (
            b"\xff\xff\xff\xff\0\0\0\0\0\0\0",
            0,
            ExtentFault::Cut { at: 4 },
        ),
        (
            b"\xff\xff\xff\xff\xff\xff\xff\xff\xff\xff\xff\xff",
            0,
            ExtentFault::Cut { at: 0 },
        ),
        (b"\xfe\xff\xff\xff", 0, ExtentFault::Length { at: 0 }),
    ];
    for (section, at, fault) in rows.iter() {
        assert_eq!(rt; extent_at(section, *at).err(), Some(*fault));
    }
    Ok(())
}

#[test]
fn numbers_are_written_lowest_digit_first(rt: HostRuntime) -> Result<(), Fail> {
    let mut bytes = Vec::new(rt.alloc());
    push_uleb(&mut bytes, 0)?;
    push_uleb(&mut bytes, 127)?;
    // The example of figure 22 of DWARF 5.
    push_uleb(&mut bytes, 12857)?;
    push_uleb(&mut bytes, u64::MAX)?;
    push_fixed(&mut bytes, 0x0102, 2)?;
    push_fixed(&mut bytes, 7, 4)?;
    let wanted: &[u8] = b"\0\x7f\xb9\x64\xff\xff\xff\xff\xff\xff\xff\xff\xff\x01\x02\x01\x07\0\0\0";
    assert_eq!(rt; bytes.as_slice(), wanted);
    Ok(())
}

#[test]
fn digits_spell_numbers_below_2_to_the_64(rt: HostRuntime) -> Result<(), Fail> {
    assert_eq!(rt; number_of(16, b"1aF"), Some(0x1af));
    assert_eq!(rt; number_of(10, b"18446744073709551615"), Some(u64::MAX));
    assert_eq!(rt; number_of(10, b"18446744073709551616"), None);
    assert_eq!(rt; number_of(8, b"18"), None);
    assert_eq!(rt; end_of_strings(b"a\0b\0c"), 4);
    assert_eq!(rt; end_of_strings(b"abc"), 0);
    Ok(())
}

#[test]
fn a_report_is_made_line_by_line(rt: HostRuntime) -> Result<(), Fail> {
    let mut report = ReportBuilder::new(rt.alloc());
    let paths = vec![in rt.alloc(); Bytes::from_slice(rt.alloc(), b"a.c")?]?;
    report.add_event(paths.as_slice(), &Event::Start { line: 0, file: 0 })?;
    report.add_item(b"undef", 12, b"A")?;
    report.add_event(paths.as_slice(), &Event::End)?;
    push_offset(&mut report.text, 255)?;
    let text = report.finish().ok_or("too long")?;
    let wanted: &[u8] = b"start 0 a.c\nundef 12 A\nend\n 0xff";
    assert_eq!(rt; text.as_slice(), wanted);
    Ok(())
}

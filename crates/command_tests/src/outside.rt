use crate::stage::{Case, check, prints};
use dwmac_run::Status;
use std::test::Fail;

const RAW: [&[u8]; 2] = [b"raw", b"t"];

const UNIT: &[u8] = b"\x05\x00\x00\x03\x00\x00\x02\x07A\x00\x04\x00";

const FAULT: &[u8] = b"dwmac: outside fault\n";

#[test]
fn a_failing_shelf_or_sink_ends_the_run(rt: HostRuntime) -> Result<(), Fail> {
    let failed = Case {
        status: Status::Outside,
        err: FAULT,
        ..prints(&RAW, b"t", UNIT, b"")
    };
    let no_unit = Case {
        file: b"",
        ..failed
    };
    for case in [
        Case {
            shelf_fails: &[1],
            ..failed
        },
        Case {
            out_fails: &[1],
            ..failed
        },
        Case {
            out_fails: &[2],
            out: b"0x3 start_file 0 0\n",
            ..failed
        },
        Case {
            err_fails: &[1],
            ..no_unit
        },
        Case {
            err_fails: &[2],
            err: b"dwmac:dwmac: outside fault\n",
            ..no_unit
        },
        Case {
            err_fails: &[1, 2],
            err: b"",
            ..no_unit
        },
        Case {
            words: &[],
            err_fails: &[1],
            ..failed
        },
    ] {
        check(&rt, rt.alloc(), &case)?;
    }
    Ok(())
}

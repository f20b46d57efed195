ghost use Rattle.std.specs.Prelude.{◌≡◌, ◌≢◌, ◌↔◌, [], IsTrue};
ghost use Rattle.std.specs.Io.KnownBytes.{Keeps};
ghost use Rattle.mac_io.specs.System.{taken};

use dwmac_run::Status;
use mac_io::{Sink, StdSink, Wrote};
use std::io::Write;

/// Flushes both streams. A flush that fails makes the status that of an outside fault; one of `out` is told on `err`, unless
/// the run has told an outside fault already.
pub fn finish<O: Write + Drop, E: Write + Drop>(
    status: Status,
    out: &mut StdSink<O>,
    err: &mut StdSink<E>,
) -> Status
    ensures handed_on { result ≢ Status.Outside → (out.new.waiting ≡ []) × (err.new.waiting ≡ []) × (result ≡ status) }
    ensures kept { Keeps (taken out.old) (taken out.new) }
{
    let flushed = out.flush();
    if is_untold(status, flushed) {
        let _ = err.write(b"dwmac: outside fault\n");
    }
    match (flushed, err.flush()) {
        (Wrote::Done, Wrote::Done) => status,
        _ => Status::Outside,
    }
}

/// Whether a stream failed, and the run has told no outside fault.
fn is_untold(status: Status, flushed: Wrote) -> bool
    ensures { IsTrue result ↔ ((status ≢ Status.Outside) × (flushed ≡ Wrote.Failed)) }
{
    status != Status::Outside && flushed == Wrote::Failed
}

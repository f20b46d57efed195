ghost use Rattle.std.specs.Prelude.{◌≡◌, ◌≤◌, ◌≢◌, ◌⊎◌};
ghost use Rattle.mac_io.specs.Causes.{HasCause, Rose};
ghost use Rattle.mac_io.specs.Calls.{grown, GrowsByFront};
ghost use Rattle.dwmac_run.specs.Pieces.{line_text, line_pieces};
ghost use Rattle.dwmac_run.specs.Refusals.{outside_line};
ghost use Rattle.dwmac_run.specs.Storing.{PutsAll};
ghost use Rattle.dwmac_run.specs.Outcome.{answer_of, Ends, EndsSaying, EndsPrinting, HasFailed};

use crate::line::{FaultLine, of_text};
use crate::outcome::{NewFile, Outcome};
use crate::printing::{write_line, write_lines};
use crate::status::Status;
use mac_io::{Put, Shelf, Sink, Wrote};

/// Stores the files of an outcome, prints it, and says how the run ends. Takes no memory, unless the shelf does.
pub fn finish<S: Shelf, O: Sink, E: Sink>(
    outcome: Outcome,
    shelf: &mut S,
    out: &mut O,
    err: &mut E,
) -> Status
    ensures ends { Ends (answer_of outcome) result
        (record { files = S.files shelf.old; faults = S.count shelf.old; out = O.text out.old; err = E.text err.old })
        (record { files = S.files shelf.new; faults = S.count shelf.new; out = O.text out.new; err = E.text err.new }) }
    ensures whole { result ≡ Status.Outside → (Rose (E.count err.old) (E.count err.new) → ⊥) → E.text err.new ≡ grown (E.text err.old) outside_line }
    ensures shelf { S.count shelf.old ≤ S.count shelf.new }
    ensures out { O.count out.old ≤ O.count out.new }
    ensures err { E.count err.old ≤ E.count err.new }
    ensures cause { result ≡ Status.Outside →
        HasFailed outcome ⊎ (Rose (S.count shelf.old) (S.count shelf.new) ⊎ (Rose (O.count out.old) (O.count out.new) ⊎ Rose (E.count err.old) (E.count err.new))) }
    ensures failed { HasFailed outcome → result ≡ Status.Outside }
    ensures kept { result ≢ Status.Outside → (S.count shelf.new ≡ S.count shelf.old) × (O.count out.new ≡ O.count out.old) × (E.count err.new ≡ E.count err.old) }
{
    match outcome {
        Outcome::Report(text) => print(out, err, text.as_slice()),
        Outcome::Written(files, text) => match put_all(shelf, files.as_slice()) {
            Put::Done => print(out, err, text.as_slice()),
            Put::Failed => outside(err),
            Put::NoMemory => say(err, &of_text(b"no memory"), Status::NoMemory),
        },
        Outcome::Refused(refusal) => say(err, &refusal.line(), Status::Refused),
        Outcome::Usage => say(err, &of_text(b"usage"), Status::Usage),
        Outcome::NoMemory => say(err, &of_text(b"no memory"), Status::NoMemory),
        Outcome::Failed => outside(err),
    }
}

/// Stores files in order, up to the first that can't be stored.
fn put_all<S: Shelf>(shelf: &mut S, files: &[NewFile]) -> Put
    ensures answer { PutsAll files.now (S.files shelf.old) (S.files shelf.new) result }
    ensures cause { HasCause (S.count shelf.old) (S.count shelf.new) (result ≡ Put.Failed) }
{
    for file in files {
        match shelf.put(file.name.as_slice(), file.bytes.as_slice()) {
            Put::Done => (),
            Put::Failed => return Put::Failed,
            Put::NoMemory => return Put::NoMemory,
        }
    }
    Put::Done
}

/// Prints a text.
fn print<O: Sink, E: Sink>(out: &mut O, err: &mut E, text: &[u8]) -> Status
    ensures printed { EndsPrinting text.now result (O.text out.old) (O.text out.new) (E.text err.old) (E.text err.new) }
    ensures whole { result ≡ Status.Outside → (Rose (E.count err.old) (E.count err.new) → ⊥) → E.text err.new ≡ grown (E.text err.old) outside_line }
    ensures out { HasCause (O.count out.old) (O.count out.new) (result ≡ Status.Outside) }
    ensures err { E.count err.old ≤ E.count err.new }
    ensures kept { result ≢ Status.Outside → E.count err.new ≡ E.count err.old }
{
    match write_lines(out, text) {
        Wrote::Done => Status::Ok,
        Wrote::Failed => outside(err),
    }
}

/// Prints a line, and ends with the status.
fn say<E: Sink>(err: &mut E, line: &FaultLine<'_>, status: Status) -> Status
    requires { status ≢ Status.Outside }
    ensures said { EndsSaying (line_text (line_pieces line.now)) status result (E.text err.old) (E.text err.new) }
    ensures cause { HasCause (E.count err.old) (E.count err.new) (result ≡ Status.Outside) }
{
    match write_line(err, line) {
        Wrote::Done => status,
        Wrote::Failed => outside(err),
    }
}

/// Prints that the outside failed.
fn outside<E: Sink>(err: &mut E) -> Status
    ensures status { result ≡ Status.Outside }
    ensures text { GrowsByFront (E.text err.old) (E.text err.new) outside_line }
    ensures whole { (Rose (E.count err.old) (E.count err.new) → ⊥) → E.text err.new ≡ grown (E.text err.old) outside_line }
    ensures later { E.count err.old ≤ E.count err.new }
{
    let _ = write_line(err, &of_text(b"outside fault"));
    Status::Outside
}

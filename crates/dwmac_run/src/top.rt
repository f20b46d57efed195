ghost use Rattle.std.specs.Prelude.{◌≡◌, ◌≢◌, ◌≤◌, ◌⊎◌, []};
ghost use Rattle.mac_io.specs.Causes.{Rose};
ghost use Rattle.mac_io.specs.Calls.{grown};
ghost use Rattle.dwmac_run.specs.Command.{request_of, StoresNothing};
ghost use Rattle.dwmac_run.specs.Roots.{IsPathFor};
ghost use Rattle.dwmac_run.specs.Answers.{Answer};
ghost use Rattle.dwmac_run.specs.Answer.{IsAnswer, IsTold};
ghost use Rattle.dwmac_run.specs.Refusals.{outside_line};
ghost use Rattle.dwmac_run.specs.Leaves.{Leaves};

use crate::finish::finish;
use crate::perform::perform;
use crate::status::Status;
use mac_base::Paths;
use mac_io::{Headers, Shelf, Sink};
use std::alloc::Global;

/// Does what the words of a command line ask for. Files go to the shelf, then a report to `out`; the line of a refusal goes
/// to `err`. All are written after the whole answer is known, without taking memory. `Status` says how it ended.
pub fn run<P: Headers, S: Shelf, O: Sink, E: Sink>(
    alloc: Global,
    words: &Paths,
    path: &mut P,
    shelf: &mut S,
    out: &mut O,
    err: &mut E,
) -> Status
    requires { IsPathFor words.now (P.stores path.old) }

    // The words and the files have an answer, and the run ends and leaves the shelf and the texts as that answer calls for.
    ensures answered { (answer : Answer) × IsAnswer words.now (S.files shelf.old) (P.stores path.old) answer × Leaves answer result
        (record { files = S.files shelf.old; faults = S.count shelf.old; out = O.text out.old; err = E.text err.old })
        (record { files = S.files shelf.new; faults = S.count shelf.new; out = O.text out.new; err = E.text err.new }) }

    // Where what the words ask for is read from told files (the shelf for a query, the stores for a translation unit) it has no other
    // answer: so `Ok`, `Refused` and `Usage` come exactly where the words and the files call for them, unless memory runs out or the
    // outside fails.
    ensures only { IsTold words.now (S.files shelf.old) (P.stores path.old) → (answer : Answer) → IsAnswer words.now (S.files shelf.old) (P.stores path.old) answer → Leaves answer result
        (record { files = S.files shelf.old; faults = S.count shelf.old; out = O.text out.old; err = E.text err.old })
        (record { files = S.files shelf.new; faults = S.count shelf.new; out = O.text out.new; err = E.text err.new }) }

    // The outside is blamed only where a call on it failed.
    ensures outside { result ≡ Status.Outside → (Rose (P.count path.old) (P.count path.new) ⊎ Rose (S.count shelf.old) (S.count shelf.new))
        ⊎ (Rose (O.count out.old) (O.count out.new) ⊎ Rose (E.count err.old) (E.count err.new)) }

    // Where the outside is blamed and no write to `err` failed, `err` grew by the whole line on that.
    ensures blamed { result ≡ Status.Outside → (Rose (E.count err.old) (E.count err.new) → ⊥) → E.text err.new ≡ grown (E.text err.old) outside_line }

    // No failure is passed over: where the outside is not blamed, no call on it failed.
    ensures kept { result ≢ Status.Outside → (P.count path.new ≡ P.count path.old) × (S.count shelf.new ≡ S.count shelf.old)
        × (O.count out.new ≡ O.count out.old) × (E.count err.new ≡ E.count err.old) }

    // Only what writes a file changes the shelf.
    ensures files { StoresNothing (request_of words.now) → S.files shelf.new ≡ S.files shelf.old }

    // No store is left on the path, and no count has fallen.
    ensures stores { P.stores path.new ≡ [] }
    ensures counts { (P.count path.old ≤ P.count path.new) × (S.count shelf.old ≤ S.count shelf.new)
        × (O.count out.old ≤ O.count out.new) × (E.count err.old ≤ E.count err.new) }
{
    let outcome = perform(alloc, words, path, shelf);
    path.clear();
    finish(outcome, shelf, out, err)
}

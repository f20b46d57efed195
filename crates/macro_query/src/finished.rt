ghost use Rattle.std.specs.Prelude.{◌≡◌, List, ℕ};
ghost use Rattle.mac_base.specs.ReportText.{Tells};
ghost use Rattle.macro_query.specs.Limits.{limited};

use crate::fault::QueryFault;
use mac_base::{Bytes, ReportBuilder};

/// The report, or that it is too long.
pub fn finished(report: ReportBuilder) -> Result<Bytes, QueryFault>
    ensures { (whole : List ℕ) → Tells report.is_long report.text.items whole → result ≡ limited whole }
{
    match report.finish() {
        Some(text) => Ok(text),
        None => Err(QueryFault::ReportTooLong),
    }
}

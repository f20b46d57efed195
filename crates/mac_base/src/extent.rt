ghost use Rattle.std.specs.Prelude.{◌≡◌, ◌≤◌, length, IfOk};
ghost use Rattle.mac_base.specs.Extents.{extent_of, bounded_by};

use crate::cursor::Cursor;
use thiserror::Error;

/// Where a unit's fields lie in its section.
#[derive(Clone, Copy, Debug, PartialEq, Eq)]
pub struct Extent {
    /// Whether the unit is in the 64-bit format, in which lengths and offsets have 8 bytes.
    pub wide: bool,
    /// The first byte after the length.
    pub start: usize,
    /// The byte after the unit's last.
    pub end: usize,
}

/// Why a unit's length can't be taken.
#[derive(Clone, Copy, Debug, PartialEq, Eq, Error)]
pub enum ExtentFault {
    /// The length is cut off, or the unit runs past the section, which is named by the unit's first byte.
    #[error("Cut at {at:#x}")]
    Cut { at: u64 },
    /// A reserved length, from 0xfffffff0 to 0xfffffffe.
    #[error("Length at {at:#x}")]
    Length { at: u64 },
}

/// Reads the length of the unit at a place of its section (unit_length: 7.2.2, 7.4).
pub fn extent_at(section: &[u8], at: usize) -> Result<Extent, ExtentFault>
    ensures extent { result ≡ extent_of section.now at }
    ensures within { IfOk result (λ e. (e.start ≤ e.end) × (e.end ≤ length section.now)) }
{
    let cut = ExtentFault::Cut { at: at as u64 };
    if section.len() < at {
        return Err(cut);
    }
    let mut cursor = Cursor::new(section, at);
    let Ok(length) = cursor.u32() else {
        return Err(cut);
    };
    if length < 0xffff_fff0 {
        return bounded(section, at, false, cursor.at(), u64::from(length));
    }
    if length != 0xffff_ffff {
        return Err(ExtentFault::Length { at: at as u64 });
    }
    let after_mark = cursor.at();
    match cursor.u64() {
        Ok(length) => bounded(section, at, true, cursor.at(), length),
        Err(_) => Err(ExtentFault::Cut {
            at: after_mark as u64,
        }),
    }
}

/// The extent of a unit whose length was read, if the section has so many bytes after it.
fn bounded(
    section: &[u8],
    at: usize,
    wide: bool,
    start: usize,
    long: u64,
) -> Result<Extent, ExtentFault>
    requires { start ≤ length section.now }
    ensures extent { result ≡ bounded_by (length section.now) at wide start long }
    ensures within { IfOk result (λ e. (e.start ≤ e.end) × (e.end ≤ length section.now)) }
{
    let left = section.len() - start;
    if (left as u64) < long {
        return Err(ExtentFault::Cut { at: at as u64 });
    }
    Ok(Extent {
        wide,
        start,
        end: start + long as usize,
    })
}

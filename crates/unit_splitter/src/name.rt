ghost use Rattle.std.specs.Prelude.{◌≡◌, IfOk};
ghost use Rattle.unit_splitter.specs.Names.{piece_name_of, prefix_of};

use crate::digest::digest_of;
use crate::pieces::Piece;
use mac_base::{Bytes, NoMemory};
use std::alloc::Global;

/// The name of a piece: `dwm5.`, or `dwm5w.` where offsets have 8 bytes, and the SHA-256 digest of its entries in
/// lower-case hexadecimal digits. The entries are digested as the opcodes 01 and 02 spell them, numbers in their
/// shortest spelling, without a header and without the closing 0 (DWARF 5, 6.3.2.1 and 7.23).
pub fn piece_name(alloc: Global, piece: &Piece, wide: bool) -> Result<Bytes, NoMemory>
    ensures { IfOk result (λ name. name ≡ piece_name_of wide piece.now.entries) }
{
    let digest = digest_of(alloc, piece.entries.as_slice())?;
    let digits = hex::encode(alloc, digest)?;
    let mut name = Vec::new(alloc);
    name.extend_from_slice(prefix(wide))?;
    name.extend_from_slice(digits.as_bytes())?;
    Ok(Bytes::from_vec(name))
}

/// What the name of a piece begins with.
fn prefix(wide: bool) -> &'static [u8]
    ensures { result.now ≡ prefix_of wide }
{
    if wide { b"dwm5w." } else { b"dwm5." }
}

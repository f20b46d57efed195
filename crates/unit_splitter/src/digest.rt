ghost use Rattle.std.specs.Prelude.{◌≡◌, ◌∷◌, ◌++◌, [], List, ℕ, IfOk, OnOk};
ghost use Rattle.mac_base.specs.ItemLines.{item_of};
ghost use Rattle.mac_base.specs.Writing.{uleb_bytes};
ghost use Rattle.sha2.specs.Sha256.{sha256};
ghost use Rattle.sha2.specs.Hashers.{Holds256};
ghost use Rattle.unit_splitter.specs.Names.{plain_bytes, spelled_plainly};

use mac_base::{Event, NoMemory, push_uleb};
use sha2::{Digest, Sha256};
use std::alloc::Global;

/// The SHA-256 digest of entries as the opcodes 01 to 04 spell them.
pub fn digest_of(alloc: Global, entries: &[Event]) -> Result<[u8; 32], NoMemory>
    ensures { IfOk result (λ digest. digest ≡ sha256 (spelled_plainly entries.now)) }
{
    let mut room = Vec::new(alloc);
    let mut hasher = Sha256::new();
    for entry in entries {
        absorb(&mut hasher, &mut room, entry)?;
    }
    Ok(hasher.finalize())
}

/// Hands the bytes of an entry to the hasher. The room is for the numbers before a text.
fn absorb(hasher: &mut Sha256, room: &mut Vec<u8>, entry: &Event) -> Result<(), NoMemory>
    ensures { (m : List ℕ) → Holds256 hasher.old m → OnOk result (Holds256 hasher.new (m ++ plain_bytes (item_of entry.now))) }
{
    match entry {
        Event::Define { line, text } => absorb_text(hasher, room, 0x01, *line, text.as_slice()),
        Event::Undef { line, name } => absorb_text(hasher, room, 0x02, *line, name.as_slice()),
        Event::Start { line, file } => {
            put_numbers(room, 0x03, *line)?;
            push_uleb(room, *file as u64)?;
            hasher.update(room.as_slice());
            Ok(())
        }
        Event::End => {
            hasher.update([0x04]);
            Ok(())
        }
    }
}

/// Hands an opcode, a line, a text and its NUL to the hasher.
fn absorb_text(
    hasher: &mut Sha256,
    room: &mut Vec<u8>,
    opcode: u8,
    line: u64,
    text: &[u8],
) -> Result<(), NoMemory>
    ensures { (m : List ℕ) → Holds256 hasher.old m → OnOk result (Holds256 hasher.new (m ++ opcode ∷ (uleb_bytes line ++ (text.now ++ 0 ∷ [])))) }
{
    put_numbers(room, opcode, line)?;
    hasher.update(room.as_slice());
    hasher.update(text);
    hasher.update([0]);
    Ok(())
}

/// Puts an opcode and a line in place of what is in the room.
fn put_numbers(room: &mut Vec<u8>, opcode: u8, line: u64) -> Result<(), NoMemory>
    ensures { OnOk result (room.new.items ≡ opcode ∷ uleb_bytes line) }
{
    room.clear();
    room.push(opcode)?;
    push_uleb(room, line)
}

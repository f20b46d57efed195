ghost use Rattle.std.specs.Prelude.{◌≡◌, ◌==◌, not, reverse, IfOk};
ghost use Rattle.std.specs.List.{prefix_len};
ghost use Rattle.mac_io.specs.Search.{folder_of, is_absolute, path_text, slash};

use mac_base::{Bytes, NoMemory};
use std::alloc::Global;

/// Whether a name begins with `/`.
pub fn is_absolute(name: &[u8]) -> bool
    ensures { result ≡ is_absolute name.now }
{
    matches!(name, [b'/', ..])
}

/// A name up to and with its last `/`.
pub fn folder_of(name: &[u8]) -> &[u8]
    ensures { result.now ≡ folder_of name.now }
{
    &name[..name.len() - behind_slash(name)]
}

/// How many bytes come after the last `/`.
fn behind_slash(name: &[u8]) -> usize
    ensures { result ≡ prefix_len (λ byte. not (byte == slash)) (reverse name.now) }
{
    name.iter().rev().take_while(|byte| **byte != b'/').count()
}

/// The name where the label is empty, else the label, `/` and the name.
pub fn path_text(alloc: Global, label: &[u8], name: &[u8]) -> Result<Bytes, NoMemory>
    ensures { IfOk result (λ path. path ≡ path_text label.now name.now) }
{
    if label.is_empty() {
        return Bytes::from_slice(alloc, name);
    }
    let mut path = Vec::from_slice(alloc, label)?;
    path.push(b'/')?;
    path.extend_from_slice(name)?;
    Ok(Bytes::from_vec(path))
}

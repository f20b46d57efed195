ghost use Rattle.std.specs.Prelude.{◌≤◌, length};
ghost use Rattle.mac_base.specs.Strings.{IsStringsEnd, AreOpenFrom};

use memchr::memrchr;

/// The place after the last NUL of a string table, or 0: exactly the strings that begin before it have an end. The
/// table is walked once, from its last byte up to that NUL.
pub fn end_of_strings(table: &[u8]) -> usize
    ensures end { IsStringsEnd table.now result }
    ensures open { AreOpenFrom table.now result }
    ensures within { result ≤ length table.now }
{
    match memrchr(0, table) {
        Some(last) => last + 1,
        None => 0,
    }
}

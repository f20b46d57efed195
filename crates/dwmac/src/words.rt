ghost use Rattle.std.specs.Prelude.{◌≡◌, map, drop, string_bytes, IfOk};

use mac_base::{Bytes, NoMemory, Paths};
use std::alloc::Global;

/// The words of a command line, of which the first is the program's name.
pub fn words_after_name(alloc: Global, args: &[String]) -> Result<Paths, NoMemory>
    ensures { IfOk result (λ words. words ≡ map string_bytes (drop 1 args.now)) }
{
    match args {
        [_name, words @ ..] => words_of(alloc, words),
        [] => Ok(Paths::new(alloc)),
    }
}

fn words_of(alloc: Global, args: &[String]) -> Result<Paths, NoMemory>
    ensures { IfOk result (λ words. words ≡ map string_bytes args.now) }
{
    let mut words = Paths::new(alloc);
    for arg in args {
        words.push(Bytes::from_slice(alloc, arg.as_bytes())?)?;
    }
    Ok(words)
}

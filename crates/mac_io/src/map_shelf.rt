ghost use Rattle.std.specs.Prelude.{◌≡◌, ◌≢◌, ◌↔◌, length, position, List, [], ◌∷◌, ◌++◌, Some, IsTrue, is_ok, if◌then◌else◌, OnOk, OnErr};
ghost use Rattle.std.specs.List.{list_any};
ghost use Rattle.std.specs.Str.{bytes_eq};
ghost use Rattle.std.specs.Option.{option_copied};
ghost use Rattle.std.specs.FinMap as map;
ghost use Rattle.mac_io.specs.Causes.{HasCause};
ghost use Rattle.mac_io.specs.Files.{AreAllBytes, AreFilesOfBytes, files_of, are_distinct};
ghost use Rattle.mac_io.specs.Calls.{Fetches, FetchesFrom, Puts};
ghost use Rattle.mac_io.specs.InMemory.{is_due, after_get, after_put};

use crate::failures::Failures;
use crate::real_file::each_is_a_byte;
use crate::shelf::{Fetched, Put, Shelf};
use mac_base::{Bytes, NoMemory, Paths};
use std::alloc::Global;
use std::marker::Model;

/// Files in memory.
#[derive(Drop)]
pub struct MapShelf {
    alloc: Global,
    names: Vec<Bytes>,
    contents: Vec<Bytes>,
    failures: Failures,
}

impl Model for MapShelf {
    ghost use Rattle.std.specs.Prelude.{◌≡◌, length};
    ghost use Rattle.mac_io.specs.Files.{AreAllBytes, files_of};
    ghost use Rattle.mac_io.specs.InMemory.{MemoryShelf};
    ghost use Rattle.mac_io.specs.Codes.{coded_shelf};

    ghost Value = { MemoryShelf };

    ghost coded = { coded_shelf };

    ghost view = { λ s. record { files = files_of s.names.items s.contents.items; log = s.failures } };

    ghost invariant = { λ s. (length s.names.items ≡ length s.contents.items) × AreAllBytes s.contents.items };
}

impl MapShelf {
    /// A shelf with each content under the name at its place, whose calls of these numbers, counted from 1, fail.
    pub fn new(alloc: Global, names: Paths, contents: Paths, fails: Vec<u64>) -> MapShelf
        requires even { length names ≡ length contents }
        requires distinct { IsTrue (are_distinct names) }
        ensures { result ≡ record { files = files_of names contents; log = record { failing = fails.items; calls = 0; faults = 0 } } }
    {
        let contents = contents.into_vec();
        each_is_bytes(&contents);
        MapShelf {
            alloc,
            names: names.into_vec(),
            contents,
            failures: Failures::new(fails),
        }
    }

    /// The bytes of a file.
    pub fn file(&self, name: &[u8]) -> Option<&[u8]>
        ensures { option_copied result ≡ map.get self.now.files name.now }
    {
        file_in(&self.names, &self.contents, name)
    }
}

impl Shelf for MapShelf {
    ghost files = { λ shelf. Some shelf.files };

    ghost count = { λ shelf. shelf.log.faults };

    fn get(&mut self, name: &[u8], limit: usize, into: &mut Vec<u8>) -> Fetched
        ensures answer { FetchesFrom (Some self.old.files) name.now limit result into.old.items into.new.items }
        ensures same { Some self.new.files ≡ Some self.old.files }
        ensures bytes { AreFilesOfBytes (Some self.old.files) }
        ensures cause { HasCause self.old.log.faults self.new.log.faults (result ≡ Fetched.Failed) }
        ensures failed { IsTrue (is_due self.old.log) ↔ (result ≡ Fetched.Failed) }
        ensures after { self.new ≡ after_get self.old }
    {
        let fails = self.failures.is_due();
        self.failures.count(fails);
        if fails {
            return Fetched::Failed;
        }
        append(self.file(name), limit, into)
    }

    fn put(&mut self, name: &[u8], bytes: &[u8]) -> Put
        ensures answer { Puts (Some self.old.files) (Some self.new.files) name.now bytes.now result }
        ensures cause { HasCause self.old.log.faults self.new.log.faults (result ≡ Put.Failed) }
        ensures failed { IsTrue (is_due self.old.log) ↔ (result ≡ Put.Failed) }
        ensures after { self.new ≡ after_put self.old name.now bytes.now result }
    {
        let fails = self.failures.is_due();
        self.failures.count(fails);
        if fails {
            return Put::Failed;
        }
        match store(self.alloc, &mut self.names, &mut self.contents, name, bytes) {
            Ok(()) => Put::Done,
            Err(NoMemory) => Put::NoMemory,
        }
    }

    fn faults(&self) -> u64 {
        self.failures.faults()
    }
}

/// Whether no name occurs twice.
pub fn are_distinct(names: &Paths) -> bool
    ensures { result ≡ are_distinct names.now }
{
    let mut left = names.as_slice();
    while let Some((name, others)) = left.split_first() {
        if stands_in(name.as_slice(), others) {
            return false;
        }
        left = others;
    }
    true
}

fn stands_in(name: &[u8], others: &[Bytes]) -> bool
    ensures { result ≡ list_any (λ other. bytes_eq other name.now) others.now }
{
    others.iter().any(|other| other.as_slice() == name)
}

/// The place of the first such name.
fn place_of(names: &[Bytes], name: &[u8]) -> Option<usize>
    ensures { result ≡ position (λ stored. bytes_eq stored name.now) names.now }
{
    names.iter().position(|stored| stored.as_slice() == name)
}

/// The content at the place of the name.
fn file_in<'a>(names: &[Bytes], contents: &'a [Bytes], name: &[u8]) -> Option<&'a [u8]>
    requires { length names.now ≡ length contents.now }
    ensures { option_copied result ≡ map.get (files_of names.now contents.now) name.now }
{
    let place = place_of(names, name)?;
    Some(contents[place].as_slice())
}

/// Appends a file within the limit.
fn append(file: Option<&[u8]>, limit: usize, into: &mut Vec<u8>) -> Fetched
    ensures answer { Fetches (option_copied file.entry) limit result into.old.items into.new.items }
    ensures sound { result ≢ Fetched.Failed }
{
    let Some(bytes) = file else {
        return Fetched::Absent;
    };
    if bytes.len() > limit {
        return Fetched::TooLong;
    }
    match into.extend_from_slice(bytes) {
        Ok(()) => Fetched::Found,
        Err(_) => Fetched::NoMemory,
    }
}

/// Says in a contract that contents are bytes.
fn each_is_bytes(contents: &[Bytes])
    ensures { AreAllBytes contents.now }
{
    for content in contents {
        each_is_a_byte(content.as_slice());
    }
}

/// Puts a content at the place of its name, or both after the others.
fn store(
    alloc: Global,
    names: &mut Vec<Bytes>,
    contents: &mut Vec<Bytes>,
    name: &[u8],
    bytes: &[u8],
) -> Result<(), NoMemory>
    requires { length names.old.items ≡ length contents.old.items }
    ensures even { length names.new.items ≡ length contents.new.items }
    ensures ok { OnOk result (files_of names.new.items contents.new.items ≡ map.insert (files_of names.old.items contents.old.items) name.now bytes.now) }
    ensures err { OnErr result (files_of names.new.items contents.new.items ≡ files_of names.old.items contents.old.items) }
    ensures bytes { AreAllBytes contents.old.items → AreAllBytes contents.new.items }
{
    each_is_a_byte(bytes);
    let content = Bytes::from_slice(alloc, bytes)?;
    match place_of(names, name) {
        Some(place) => {
            contents[place] = content;
            Ok(())
        }
        None => {
            add(alloc, names, contents, name, content)?;
            Ok(())
        }
    }
}

/// Puts a name and its content after the others.
fn add(
    alloc: Global,
    names: &mut Vec<Bytes>,
    contents: &mut Vec<Bytes>,
    name: &[u8],
    content: Bytes,
) -> Result<(), NoMemory>
    ensures names { names.new.items ≡ (if is_ok result then names.old.items ++ name.now ∷ [] else names.old.items) }
    ensures contents { contents.new.items ≡ (if is_ok result then contents.old.items ++ content ∷ [] else contents.old.items) }
{
    names.push(Bytes::from_slice(alloc, name)?)?;
    if contents.push(content).is_err() {
        let _ = names.pop();
        return Err(NoMemory);
    }
    Ok(())
}

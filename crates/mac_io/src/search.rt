ghost use Rattle.std.specs.Prelude.{◌≡◌, ◌<◌, ℕ, List, [], ◌∷◌, ◌++◌, length, Option, IfOk};
ghost use Rattle.mac_io.specs.Causes.{HasCause, HasStoreCause, Counts};
ghost use Rattle.mac_io.specs.Files.{Files, AreFilesOfBytes};
ghost use Rattle.mac_io.specs.Calls.{FetchesFrom};
ghost use Rattle.mac_io.specs.Search.{Finds, OnFound, candidates, behind, beside, source_limit, told_by};

use crate::headers::{FileId, Form, Located};
use crate::path_text::{folder_of, is_absolute};
use crate::shelf::Fetched;
use mac_base::{Bytes, NoMemory};
use std::alloc::Global;

/// Stores in order, each of which is asked by its number.
pub trait Stores {
    /// The label and the files of each store.
    ghost stores: { Self → List (List ℕ × Option Files) };

    /// How often a call has failed.
    ghost count: { Self → ℕ };

    /// The count of faults of each store, and what was counted of stores that were dropped.
    ghost counts: { Self → Counts };

    /// The folder that each store is over, where it is over one.
    ghost folders: { Self → List (Option (List ℕ)) };

    /// How many stores there are.
    fn number(&self) -> u32
        ensures { result ≡ length (stores self.now) };

    /// Appends the file that one store has at a name, where a source file may have so many bytes.
    fn fetch(&mut self, store: u32, name: &[u8], into: &mut Vec<u8>) -> Fetched
        requires { store < length (stores self.old) }
        ensures answer { FetchesFrom (told_by (stores self.old) store) name.now source_limit result into.old.items into.new.items }
        ensures same { stores self.new ≡ stores self.old }
        ensures bytes { AreFilesOfBytes (told_by (stores self.old) store) }
        ensures places { folders self.new ≡ folders self.old }
        ensures cause { HasCause (count self.old) (count self.new) (result ≡ Fetched.Failed) }
        ensures store_cause { HasStoreCause (counts self.old) (counts self.new) (result ≡ Fetched.Failed) };
}

/// Asks the candidates of a search one after another.
pub fn find<S: Stores>(
    alloc: Global,
    stores: &mut S,
    includer: &FileId,
    form: Form,
    name: &[u8],
    into: &mut Vec<u8>,
) -> Located
    requires { includer.now.store < length (S.stores stores.old) }
    ensures answer { Finds (S.stores stores.old) (candidates (length (S.stores stores.old)) includer.now form name.now) result into.old.items into.new.items }
    ensures store { OnFound result (λ id. id.store < length (S.stores stores.old)) }
    ensures bytes { OnFound result (λ id. AreFilesOfBytes (told_by (S.stores stores.old) id.store)) }
    ensures same { S.stores stores.new ≡ S.stores stores.old }
    ensures places { S.folders stores.new ≡ S.folders stores.old }
    ensures cause { HasCause (S.count stores.old) (S.count stores.new) (result ≡ Located.Failed) }
    ensures store_cause { HasStoreCause (S.counts stores.old) (S.counts stores.new) (result ≡ Located.Failed) }
{
    if is_absolute(name) {
        return ask(alloc, stores, 0, name, into);
    }
    let answer = ask_beside(alloc, stores, includer, form, name, into);
    if answer.is_absent() {
        return ask_behind(alloc, stores, name, into);
    }
    answer
}

/// Asks the includer's store for the file in the includer's folder, where the form is `Quote`.
fn ask_beside<S: Stores>(
    alloc: Global,
    stores: &mut S,
    includer: &FileId,
    form: Form,
    name: &[u8],
    into: &mut Vec<u8>,
) -> Located
    requires { includer.now.store < length (S.stores stores.old) }
    ensures answer { Finds (S.stores stores.old) (beside includer.now form name.now) result into.old.items into.new.items }
    ensures store { OnFound result (λ id. id.store < length (S.stores stores.old)) }
    ensures bytes { OnFound result (λ id. AreFilesOfBytes (told_by (S.stores stores.old) id.store)) }
    ensures same { S.stores stores.new ≡ S.stores stores.old }
    ensures places { S.folders stores.new ≡ S.folders stores.old }
    ensures cause { HasCause (S.count stores.old) (S.count stores.new) (result ≡ Located.Failed) }
    ensures store_cause { HasStoreCause (S.counts stores.old) (S.counts stores.new) (result ≡ Located.Failed) }
{
    match form {
        Form::Angle => Located::Absent,
        Form::Quote => match joined(alloc, folder_of(includer.name.as_slice()), name) {
            Ok(beside) => ask(alloc, stores, includer.store, beside.as_slice(), into),
            Err(NoMemory) => Located::NoMemory,
        },
    }
}

/// Asks each store after the first, until one answers something else than that the file is absent.
fn ask_behind<S: Stores>(alloc: Global, stores: &mut S, name: &[u8], into: &mut Vec<u8>) -> Located
    ensures answer { Finds (S.stores stores.old) (behind (length (S.stores stores.old)) name.now) result into.old.items into.new.items }
    ensures store { OnFound result (λ id. id.store < length (S.stores stores.old)) }
    ensures bytes { OnFound result (λ id. AreFilesOfBytes (told_by (S.stores stores.old) id.store)) }
    ensures same { S.stores stores.new ≡ S.stores stores.old }
    ensures places { S.folders stores.new ≡ S.folders stores.old }
    ensures cause { HasCause (S.count stores.old) (S.count stores.new) (result ≡ Located.Failed) }
    ensures store_cause { HasStoreCause (S.counts stores.old) (S.counts stores.new) (result ≡ Located.Failed) }
{
    for store in 1..stores.number() {
        let answer = ask(alloc, stores, store, name, into);
        if !answer.is_absent() {
            return answer;
        }
    }
    Located::Absent
}

/// Asks one store for a file.
pub fn ask<S: Stores>(
    alloc: Global,
    stores: &mut S,
    store: u32,
    name: &[u8],
    into: &mut Vec<u8>,
) -> Located
    requires { store < length (S.stores stores.old) }
    ensures answer { Finds (S.stores stores.old) (record { store = store; name = name.now } ∷ []) result into.old.items into.new.items }
    ensures store { OnFound result (λ id. id.store < length (S.stores stores.old)) }
    ensures bytes { OnFound result (λ id. AreFilesOfBytes (told_by (S.stores stores.old) id.store)) }
    ensures same { S.stores stores.new ≡ S.stores stores.old }
    ensures places { S.folders stores.new ≡ S.folders stores.old }
    ensures cause { HasCause (S.count stores.old) (S.count stores.new) (result ≡ Located.Failed) }
    ensures store_cause { HasStoreCause (S.counts stores.old) (S.counts stores.new) (result ≡ Located.Failed) }
{
    let start = into.len();
    match stores.fetch(store, name, into) {
        Fetched::Found => match Vec::from_slice(alloc, name) {
            Ok(name) => Located::Found(FileId {
                store,
                name: Bytes::from_vec(name),
            }),
            Err(_) => {
                into.truncate(start);
                Located::NoMemory
            }
        },
        Fetched::Absent => Located::Absent,
        Fetched::TooLong => Located::TooLong,
        Fetched::Failed => Located::Failed,
        Fetched::NoMemory => Located::NoMemory,
    }
}

/// One text and then the other.
fn joined(alloc: Global, first: &[u8], second: &[u8]) -> Result<Bytes, NoMemory>
    ensures { IfOk result (λ text. text ≡ first.now ++ second.now) }
{
    let mut text = Vec::from_slice(alloc, first)?;
    text.extend_from_slice(second)?;
    Ok(Bytes::from_vec(text))
}

// The stores that a run needs.
ghost use Rattle.std.specs.Prelude.{◌≡◌, ◌≤◌, ◌<◌, ◌++◌, [], ◌∷◌, length, IfOk, OnOk};
ghost use Rattle.dwmac_run.specs.declared.roots.RootsFault.TheVariants.{NoMemory as RanOut};
ghost use Rattle.dwmac_run.specs.Command as spec;
ghost use Rattle.dwmac_run.specs.Roots.{AreRoots, AreFew, AreWanted, labels};

use crate::request::{Request, request_of};
use mac_base::{Bytes, NoMemory, Paths};
use mac_io::{HeaderStore, Headers, SearchPath};
use std::alloc::Global;
use thiserror::Error;

/// The stores on the path of a run.
#[derive(Debug, Drop)]
pub enum Roots {
    /// A store for each of these labels, in order: for the working folder the empty label, then for each folder of headers its path.
    Labelled(Paths),
}

/// Why there are none.
#[derive(Clone, Copy, Debug, PartialEq, Eq, Error)]
pub enum RootsFault {
    /// The words fit no command.
    #[error("usage")]
    Usage,
    /// Memory ran out.
    #[error("no memory")]
    NoMemory,
}

impl From<NoMemory> for RootsFault {
    ghost from_gives = { λ _ found. found ≡ RanOut };

    fn from(_error: NoMemory) -> RootsFault {
        RootsFault::NoMemory
    }
}

/// The stores that a run of these words needs on its path. `Usage` is answered exactly where they fit no command.
pub fn roots_of(alloc: Global, words: &Paths) -> Result<Roots, RootsFault>
    ensures roots { AreRoots (spec.labels_of words.now) result }
    ensures few { AreFew result }
{
    match request_of(alloc, words.as_slice()) {
        Ok(Some(request)) => Ok(Roots::Labelled(labels_by(alloc, request)?)),
        Ok(None) => Err(RootsFault::Usage),
        Err(NoMemory) => Err(RootsFault::NoMemory),
    }
}

/// The labels of the stores that the words call for; none where they fit no command.
pub fn labels_for(alloc: Global, words: &Paths) -> Result<Paths, NoMemory>
    ensures wanted { IfOk result (λ named. AreWanted (spec.labels_of words.now) named) }
    ensures few { IfOk result (λ named. length named ≤ 256) }
{
    match roots_of(alloc, words) {
        Ok(Roots::Labelled(named)) => Ok(named),
        Err(RootsFault::Usage) => Ok(Paths::new(alloc)),
        Err(RootsFault::NoMemory) => Err(NoMemory),
    }
}

/// Puts a store on a path, after the others.
pub fn add_store(
    path: &mut SearchPath,
    label: &Bytes,
    store: Box<dyn HeaderStore>,
) -> Result<(), NoMemory>
    requires { length (labels (⟦<SearchPath as Headers>⟧.stores path.old)) < 256 }
    ensures labels { OnOk result (labels (⟦<SearchPath as Headers>⟧.stores path.new) ≡ labels (⟦<SearchPath as Headers>⟧.stores path.old) ++ label.now ∷ []) }
    ensures folders { OnOk result (⟦<SearchPath as Headers>⟧.folders path.new ≡ ⟦<SearchPath as Headers>⟧.folders path.old ++ folder store ∷ []) }
{
    match path.push(label.copy()?, store) {
        Ok(()) => Ok(()),
        Err(_) => Err(NoMemory),
    }
}

/// The labels of the stores that a request needs.
fn labels_by(alloc: Global, request: Request) -> Result<Paths, NoMemory>
    ensures { IfOk result (λ labels. labels ≡ spec.labels_by request) }
{
    let mut labels = folders_of(alloc, request).into_vec();
    labels.insert(0, Bytes::new(alloc))?;
    Ok(Paths::from_vec(labels))
}

/// The folders for headers that a request names.
fn folders_of(alloc: Global, request: Request) -> Paths
    ensures { result ≡ spec.folders_of request }
{
    match request {
        Request::Events { folders, .. } => folders,
        Request::Record { folders, .. } => folders,
        Request::Query { .. } => Paths::new(alloc),
        Request::Help => Paths::new(alloc),
        Request::Version => Paths::new(alloc),
    }
}

ghost use Rattle.std.specs.Prelude.{◌≡◌, ◌-◌, ◌<◌, [], ◌∷◌, ◌++◌, length, take, IfOk, OnErr};
ghost use Rattle.position_table.specs.Files.{frames_of};

use mac_base::{Frame, Frames, NoMemory};
use std::alloc::Global;
use std::marker::Model;

/// The number of a file in the order in which they began, from 1 on; 0 stands for no file.
#[derive(Clone, Copy, Debug, PartialEq, Eq)]
pub struct FileId {
    pub index: usize,
}

impl FileId {
    /// No file.
    pub fn none() -> FileId
        ensures { result ≡ record { index = 0 } }
    {
        FileId { index: 0 }
    }
}

/// A file, and the one around it.
#[derive(Clone, Copy, Debug, PartialEq, Eq)]
pub struct OpenFile {
    pub around: FileId,
    pub frame: Frame,
}

/// All files that began, seen as the lists of files that are open in each.
#[derive(Drop)]
pub struct Files {
    items: Vec<OpenFile>,
}

impl Model for Files {
    ghost use Rattle.std.specs.Prelude.{List, [], ◌∷◌};
    ghost use Rattle.mac_base.specs.declared.frames.Frame.{Frame};
    ghost use Rattle.position_table.specs.Files.{all_frames, AreNested};

    ghost Value = { List (List Frame) };

    ghost view = { λ f. all_frames ([] ∷ []) f.items.items };

    ghost invariant = { λ f. AreNested 1 f.items.items };
}

impl Files {
    /// No file. Takes no memory.
    pub fn new(alloc: Global) -> Files
        ensures { result ≡ [] ∷ [] }
    {
        Files {
            items: Vec::new(alloc),
        }
    }

    /// Begins a file in another one.
    pub fn begin(&mut self, around: FileId, frame: Frame) -> Result<FileId, NoMemory>
        requires { around.index < length self.old }
        ensures ok { IfOk result (λ id. (self.new ≡ self.old ++ (frames_of self.old around ++ frame ∷ []) ∷ []) × (id.index ≡ length self.old)) }
        ensures err { OnErr result (self.new ≡ self.old) }
    {
        self.items.push(OpenFile { around, frame })?;
        Ok(FileId {
            index: self.items.len(),
        })
    }

    /// The file around this one.
    pub fn around(&self, id: FileId) -> FileId
        requires { id.index < length self.now }
        ensures files { frames_of self.now result ≡ take (length (frames_of self.now id) - 1) (frames_of self.now id) }
        ensures within { result.index < length self.now }
    {
        let files = &self.items;
        if id.index == 0 {
            return id;
        }
        files[id.index - 1].around
    }

    /// This file and all around it, the outermost first.
    pub fn frames(&self, alloc: Global, id: FileId) -> Result<Frames, NoMemory>
        requires { id.index < length self.now }
        ensures { IfOk result (λ frames. frames ≡ frames_of self.now id) }
    {
        let mut frames = Vec::new(alloc);
        let mut at = id;
        while at.index > 0 {
            let file = self.items[at.index - 1];
            frames.push(file.frame)?;
            at = file.around;
        }
        frames.reverse();
        Ok(Frames::from_vec(frames))
    }
}

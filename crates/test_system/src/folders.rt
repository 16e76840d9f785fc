//! The files of a table line in memory.
use os_line_file::{FolderFault, LineFolders, Tear, TearingFolder};
use std::alloc::{AllocError, Global};

/// FILE and FILE.next, at any path: they have these texts when they are opened, and those that they were left with once they are closed.
#[derive(Drop)]
pub struct MemFolders {
    alloc: Global,
    pub line: Option<Vec<u8>>,
    pub next: Option<Vec<u8>>,
}

impl MemFolders {
    /// Neither of both is there.
    pub fn new(alloc: Global) -> MemFolders {
        MemFolders {
            alloc,
            line: None,
            next: None,
        }
    }

    /// Whether FILE has this text, and FILE.next that one; none where there is no file.
    pub fn have(&self, line: Option<&[u8]>, next: Option<&[u8]>) -> bool {
        is_text(&self.line, line) && is_text(&self.next, next)
    }
}

// Whether a file has this text, or isn't there.
fn is_text(found: &Option<Vec<u8>>, wanted: Option<&[u8]>) -> bool {
    match (found, wanted) {
        (Some(found), Some(wanted)) => found.as_slice() == wanted,
        (None, None) => true,
        _ => false,
    }
}

// A copy of a text.
fn copy_of(alloc: Global, text: &Option<Vec<u8>>) -> Result<Option<Vec<u8>>, AllocError> {
    match text {
        Some(text) => Ok(Some(text.to_vec(alloc)?)),
        None => Ok(None),
    }
}

// A folder of these texts that never ends.
fn folder_of(folders: &MemFolders) -> Result<TearingFolder, AllocError> {
    let line = copy_of(folders.alloc, &folders.line)?;
    let next = copy_of(folders.alloc, &folders.next)?;
    TearingFolder::new(folders.alloc, line, next, u64::MAX, Tear::All)
}

// Which texts a folder was opened with, and which it was left with, no clause of it says.
impl LineFolders for MemFolders {
    type Folder = TearingFolder;

    ghost use Rattle.std.specs.Prelude.{◌≡◌, false, ⊤};

    ghost refuses = { λ _. false };

    ghost opens = { λ old _ _ new. new ≡ old };

    ghost closes = { λ _ _ _. ⊤ };

    fn open_line(&mut self, _path: &str) -> Result<TearingFolder, FolderFault> {
        match folder_of(self) {
            Ok(folder) => Ok(folder),
            Err(AllocError) => Err(FolderFault::NoMemory),
        }
    }

    fn close_line(&mut self, folder: TearingFolder) {
        let (line, next) = folder.into_left();
        self.line = line;
        self.next = next;
    }
}

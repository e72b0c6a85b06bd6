//! How a save ended.
ghost use Rattle.std.specs.Prelude.{◌≡◌};
ghost use Rattle.textarea_files.specs.DiskFiles.{is_saved};

use crate::trouble::Trouble;

/// How a save ended.
#[derive(Clone, Copy, Debug, PartialEq, Eq)]
pub enum SaveEnd {
    /// The file has the new bytes.
    Saved,
    /// The same, after another program deleted the file.
    SavedAnew,
    /// The file has the new bytes, but the disk failed to make sure of its name.
    Unsynced,
    /// The file changed on disk since it was read or saved, and is as it was.
    ChangedOnDisk,
    /// There is a file of this name, which was not opened, and it is as it was.
    Exists,
    /// It failed, and the file is as it was.
    Failed(Trouble),
}

impl SaveEnd {
    /// Returns whether the file has the new bytes.
    pub fn is_saved(self) -> bool
        ensures { result ≡ is_saved self }
    {
        matches!(
            self,
            SaveEnd::Saved | SaveEnd::SavedAnew | SaveEnd::Unsynced
        )
    }
}

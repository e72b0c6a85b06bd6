//! Why a file can't be read or saved.
ghost use Rattle.std.specs.Prelude.{◌≡◌};
ghost use Rattle.textarea_files.specs.Troubles.{full_reason, short_reason};

/// Why a file can't be read or saved.
#[derive(Clone, Copy, Debug, PartialEq, Eq)]
pub enum Trouble {
    /// The file is no UTF-8 text.
    NotText,
    /// The name is that of a folder.
    Folder,
    /// The name is that of a device, a pipe or a socket.
    NotFile,
    /// The file or its folder may not be read or written.
    Rights,
    /// The disk is full, or the quota is used up.
    DiskFull,
    /// The file's folder doesn't exist.
    NoFolder,
    /// The file system can only be read.
    ReadOnly,
    /// Out of memory.
    Memory,
    /// It failed while the file was written over. The copy, whose name ends in `.taedit-1` or in a
    /// later number, has the whole text.
    InPart,
    /// Another failure of the file system.
    Other,
}

impl Trouble {
    /// Returns the reason as a part of a sentence.
    pub fn text(self) -> &'static str
        ensures { result.now ≡ full_reason self }
    {
        match self {
            Trouble::NotText => "it is not UTF-8 text",
            Trouble::Folder => "it is a folder",
            Trouble::NotFile => "it is not a regular file",
            Trouble::Rights => "permission denied",
            Trouble::DiskFull => "the disk is full",
            Trouble::NoFolder => "its folder does not exist",
            Trouble::ReadOnly => "the file system is read-only",
            Trouble::Memory => "out of memory",
            Trouble::InPart => "it is written in part; the copy .taedit-1 is whole",
            Trouble::Other => "the file system reports an error",
        }
    }

    /// Returns the reason in at most 18 characters, for narrow rows.
    pub fn short_text(self) -> &'static str
        ensures { result.now ≡ short_reason self }
    {
        match self {
            Trouble::NotText => "not UTF-8",
            Trouble::Folder => "it is a folder",
            Trouble::NotFile => "no regular file",
            Trouble::Rights => "not permitted",
            Trouble::DiskFull => "disk full",
            Trouble::NoFolder => "no such folder",
            Trouble::ReadOnly => "read-only disk",
            Trouble::Memory => "out of memory",
            Trouble::InPart => "in part; .taedit-1",
            Trouble::Other => "disk error",
        }
    }
}

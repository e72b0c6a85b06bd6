//! The steps of a save.

ghost use Rattle.std.specs.Prelude.{◌≡◌};
ghost use Rattle.textarea_disk.specs.Plan.{copy_is_removed, plan_of, steps_of};

/// One of the two files of a save.
#[derive(Clone, Copy, Debug, PartialEq, Eq)]
pub enum SaveFile {
    /// The file that is saved.
    File,
    /// A new file with the whole text, under a name that no file has yet.
    Copy,
}

/// One step of a save. A program carries out the steps of a list in order, up to the first that
/// fails.
#[derive(Clone, Copy, Debug, PartialEq, Eq)]
pub enum DiskStep {
    /// Makes the copy, empty. It fails if there is a file of this name.
    Create,
    /// Adds what the text has more than the file at the file's end, so that no later write needs
    /// room on the disk. If it fails, the file is cut to its old bytes.
    Grow,
    /// Writes the text over all bytes of a file.
    Write(SaveFile),
    /// Gives a file the mode bits that the saved file has to have.
    SetMode(SaveFile),
    /// Brings a file's bytes and mode bits to the disk.
    Sync(SaveFile),
    /// Brings to the disk what the folder of a file has under the file's name.
    SyncFolder(SaveFile),
    /// Gives the copy the file's name.
    Rename,
    /// Removes the copy.
    Remove,
}

/// How a file is saved.
#[derive(Clone, Copy, Debug, PartialEq, Eq)]
pub enum SavePlan {
    /// The copy, in the file's folder, takes the file's name. Its owner and links are its own.
    Beside,
    /// The text is written over the file's bytes once the copy is on the disk, and the copy is
    /// removed last. Owner, links and attributes of the file stay.
    InPlace,
}

/// What a rename of another file to a file's name would change, apart from its content.
#[derive(Clone, Copy, Debug, PartialEq, Eq)]
pub struct Ownership {
    /// The number of names of the file.
    pub links: u64,
    /// The number of the user that owns it.
    pub owner: u32,
    /// The number of its group.
    pub group: u32,
    /// The number of its file system, which a file that is mounted by itself doesn't share with its
    /// folder.
    pub device: u64,
}

impl SavePlan {
    /// Returns how a file is saved whose copy, in the same folder, is made with this ownership:
    /// beside exactly if the file has one name, and the copy the same owner, group and device.
    pub fn keeping(file: &Ownership, copy: &Ownership) -> SavePlan
        ensures { result ≡ plan_of file.now copy.now }
    {
        let is_same = file.owner == copy.owner
            && file.group == copy.group
            && file.device == copy.device;
        if file.links <= 1 && is_same {
            SavePlan::Beside
        } else {
            SavePlan::InPlace
        }
    }

    /// Returns the steps of a save, in order. The first is always [`DiskStep::Create`].
    pub fn steps(self) -> &'static [DiskStep]
        ensures { result.now ≡ steps_of self }
    {
        match self {
            SavePlan::Beside => {
                &[
                    DiskStep::Create,
                    DiskStep::Write(SaveFile::Copy),
                    DiskStep::SetMode(SaveFile::Copy),
                    DiskStep::Sync(SaveFile::Copy),
                    DiskStep::Rename,
                    DiskStep::SyncFolder(SaveFile::File),
                ]
            }
            SavePlan::InPlace => {
                &[
                    DiskStep::Create,
                    DiskStep::Write(SaveFile::Copy),
                    DiskStep::Sync(SaveFile::Copy),
                    DiskStep::SyncFolder(SaveFile::Copy),
                    DiskStep::Grow,
                    DiskStep::Write(SaveFile::File),
                    DiskStep::SetMode(SaveFile::File),
                    DiskStep::Sync(SaveFile::File),
                    DiskStep::SyncFolder(SaveFile::File),
                    DiskStep::Remove,
                ]
            }
        }
    }
}

impl DiskStep {
    /// Returns whether the copy is removed if this step fails: exactly where it was made, and the
    /// file still has its old bytes.
    pub fn copy_is_removed(self) -> bool
        ensures { result ≡ copy_is_removed self }
    {
        match self {
            DiskStep::Grow | DiskStep::Rename => true,
            DiskStep::Write(place)
            | DiskStep::SetMode(place)
            | DiskStep::Sync(place)
            | DiskStep::SyncFolder(place) => place == SaveFile::Copy,
            DiskStep::Create | DiskStep::Remove => false,
        }
    }
}

//! The files of an editor: read whole and saved by steps that keep a text, journals on disk, line
//! ends, and bytes that aren't UTF-8.
#![tactic(auto)]

pub mod disk;
pub mod file_text;
pub mod save_end;
pub mod trouble;
pub mod viewed;

pub use disk::DiskFile;
pub use disk::journal_file::{CarriesOut, FoundJournal, JournalFile, open_locked};
pub use save_end::SaveEnd;
pub use trouble::Trouble;

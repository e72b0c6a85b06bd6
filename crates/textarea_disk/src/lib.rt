//! Saves and journals as lists of disk steps: what a save does to a disk is data, and laws say what
//! a crash or a failure at any step leaves. Also a hash by which a file's bytes are compared with
//! those that were read or saved last.
#![tactic(auto)]

pub mod content_hash;
pub mod event_times;
pub mod journal;
pub mod journal_step;
pub mod journal_write;
pub mod laws;
pub mod recovery;
pub mod step;
pub mod text_change;

pub use content_hash::{NEW_HASH, hash_with};
pub use event_times::EventTimes;
pub use journal::{record_of, records_in};
pub use journal_step::JournalStep;
pub use journal_write::{Journal, JournalWrite};
pub use recovery::header;
pub use step::{DiskStep, Ownership, SaveFile, SavePlan};
pub use text_change::{Recovery, change_between, recovered, with_change};

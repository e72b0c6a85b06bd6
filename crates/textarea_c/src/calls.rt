//! The exports. Each takes the editor behind the handle, makes one call on it, and puts it back.
//!
//! Each returns `TA_EMPTY_HANDLE` if the handle is empty, and leaves its out-parameters unchanged if
//! it doesn't return `TA_OK`. Those of `title` have no handle.

// Takes the editor behind the handle, makes a call on it, and puts it back.
macro_rules! on {
    ($handle:ident, $alloc:ident, $editor:ident => $call:expr) => {{
        let Some(mut $editor) = $handle.take($alloc) else {
            return textarea_c_data::status::EMPTY_HANDLE;
        };
        let status = $call;
        $handle.put($editor);
        status
    }};
}

pub(crate) use on;

pub mod appearance;
pub mod changes;
pub mod decoder;
pub mod edits;
pub mod history;
pub mod inputs;
pub mod layout;
pub mod life;
pub mod lines;
pub mod moves;
pub mod painter;
pub mod plain;
pub mod ranges;
pub mod removals;
pub mod replacing;
pub mod screen;
pub mod search;
pub mod selection;
pub mod settings;
pub mod surround;
pub mod terminal;
pub mod title;

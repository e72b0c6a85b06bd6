//! Edits of fragments that the yank, other edits and copies of a history share.
ghost use Rattle.std.specs.Prelude.{◌≡◌, length, IfOk, Some};
ghost use Rattle.std.specs.Arc.{arc_value};
ghost use Rattle.textarea_history.specs.Prelude.{text_of};

use super::{Content, Edit};
use std::alloc::{AllocError, Global};
use std::sync::Arc;

impl Edit {
    /// For a document: creates the edit that inserts the fragment, which others may share, between
    /// two positions, or removes it from there. Does not allocate.
    pub fn of_fragment(
        fragment_lines: Arc<Vec<String>>,
        inserts: bool,
        start: (usize, usize),
        end: (usize, usize),
    ) -> Self
        ensures splice { result.splice ≡ record {
          place = start;
          symbols = text_of (arc_value fragment_lines).items;
          inserts = inserts;
        } }
        ensures end { result.end ≡ end }
        ensures fragment_lines { result.fragment_lines
            ≡ Some (length (arc_value fragment_lines).items) }
    {
        Edit {
            content: Content::Shared(fragment_lines),
            inserts,
            start,
            end,
            grouped: false,
        }
    }

    /// For a history: returns the same edit, whose copies share the fragment, if it has one.
    pub(crate) fn share(self, alloc: Global) -> Result<Edit, AllocError>
        ensures { IfOk result (λ edit. edit ≡ self) }
    {
        let Edit {
            content,
            inserts,
            start,
            end,
            grouped,
        } = self;
        match content {
            Content::Lines(lines) => Ok(Edit {
                content: Content::Shared(Arc::new(alloc, lines)?),
                inserts,
                start,
                end,
                grouped,
            }),
            content => Ok(Edit {
                content,
                inserts,
                start,
                end,
                grouped,
            }),
        }
    }
}

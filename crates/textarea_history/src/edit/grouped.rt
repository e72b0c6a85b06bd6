//! Edits that are in one group with the edit before them.
ghost use Rattle.std.specs.Prelude.{◌≡◌};

use super::Edit;

impl Edit {
    /// For a history: returns whether the edit is in one group with the edit before it.
    pub(crate) fn is_grouped(&self) -> bool
        ensures { result ≡ self.now.grouped }
    {
        self.grouped
    }

    /// For a history: marks the edit as one of the group of the edit before it, or as the first of
    /// its group.
    pub(crate) fn set_grouped(&mut self, grouped: bool)
        ensures { self.new ≡ record self.old { grouped = grouped } }
    {
        self.grouped = grouped;
    }
}

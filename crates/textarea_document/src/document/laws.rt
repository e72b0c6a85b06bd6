//! Laws of documents, each the contract of a function that only reads.
ghost use Rattle.std.specs.Prelude.{◌≡◌, ◌≤◌, ◌<◌, ℕ, Bool};
ghost use Rattle.textarea_document.specs.Prelude.{Fits, Splice, done_groups, HasEffect, EditStep, splice_of_step, RestoresAll, RestoresDocument, ListsFit, after_edit, SplitsNoRange, IsSound};

use crate::document::Document;

impl Document {
    /// The law of undo, for every document: `count` undos, at most one for each done group, give the
    /// text before the edits of the last `count` groups; then `count` redos restore the text and
    /// both lists of edits, and leave the cursor where the newest edit leaves it. An edit that is in
    /// no group with another counts as a group.
    pub fn undos_restore(&self)
        ensures { (count : ℕ) → count ≤ done_groups self.now.log → RestoresDocument self.now count }
    {
        let _ = &self.history; // by the invariant each edit can be undone
    }

    /// The law of one edit, for every document that remembers edits: after each edit that fits the
    /// text, an undo of its group and a redo restore the text, both lists of edits, and the cursor.
    pub fn redo_restores_all(&self)
        ensures { (splice : Splice) (typed : Bool) (now : ℕ) →
            Fits self.now.text splice → 0 < self.now.log.maximum →
            RestoresAll (after_edit self.now splice typed now) }
    {
        let _ = &self.history; // by the invariant each edit can be undone
    }

    /// The law of both lists, for every document: the done edits can be undone one after another,
    /// the newest first, and the undone ones redone, the next one first. Each has at least one
    /// symbol, and fits the text at that time.
    pub fn edits_fit(&self)
        ensures { ListsFit self.now }
    {
        let _ = &self.history; // by the invariant each edit can be undone
    }

    /// In every document the cursor and the anchor are positions of the text, the ranges are valid
    /// for it and sorted, the done edits can be undone and the undone ones redone, both lists
    /// together are at most the maximum, and no group is undone partly.
    pub fn is_sound(&self)
        ensures { IsSound self.now }
    {
        let _ = &self.history; // it is the invariant
    }

    /// The law of atomic ranges, for every document: each insertion or removal of a call fits the
    /// text, removes each range completely or not at all, and inserts nothing strictly inside one.
    pub fn steps_split_no_range(&self)
        ensures fits { (step : EditStep) → HasEffect self.now step →
            Fits self.now.text (splice_of_step self.now step) }
        ensures splits_none { (step : EditStep) → HasEffect self.now step →
            SplitsNoRange self.now.ranges (splice_of_step self.now step) }
    {
        let _ = &self.ranges; // by the invariant they are valid for the text
    }
}

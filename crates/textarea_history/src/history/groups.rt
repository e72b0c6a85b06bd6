//! Groups of edits, which a document undoes and redoes together.
ghost use Rattle.std.specs.Prelude.{◌≡◌, ◌≤◌, ◌+◌, suc, drop, length};
ghost use Rattle.textarea_history.specs.Prelude.{grouped_first, is_filled, is_open, is_outgrown, group_begun, group_closed, group_ended, group_forgotten, group_opened, newest_group, next_group, oldest_group, opened, with_edit};

use crate::history::History;

/// The group of edits that is open, if one is.
#[derive(Clone, Copy)]
pub enum Group {
    /// No group is open: each edit is one of its own.
    Closed,
    /// A group is open, and has no edit yet.
    Empty,
    /// The newest edit is of the open group.
    Filled,
    /// The open group has more edits than the history may hold, so it holds none of them.
    Forgotten,
}

impl Group {
    // The group once one is opened, if none is open.
    fn opened(self) -> Group
        ensures { result ≡ opened self }
    {
        match self {
            Group::Closed => Group::Empty,
            group => group,
        }
    }

    /// For a history: returns the group after one edit more.
    pub(crate) fn with_edit(self) -> Group
        ensures { result ≡ with_edit self }
    {
        match self {
            Group::Empty => Group::Filled,
            group => group,
        }
    }

    /// For a history: returns whether the next edit is in one group with the newest one.
    pub(crate) fn is_filled(self) -> bool
        ensures { result ≡ is_filled self }
    {
        match self {
            Group::Filled => true,
            _ => false,
        }
    }
}

impl History {
    /// Returns whether a group is open.
    pub fn has_open_group(&self) -> bool
        ensures { result ≡ is_open self.now.log.group }
    {
        match self.group {
            Group::Closed => false,
            _ => true,
        }
    }

    /// Opens a group, if none is open: the edits until it is closed are undone and redone together.
    /// A run of typing goes on, so the first of them may join an edit from before the group.
    pub fn open_group(&mut self)
        ensures { self.new.log ≡ group_opened self.old.log }
    {
        self.group = self.group.opened();
    }

    /// Closes the open group, if one is open. A run of typing goes on.
    pub fn close_group(&mut self)
        ensures { self.new.log ≡ group_closed self.old.log }
    {
        self.group = Group::Closed;
    }

    /// Begins a group, if none is open, and ends the run of typing. The edits until `end_group` are
    /// undone and redone together. If they are more than the maximum, none of them is remembered,
    /// and no edit from before.
    pub fn begin_group(&mut self)
        ensures { self.new.log ≡ group_begun self.old.log }
    {
        if !self.has_open_group() {
            self.run = None;
            self.group = Group::Empty;
        }
    }

    /// Ends the open group, if one is open, and the run of typing.
    pub fn end_group(&mut self)
        ensures { self.new.log ≡ group_ended self.old.log }
    {
        if self.has_open_group() {
            self.run = None;
            self.group = Group::Closed;
        }
    }

    /// Returns the number of edits of the newest done group, at least 1 even without edits.
    pub fn newest_group(&self) -> usize
        ensures { result ≡ newest_group self.now.log }
    {
        let mut count = 1;
        while count < self.index && self.items[self.index - count].is_grouped() {
            count += 1;
        }
        count
    }

    /// Returns the number of edits of the group that was undone last, at least 1 even without one.
    pub fn next_group(&self) -> usize
        ensures { result ≡ next_group self.now.log }
    {
        self.group_from(self.index)
    }

    /// For a history: returns the number of edits of the oldest group, at least 1 even without one.
    pub(crate) fn oldest_group(&self) -> usize
        ensures { result ≡ oldest_group self.now.log }
    {
        self.group_from(0)
    }

    // The number of edits from this one on, up to the next one that begins a group.
    fn group_from(&self, start: usize) -> usize
        requires { start ≤ length self.now.log.done + length self.now.log.undone }
        ensures { result ≡ suc (grouped_first (drop (start + 1) self.now.log.marks)) }
    {
        let mut count = 1;
        while count < self.items.len() - start && self.items[start + count].is_grouped() {
            count += 1;
        }
        count
    }

    /// For a history: returns whether one edit more would make the open group larger than the
    /// maximum, or whether it is already.
    pub(crate) fn is_outgrown(&self) -> bool
        ensures { result ≡ is_outgrown self.now.log }
    {
        match self.group {
            Group::Forgotten => true,
            Group::Filled => {
                self.items.len() == self.max_items && self.index <= self.oldest_group()
            }
            _ => false,
        }
    }

    /// For a history: forgets all edits, and those that the open group will have.
    pub(crate) fn forget(&mut self)
        ensures { self.new.log ≡ group_forgotten self.old.log }
    {
        self.items.truncate(0);
        self.index = 0;
        self.run = None;
        self.group = Group::Forgotten;
    }
}

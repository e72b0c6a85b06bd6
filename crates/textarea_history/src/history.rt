//! The done and undone edits, up to a greatest number, with runs of typing that grow in place, and
//! groups of edits that are undone together.
mod groups;
pub mod laws;

ghost use Rattle.std.specs.Prelude.{drop, ◌≡◌, ◌<◌, ◌≤◌, ◌+◌, length, OnOk, OnErr, IfOk, IfSome, IsSome, IsOk, MatchOption, Some, ◌∷◌, [], vec_len, true, false};
ghost use Rattle.textarea_history.specs.Prelude.{deque_capacity, as_nanos, Character, Splice, inverse, FitsLines, IsWellFormed, continues, edge_of, empty_log, recorded, joins, typed_character, appended_log, joined_log, remaining_done, remaining_marks, logged_of, Undoes, Redoes, newest, next, undone_log, redone_log};

pub use crate::edit::{Edit, EditKind};
pub use groups::Group;
use std::alloc::{AllocError, Global};
use std::collections::VecDeque;
use std::marker::Model;
use std::time::Duration;
use textarea_text::word::CharKind;

/// The pause after which typing begins a new run, in nanoseconds.
const PAUSE: u128 = 500_000_000;

/// All edits are in one queue: the done ones before the index, the undone ones from it on. While a
/// run is open, `run` is the character by which the newest edit last grew. Each edit has a mark,
/// whether it is in one group with the edit before it.
#[derive(Drop)]
pub struct History {
    items: VecDeque<Edit>,
    index: usize,
    max_items: usize,
    run: Option<char>,
    last: Duration,
    group: Group,
}

impl Model for History {
    ghost use Rattle.std.specs.Prelude.{◌-◌, is_some};
    ghost use Rattle.std.specs.VecDeque.{deque_len, deque_capacity};
    ghost use Rattle.std.specs.Duration.{as_nanos};
    ghost use Rattle.textarea_history.specs.Log.{StoredLog};

    ghost Value = { StoredLog };

    ghost use Rattle.textarea_history.specs.Store.{IsStore, log_in, room_at};

    ghost view = { λ h. record {
      log = log_in h.items.items h.index h.max_items (is_some h.run) (as_nanos h.last) h.group;
      room = room_at h.items.items h.run (deque_capacity h.items - deque_len h.items);
    } };

    ghost invariant = { λ h. IsStore h.items.items h.index h.max_items h.run };
}

impl Clone for History {
    ghost is_clone = { λ history copy. copy.log ≡ history.log };

    /// Returns a history with the same edits, done and undone, and the same open group, or out of
    /// memory.
    fn clone(&self) -> Result<History, AllocError> {
        Ok(History {
            items: self.items.clone()?,
            index: self.index,
            max_items: self.max_items,
            run: self.run,
            last: self.last,
            group: self.group,
        })
    }
}

impl History {
    /// Creates a history without edits, for at most `max_items`, done and undone together.
    pub fn new(alloc: Global, max_items: usize) -> Self
        ensures { result.log ≡ empty_log max_items }
    {
        History {
            items: VecDeque::new(alloc),
            index: 0,
            max_items,
            run: None,
            last: Duration::ZERO,
            group: Group::Closed,
        }
    }

    /// Returns the greatest number of edits, done and undone together.
    pub fn max_items(&self) -> usize
        ensures value { result ≡ self.now.log.maximum }
        ensures bound { length self.now.log.done + length self.now.log.undone ≤ result }
    {
        self.max_items
    }

    /// Returns the number of done edits.
    pub fn done_len(&self) -> usize
        ensures { result ≡ length self.now.log.done }
    {
        self.index
    }

    /// Returns the number of undone edits.
    pub fn undone_len(&self) -> usize
        ensures { result ≡ length self.now.log.undone }
    {
        self.items.len() - self.index
    }

    /// Ends the run of typing, if one is open.
    pub fn break_run(&mut self)
        ensures { self.new.log ≡ record self.old.log { run_open = false } }
    {
        self.run = None;
    }

    /// Records the edit, in a form whose copies share its fragment, if it has one. With `coalesce`
    /// one of a single character is typed, and can join a run. Out of memory changes nothing.
    pub fn push(&mut self, edit: Edit, coalesce: bool, now: Duration) -> Result<(), AllocError>
        requires { IsWellFormed edit }
        ensures ok { OnOk result (self.new.log
            ≡ recorded self.old.log edit.splice coalesce (as_nanos now)) }
        ensures err { OnErr result (self.new.log ≡ self.old.log) }
    {
        let edit = edit.share(*self.items.allocator())?;
        self.reserve()?;
        self.put(edit, coalesce, now);
        Ok(())
    }

    /// Makes room for one more edit, so that `put` does not allocate.
    pub fn reserve(&mut self) -> Result<(), AllocError>
        ensures same { self.new.log ≡ self.old.log }
        ensures ok { OnOk result (0 < self.new.room) }
    {
        self.items.reserve(1)?;
        if self.run.is_some() {
            let alloc = *self.items.allocator();
            return self.items[self.index - 1].reserve(alloc);
        }
        Ok(())
    }

    /// Records the edit as `push` does, in the room that `reserve` makes.
    pub fn put(&mut self, edit: Edit, coalesce: bool, now: Duration)
        requires well_formed { IsWellFormed edit }
        requires room { 0 < self.old.room }
        ensures { self.new.log ≡ recorded self.old.log edit.splice coalesce (as_nanos now) }
    {
        if self.max_items == 0 {
            return;
        }
        if self.joins(&edit, coalesce, now) {
            self.join(&edit, now);
        } else if self.is_outgrown() {
            self.forget();
        } else {
            self.append(edit, coalesce, now);
        }
    }

    /// Returns whether `put` will join the edit to the newest one, as in a run of typing.
    pub fn joins(&self, edit: &Edit, coalesce: bool, now: Duration) -> bool
        requires { IsWellFormed edit.now }
        ensures { result ≡ joins self.now.log edit.now.splice coalesce (as_nanos now) }
    {
        let (Some(c), Some(edge)) = (typed_character(edit, coalesce), self.run) else {
            return false;
        };
        let newest = &self.items[self.index - 1];
        now.saturating_sub(self.last).as_nanos() < PAUSE && continues(newest, edge, edit, c)
    }

    /// Extends the newest edit by the typed one, which joins it.
    fn join(&mut self, edit: &Edit, now: Duration)
        requires well_formed { IsWellFormed edit.now }
        requires room { 0 < self.old.room }
        requires joins { joins self.old.log edit.now.splice true (as_nanos now) ≡ true }
        ensures { self.new.log ≡ joined_log self.old.log edit.now.splice (as_nanos now) }
    {
        if let Some(c) = typed_character(edit, true) {
            let newest = &mut self.items[self.index - 1];
            newest.grow(edit, c);
            self.run = Some(c);
            self.last = now;
            self.group = self.group.with_edit();
        }
    }

    /// Appends the edit to the done ones.
    fn append(&mut self, mut edit: Edit, coalesce: bool, now: Duration)
        requires well_formed { IsWellFormed edit }
        requires room { 0 < self.old.room }
        requires some { 0 < self.old.log.maximum }
        ensures { self.new.log ≡ appended_log self.old.log edit.splice coalesce (as_nanos now) }
    {
        self.drop_excess();
        let typed = typed_character(&edit, coalesce);
        edit.start_run(typed);
        edit.set_grouped(self.group.is_filled());
        let _ = self.items.push_back(edit);
        self.index += 1;
        self.run = typed;
        self.last = now;
        self.group = self.group.with_edit();
    }

    /// Drops the undone edits, and also the oldest group of done ones if the history is full.
    fn drop_excess(&mut self)
        requires room { 0 < self.old.room }
        requires some { 0 < self.old.log.maximum }
        ensures log { self.new.log
            ≡ record self.old.log {
              done = remaining_done self.old.log;
              undone = [];
              run_open = false;
              marks = remaining_marks self.old.log;
            } }
        ensures place { length self.new.log.done < self.new.log.maximum }
        ensures room { 0 < self.new.room }
    {
        if self.items.len() == self.max_items {
            let count = self.oldest_group();
            drop_oldest(&mut self.items, count);
            self.index = self.index.saturating_sub(count);
        }
        self.items.truncate(self.index);
        self.run = None;
    }

    /// Returns the newest done edit, which `undo` undoes next.
    pub fn newest(&self) -> Option<&Edit>
        ensures edit { MatchOption result (newest self.now.log ≡ None)
            (λ edit. newest self.now.log ≡ Some edit.now.splice) }
        ensures well_formed { IfSome result (λ edit. IsWellFormed edit.now) }
    {
        self.items.get(self.index.checked_sub(1)?)
    }

    /// Returns the edit that was undone last, which `redo` redoes next.
    pub fn next(&self) -> Option<&Edit>
        ensures edit { MatchOption result (next self.now.log ≡ None)
            (λ edit. next self.now.log ≡ Some edit.now.splice) }
        ensures well_formed { IfSome result (λ edit. IsWellFormed edit.now) }
    {
        self.items.get(self.index)
    }

    /// Moves the newest done edit, which was undone, to the undone ones. The run and an
    /// open group end.
    pub fn step_back(&mut self)
        requires { IsSome (newest self.old.log) }
        ensures { (splice : Splice) → newest self.old.log ≡ Some splice →
            self.new.log ≡ undone_log self.old.log splice }
    {
        self.index -= 1;
        self.run = None;
        self.group = Group::Closed;
    }

    /// Moves the edit that was undone last, and was redone, to the done ones. The
    /// run and an open group end.
    pub fn step_forward(&mut self)
        requires { IsSome (next self.old.log) }
        ensures { (splice : Splice) → next self.old.log ≡ Some splice →
            self.new.log ≡ redone_log self.old.log splice }
    {
        self.index += 1;
        self.run = None;
        self.group = Group::Closed;
    }

    /// Undoes the newest edit, if there is one, and returns the cursor. Out of memory changes
    /// nothing.
    pub fn undo(&mut self, lines: &mut Vec<String>) -> Result<Option<(usize, usize)>, AllocError>
        requires { IfSome (newest self.old.log)
            (λ splice. FitsLines lines.old.items (inverse splice)) }
        ensures ok { IfOk result (Undoes (logged_of lines.old.items self.old.log)
            (logged_of lines.new.items self.new.log)) }
        ensures err { OnErr result (self.new.log ≡ self.old.log) }
        ensures lines { OnErr result (lines.new.items ≡ lines.old.items) }
        ensures nonempty { 0 < vec_len lines.old → 0 < vec_len lines.new }
        ensures nothing { newest self.old.log ≡ None → IsOk result × (lines.new ≡ lines.old) }
    {
        let Some(edit) = self.newest() else {
            return Ok(None);
        };
        let change = edit.inverse();
        change.apply(lines)?;
        let back = change.cursor_after();
        self.step_back();
        Ok(Some(back))
    }

    /// Redoes the edit that was undone last, if there is one, and returns the cursor. Out of memory
    /// changes nothing.
    pub fn redo(&mut self, lines: &mut Vec<String>) -> Result<Option<(usize, usize)>, AllocError>
        requires { IfSome (next self.old.log) (FitsLines lines.old.items) }
        ensures ok { IfOk result (Redoes (logged_of lines.old.items self.old.log)
            (logged_of lines.new.items self.new.log)) }
        ensures err { OnErr result (self.new.log ≡ self.old.log) }
        ensures lines { OnErr result (lines.new.items ≡ lines.old.items) }
        ensures nonempty { 0 < vec_len lines.old → 0 < vec_len lines.new }
        ensures nothing { next self.old.log ≡ None → IsOk result × (lines.new ≡ lines.old) }
    {
        let Some(edit) = self.next() else {
            return Ok(None);
        };
        let change = edit.change();
        change.apply(lines)?;
        let ahead = change.cursor_after();
        self.step_forward();
        Ok(Some(ahead))
    }
}

fn drop_oldest(items: &mut VecDeque<Edit>, count: usize)
    ensures items { items.new.items ≡ drop count items.old.items }
    ensures capacity { deque_capacity items.new ≡ deque_capacity items.old }
{
    for _ in 0..count {
        items.pop_front();
    }
}

// The character of an edit that counts as typed: with `coalesce`, and of just one character.
fn typed_character(edit: &Edit, coalesce: bool) -> Option<char>
    requires { IsWellFormed edit.now }
    ensures { result ≡ typed_character edit.now.splice coalesce }
{
    if coalesce { edit.character() } else { None }
}

// Whether the typed edit of `c` continues this run, which last grew by `edge`.
fn continues(run: &Edit, edge: char, edit: &Edit, c: char) -> bool
    requires run { IsWellFormed run.now }
    requires edit { IsWellFormed edit.now }
    requires edge { edge_of run.now.splice ≡ Some (Character edge) }
    requires character { edit.now.splice.symbols ≡ Character c ∷ [] }
    ensures { result ≡ continues run.now.splice edit.now.splice }
{
    let before = run.change();
    let change = edit.change();
    let ended = before.cursor_after();
    let begins = change.cursor_before();
    before.inserts() == change.inserts()
        && ended.0 == begins.0
        && ended.1 == begins.1
        && (c.is_whitespace() || CharKind::new(edge) == CharKind::new(c))
}

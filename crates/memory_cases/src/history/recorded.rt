//! Lines, and the history of their edits.
ghost use Rattle.std.specs.Prelude.{◌≡◌, ◌<◌, ◌≤◌, vec_len, length, IfOk, IfSome, OnErr, OnOk};
ghost use Rattle.std.specs.Duration.{as_nanos};
ghost use Rattle.textarea_text.specs.Text.{text_of};
ghost use Rattle.textarea_text.specs.Place.{end};
ghost use Rattle.textarea_history.specs.Edit.{IsWellFormed, end_of_kind, line_count_of, splice_of, symbols_of};
ghost use Rattle.textarea_history.specs.Log.{recorded};
ghost use Rattle.memory_cases.specs.Ready.{IsEditReady};

use crate::history::calls::{Edit as Wanted, Place, Typed};
use crate::history::plans::{Plan, insertion, plan_of};
use std::alloc::{AllocError, Global};
use std::marker::Model;
use textarea_history::history::{Edit, History};
use textarea_text::fragment::copy_fragment;
use textarea_text::util::Pos;

/// Lines, and a history whose edits were each made on them when they were recorded.
#[derive(Drop)]
pub struct Recorded {
    lines: Vec<String>,
    history: History,
}

impl Model for Recorded {
    ghost use Rattle.std.specs.Prelude.{◌<◌, vec_len};
    ghost use Rattle.textarea_history.specs.HistoryLaw.{IsSoundLog};
    ghost use Rattle.textarea_history.specs.Log.{Logged, logged_of};

    ghost Value = { Logged };

    ghost view = { λ recorded. logged_of recorded.lines.items recorded.history.log };

    ghost invariant = { λ recorded. (0 < vec_len recorded.lines)
        × IsSoundLog (logged_of recorded.lines.items recorded.history.log) };
}

/// The lines after an edit, and the lines after its undo.
#[derive(Drop)]
pub struct BothWays {
    pub there: Vec<String>,
    pub back: Vec<String>,
}

impl Recorded {
    /// Returns the lines, at least one, with an empty history of at most this many edits.
    pub fn new(lines: Vec<String>, maximum: usize) -> Recorded
        requires { 0 < vec_len lines }
    {
        let history = History::new(*lines.allocator(), maximum);
        Recorded { lines, history }
    }

    pub fn lines(&self) -> &[String]
        ensures some { 0 < length result.now }
        ensures text { text_of result.now ≡ self.now.text }
    {
        self.lines.as_slice()
    }

    /// Returns a copy of the lines and the history.
    pub fn copy(&self) -> Result<Recorded, AllocError> {
        let lines = copied(self.lines.as_slice(), *self.lines.allocator())?;
        let history = self.history.clone()?;
        Ok(Recorded { lines, history })
    }

    /// Keeps the lines, and begins an empty history.
    pub fn restart(&mut self, maximum: usize) {
        self.history = History::new(*self.lines.allocator(), maximum);
    }

    pub fn break_run(&mut self) {
        self.history.break_run();
    }

    /// Undoes the newest edit, if there is one, and returns the cursor's new position.
    pub fn undo(&mut self) -> Result<Option<Place>, AllocError> {
        self.history.undo(&mut self.lines)
    }

    /// Redoes the edit that was undone last, if there is one; returns the cursor's new position.
    pub fn redo(&mut self) -> Result<Option<Place>, AllocError> {
        self.history.redo(&mut self.lines)
    }

    /// Makes the edit, and records it. If memory runs out, nothing changes.
    pub fn edit(&mut self, wanted: Wanted<'_>, typed: Typed) -> Result<(), AllocError> {
        let alloc = *self.lines.allocator();
        match plan_of(alloc, self.lines(), wanted)? {
            Some(plan) => self.make(&plan, typed),
            None => Ok(()),
        }
    }

    fn make(&mut self, plan: &Plan, typed: Typed) -> Result<(), AllocError>
        requires { IsEditReady self.old.text plan.now.kind plan.now.before plan.now.after }
    {
        let edit = edit_of(plan)?;
        let mut lines = copied(self.lines.as_slice(), *self.lines.allocator())?;
        edit.redo(&mut lines)?;
        replace(&mut self.lines, &mut self.history, lines, edit, typed)
    }

    /// Makes an insertion on a copy of the lines, and undoes it there.
    pub fn both_ways(&self, place: Place, text: &str) -> Result<BothWays, AllocError> {
        let alloc = *self.lines.allocator();
        match insertion(alloc, self.lines(), place, text)? {
            Some(plan) => make_and_undo(self.lines(), alloc, &plan),
            None => stay(self.lines(), alloc),
        }
    }
}

// The edit with a copy of the plan's kind.
fn edit_of(plan: &Plan) -> Result<Edit, AllocError>
    requires some { 0 < length (symbols_of plan.now.kind) }
    requires fragment_lines { IfSome (line_count_of plan.now.kind) (λ n. 2 ≤ n) }
    requires ends { end_of_kind plan.now.kind plan.now.before plan.now.after
        ≡ end (splice_of plan.now.kind plan.now.before plan.now.after).place
        (symbols_of plan.now.kind) }
    ensures splice { IfOk result
        (λ edit. edit.splice ≡ splice_of plan.now.kind plan.now.before plan.now.after) }
    ensures well_formed { IfOk result IsWellFormed }
{
    let kind = plan.kind.clone()?;
    let before = Pos::new(plan.before.0, plan.before.1, 0);
    let after = Pos::new(plan.after.0, plan.after.1, 0);
    Ok(Edit::new(kind, before, after))
}

// Puts lines in place of others, and records the edit that made them. If memory runs out, nothing
// changes.
fn replace(
    lines: &mut Vec<String>,
    history: &mut History,
    made: Vec<String>,
    edit: Edit,
    typed: Typed,
) -> Result<(), AllocError>
    requires { IsWellFormed edit }
    ensures ok { OnOk result ((lines.new ≡ made) × (history.new.log
        ≡ recorded history.old.log edit.splice typed.coalesce (as_nanos typed.now))) }
    ensures err { OnErr result ((lines.new ≡ lines.old) × (history.new.log ≡ history.old.log)) }
{
    history.push(edit, typed.coalesce, typed.now)?;
    *lines = made;
    Ok(())
}

fn make_and_undo(lines: &[String], alloc: Global, plan: &Plan) -> Result<BothWays, AllocError>
    requires some { 0 < length lines.now }
    requires ready { IsEditReady (text_of lines.now)
        plan.now.kind plan.now.before plan.now.after }
{
    let edit = edit_of(plan)?;
    let mut lines = copied(lines, alloc)?;
    edit.redo(&mut lines)?;
    let there = copied(lines.as_slice(), alloc)?;
    edit.undo(&mut lines)?;
    Ok(BothWays { there, back: lines })
}

fn stay(lines: &[String], alloc: Global) -> Result<BothWays, AllocError>
    requires { 0 < length lines.now }
{
    Ok(BothWays {
        there: copied(lines, alloc)?,
        back: copied(lines, alloc)?,
    })
}

// A copy of the lines.
fn copied(lines: &[String], alloc: Global) -> Result<Vec<String>, AllocError>
    requires { 0 < length lines.now }
    ensures some { IfOk result (λ copy. 0 < vec_len copy) }
    ensures text { IfOk result (λ copy. text_of copy.items ≡ text_of lines.now) }
{
    copy_fragment(alloc, lines)
}

//! The text that is edited, and whether it may differ from the saved one.
ghost use Rattle.std.specs.Prelude.{◌≡◌, ◌↔◌, ◌||◌, ◌∷◌, [], None, true, All, IsOk, IsTrue, OnErr, OnOk, IfOk, IfSome, is_err};
ghost use Rattle.std.specs.Duration.{as_nanos};
ghost use Rattle.std.specs.List.{list_all, list_any};
ghost use Rattle.textarea_calls.specs.Edits.{edits};
ghost use Rattle.textarea_calls.specs.Possible.{CanBeMade};
ghost use Rattle.textarea_calls.specs.declared.call.Call.TheVariants.{SetNow};
ghost use Rattle.textarea_modal.specs.Calls.{OfStep};
ghost use Rattle.textarea_modal.specs.Runs.{AllMade, OneRunsOut};
ghost use Rattle.textarea_modal.specs.Table.{passed_on};
ghost use Rattle.textarea_modal.specs.declared.mode.Mode.{Mode};
ghost use Rattle.textarea_screen.specs.Buffer.{KeepsOutside};
ghost use Rattle.textarea_screen.specs.Rect.{contains};
ghost use Rattle.tui_textarea.specs.CallResults.{call_result};
ghost use Rattle.tui_textarea.specs.Drawing.{IsRendered, widget_of};
ghost use Rattle.tui_textarea.specs.Measure.{reads_rows};
ghost use Rattle.tui_textarea.specs.Rendered.{IsDrawn};
ghost use Rattle.textarea_editor.specs.Draft.{FailsIn, HasCopy, IsChangeMark, IsMarkAfter, IsMeasuredRows, IsSaved, IsSavedFrom, IsUndrawn, Makes, has_found, is_made, plain_calls};
ghost use Rattle.textarea_editor.specs.EventEffects.{is_copying, key_copies};
ghost use Rattle.textarea_editor.specs.SearchMessages.{has_match, searches};
ghost use Rattle.textarea_editor.specs.SetUp.{read_only};
ghost use Rattle.textarea_text.specs.Text.{lines_of};

pub mod breaking;
pub mod clicking;
pub mod moving;
pub mod paging;

use std::alloc::{AllocError, Global};
use std::time::Duration;
use textarea_calls::keys::action_of;
use textarea_calls::{Answer, Call};
use textarea_data::input::Input;
use textarea_modal::modal::pass_on;
use textarea_modal::step::KeyCall;
use textarea_modal::{Modal, Reaction};
use textarea_run::perform::make;
use textarea_screen::screen::{Buffer, Rect};
use textarea_text::fragment::copy_fragment;
use tui_textarea::TextArea;
use tui_textarea::outcomes::laws::others_edit_nothing;

// The most bytes of a saved text that is kept, to be compared with the edited one.
const KEPT_BYTES: usize = 1 << 20;

/// A text that is edited by calls. It knows whether it may differ from the saved text: the one that
/// it had when it was made or saved last.
#[derive(Drop)]
pub struct Draft {
    area: TextArea<'static>,
    /// The lines of the saved text, if they have few bytes and memory sufficed for them.
    saved: Option<Vec<String>>,
    is_changed: bool,
}

impl Draft {
    /// Returns the draft of a text area, as it was saved.
    #[tactic(auto, using(crate::proofs::Saved::copy_of))]
    pub fn new(area: TextArea<'static>) -> Draft
        ensures area { result.area ≡ area.entry }
        ensures saved { IsSaved result }
    {
        let saved = kept_lines(area.allocator(), area.lines());
        Draft {
            area,
            saved,
            is_changed: false,
        }
    }

    /// Returns the text area.
    pub fn area(&self) -> &TextArea<'static>
        ensures { result.now ≡ self.now.area }
    {
        &self.area
    }

    /// Returns the allocator of all memory of the text.
    pub fn allocator(&self) -> Global {
        self.area.allocator()
    }

    /// Returns whether the text may differ from the saved one.
    pub fn is_changed(&self) -> bool
        ensures { result ≡ self.now.is_changed }
    {
        self.is_changed
    }

    /// Notes that the text was saved. A run of typing ends.
    #[tactic(auto, using(crate::proofs::Saved::copy_of))]
    pub fn set_saved(&mut self)
        ensures { IsSavedFrom self.old self.new }
    {
        self.area.end_run();
        self.saved = kept_lines(self.allocator(), self.area.lines());
        self.is_changed = false;
    }

    /// Notes that the text differs from the saved one, of which there is no copy: it counts as
    /// changed until it is saved.
    pub fn set_changed(&mut self)
        ensures { self.new ≡ record self.old { saved = None; is_changed = true } }
    {
        self.saved = None;
        self.is_changed = true;
    }

    /// Makes the text read-only, and keeps a copy of it, so that it never counts as changed if it
    /// doesn't yet.
    pub fn set_read_only(&mut self) -> Result<(), AllocError>
        ensures area { OnOk result (self.new.area ≡ read_only self.old.area) }
        ensures saved { OnOk result (IsSaved self.old → IsSaved self.new) }
        ensures copy { OnOk result (HasCopy self.new) }
        ensures err { OnErr result (self.new ≡ self.old) }
    {
        let copy = copy_fragment(self.allocator(), self.area.lines())?;
        self.area.set_read_only(true);
        self.saved = Some(copy);
        Ok(())
    }

    /// Sets the time, by which typed characters join to one edit.
    pub fn set_time(&mut self, now: Duration)
        ensures made { Makes self.old (SetNow now ∷ []) self.new }
        ensures same { self.new ≡ record self.old {
          area = record self.old.area { time = as_nanos now };
        } }
    {
        self.area.set_now(now);
    }

    /// Makes calls, and returns false if the last one found nothing. If one of them may edit, the text
    /// is compared with the saved one, or counts as changed if there is no copy of that.
    ///
    /// If memory runs out, the calls before one of them were made, and the text counts as changed in
    /// the same way.
    pub fn make(&mut self, calls: &[Call<'_>]) -> Result<bool, AllocError>
        requires { IsTrue (list_all is_made calls.now) }
        ensures ok { OnOk result (Makes self.old (plain_calls calls.now) self.new) }
        ensures mark { OnOk result
            (IsMarkAfter self.old.is_changed (list_any edits calls.now) self.new) }
        ensures err { OnErr result (FailsIn self.old (plain_calls calls.now) self.new) }
    {
        let may_change = any_edits(calls);
        let made = make_all(&mut self.area, calls);
        self.note(may_change, made)
    }

    // Searches, and returns whether there is a match.
    fn search(&mut self, call: Call<'_>) -> Result<bool, AllocError>
        requires { searches call ≡ true }
        ensures ok { OnOk result (Makes self.old (call.entry ∷ []) self.new) }
        ensures err { OnErr result (FailsIn self.old (call.entry ∷ []) self.new) }
        ensures found { IfOk result (λ found. found ≡ has_match self.new.area) }
    {
        let made = make_search(&mut self.area, call);
        self.note(false, made)
    }

    /// Passes an input to the text area, and returns whether the text changed.
    pub fn input(&mut self, input: &Input) -> Result<bool, AllocError>
        ensures ok { OnOk result (Makes self.old (passed_on input.now ∷ []) self.new) }
        ensures err { OnErr result (FailsIn self.old (passed_on input.now ∷ []) self.new) }
    {
        let action = action_of(input);
        let made = pass_on(&mut self.area, action);
        self.note(action.may_change_text(), made)
    }

    /// Makes the calls of what a key does in the modal editor, and returns whether it quits.
    pub fn react(&mut self, modal: &mut Modal, reaction: Reaction) -> Result<bool, AllocError>
        ensures ok { OnOk result
            (OfStep modal.old reaction (λ step. Makes self.old step.calls self.new)) }
        ensures mode { OnOk result (OfStep modal.old reaction (λ step. modal.new ≡ step.mode)) }
        ensures quits { IfOk result
            (λ quits. OfStep modal.old reaction (λ step. quits ≡ step.quits)) }
        ensures err { OnErr result
            (OfStep modal.old reaction (λ step. FailsIn self.old step.calls self.new)) }
    {
        let made = modal.react(&mut self.area, reaction);
        self.note(reaction.edits(), made)
    }

    // Notes that calls were made, which may have changed the text, as those have that ran out of
    // memory.
    #[tactic(auto, using(crate::proofs::Drafts::mark_compared_after, crate::proofs::Drafts::mark_stays_after))]
    fn note(&mut self, may_change: bool, made: Result<bool, AllocError>) -> Result<bool, AllocError>
        ensures made { result ≡ made }
        ensures same { self.new ≡ record self.old { is_changed = self.new.is_changed } }
        ensures mark { IsMarkAfter self.old.is_changed (may_change || is_err made) self.new }
    {
        let may_differ = may_change || made.is_err();
        if may_differ {
            self.is_changed = self.differs();
        }
        made
    }

    // Returns whether the text differs from the saved one. Without a copy of that it is taken to.
    #[tactic(auto, using(crate::proofs::Saved::mark_compared))]
    fn differs(&self) -> bool
        ensures { IsChangeMark self.now.saved self.now.area result }
    {
        match &self.saved {
            Some(copy) => !are_same(self.area.lines(), copy.as_slice()),
            None => true,
        }
    }

    /// Returns the number of rows that the text needs at this width.
    pub fn content_rows(&mut self, width: u16) -> Result<u16, AllocError>
        ensures same { self.new ≡ self.old }
        ensures measured { IfOk result (λ rows. IsMeasuredRows self.old.area width rows) }
        ensures no_memory { reads_rows self.old.area width ≡ true → IsOk result }
    {
        let measure = self.area.measure(width)?;
        Ok(measure.content_rows)
    }

    /// Draws the text area into an area of a buffer.
    pub fn render(&mut self, area: Rect, buffer: &mut Buffer) -> Result<(), AllocError>
        ensures ok { OnOk result (IsRendered self.old.area area self.new.area) }
        ensures cells { OnOk result (IsDrawn (widget_of self.new.area) area buffer.old buffer.new) }
        ensures outside { KeepsOutside (contains area) buffer.old buffer.new }
        ensures err { OnErr result (self.new.area ≡ self.old.area) }
        ensures changed { self.new.is_changed ≡ self.old.is_changed }
        ensures saved { self.new.saved ≡ self.old.saved }
    {
        self.area.render(area, buffer)
    }
}

// Returns a copy of the lines, if they have few bytes and memory suffices.
fn kept_lines(alloc: Global, lines: &[String]) -> Option<Vec<String>>
    ensures { IfSome result (λ copy. lines_of copy.items ≡ lines_of lines.now) }
{
    if byte_count(lines) > KEPT_BYTES {
        return None;
    }
    match copy_fragment(alloc, lines) {
        Ok(copy) => Some(copy),
        Err(_) => None,
    }
}

// The number of bytes of lines, or the greatest number.
fn byte_count(lines: &[String]) -> usize {
    lines
        .iter()
        .fold(0usize, |count, line| count.saturating_add(line.len()))
}

// Returns whether the lines are those of the copy.
fn are_same(lines: &[String], copy: &[String]) -> bool
    ensures { IsTrue result ↔ (lines_of lines.now ≡ lines_of copy.now) }
{
    lines == copy
}

// Makes calls in turn, and returns false if the last one found nothing.
fn make_all(area: &mut TextArea<'static>, calls: &[Call<'_>]) -> Result<bool, AllocError>
    requires can { All CanBeMade calls.now }
    requires undrawn { All IsUndrawn calls.now }
    ensures ok { OnOk result (AllMade area.old (plain_calls calls.now) area.new) }
    ensures err { OnErr result (OneRunsOut area.old (plain_calls calls.now) area.new) }
{
    others_edit_nothing();
    let mut found = true;
    for call in calls {
        found = has_found(make(area, *call)?);
    }
    Ok(found)
}

// Makes a call that searches, and returns whether there is a match.
#[tactic(auto, using(crate::proofs::Searches::search_can, crate::proofs::Searches::search_draws_nothing))]
fn make_search(area: &mut TextArea<'static>, call: Call<'_>) -> Result<bool, AllocError>
    requires { searches call ≡ true }
    ensures ok { OnOk result (AllMade area.old (call.entry ∷ []) area.new) }
    ensures err { OnErr result (OneRunsOut area.old (call.entry ∷ []) area.new) }
    ensures found { IfOk result (λ found. found ≡ has_match area.new) }
{
    Ok(has_found(make(area, call)?))
}

// Returns false if the result is that nothing was found.
fn has_found(answer: Answer) -> bool
    ensures { result ≡ has_found (call_result answer) }
{
    !matches!(answer, Answer::Flag(false))
}

fn any_edits(calls: &[Call<'_>]) -> bool
    ensures { result ≡ list_any edits calls.now }
{
    calls.iter().any(|call| call.edits())
}

/// Returns whether what a key does in the modal editor copies text.
pub fn copies(reaction: &Reaction) -> bool
    ensures { (mode : Mode) →
        OfStep mode reaction.now (λ step. result ≡ list_any is_copying step.calls) }
{
    match reaction {
        Reaction::Step(step) => any_copies(step.calls),
        Reaction::PassOn(_) => false,
    }
}

fn any_copies(calls: &[KeyCall]) -> bool
    ensures { result ≡ list_any key_copies calls.now }
{
    calls.iter().any(|call| key_copies(*call))
}

fn key_copies(call: KeyCall) -> bool
    ensures { result ≡ key_copies call }
{
    matches!(call, KeyCall::Cut | KeyCall::Copy)
}

//! The lines of a text with their visual rows.
mod at_once;
mod width;

ghost use Rattle.std.specs.Prelude.{◌≡◌, ◌+◌, ◌-◌, ◌<◌, ◌≤◌, ◌↔◌, [], length, option_map, vec_len, false, true, None, IfOk, IfSome, IsOk, IsTrue, OnErr, OnOk, if◌then◌else◌};
ghost use Rattle.textarea_lines.specs.Prelude.{size_limit, offset_at, Place, IsPlace, size_of, weight, Fits, applied, lines, lines_of, text_of, breaks_of, row_total, IsRowCount, IsVisualPosition, IsFoundAbove, IsFoundBelow, IsRowCountAt, OfRows, applied_to, lines_spliced, origins_of, origins_spliced, with_origins, is_wrapped_at, layout_from_scratch, with_settings, keeps_wrapping, with_replacement, size_after, is_wrapped};

use crate::origins::{Origins, copy_origins, prepare_origins, put_origins, touched_lines};
use crate::rewrap::{Measured, WrappedRows, drop_measured, prepare_rows_for, put_whole_line};
use crate::settings::{LayoutSettings, is_same, is_wrapped, wrapping_at, wrapping_for};
use std::alloc::{AllocError, Global};
use std::marker::Model;
use textarea_history::edit::Change;
use textarea_screen_map::layout::{VisualPosition, Wrapping, rows_in};
use textarea_screen_map::line_marks::LineMarks;
use textarea_screen_map::screen_map::ScreenMap;
use textarea_text::rows::{Replacement, byte_offset, byte_offset_from, size_within_limit};
use textarea_text::util::Pos;
use textarea_util::limit::within_limit;
use textarea_wrap::wrap::WrapCount;
pub use width::PreparedWidth;

// As many characters from a known position are read without a search for a nearer one.
const NEARBY: usize = 64;

/// The lines of a text, at least one, with their visual rows. A change wraps the lines that it
/// touches, or all lines if the new number of lines changes how lines are wrapped. Rows and columns
/// count from 0, columns in characters. A call that runs out of memory changes nothing.
#[derive(Drop)]
pub struct TextLayout {
    lines: Vec<String>,
    size: usize,
    map: ScreenMap,
    count: WrapCount,
    settings: LayoutSettings,
    measured: Option<Measured>,
    cached: Option<WrappedRows>,
    found: Pos,
    marks: LineMarks,
    origins: Origins,
}

impl Model for TextLayout {
    ghost use Rattle.textarea_text.specs.Text.{text_of};
    ghost use Rattle.textarea_lines.specs.TextLayout.{TextAndLayout, layout_of, origins_of};

    ghost Value = { TextAndLayout };

    ghost use Rattle.textarea_lines.specs.Stored.{KeepsRows};

    ghost view = { λ text_layout. record {
      text = text_of text_layout.lines.items;
      layout = layout_of text_layout.settings text_layout.count text_layout.map.rows
          (origins_of text_layout.origins);
    } };

    ghost invariant = { λ text_layout.
        KeepsRows text_layout.settings text_layout.lines.items text_layout.size text_layout.map
        text_layout.measured
        text_layout.count text_layout.cached text_layout.found text_layout.marks };
}

impl Clone for TextLayout {
    ghost is_clone = { λ text_layout copy. copy ≡ text_layout };

    /// Returns the same lines with the same rows, or an error if memory runs out. Wraps no line.
    fn clone(&self) -> Result<TextLayout, AllocError> {
        let lines = self.lines.clone()?;
        let map = self.map.clone()?;
        let count = self.count.clone()?;
        let found = Pos::new(self.found.row, self.found.col, self.found.offset);
        let marks = LineMarks::new(*self.lines.allocator());
        let origins = copy_origins(&self.origins)?;
        Ok(TextLayout {
            lines,
            size: self.size,
            map,
            count,
            settings: self.settings,
            measured: self.measured,
            cached: None,
            found,
            marks,
            origins,
        })
    }
}

impl TextLayout {
    /// Returns these lines under the settings, each wrapped once. An empty list becomes one empty
    /// line. A line feed inside a line remains a character of that line.
    pub fn new(
        alloc: Global,
        mut lines: Vec<String>,
        settings: LayoutSettings,
    ) -> Result<TextLayout, AllocError>
        ensures { IfOk result
            (λ text_layout. text_layout ≡ layout_from_scratch settings 0 (text_of lines.items)) }
    {
        if lines.is_empty() {
            lines.push(String::new(alloc))?;
        }
        TextLayout::wrap_lines(lines, settings, WrapCount::new())
    }

    // Wraps all lines from scratch, each adding one to `count`.
    fn wrap_lines(
        lines: Vec<String>,
        settings: LayoutSettings,
        mut count: WrapCount,
    ) -> Result<TextLayout, AllocError>
        requires { 0 < vec_len lines }
        ensures { IfOk result
            (λ text_layout. text_layout ≡ layout_from_scratch settings count
            (text_of lines.items)) }
    {
        let borrowed = lines.as_slice();
        let size = size_within_limit(borrowed)?;
        let wrapping = wrapping_for(settings, borrowed.len());
        let alloc = *lines.allocator();
        let map = ScreenMap::new(alloc, borrowed, wrapping, &mut count)?;
        let found = Pos::new(0, 0, 0);
        let marks = LineMarks::new(alloc);
        Ok(TextLayout {
            lines,
            size,
            map,
            count,
            settings,
            measured: None,
            cached: None,
            found,
            marks,
            origins: None,
        })
    }

    /// Returns the lines, at least one. Their bytes and their number together are at most 2^48.
    pub fn lines(&self) -> &[String]
        ensures value { text_of result.now ≡ self.now.text }
        ensures lines { lines_of result.now ≡ lines self.now.text }
        ensures some { 0 < length result.now }
        ensures limit { size_of result.now ≤ size_limit }
    {
        self.lines.as_slice()
    }

    /// The law of small positions: a position's row is below 2^48, and its column at most that.
    pub fn places_are_small(&self)
        ensures { (place : Place) → IsPlace self.now.text place →
            (place.0 < size_limit) × (place.1 ≤ size_limit) }
    {
        let _ = &self.lines; // by the invariant their bytes and their number are at most 2^48
    }

    /// Returns the allocator of the lines and their rows.
    pub fn allocator(&self) -> Global {
        *self.lines.allocator()
    }

    /// Returns the settings that determine how lines are wrapped.
    pub fn layout_settings(&self) -> LayoutSettings
        ensures { result ≡ self.now.layout.settings }
    {
        self.settings
    }

    /// Returns whether the text is one empty line.
    pub fn is_empty(&self) -> bool
        ensures { IsTrue result ↔ (self.now.text ≡ []) }
    {
        self.lines.len() == 1 && self.lines[0].is_empty()
    }

    /// Returns only the lines.
    pub fn into_lines(self) -> Vec<String>
        ensures text { text_of result.items ≡ self.text }
        ensures some { 0 < vec_len result }
    {
        let TextLayout { lines, .. } = self;
        lines
    }

    /// Replaces all lines, under the same settings. Wraps each line once.
    pub fn set_lines(&mut self, lines: Vec<String>) -> Result<(), AllocError>
        requires { 0 < vec_len lines }
        ensures ok { OnOk result (self.new
            ≡ layout_from_scratch self.old.layout.settings self.old.layout.count
            (text_of lines.items)) }
        ensures err { OnErr result (self.new ≡ self.old) }
    {
        let count = self.count.clone()?;
        *self = TextLayout::wrap_lines(lines, self.settings, count)?;
        Ok(())
    }

    /// Sets the layout settings. If this changes how lines are wrapped, all lines are wrapped, each
    /// once. Otherwise this allocates nothing.
    pub fn set_layout_settings(&mut self, settings: LayoutSettings) -> Result<(), AllocError>
        ensures ok { OnOk result (self.new ≡ with_settings self.old settings) }
        ensures err { OnErr result (self.new ≡ self.old) }
        ensures no_memory { keeps_wrapping self.old settings ≡ true → IsOk result }
    {
        let wraps = self.wrap_for(settings)?;
        self.put(settings, wraps);
        Ok(())
    }

    /// Returns the number of visual rows.
    pub fn row_count(&self) -> usize
        ensures { OfRows self.now (λ rows. result ≡ row_total rows) }
    {
        self.map.row_count()
    }

    /// Returns the visual row and the display column of a position in the text.
    pub fn visual_position(&self, place: (usize, usize)) -> VisualPosition
        requires { IsPlace self.now.text place }
        ensures { OfRows self.now (λ rows. IsVisualPosition
            self.now.layout.settings.tab_len (lines self.now.text) rows place result) }
    {
        self.view().visual_position(place)
    }

    /// Returns where a cursor moves one visual row up; `None` in the first visual row.
    pub fn above(&self, place: (usize, usize)) -> Option<(usize, usize)>
        requires { IsPlace self.now.text place }
        ensures place { IfSome result (IsPlace self.now.text) }
        ensures above { IsFoundAbove self.now place result }
    {
        self.view().above(place)
    }

    /// Returns where a cursor moves one visual row down; `None` in the last visual row.
    pub fn below(&self, place: (usize, usize)) -> Option<(usize, usize)>
        requires { IsPlace self.now.text place }
        ensures place { IfSome result (IsPlace self.now.text) }
        ensures below { IsFoundBelow self.now place result }
    {
        self.view().below(place)
    }

    /// Returns the number of visual rows in an inner area of this width, in columns. Allocates
    /// nothing if the lines are already wrapped in that way, which they always are in the mode
    /// `None`. The current rows and the count don't change. Rows that are wrapped for this are
    /// cached, if memory suffices, until the lines change or are wrapped in a third way.
    pub fn rows_at_width(&mut self, inner_width: u16) -> Result<usize, AllocError>
        ensures same { self.new ≡ self.old }
        ensures rows { IfOk result (IsRowCountAt self.old inner_width) }
        ensures no_memory { is_wrapped_at self.old inner_width ≡ true → IsOk result }
    {
        let lines = self.lines.as_slice();
        let wrapping = wrapping_at(self.settings, inner_width, lines.len());
        if is_same(wrapping, self.map.wrapping()) {
            return Ok(self.map.row_count());
        }
        if let Some(measured) = self.measured {
            let is_measured = is_same(wrapping, measured.wrapping);
            if is_measured {
                return Ok(measured.rows);
            }
        }
        let rows = self.count_rows_at(wrapping)?;
        self.set_measured(Measured { wrapping, rows });
        Ok(rows)
    }

    // Caches a number of visual rows.
    fn set_measured(&mut self, measured: Measured)
        requires { IsRowCount measured.wrapping (lines self.old.text) measured.rows }
        ensures { self.new ≡ self.old }
    {
        self.measured = Some(measured);
    }

    // Returns the number of visual rows at this wrapping. Wraps each line, and caches the rows if
    // memory suffices.
    fn count_rows_at(&mut self, wrapping: Wrapping) -> Result<usize, AllocError>
        ensures same { self.new ≡ self.old }
        ensures rows { IfOk result (IsRowCount wrapping (lines self.old.text)) }
    {
        drop_measured(&mut self.cached);
        match self.wrap_all(wrapping) {
            Ok(wraps) => {
                let rows = wraps.map.row_count();
                self.cached = Some(wraps);
                Ok(rows)
            }
            Err(_) => rows_in(*self.lines.allocator(), self.lines.as_slice(), wrapping),
        }
    }

    /// Returns the bytes before a position in its line. Only the text from the nearest known
    /// position on is read: the last in-place change, or one that `mark` added.
    pub fn offset_of(&self, place: (usize, usize)) -> usize
        requires { IsPlace self.now.text place }
        ensures { result ≡ offset_at (lines self.now.text) place }
    {
        let line = self.lines[place.0].as_str();
        let steps = place.1.abs_diff(self.found.col);
        let is_near = steps < NEARBY || steps < place.1 - self.marked_column(place);
        if self.found.row == place.0 && is_near {
            return byte_offset_from(line, (self.found.col, self.found.offset), place.1);
        }
        if place.1 < NEARBY {
            return byte_offset(line, place.1);
        }
        self.view().offset_of(place)
    }

    // Returns the column of the last mark before a position in its line.
    fn marked_column(&self, place: (usize, usize)) -> usize
        ensures { result ≤ place.1 }
    {
        self.marks
            .at_column(place.0, self.settings.tab_len, place.1)
            .column
    }

    /// Makes positions of a line known, up to a position in it, so that look-ups near that position
    /// don't read the line from its start. Does nothing if lines are wrapped. If memory runs out,
    /// look-ups read more. Callers see no other change.
    pub fn mark(&mut self, place: (usize, usize))
        requires { IsPlace self.old.text place }
        ensures { self.new ≡ self.old }
    {
        if is_wrapped(self.settings) {
            return;
        }
        let tab_len = self.settings.tab_len;
        self.marks
            .extend(self.lines.as_slice(), place.0, tab_len, place.1);
    }

    /// Makes a change that fits the text.
    pub fn apply(&mut self, change: Change<'_>) -> Result<(), AllocError>
        requires { Fits self.old.text change }
        ensures ok { OnOk result (self.new ≡ applied_to self.old change.entry) }
        ensures err { OnErr result (self.new ≡ self.old) }
    {
        let mut origins = self.take_origins();
        let made = self.apply_with(change, &mut origins);
        self.set_origins(origins);
        made
    }

    // Takes out where lines come from.
    fn take_origins(&mut self) -> Origins
        ensures rest { self.new ≡ with_origins self.old None }
        ensures taken { origins_of result ≡ self.old.layout.origins }
    {
        self.origins.take()
    }

    // Sets where lines come from.
    fn set_origins(&mut self, origins: Origins)
        ensures { self.new ≡ with_origins self.old (origins_of origins) }
    {
        self.origins = origins;
    }

    // Makes a change that fits the text, also in what is taken out of it.
    fn apply_with(&mut self, change: Change<'_>, origins: &mut Origins) -> Result<(), AllocError>
        requires { Fits self.old.text change }
        ensures ok { OnOk result (self.new ≡ lines_spliced self.old change.entry) }
        ensures origins { OnOk result (origins_of origins.new
            ≡ option_map (λ origins. origins_spliced origins change.entry)
            (origins_of origins.old)) }
        ensures err { OnErr result (self.new ≡ self.old) }
        ensures origins_stay { OnErr result (origins_of origins.new ≡ origins_of origins.old) }
    {
        let alloc = self.allocator();
        let (row, gone, come) = touched_lines(&change)?;
        let new = prepare_origins(alloc, origins, row, gone, come)?;
        self.apply_to_lines(change)?;
        put_origins(origins, row, gone, new);
        Ok(())
    }

    // Makes a change that fits the text. Where lines come from doesn't change yet.
    fn apply_to_lines(&mut self, change: Change<'_>) -> Result<(), AllocError>
        requires { Fits self.old.text change }
        ensures ok { OnOk result (self.new ≡ lines_spliced self.old change.entry) }
        ensures err { OnErr result (self.new ≡ self.old) }
    {
        let size = size_after(self.size, &change)?;
        if !is_wrapped(self.settings) && change.is_inside_line() {
            return self.apply_inside(change, size);
        }
        self.apply_by_lines(change, size)
    }

    // Makes a change by replacing the lines that it touches. `size` is that of all lines then.
    fn apply_by_lines(&mut self, change: Change<'_>, size: usize) -> Result<(), AllocError>
        requires fits { Fits self.old.text change }
        requires size { size ≡ weight (applied self.old.text change) + 1 }
        requires limit { size ≤ size_limit }
        ensures ok { OnOk result (self.new ≡ lines_spliced self.old change.entry) }
        ensures err { OnErr result (self.new ≡ self.old) }
    {
        let alloc = *self.lines.allocator();
        let replacement = change.prepare(alloc, self.lines.as_slice())?;
        self.replace(replacement, size)
    }

    // Makes a change inside one line in place, when lines aren't wrapped. The rest of the text
    // isn't read. All that can run out of memory comes first.
    fn apply_inside(&mut self, change: Change<'_>, size: usize) -> Result<(), AllocError>
        requires fits { Fits self.old.text change }
        requires inside { breaks_of change.symbols ≡ 0 }
        requires whole { is_wrapped self.old.layout.settings ≡ false }
        requires size { size ≡ weight (applied self.old.text change) + 1 }
        requires limit { size ≤ size_limit }
        ensures ok { OnOk result (self.new ≡ lines_spliced self.old change.entry) }
        ensures err { OnErr result (self.new ≡ self.old) }
    {
        let (row, column) = change.start();
        let offset = self.offset_of((row, column));
        let alloc = self.allocator();
        let rows = Vec::with_capacity(alloc, 1)?;
        change.apply_inside(&mut self.lines, offset)?;
        let lines = self.lines.as_slice();
        put_whole_line(
            alloc,
            &mut self.map,
            rows,
            lines,
            row,
            size,
            &mut self.count,
        );
        self.size = size;
        self.measured = None;
        drop_measured(&mut self.cached);
        self.found = Pos::new(row, column, offset);
        self.marks.cut(row, column);
        Ok(())
    }

    // Replaces lines with their rows. `size` is that of all lines then. All memory is allocated
    // before the first change.
    fn replace(&mut self, replacement: Replacement, size: usize) -> Result<(), AllocError>
        requires within { replacement.row + replacement.count ≤ length (lines self.old.text) }
        requires some { 0 < vec_len replacement.lines }
        requires size { size ≡ weight (with_replacement self.old replacement).text + 1 }
        requires limit { size ≤ size_limit }
        ensures ok { OnOk result (self.new ≡ with_replacement self.old replacement) }
        ensures err { OnErr result (self.new ≡ self.old) }
    {
        let (prepared, count) = prepare_rows_for(
            &mut self.lines,
            &mut self.map,
            &replacement,
            self.settings,
            &self.count,
        )?;
        replacement.replace_in(&mut self.lines);
        self.map.replace(prepared);
        self.size = size;
        self.measured = None;
        drop_measured(&mut self.cached);
        self.found = Pos::new(0, 0, 0);
        self.marks.clear();
        self.count = count;
        Ok(())
    }
}

// Returns the size of the lines after the change. Out of memory above the limit.
fn size_after(size: usize, change: &Change<'_>) -> Result<usize, AllocError>
    ensures size { IfOk result (λ after. after ≡ size_after size change.now) }
    ensures limit { IsOk result ↔ (size_after size change.now ≤ size_limit) }
{
    let weight = change.weight();
    if change.inserts() {
        return within_limit(size.saturating_add(weight));
    }
    within_limit(size.saturating_sub(weight))
}

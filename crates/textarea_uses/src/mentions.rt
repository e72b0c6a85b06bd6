//! A note with mentions. Its user can rely on it that the listed names are those of the mentions in
//! the text, and that keys make no mention, and change none but by removing it as a whole, or by an
//! undo that gives it back.
ghost use Rattle.std.specs.Prelude.{◌≡◌, ◌<◌, ◌↔◌, [], IfOk, IsTrue, if◌then◌else◌, drop, encode_utf8_all, length, string_bytes, take};
ghost use Rattle.std.specs.Str.{chars};
ghost use Rattle.textarea_data.specs.declared.range.AtomicCursorBias.TheVariants.{Forward};
ghost use Rattle.textarea_ranges.specs.Moved.{covered_characters};
ghost use Rattle.textarea_text.specs.Text.{characters_of, lines, lines_of};
ghost use Rattle.textarea_uses.specs.Mentions.{HasOnlyNamesOf, known_names, names_in, with_mention};
ghost use Rattle.tui_textarea.specs.Prelude.{AreValid, ranges_accepted, settled};

use std::alloc::{AllocError, Global};
use textarea_text::places::line_of;
use tui_textarea::input_laws::ranges_cover_as_before;
use tui_textarea::laws::is_sound;
use tui_textarea::{AtomicRange, Input, TextArea};

/// A note, whose atomic ranges are its mentions.
#[derive(Drop)]
pub struct Note {
    area: TextArea<'static>,
}

impl Note {
    /// Returns a note with this text, and without mentions.
    pub fn new(alloc: Global, text: &str) -> Result<Note, AllocError>
        ensures { IfOk result (λ note. known_names note.area ≡ []) }
    {
        let mut area = TextArea::from_text(alloc, text)?;
        area.set_undo_ranges(true);
        Ok(Note { area })
    }

    /// Makes these characters a mention, if they can be one, and returns whether they are: they are
    /// some characters of one line, and none of them is in another mention.
    pub fn mark(&mut self, range: AtomicRange) -> Result<bool, AllocError>
        ensures judged { IfOk result (λ marked. IsTrue marked
            ↔ AreValid (lines self.old.area.document.text) (with_mention self.old.area range)) }
        ensures marked { IfOk result (λ marked. self.new.area ≡ (if marked
            then settled Forward (ranges_accepted self.old.area (with_mention self.old.area range))
            else self.old.area)) }
        ensures text { self.new.area.document.text ≡ self.old.area.document.text }
    {
        let alloc = self.area.allocator();
        let mut ranges = Vec::from_slice(alloc, self.area.atomic_ranges())?;
        ranges.push(range)?;
        match self.area.try_set_atomic_ranges(ranges)? {
            Ok(()) => Ok(true),
            Err(_) => Ok(false),
        }
    }

    /// Takes any key.
    pub fn take(&mut self, input: Input) -> Result<bool, AllocError>
        ensures { HasOnlyNamesOf self.old.area self.new.area }
    {
        is_sound(&self.area);
        ranges_cover_as_before();
        self.area.input(input)
    }

    /// Returns the mentioned names, in the order of the text.
    pub fn names(&self) -> Result<Vec<String>, AllocError>
        ensures { IfOk result (λ names. lines_of names.items ≡ names_in self.now.area) }
    {
        let mut names = Vec::new(self.area.allocator());
        for range in self.area.atomic_ranges() {
            let name = covered(&self.area, *range)?;
            names.push(name)?;
        }
        Ok(names)
    }
}

// Returns the characters of a range.
fn covered(area: &TextArea<'_>, range: AtomicRange) -> Result<String, AllocError>
    requires { range.row < length (lines area.now.document.text) }
    ensures { IfOk result (λ name. characters_of name
        ≡ covered_characters (lines area.now.document.text) range) }
{
    let line = line_of(area.lines(), range.row);
    let count = range.end_col.saturating_sub(range.start_col);
    section(area.allocator(), line, range.start_col, count)
}

// Returns this number of a line's characters from a column on.
fn section(alloc: Global, line: &str, column: usize, count: usize) -> Result<String, AllocError>
    ensures { IfOk result (λ name. string_bytes name
        ≡ encode_utf8_all (take count (drop column (chars line.now)))) }
{
    line.chars().skip(column).take(count).collect(alloc)
}

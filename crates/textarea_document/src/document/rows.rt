//! The visual rows of a document.
ghost use Rattle.std.specs.Prelude.{◌≡◌, true, IfOk, IfSome, IsOk, OnErr, OnOk};
ghost use Rattle.textarea_document.specs.Prelude.{IsPlace, row_total, at_width, is_wrapped_at, keeps_wrapping, OfRows, IsPrepared, IsViewOf, HasRowsAt, IsAboveCursor, IsBelowCursor, text_and_layout, with_inner_width, with_layout_settings};

use crate::document::Document;
use std::alloc::AllocError;
use textarea_lines::settings::LayoutSettings;
use textarea_lines::text_layout::PreparedWidth;
use textarea_screen_map::view::TextLayoutView;

impl Document {
    /// Returns the settings of the layout.
    pub fn layout_settings(&self) -> LayoutSettings
        ensures { result ≡ self.now.layout.settings }
    {
        self.text_layout.layout_settings()
    }

    /// Sets the settings of the layout. If that changes how lines wrap, all are wrapped again, each
    /// once; only then memory is needed.
    pub fn set_layout_settings(&mut self, settings: LayoutSettings) -> Result<(), AllocError>
        ensures ok { OnOk result (self.new ≡ with_layout_settings self.old settings) }
        ensures err { OnErr result (self.new ≡ self.old) }
        ensures no_memory { keeps_wrapping (text_and_layout self.old) settings ≡ true → IsOk
            result }
    {
        self.text_layout.set_layout_settings(settings)
    }

    /// Returns the position one visual row above the cursor; `None` in the first visual row.
    #[tactic(auto, unfolding(crate::specs::DocumentRows::IsAboveCursor))]
    pub fn above(&self) -> Option<(usize, usize)>
        ensures place { IfSome result (IsPlace self.now.text) }
        ensures above { IsAboveCursor self.now result }
    {
        self.text_layout.above(self.cursor)
    }

    /// Returns the position one visual row below the cursor; `None` in the last visual row.
    #[tactic(auto, unfolding(crate::specs::DocumentRows::IsBelowCursor))]
    pub fn below(&self) -> Option<(usize, usize)>
        ensures place { IfSome result (IsPlace self.now.text) }
        ensures below { IsBelowCursor self.now result }
    {
        self.text_layout.below(self.cursor)
    }

    /// Returns the number of visual rows of the whole text.
    pub fn row_count(&self) -> usize
        ensures { OfRows (text_and_layout self.now) (λ rows. result ≡ row_total rows) }
    {
        self.text_layout.row_count()
    }

    /// Returns the lines with their visual rows.
    pub fn view(&self) -> TextLayoutView<'_>
        ensures { IsViewOf (text_and_layout self.now) result }
    {
        self.text_layout.view()
    }

    /// Prepares the visual rows for an inner width, in columns. If it changes how lines wrap, all
    /// are wrapped, each once; only then memory is needed. Lines that were last measured at this
    /// width are not wrapped again. If lines aren't wrapped, positions up to the cursor are made
    /// known, for faster look-ups. The document does not change for its callers.
    pub fn prepare_width(&mut self, inner_width: u16) -> Result<PreparedWidth, AllocError>
        ensures same { self.new ≡ self.old }
        ensures prepared { IfOk result (IsPrepared (text_and_layout self.old)) }
        ensures width { IfOk result (λ prepared. prepared.inner_width ≡ inner_width) }
        ensures no_memory { let text_layout = text_and_layout self.old in
            keeps_wrapping text_layout (at_width text_layout inner_width) ≡ true → IsOk result }
    {
        self.text_layout.mark(self.cursor);
        self.text_layout.prepare_width(inner_width)
    }

    /// Returns the lines with their visual rows as they will be once the prepared width is set.
    pub fn view_with<'a>(&'a self, prepared: &'a PreparedWidth) -> TextLayoutView<'a>
        requires { IsPrepared (text_and_layout self.now) prepared.now }
        ensures { IsViewOf
            (text_and_layout (with_inner_width self.now prepared.now.inner_width)) result }
    {
        self.text_layout.view_with(prepared)
    }

    /// Sets the prepared inner width; this needs no memory and wraps no line.
    pub fn put_width(&mut self, prepared: PreparedWidth)
        requires { IsPrepared (text_and_layout self.old) prepared }
        ensures { self.new ≡ with_inner_width self.old prepared.inner_width }
    {
        self.text_layout.put_width(prepared);
    }

    /// Returns the number of visual rows that the whole text would have in an inner area of this
    /// width, in columns. If lines wrap as in the present layout, no memory is needed. The document
    /// does not change for its callers.
    #[tactic(auto, unfolding(crate::specs::DocumentRows::HasRowsAt))]
    pub fn rows_at_width(&mut self, inner_width: u16) -> Result<usize, AllocError>
        ensures same { self.new ≡ self.old }
        ensures rows { IfOk result (HasRowsAt self.old inner_width) }
        ensures no_memory { is_wrapped_at (text_and_layout self.old) inner_width ≡ true → IsOk
            result }
    {
        self.text_layout.rows_at_width(inner_width)
    }
}

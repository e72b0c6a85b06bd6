//! Measuring the height.
ghost use Rattle.std.specs.Prelude.{◌≡◌, ◌≤◌, IfOk, IsOk, true};
ghost use Rattle.tui_textarea.specs.Prelude.{AreBounds, IsMeasured, reads_rows};

use crate::textarea::TextArea;
use std::alloc::AllocError;
use textarea_data::measure::TextAreaMeasure;

impl TextArea<'_> {
    /// Returns the height that an area of this width, in columns, needs for the block and all
    /// visual rows of the text, or for the placeholder if that is shown. If the layout has this
    /// width already, no line is wrapped and no memory is needed. The text area does not change.
    pub fn measure(&mut self, width: u16) -> Result<TextAreaMeasure, AllocError>
        ensures same { self.new ≡ self.old }
        ensures measured { IfOk result (IsMeasured self.old width) }
        ensures bounds { IfOk result (λ measure. AreBounds measure.min_rows measure.max_rows) }
        ensures within { IfOk result
            (λ measure. (measure.min_rows ≤ measure.preferred_rows)
            × (measure.preferred_rows ≤ measure.max_rows)) }
        ensures no_memory { reads_rows self.old width ≡ true → IsOk result }
    {
        let rows = self
            .document
            .rows_at_width(self.surround.inner_width(width))?;
        Ok(self.surround.measure(width, rows, self.document.is_empty()))
    }
}

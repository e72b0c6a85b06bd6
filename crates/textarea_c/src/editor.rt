//! What is behind a handle.
use textarea_change::TextChange;
use textarea_data::range::RejectedAtomicRange;
use textarea_screen::screen::Buffer;
use tui_textarea::TextArea;

/// A text area, the screen that it draws on, what was last rejected, and the changes that were last
/// taken.
#[derive(Drop)]
pub struct Editor {
    pub area: TextArea<'static>,
    pub screen: Buffer,
    pub rejected: Vec<RejectedAtomicRange>,
    pub pattern_error: String,
    pub changes: Vec<TextChange>,
}

//! Which calls can be made.
ghost use Rattle.std.specs.Prelude.{◌↔◌, IsTrue};
ghost use Rattle.textarea_calls.specs.Possible.{CanBeMade};

use crate::call::Call;

impl Call<'_> {
    /// Returns whether the call can be made: `TextArea::set_lines` needs at least one line.
    pub fn can_be_made(&self) -> bool
        ensures { IsTrue result ↔ CanBeMade self.now }
    {
        match self {
            Call::SetLines { lines, .. } => !lines.is_empty(),
            _ => true,
        }
    }
}

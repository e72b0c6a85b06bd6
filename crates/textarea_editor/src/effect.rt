//! What the editor asks its program to do, and how that ended.

ghost use Rattle.std.specs.Prelude.{◌≡◌, string_bytes};

pub use textarea_files::SaveEnd;

/// What a step of the editor asks its program to do.
#[derive(Debug, PartialEq, Eq, Drop)]
pub enum Effect {
    /// Nothing.
    Nothing,
    /// Save the file, and tell the editor by [`Editor::saved`](crate::Editor::saved).
    Save(SaveRequest),
    /// Go on with the text of the journal that was found, by
    /// [`Editor::recover`](crate::Editor::recover).
    Recover,
    /// Remove the journal that was found.
    Discard,
    /// Give this text to the terminal's clipboard.
    Copy(String),
    /// End the program.
    Quit,
}

/// A save of a text under a name. Only an [`Effect::Save`] hands one out, and
/// [`Editor::saved`](crate::Editor::saved) takes it.
#[derive(Debug, PartialEq, Eq, Drop)]
pub struct SaveRequest {
    name: String,
    text: String,
    overwrites: bool,
}

impl SaveRequest {
    pub(crate) fn new(name: String, text: String, overwrites: bool) -> SaveRequest
        ensures { result ≡ record { name = name; text = text; overwrites = overwrites } }
    {
        SaveRequest {
            name,
            text,
            overwrites,
        }
    }

    /// Returns the file's name.
    pub fn name(&self) -> &str
        ensures { result.now ≡ string_bytes self.now.name }
    {
        self.name.as_str()
    }

    /// Returns the text of the whole file.
    pub fn text(&self) -> &str
        ensures { result.now ≡ string_bytes self.now.text }
    {
        self.text.as_str()
    }

    /// Returns whether to overwrite a file that changed on disk, or that was not opened.
    pub fn overwrites(&self) -> bool
        ensures { result ≡ self.now.overwrites }
    {
        self.overwrites
    }
}

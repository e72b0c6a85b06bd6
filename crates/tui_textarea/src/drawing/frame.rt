//! The frame of a document.
ghost use Rattle.std.specs.Prelude.{◌≡◌};
ghost use Rattle.tui_textarea.specs.DrawingPrelude.{widget_state, frame_of, HasPlaces, lines};

use super::Drawing;
use textarea_document::Document;
use textarea_screen_map::view::TextLayoutView;
use textarea_search::search::Search;
use textarea_view::Surround;
use textarea_view::frame::Frame;
use textarea_view::scene::Scene;

impl Drawing {
    // Returns the frame of the document's lines with these rows.
    pub(super) fn frame<'f, 's>(
        &'f self,
        document: &'f Document,
        rows: TextLayoutView<'f>,
        surround: &'f Surround<'s>,
        search: &'f Search,
    ) -> Frame<'f, 's>
        requires { rows.lines ≡ lines document.now.text }
        ensures frame { result
            ≡ frame_of (widget_state document.now search.now surround.now self.now) rows.entry }
        ensures places { HasPlaces result.scene }
    {
        let settings = document.layout_settings();
        Frame {
            scene: Scene {
                rows,
                cursor: document.cursor(),
                selection: document.selection(),
                search,
                look: self.look,
                highlights: self.highlights.as_slice(),
                line_numbers: settings.line_numbers,
            },
            surround,
            mode: settings.mode,
            is_empty: document.is_empty(),
        }
    }
}

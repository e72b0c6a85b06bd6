//! The styles and viewport of a text area, and what was drawn last.
mod caret;
mod frame;
mod hit;
pub mod laws;
mod render;
mod search;

ghost use Rattle.std.specs.Prelude.{◌≡◌, [], ◌∷◌, ◌++◌, OnErr, OnOk};
ghost use Rattle.tui_textarea.specs.DrawingPrelude.{option_map, for_other_lines, new_drawing, with_look, with_viewport, cell_of_position, scrolled_by};

use std::alloc::{AllocError, Global};
use std::marker::Model;
use textarea_data::scroll::Scrolling;
use textarea_screen::screen::Position;
use textarea_search::search::MatchCache;
use textarea_view::Viewport;
use textarea_view::look::{CustomHighlight, Look};

/// A look, custom highlights, the viewport, and where the last drawing was. It caches the matches
/// in the lines that were drawn or searched last; contracts don't see this cache.
#[derive(Drop)]
pub struct Drawing {
    look: Look,
    highlights: Vec<CustomHighlight>,
    viewport: Viewport,
    corner: Position,
    height: u16,
    caret: Option<Position>,
    match_cache: MatchCache,
}

impl Model for Drawing {
    ghost use Rattle.std.specs.Option.{option_map};
    ghost use Rattle.tui_textarea.specs.DrawingState.{DrawingState};
    ghost use Rattle.textarea_view.specs.Placements.{cell_of_position};

    ghost Value = { DrawingState };

    ghost view = { λ drawing. record {
      look = drawing.look;
      highlights = drawing.highlights.items;
      viewport = drawing.viewport;
      corner = cell_of_position drawing.corner;
      height = drawing.height;
      caret = option_map cell_of_position drawing.caret;
    } };
}

impl Clone for Drawing {
    ghost is_clone = { λ drawing copy. copy ≡ drawing };

    /// Returns a copy without the cached matches, or an error if memory runs out.
    fn clone(&self) -> Result<Drawing, AllocError> {
        Ok(Drawing {
            look: self.look,
            highlights: self.highlights.clone()?,
            viewport: self.viewport,
            corner: self.corner,
            height: self.height,
            caret: self.caret,
            match_cache: MatchCache::new(*self.highlights.allocator()),
        })
    }
}

impl Drawing {
    /// Returns the initial state: the default look, no highlight, and nothing drawn yet.
    pub fn new(alloc: Global) -> Drawing
        ensures { result ≡ new_drawing }
    {
        Drawing {
            look: Look::default(),
            highlights: Vec::new(alloc),
            viewport: Viewport::default(),
            corner: Position { x: 0, y: 0 },
            height: 0,
            caret: None,
            match_cache: MatchCache::new(alloc),
        }
    }

    pub fn look(&self) -> Look
        ensures { result ≡ self.now.look }
    {
        self.look
    }

    pub fn set_look(&mut self, look: Look)
        ensures { self.new ≡ with_look self.old look }
    {
        self.look = look;
    }

    /// Adds a highlight of a range of the text, over those added before.
    pub fn add_highlight(&mut self, highlight: CustomHighlight) -> Result<(), AllocError>
        ensures ok { OnOk result
            (self.new ≡ record self.old { highlights = self.old.highlights ++ highlight ∷ [] }) }
        ensures err { OnErr result (self.new ≡ self.old) }
    {
        self.highlights.push(highlight)?;
        Ok(())
    }

    pub fn clear_highlights(&mut self)
        ensures { self.new ≡ record self.old { highlights = [] } }
    {
        self.highlights.clear();
    }

    /// Resets what belongs to the old lines: no highlight is left, and nothing is scrolled.
    pub fn forget_lines(&mut self)
        ensures { self.new ≡ for_other_lines self.old }
    {
        self.highlights.clear();
        self.viewport = Viewport::default();
    }

    /// Returns the viewport: the visible visual rows and columns, and the size of their area.
    pub fn viewport(&self) -> &Viewport
        ensures { result.now ≡ self.now.viewport }
    {
        &self.viewport
    }

    pub fn scroll(&mut self, scrolling: Scrolling)
        ensures { self.new ≡ with_viewport self.old (scrolled_by self.old.viewport scrolling) }
    {
        self.viewport.scroll_by(scrolling);
    }

    /// Returns the caret's cell at the last drawing; `None` if it wasn't shown, or without a
    /// drawing.
    pub fn caret(&self) -> Option<Position>
        ensures { option_map cell_of_position result ≡ self.now.caret }
    {
        self.caret
    }
}

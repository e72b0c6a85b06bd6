//! The style after a list of starts and ends of highlights.
ghost use Rattle.std.specs.Prelude.{◌≡◌, OnOk, [], ◌∷◌, ◌++◌};

use super::borders::BorderEffect;
use std::alloc::{AllocError, Global};
use textarea_screen::screen::Style;

/// The styles of highlights that are started and not ended, the newest last.
#[derive(Drop)]
pub struct OpenStyles {
    base: Style,
    started: Vec<Style>,
}

impl OpenStyles {
    ghost use Rattle.textarea_highlight.specs.OpenStyles.{base_of, ArePassed};
    ghost use Rattle.textarea_highlight.specs.Brackets.{IsStyleAfter};

    /// Returns the state without an open style. The current style is the base style.
    pub fn new(alloc: Global, base: Style) -> OpenStyles
        ensures base { base_of result ≡ base }
        ensures none { ArePassed result [] }
    {
        OpenStyles {
            base,
            started: Vec::new(alloc),
        }
    }

    /// Closes all styles, and sets another base style.
    pub fn restart(&mut self, base: Style)
        ensures base { base_of self.new ≡ base }
        ensures none { ArePassed self.new [] }
    {
        self.base = base;
        self.started.clear();
    }

    /// Applies one more mark.
    pub fn pass(&mut self, mark: BorderEffect) -> Result<(), AllocError>
        ensures base { base_of self.new ≡ base_of self.old }
        ensures ok { OnOk result ((marks : _) → ArePassed self.old marks
            → ArePassed self.new (marks ++ mark ∷ [])) }
    {
        match mark {
            BorderEffect::Start(style) => self.started.push(style)?,
            BorderEffect::End => {
                let _closed = self.started.pop();
            }
        }
        Ok(())
    }

    /// Returns the style after the marks so far.
    pub fn style(&self) -> Style
        ensures { (marks : _) → ArePassed self.now marks
            → IsStyleAfter marks (base_of self.now) result }
    {
        match self.started.last() {
            Some(style) => *style,
            None => self.base,
        }
    }
}

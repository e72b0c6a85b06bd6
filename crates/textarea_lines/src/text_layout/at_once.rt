//! Several changes at once: they are made in a copy whose lines aren't wrapped, and then each line
//! that one of them touched is wrapped once.
ghost use Rattle.std.specs.Prelude.{◌≡◌, true, length, IfOk};
ghost use Rattle.textarea_lines.specs.Prelude.{IsChangedFrom, lines, numbered, wrapped_once};
ghost use Rattle.textarea_lines.specs.Wrappings.{is_same_wrapping, wrapping_for};

use super::TextLayout;
use crate::origins::{first_origins, slice_of};
use crate::rows_at_once::map_at_once;
use crate::settings::{LayoutSettings, is_same, wrapping_for};
use std::alloc::AllocError;
use textarea_wrap::wrap::WrapCount;

impl TextLayout {
    /// Returns a copy whose lines aren't wrapped, and are numbered: after changes in it
    /// `wrapped_once` knows which lines they touched. A change inside a line wraps nothing there.
    pub fn numbered(&self) -> Result<TextLayout, AllocError>
        ensures { IfOk result (λ copy. copy ≡ numbered self.now) }
    {
        let lines = self.lines.clone()?;
        let origins = first_origins(self.allocator(), lines.len())?;
        let settings = LayoutSettings {
            inner_width: 0,
            ..self.settings
        };
        let mut copy = TextLayout::wrap_lines(lines, settings, WrapCount::new())?;
        copy.set_origins(Some(origins));
        Ok(copy)
    }

    /// Returns the lines that changes of the numbered copy led to, wrapped as these lines are. Those
    /// that no change touched keep their rows, and the others are wrapped, each once; or all are, if
    /// their number changes how lines are wrapped.
    pub fn wrapped_once(&self, changed: TextLayout) -> Result<TextLayout, AllocError>
        requires { IsChangedFrom self.now changed }
        ensures { IfOk result (λ text_layout. text_layout ≡ wrapped_once self.now changed) }
    {
        let count = self.count.clone()?;
        let wrapping = wrapping_for(self.settings, changed.lines.len());
        if !is_same(wrapping, self.map.wrapping()) {
            return TextLayout::wrap_lines(changed.into_lines(), self.settings, count);
        }
        self.with_old_rows(changed, count)
    }

    // The same for lines whose number doesn't change how they are wrapped.
    fn with_old_rows(
        &self,
        changed: TextLayout,
        mut count: WrapCount,
    ) -> Result<TextLayout, AllocError>
        requires changed { IsChangedFrom self.now changed }
        requires same { is_same_wrapping
            (wrapping_for self.now.layout.settings (length (lines changed.text)))
            (wrapping_for self.now.layout.settings (length (lines self.now.text))) ≡ true }
        requires count { count ≡ self.now.layout.count }
        ensures { IfOk result (λ text_layout. text_layout ≡ wrapped_once self.now changed) }
    {
        let alloc = self.allocator();
        let old = &self.map;
        let lines = changed.lines.as_slice();
        let origins = slice_of(&changed.origins);
        let map = map_at_once(alloc, old, lines, origins, &mut count)?;
        let TextLayout {
            lines,
            size,
            found,
            marks,
            ..
        } = changed;
        Ok(TextLayout {
            lines,
            size,
            map,
            count,
            settings: self.settings,
            measured: None,
            cached: None,
            found,
            marks,
            origins: None,
        })
    }
}

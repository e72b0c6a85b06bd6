//! Changes of the inner width in two steps: the first may allocate, but doesn't change the lines.
ghost use Rattle.std.specs.Prelude.{◌≡◌, true, IfOk, IfSome, IsOk};
ghost use Rattle.textarea_lines.specs.Prelude.{at_width, with_settings, keeps_wrapping, IsRewrappedIfOther, IsPrepared, IsViewOf, IsWholeWrap};

use super::TextLayout;
use crate::rewrap::{WrappedRows, drop_measured};
use crate::settings::{LayoutSettings, is_same, is_wrapped, wrapping_for};
use std::alloc::AllocError;
use std::marker::Model;
use textarea_screen_map::layout::Wrapping;
use textarea_screen_map::screen_map::{ScreenMap, set_tab_len};
use textarea_screen_map::view::TextLayoutView;

/// A prepared inner width. It fits only the lines for which it was prepared.
#[derive(Drop)]
pub struct PreparedWidth {
    inner_width: u16,
    wraps: Option<WrappedRows>,
}

impl Model for PreparedWidth {
    ghost use Rattle.textarea_lines.specs.View.{PreparedView};

    ghost Value = { PreparedView };

    ghost view = { λ prepared. record {
      inner_width = prepared.inner_width;
      wraps = prepared.wraps;
    } };
}

impl TextLayout {
    /// Returns the lines with their current rows.
    pub fn view(&self) -> TextLayoutView<'_>
        ensures { IsViewOf self.now result }
    {
        TextLayoutView::new(self.lines.as_slice(), &self.map, &self.marks)
    }

    // Returns all lines wrapped for these settings, if the settings change how lines are wrapped,
    // from the cache if it has them. Otherwise returns `None` and allocates nothing.
    pub(super) fn wrap_for(
        &mut self,
        settings: LayoutSettings,
    ) -> Result<Option<WrappedRows>, AllocError>
        ensures same { self.new ≡ self.old }
        ensures wraps { IfOk result (IsRewrappedIfOther self.old settings) }
        ensures no_memory { keeps_wrapping self.old settings ≡ true → IsOk result }
    {
        let before = self.map.wrapping();
        let after = wrapping_for(settings, self.lines.len());
        if is_same(after, before) {
            return Ok(None);
        }
        if let Some(cached) = self.take_measured(after) {
            return Ok(Some(cached));
        }
        let wraps = self.wrap_all(after)?;
        Ok(Some(wraps))
    }

    // Empties the cache, and returns its rows of all lines if they have this wrapping.
    pub(super) fn take_measured(&mut self, wrapping: Wrapping) -> Option<WrappedRows>
        ensures same { self.new ≡ self.old }
        ensures cached { IfSome result (IsWholeWrap self.old wrapping) }
    {
        let wraps = self.cached.take()?;
        if wraps.map.wrapping() != wrapping {
            return None;
        }
        Some(wraps)
    }

    // Wraps all lines, each once.
    pub(super) fn wrap_all(&self, wrapping: Wrapping) -> Result<WrappedRows, AllocError>
        ensures { IfOk result (IsWholeWrap self.now wrapping) }
    {
        let mut count = self.count.clone()?;
        let alloc = *self.lines.allocator();
        let map = ScreenMap::new(alloc, self.lines.as_slice(), wrapping, &mut count)?;
        Ok(WrappedRows { map, count })
    }

    // Sets the settings, with the rows that were wrapped for them. Allocates nothing.
    pub(super) fn put(&mut self, settings: LayoutSettings, wraps: Option<WrappedRows>)
        requires { IsRewrappedIfOther self.old settings wraps }
        ensures { self.new ≡ with_settings self.old settings }
    {
        match wraps {
            Some(wraps) => {
                self.map = wraps.map;
                self.count = wraps.count;
                drop_measured(&mut self.cached);
            }
            None => {
                if !is_wrapped(settings) {
                    set_tab_len(&mut self.map, settings.tab_len);
                }
            }
        }
        self.settings = settings;
    }

    /// Prepares an inner width, in columns. If lines are wrapped in another way at that width, this
    /// wraps each line once, unless `rows_at_width` cached these rows. Otherwise it allocates
    /// nothing. The current rows don't change.
    pub fn prepare_width(&mut self, inner_width: u16) -> Result<PreparedWidth, AllocError>
        ensures same { self.new ≡ self.old }
        ensures prepared { IfOk result (IsPrepared self.old) }
        ensures width { IfOk result (λ prepared. prepared.inner_width ≡ inner_width) }
        ensures no_memory { keeps_wrapping self.old (at_width self.old inner_width) ≡ true
            → IsOk result }
    {
        let settings = self.layout_settings();
        let wraps = self.wrap_for(LayoutSettings {
            inner_width,
            ..settings
        })?;
        Ok(PreparedWidth { inner_width, wraps })
    }

    /// Returns the lines with the rows that they will have after `put_width`.
    pub fn view_with<'a>(&'a self, prepared: &'a PreparedWidth) -> TextLayoutView<'a>
        requires { IsPrepared self.now prepared.now }
        ensures { IsViewOf
            (with_settings self.now (at_width self.now prepared.now.inner_width)) result }
    {
        let map = match &prepared.wraps {
            Some(wraps) => &wraps.map,
            None => &self.map,
        };
        TextLayoutView::new(self.lines.as_slice(), map, &self.marks)
    }

    /// Sets the prepared inner width. Allocates nothing and wraps no line.
    pub fn put_width(&mut self, prepared: PreparedWidth)
        requires { IsPrepared self.old prepared }
        ensures { self.new
            ≡ with_settings self.old (at_width self.old prepared.inner_width) }
    {
        let PreparedWidth { inner_width, wraps } = prepared;
        self.put(
            LayoutSettings {
                inner_width,
                ..self.settings
            },
            wraps,
        );
    }
}

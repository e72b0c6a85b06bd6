//! Edits that grow as a run of typing.
ghost use Rattle.std.specs.Prelude.{◌≡◌, ◌≤◌, ◌∷◌, [], IfSome, OnOk, true};
ghost use Rattle.textarea_history.specs.Prelude.{Character, place_after, place_before, IsWellFormed, character_of, merged};

use super::{Content, Edit};
use crate::texts::only_character;
use std::alloc::{AllocError, Global};

impl Edit {
    /// For a history: returns the character, if it is the edit's only symbol. Only such an edit
    /// begins a run of typing or joins one.
    pub fn character(&self) -> Option<char>
        requires { IsWellFormed self.now }
        ensures { result ≡ character_of self.now.splice.symbols }
    {
        match &self.content {
            Content::Character(c) => Some(*c),
            Content::Text(text) => only_character(text.as_str()),
            Content::Typed(text) => only_character(text.as_str()),
            Content::Break => None,
            Content::Lines(_) => None,
            Content::Shared(_) => None,
        }
    }

    /// For a history: turns an edit that counts as typed into a run, which can grow.
    pub fn start_run(&mut self, typed: Option<char>)
        requires well_formed { IsWellFormed self.old }
        requires typed { IfSome typed (λ c. self.old.splice.symbols ≡ Character c ∷ []) }
        ensures splice { self.new.splice ≡ self.old.splice }
        ensures well_formed { IsWellFormed self.new }
        ensures grows { IfSome typed (λ c. self.new.grows ≡ true) }
        ensures grouped { self.new.grouped ≡ self.old.grouped }
    {
        if let Some(c) = typed {
            self.content = Content::Character(c);
        }
    }

    /// For a history: makes room for one more character, so that `grow` does not allocate.
    pub fn reserve(&mut self, alloc: Global) -> Result<(), AllocError>
        requires well_formed { IsWellFormed self.old }
        requires grows { self.old.grows ≡ true }
        ensures splice { self.new.splice ≡ self.old.splice }
        ensures well_formed { IsWellFormed self.new }
        ensures grows { self.new.grows ≡ true }
        ensures grouped { self.new.grouped ≡ self.old.grouped }
        ensures ok { OnOk result (4 ≤ self.new.spare) }
    {
        match &mut self.content {
            Content::Typed(text) => text.try_reserve(4),
            Content::Character(c) => {
                let mut text = String::new(alloc);
                text.push(*c)?;
                text.try_reserve(4)?;
                self.content = Content::Typed(text);
                Ok(())
            }
            _ => Ok(()),
        }
    }

    /// For a history: adds the typed edit of the character to the run, in which there is room.
    pub fn grow(&mut self, edit: &Edit, c: char)
        requires well_formed { IsWellFormed self.old }
        requires other { IsWellFormed edit.now }
        requires room { 4 ≤ self.old.spare }
        requires character { edit.now.splice.symbols ≡ Character c ∷ [] }
        requires direction { edit.now.splice.inserts ≡ self.old.splice.inserts }
        requires place { place_after self.old.splice ≡ place_before edit.now.splice }
        ensures splice { self.new.splice ≡ merged self.old.splice edit.now.splice }
        ensures well_formed { IsWellFormed self.new }
        ensures grows { self.new.grows ≡ true }
        ensures grouped { self.new.grouped ≡ self.old.grouped }
    {
        if let Content::Typed(text) = &mut self.content {
            let _ = text.push(c);
            if self.inserts {
                self.end = edit.end;
            } else {
                self.start = edit.start;
            }
        }
    }
}

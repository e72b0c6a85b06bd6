//! Pasted texts (xterm, "Bracketed Paste Mode").

ghost use Rattle.std.specs.Prelude.{◌≡◌, ◌≤◌, ◌+◌, length, take, None, IfSome};
ghost use Rattle.textarea_terminal.specs.InputReading.{Reads};
ghost use Rattle.textarea_terminal.specs.InputEvent.{paste};
ghost use Rattle.textarea_terminal.specs.InputUnit.{paste_start, paste_end, after_mark, mark_index, paste_at};

use memchr::memmem;

const START: &[u8; 6] = b"\x1b[200~";

const END: &[u8; 6] = b"\x1b[201~";

/// The bytes after the start mark of a pasted text, if they begin with it.
pub fn after_start(bytes: &[u8]) -> Option<&[u8]>
    ensures { Reads (λ x. x.now) result (after_mark paste_start bytes.now) }
{
    bytes.strip_prefix(START)
}

/// The index of the end mark. The first `begun` bytes are known to contain none.
pub fn find_end(text: &[u8], begun: usize) -> Option<usize>
    requires within { begun ≤ length text.now }
    requires begun { mark_index paste_end (take begun text.now) ≡ None }
    ensures index { result ≡ mark_index paste_end text.now }
    ensures within { IfSome result (λ index. index + 6 ≤ length text.now) }
{
    let from = begun.saturating_sub(END.len() - 1);
    let (_, searched) = text.split_at(from);
    match memmem::find(searched, END) {
        Some(index) => Some(from + index),
        None => None,
    }
}

/// Returns the bytes of the pasted text whose start mark is before these bytes, and the bytes after
/// its end mark; `None` if there is no end mark.
///
/// The first `begun` bytes are known to contain no end mark, and are not searched again.
#[tactic(auto, unfolding(crate::specs::InputUnit::paste_at))]
pub fn read_paste(bytes: &[u8], begun: usize) -> Option<(&[u8], &[u8])>
    requires within { begun ≤ length bytes.now }
    requires begun { mark_index paste_end (take begun bytes.now) ≡ None }
    ensures { Reads (λ x. (paste x.0.now, x.1.now)) result (paste_at bytes.now) }
{
    match find_end(bytes, begun) {
        Some(index) => Some((&bytes[..index], &bytes[index + 6..])),
        None => None,
    }
}

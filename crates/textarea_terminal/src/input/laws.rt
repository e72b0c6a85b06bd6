//! Laws of the decoding, each the contract of a function that does nothing.

ghost use Rattle.std.specs.Prelude.{◌≡◌, ◌≤◌, ◌<◌, ◌⊎◌, ◌++◌, ◌∷◌, [], List, ℕ, Some, None, true, false, length, map};
ghost use Rattle.std.specs.List.{AllByRecursion};
ghost use Rattle.std.specs.Str.Lossy.{utf8_lossy};
ghost use Rattle.textarea_terminal.specs.declared.input.reply.Expected.{Expected};
ghost use Rattle.textarea_terminal.specs.InputEvent.{EventValue, paste, unknown};
ghost use Rattle.textarea_terminal.specs.InputSequence.{inner_limit, text_limit, sequence_event};
ghost use Rattle.textarea_terminal.specs.InputUnit.{paste_start, paste_end, mark_index, begins_string, unit_at};
ghost use Rattle.textarea_terminal.specs.InputStream.{EndsIn, Takes, decoding, begun_bytes};
ghost use Rattle.textarea_terminal.specs.InputReply.{IsWithout, stripped, refined};
ghost use Rattle.textarea_terminal.specs.InputState.{DecoderCall, new_decoder, after_calls, stream_of};
ghost use Rattle.textarea_terminal.specs.InputRow.{AreInner, AreText, BeginsString, IsGeneral, IsSentFor, bracket, bytes_of_rows};

/// However bytes are split, calls make the same events and leave the same state: each makes those
/// of its bytes one by one. The stream of calls has the queries, pauses and settings between bytes.
pub fn any_segments()
    ensures { (calls : List DecoderCall) → after_calls new_decoder calls
        ≡ after_calls new_decoder (stream_of calls) }
{}

/// The bytes that terminals send for keys, characters, pasted texts, the mouse, sizes, cursor
/// positions and the focus are decoded as exactly these, in any order.
pub fn rows_are_read()
    ensures { (rows : List (List ℕ × EventValue)) → AllByRecursion (λ r. IsSentFor r.0 r.1) rows
        → decoding (bytes_of_rows rows) ≡ (map (λ r. r.1) rows, []) }
{}

/// A pasted text is exactly the bytes between its marks. It ends at the first end mark, and other
/// sequences in it are text. If a reply is out, or the terminal reports its sizes, such a reply is
/// no part of it: at most as many replies are removed as are out. The event has the text as UTF-8,
/// with U+FFFD for invalid bytes.
pub fn pastes_are_their_bytes()
    ensures whole { (text more : List ℕ) → mark_index paste_end text ≡ None
        → unit_at (paste_start ++ text ++ paste_end ++ more) ≡ Some (paste text, more) }
    ensures unasked { (e : Expected) (text : List ℕ) → e.asked ≡ 0 → e.resizes ≡ false
        → refined e (paste text) ≡ (paste (utf8_lossy text) ∷ [], e) }
    ensures asked { (e : Expected) (text : List ℕ) → IsWithout e text (stripped e text) }
    ensures few { (e : Expected) (text : List ℕ) → e.resizes ≡ false
        → length (stripped e text).replies ≤ e.asked }
{}

/// No byte is lost: an event takes at least one byte and doesn't depend on the bytes after it, and
/// the bytes after the last event are pending.
pub fn no_byte_is_lost()
    ensures units { (bytes : List ℕ) (x : EventValue × List ℕ) → unit_at bytes ≡ Some x
        → Takes bytes x }
    ensures rest { (bytes : List ℕ) → EndsIn bytes (begun_bytes bytes)
        × (unit_at (begun_bytes bytes) ≡ None) }
{}

/// The pending bytes are few, except in a string and in a pasted text.
pub fn pending_is_short()
    ensures { (bytes : List ℕ) → unit_at bytes ≡ None
        → (length bytes ≤ 4097) ⊎ (BeginsString bytes
        ⊎ ((text : List ℕ) × (bytes ≡ paste_start ++ text))) }
{}

/// A control sequence of the general form (ECMA-48, 5.4) is one event, and never several keys.
pub fn sequences_are_one_event()
    ensures { (inner more : List ℕ) (last : ℕ) → IsGeneral inner last
        → unit_at (bracket (inner ++ last ∷ more)) ≡ Some (sequence_event inner last, more) }
{}

/// A sequence without an end is one unknown event after 4,096 bytes.
pub fn endless_sequences_are_one_event()
    ensures { (inner more : List ℕ) → AreInner inner → length inner ≡ inner_limit
        → unit_at (bracket (inner ++ more)) ≡ Some (unknown, more) }
{}

/// A string is one unknown event, up to BEL or `ESC \\`, if it is shorter than 1 MiB.
pub fn strings_are_one_event()
    ensures bell { (b : ℕ) (text more : List ℕ) → begins_string b ≡ true → AreText text
        → length text < text_limit → unit_at (27 ∷ b ∷ (text ++ 7 ∷ more)) ≡ Some (unknown, more) }
    ensures terminator { (b : ℕ) (text more : List ℕ) → begins_string b ≡ true → AreText text
        → length text < text_limit
        → unit_at (27 ∷ b ∷ (text ++ 27 ∷ 92 ∷ more)) ≡ Some (unknown, more) }
{}

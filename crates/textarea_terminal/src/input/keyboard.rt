//! Bytes that ask a terminal to send keys apart that it sends alike at first, such as Enter and Shift
//! Enter, Tab and Ctrl I, or Esc and the beginning of a sequence. The decoder reads both ways. A
//! terminal that doesn't know the bytes ignores them.

/// Turns on kitty's keyboard protocol: keys that would be ambiguous come with their modifiers, and
/// with the character that they have with Shift. kitty, foot, WezTerm, Ghostty and others know it.
pub const KITTY_KEYS_ON: &str = "\x1b[>5u";

/// Goes back to what was before [`KITTY_KEYS_ON`]. A program writes it before it ends.
pub const KITTY_KEYS_OFF: &str = "\x1b[<u";

/// Turns on xterm's modifyOtherKeys, which also sends keys with modifiers apart.
pub const OTHER_KEYS_ON: &str = "\x1b[>4;2m";

/// Turns off what [`OTHER_KEYS_ON`] turned on.
pub const OTHER_KEYS_OFF: &str = "\x1b[>4;0m";

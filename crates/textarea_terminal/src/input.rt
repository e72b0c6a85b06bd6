//! The bytes that a terminal sends, as events.
//!
//! A [`Decoder`] takes bytes as they arrive, however they are split, and returns keys, pasted
//! texts, mouse reports and replies to queries. It knows the sequences of xterm, tmux, kitty, foot,
//! the Linux console and rxvt, with these modes: bracketed paste (2004), mouse reports of X10, 1005,
//! 1006 (SGR) and 1015, focus reports (1004), sizes by the terminal itself (2048), the keypad's
//! application mode, xterm's modifyOtherKeys, and kitty's keyboard protocol.
//!
//! What begins as an escape sequence is one event and types nothing: a control sequence of
//! ECMA-48's general form, and a string (OSC, DCS, APC, PM, SOS) up to BEL or `ESC \\`. One that it
//! doesn't know is one unknown event.
//!
//! Ask a terminal only for what can't be a key: `CSI 18 t` for its size, `CSI ? 6 n` for its
//! cursor. `CSI 1 ; 5 R`, to which `CSI 6 n` may lead, is F3 with Control.

mod character;
mod decoder;
mod event;
mod key;
pub mod keyboard;
pub mod laws;
mod mouse;
mod parameter;
mod paste;
mod reply;
mod sequence;
mod short;
mod unit;

pub use decoder::Decoder;
pub use event::{Event, Mouse, MouseButton, MouseKind};

//! What is behind a terminal's handle.
use crate::incoming::Incoming;
use crate::outgoing::Outgoing;

/// What a terminal sent, and what it is sent.
#[derive(Drop)]
pub struct Terminal {
    pub incoming: Incoming,
    pub outgoing: Outgoing,
}

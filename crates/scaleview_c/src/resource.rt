//! What a handle holds.

use crate::opened::Opened;
use crate::session::Session;

/// An open registry, or a session of one.
#[derive(Drop)]
pub enum Resource {
    Registry(Opened),
    Session(Session),
}

//! An open registry, and how many sessions it has.

use chain_core::Names;
use std::sync::atomic::AtomicU64;
use widths_core::Checked;

/// An open registry, the names of its metadata if they are read, and how many sessions it has.
#[derive(Drop)]
pub struct Opened {
    pub checked: Checked,
    pub names: Option<Names>,
    pub(crate) sessions: AtomicU64,
}

//! A registry that was examined, with the looks that were taken at it.

ghost use Rattle.std.specs.Prelude.{◌≡◌};

use crate::looks::Looks;
use types_core::Registry;

/// A registry that a graph returned, with the looks that the graph took at it.
///
/// The registry is only lent from here on, so no second graph can be created from it, and the looks
/// do not change.
#[derive(Debug, Drop)]
pub struct Examined {
    pub(crate) registry: Registry,
    pub(crate) looks: Looks,
}

impl Examined {
    /// Returns the registry.
    pub fn registry(&self) -> &Registry
        ensures { result.now ≡ self.now.registry }
    {
        &self.registry
    }
}

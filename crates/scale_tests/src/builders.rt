//! What most tests do with a builder: create it, make calls that succeed, and take the value that
//! they build.

use crate::building::{Call, add};
use registry_core::TypeId;
use std::alloc::{Allocator, Global};
use value_core::{BuildFault, Builder, Value};
use widths_core::Checked;

/// Creates a builder of a value of this type, with this depth limit. Returns `None` if it rejects
/// the type or the limit.
pub fn begun<'r, A: Allocator + Clone>(
    alloc: A,
    checked: &'r Checked,
    ty: u32,
    depth: u16,
) -> Option<Builder<'r, A>> {
    Builder::new(alloc, checked, TypeId(ty), depth).ok()
}

/// Makes these calls, and stops at the first one that is rejected.
///
/// # Errors
///
/// The first call that is rejected.
pub fn add_all<A: Allocator>(
    builder: &mut Builder<'_, A>,
    calls: &[Call<'_>],
) -> Result<(), BuildFault> {
    'calls: for call in calls {
        add(builder, *call)?;
    }
    Ok(())
}

/// Finishes a builder, and returns its value, or `None` if a node is missing.
pub fn finished<A: Allocator>(builder: Builder<'_, A>) -> Option<Value<'_, A>> {
    builder.finish().ok()
}

/// Returns the value of this type that these calls build, with this depth limit, or `None` if a
/// call is rejected or a node is missing.
pub fn built<'r>(
    alloc: Global,
    checked: &'r Checked,
    ty: u32,
    depth: u16,
    calls: &[Call<'_>],
) -> Option<Value<'r, Global>> {
    let mut builder = begun(alloc, checked, ty, depth)?;
    add_all(&mut builder, calls).ok()?;
    finished(builder)
}

/// Returns the value's number of nodes, and its number of bytes of texts and runs.
pub fn counts<A: Allocator>(value: &Value<'_, A>) -> (u64, u64) {
    (value.node_count(), value.text_bytes())
}

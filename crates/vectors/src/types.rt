//! The answers of a checked registry about its types: targets of compacts, and arms by their
//! indexes.

use crate::columns::{is_nothing, parsed};
use crate::compacts::target_of;
use crate::registries::{Bits, Registries};
use crate::way::Way;
use crate::wrong::{Wrong, check_same};
use registry_core::TypeId;
use scale_core::Target;
use std::alloc::Global;
use widths_core::Checked;

/// An arm that a row names: its type, its index, its position and its name.
#[derive(Clone, Copy)]
struct NamedArm<'a> {
    ty: u64,
    index: u64,
    position: u64,
    name: &'a str,
}

/// Reads an arm as `TYPE:INDEX=POSITION NAME`.
fn arm_of(word: &str) -> Result<NamedArm<'_>, Wrong> {
    let wrong = "an arm";
    let (ty, rest) = word.split_once(':').ok_or(Wrong::Column(wrong))?;
    let (index, rest) = rest.split_once('=').ok_or(Wrong::Column(wrong))?;
    let (position, name) = rest.split_once(' ').ok_or(Wrong::Column(wrong))?;
    Ok(NamedArm {
        ty: parsed(ty, "a number")?,
        index: parsed(index, "a number")?,
        position: parsed(position, "a number")?,
        name,
    })
}

/// Reads the arms of a column.
fn arms_of(alloc: Global, column: &str) -> Result<Vec<NamedArm<'_>>, Wrong> {
    let mut arms = Vec::new(alloc);
    if !is_nothing(column) {
        'arms: for word in column.split(", ") {
            let arm = arm_of(word)?;
            if arms.push(arm).is_err() {
                return Err(Wrong::Memory);
            }
        }
    }
    Ok(arms)
}

/// Reads a target. A dash stands for no target.
fn known_target(word: &str) -> Result<Option<Target>, Wrong> {
    if is_nothing(word) {
        Ok(None)
    } else {
        Ok(Some(target_of(word)?))
    }
}

/// Checks the targets of the types, and that no target follows them. Returns the number of checks.
fn check_targets(alloc: Global, checked: &Checked, column: &str) -> Result<u64, Wrong> {
    let mut id = 0u32;
    if !is_nothing(column) {
        'targets: for word in column.split(' ') {
            let wanted = known_target(word)?;
            let found = checked.compact_target(TypeId(id));
            check_same(alloc, Way::CompactTarget(id), wanted, found)?;
            id = id.saturating_add(1);
        }
    }
    let found = checked.compact_target(TypeId(id));
    check_same(alloc, Way::CompactTarget(id), None, found)?;
    Ok(u64::from(id).saturating_add(1))
}

/// Checks that every index of the type leads to the arm that the row names, or to no arm.
fn check_arms(
    alloc: Global,
    checked: &Checked,
    id: u32,
    arms: &[NamedArm<'_>],
) -> Result<(), Wrong> {
    'indexes: for index in 0..=255u8 {
        let mut wanted = None;
        'arms: for arm in arms {
            if arm.ty == u64::from(id) && arm.index == u64::from(index) {
                wanted = Some((arm.position, arm.name));
            }
        }
        let found = checked.arm(TypeId(id), index);
        let named = found.map(|(position, arm)| (u64::from(position), arm.name.as_str()));
        check_same(alloc, Way::Arm(id, index), wanted, named)?;
    }
    Ok(())
}

/// Checks one row. Returns the number of ways in which it was checked.
pub(crate) fn check_row(
    alloc: Global,
    registries: &Registries<'_>,
    columns: &[&str],
) -> Result<u64, Wrong> {
    let [_, _, targets, arms] = columns else {
        return Err(Wrong::Column("one of four"));
    };
    let checked = registries.checked(alloc, Bits::Refused, columns)?;
    let arms = arms_of(alloc, arms)?;
    let count = checked.registry().types().len() as u32;
    let targets = check_targets(alloc, &checked, targets)?;
    'types: for id in 0..=count {
        check_arms(alloc, &checked, id, &arms)?;
    }
    Ok(targets.saturating_add(u64::from(count)))
}

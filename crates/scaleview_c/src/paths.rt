//! The call that reports where in a value its bytes are rejected or end.

ghost use Rattle.std.specs.Prelude.{◌≡◌, ◌≤◌, length};
ghost use Rattle.value_core.specs.OpenNodes.{open_path};
ghost use Rattle.record_core.specs.Written.{StandsIn};
ghost use Rattle.scaleview_c.specs.Paths.{PathOf, PutsPath, WritesPath, step_record, steps_of};

use crate::allowance::{Allowance, CallBudget};
use crate::lent::Lent;
use crate::opened::Opened;
use crate::resource::Resource;
use budget_core::Budget;
use c_answers::{Answer, NO_HANDLE, NO_ROOM, OK};
use decode_core::{FaultPath, PathStep};
use growth_core::clone_of;
use registry_core::TypeId;
use std::alloc::Global;
use value_core::Limits;

/// A step of a path as numbers.
#[repr(C)]
#[derive(Clone, Copy, Debug, PartialEq, Eq)]
pub struct StepRecord {
    /// The position of the node's type.
    pub ty: u32,
    /// The position of a variant's arm, and otherwise 0.
    pub arm: u32,
    /// The position of the field, the member or the element that the next step's node is.
    pub part: u32,
}

impl StepRecord {
    /// Returns the numbers of a step.
    fn of_step(step: PathStep) -> StepRecord
        ensures { result ≡ step_record step }
    {
        StepRecord {
            ty: step.ty.0,
            arm: step.arm.unwrap_or(0),
            part: step.part,
        }
    }
}

/// Writes the steps of a path to the front of the caller's memory, where they fit.
fn put_steps(path: &FaultPath<'_, Budget<Global>>, steps: &mut [StepRecord])
    requires { length (open_path path.now) ≤ length steps.old }
    ensures { StandsIn (steps_of path.now) steps.old steps.new }
{
    'steps: for i in 0..path.len() {
        if let Some(step) = path.step(i) {
            steps[i] = StepRecord::of_step(step);
        }
    }
}

/// Writes the steps of a path, if they fit, and reports the type of the node that they lead to.
fn put_path(path: &FaultPath<'_, Budget<Global>>, steps: &mut [StepRecord]) -> Answer
    ensures { PutsPath path.now steps.old steps.new result }
{
    let len = path.len();
    let fits = len <= steps.len();
    if fits {
        put_steps(path, steps);
    }
    let code = if fits { OK } else { NO_ROOM };
    match path.next_type() {
        Some(ty) => Answer {
            code,
            from: ty.0,
            at: 1,
            length: len as u64,
        },
        None => Answer {
            code,
            from: 0,
            at: 0,
            length: len as u64,
        },
    }
}

/// Writes the path to where the bytes are rejected or end, which are read in the budget.
fn write_path(
    budget: &CallBudget,
    opened: &Opened,
    id: u32,
    limits: Limits,
    bytes: &[u8],
    steps: &mut [StepRecord],
) -> Answer
    ensures { WritesPath opened.now id limits bytes.now steps.old steps.new result }
{
    let alloc = match clone_of(&budget.alloc) {
        Ok(alloc) => alloc,
        Err(refused) => return Answer::of_refused(refused),
    };
    match FaultPath::find(alloc, &opened.checked, TypeId(id), limits, bytes) {
        Ok(path) => put_path(&path, steps),
        Err(fault) => Answer::of_value(fault.into()),
    }
}

/// Writes the path to the node at which bytes, read as a value of the type at a position, are
/// rejected or end.
///
/// # Errors
///
/// `NO_HANDLE`, `UNKNOWN_TYPE`, `LIMIT_OUT_OF_RANGE`, `MEMORY`, or `NO_ROOM` with the number of
/// steps in `length`; nothing is written.
#[unsafe(no_mangle)]
pub extern "C" fn scaleview_path_of(
    alloc: Global,
    registry: Lent,
    id: u32,
    depth: u16,
    limit: u64,
    memory: Allowance,
    bytes: &[u8],
    steps: &mut [StepRecord],
    answer: &mut Answer,
) -> u32
    ensures path { PathOf registry.value id (record { depth = depth; bytes = limit }) bytes.now
        steps.old steps.new answer.new }
    ensures code { result ≡ answer.new.code }
{
    let limits = Limits {
        depth,
        bytes: limit,
    };
    *answer = match registry.get() {
        Some(Resource::Registry(opened)) => match memory.budget(alloc) {
            Ok(budget) => write_path(&budget, opened, id, limits, bytes, steps),
            Err(refused) => Answer::of_refused(refused),
        },
        Some(Resource::Session(_)) | None => Answer::plain(NO_HANDLE),
    };
    answer.code
}

//! A registry whose references are known, and what was found of its types.

ghost use Rattle.std.specs.Prelude.{◌≡◌, ◌<◌, length, IfOk, IfErr, IfSome, SomeIff, option_map};
ghost use Rattle.types_core.specs.Fits.{FitsDefinition};
ghost use Rattle.widths_core.specs.Analysed.{HasFewLooks};
ghost use Rattle.widths_core.specs.Arms.{arm_at};
ghost use Rattle.widths_core.specs.Checks.{CheckAnswers, Explains};
ghost use Rattle.widths_core.specs.Classes.{class_of};
ghost use Rattle.widths_core.specs.Steps.{IsArm, IsStepAt, references_of};
ghost use Rattle.graph_core.specs.References.{IsChecked};
ghost use Rattle.widths_core.specs.Targets.{compact_target_of};
ghost use Rattle.graph_core.specs.Types.{shape};
ghost use Rattle.graph_core.specs.Widths.{widest};

use crate::analysis::{Analysis, analyse};
use crate::class::Class;
use crate::rows::Rows;
use crate::type_step::{ArmStep, Parts, TypeStep, step_of};
use graph_core::{CheckFault, Examined};
use scale_core::Target;
use std::alloc::Global;
use std::marker::Model;
use types_core::{Arm, Registry, TypeDef, TypeId, TypeInfo};

/// A registry in which every reference is known, with a small table of what was found of its types.
///
/// A reference is the type of a field (also in an arm that an earlier one of the same index
/// shadows), the element of a sequence or an array (also one of length 0), the member of a tuple,
/// and what a compact wraps. The ids in type parameters and in bit sequences are not checked.
///
/// The table takes 12 bytes a type, 4 a reference and 13 an arm, including shadowed ones. While it
/// is made, table and lists take at most 19 bytes a type, 12 a reference and 13 an arm, and
/// counters and the order in which types settle take 36 bytes a type and 16 an arm. The order of
/// names is kept in the registry ([`Fields`](types_core::Fields)).
#[derive(Debug, Drop)]
pub struct Checked {
    /// The registry, with the looks taken at it.
    examined: Examined,
    /// All references, in the order of the registry's bytes: those of a type, and of an arm, are
    /// next to each other.
    members: Vec<u32>,
    /// The step of each type.
    steps: Vec<TypeStep>,
    rows: Rows,
    widest: u32,
}

impl Model for Checked {
    ghost use Rattle.widths_core.specs.View.{CheckedView};

    ghost Value = { CheckedView };

    ghost use Rattle.widths_core.specs.Tables.{AreTables};

    ghost view = { λ c. record {
      types = c.examined.registry;
      looks = c.examined.looks;
    } };

    ghost invariant = { AreTables };
}

impl Checked {
    /// Checks the references of a registry, and finds the class of each type and what a compact
    /// over it stands for.
    ///
    /// One pass over the types counts references and arms, one reads them, and one goes over the
    /// lists of references to each type, so the time is proportional to the registry. Each vector
    /// is allocated once, at its final size.
    ///
    /// # Errors
    ///
    /// With the registry, unchanged:
    ///
    /// - `UnknownType` if a reference is unknown: the first one by the type that contains it, then
    ///   by the order of the definition's bytes.
    /// - `OutOfMemory` if every reference is known and an allocation fails, or there are
    ///   4,294,967,295 references or counters or more.
    ///
    /// # Examples
    ///
    /// A sequence of the type 1, which the registry lacks:
    ///
    /// ```
    /// let (registry, _) = read_registry(alloc, b"\x04\x00\x00\x00\x02\x04\x00")?;
    /// let fault = Checked::new(alloc, registry).err().map(|(fault, _)| fault);
    /// let (from, to) = (TypeId(0), TypeId(1));
    /// assert_eq!(rt; fault, Some(CheckFault::UnknownType { from, to }));
    /// ```
    pub fn new(alloc: Global, registry: Registry) -> Result<Checked, (CheckFault, Registry)>
        // Which answer it is.
        ensures exact { CheckAnswers registry result }
        // Every reference of what is accepted is a position.
        ensures checked { IfOk result (λ _. IsChecked registry) }
        // The reference that is reported is the first that is no position; memory is reported only
        // if there is none.
        ensures explained { IfErr result (λ refused. Explains registry refused.0) }
        // If it is accepted, these are the looks that were taken: each type was looked at once
        // at least and twice at most, and each reference likewise.
        ensures looked { IfOk result (λ c. HasFewLooks registry c.looks) }
    {
        let Analysis {
            examined,
            members,
            steps,
            rows,
            widest,
        } = analyse(alloc, registry)?;
        Ok(Checked {
            examined,
            members,
            steps,
            rows,
            widest,
        })
    }

    /// Returns how many bytes the values of a type take, or `None` if the registry lacks the type
    /// (SCALE codec, "Types"). It takes one look-up.
    pub fn class(&self, id: TypeId) -> Option<Class>
        ensures { SomeIff result (id.0 < length self.now.types) (class_of self.now.types id.0) }
    {
        Some(self.step(id)?.class())
    }

    /// Returns what a compact integer of this type stands for (SCALE codec, "Compact/general
    /// integers"). It takes one look-up.
    ///
    /// It is `None` if the registry lacks the type, the type is no compact, or the compact wraps
    /// neither an unsigned integer of at most 128 bits, nor an empty type, nor a wrapper of one of
    /// these: composites of exactly one field and tuples of exactly one member, at any depth.
    pub fn compact_target(&self, id: TypeId) -> Option<Target>
        ensures { result ≡ compact_target_of self.now.types id.0 }
    {
        self.step(id)?.compact_target()
    }

    /// Returns how a value of a type is read, or `None` if the registry lacks the type (SCALE
    /// codec, "Types"). It takes one look-up.
    pub fn step(&self, id: TypeId) -> Option<TypeStep>
        ensures { IsStepAt self.now.types id.0 result }
    {
        step_of(self.steps.as_slice(), id.0)
    }

    /// Returns all references, in the order of the registry's bytes.
    pub fn members(&self) -> &[u32]
        ensures { result.now ≡ references_of self.now.types }
    {
        self.members.as_slice()
    }

    /// Returns the first arm of the index if the type is a variant that has one (scale-info,
    /// `TypeDefVariant`): its position among the arms, and the position of its field types among
    /// the references. It takes two look-ups if the indexes of the variant have no gap, and
    /// otherwise at most eight more.
    pub fn arm_step(&self, id: TypeId, index: u8) -> Option<ArmStep>
        ensures { IsArm (references_of self.now.types) result (arm_at self.now.types id.0 index) }
    {
        let Parts { from, count } = step_of(self.steps.as_slice(), id.0)?.row()?;
        self.rows.find(from, count, index)
    }

    /// Returns the first arm of the index, with its position among the arms, if the type is a
    /// variant that has one (scale-info, `TypeDefVariant`). It takes two look-ups more than
    /// `arm_step`.
    pub fn arm(&self, id: TypeId, index: u8) -> Option<(u32, &Arm)>
        ensures { option_map (λ x. (x.0, x.1.now)) result ≡ arm_at self.now.types id.0 index }
    {
        let position = self.arm_step(id, index)?.position;
        match self.shape(id)? {
            TypeDef::Variant(arms) => Some((position, arms.as_slice().get(position as usize)?)),
            _ => None,
        }
    }

    /// Returns the greatest number of fields of a composite, members of a tuple, or fields of an
    /// arm, including shadowed ones; 0 if there are none.
    pub fn widest(&self) -> u32
        ensures { result ≡ widest self.now.types }
    {
        self.widest
    }

    /// Returns the registry that was checked.
    pub fn registry(&self) -> &Registry
        ensures same { result.now ≡ self.now.types }
        ensures checked { IsChecked self.now.types }
    {
        self.examined.registry()
    }

    /// Returns the definition of a type, or `None` if the registry has no type of this id.
    pub fn shape(&self, id: TypeId) -> Option<&TypeDef>
        ensures known { option_map (λ d. d.now) result ≡ shape self.now.types id.0 }
        ensures fits { IfSome result (λ d. FitsDefinition d.now) }
    {
        let info = self.registry().types().get(id.0 as usize)?;
        Some(&info.shape)
    }
}

//! The judging calls that add a node.

ghost use Rattle.std.specs.Prelude.{◌≡◌};
ghost use Rattle.grammar_core.specs.Preorder as head;
ghost use Rattle.grammar_core.specs.Tree as tree;
ghost use Rattle.value_core.specs.Built.{with_leaf, with_fields, with_arm};
ghost use Rattle.value_core.specs.Built.{with_arm_at, with_list};
ghost use Rattle.value_core.specs.Refusals.{Adds, judged, judged_arm, most_unsigned, most_signed};
ghost use Rattle.value_core.specs.Refusals.{is_within, suits_char, suits_signed, suits_empty};
ghost use Rattle.value_core.specs.Refusals.{suits_bool, suits_unsigned, suits_wide, suits_compact};
ghost use Rattle.value_core.specs.Refusals.{judged_arm_at, suits_count, suits_fields};
ghost use Rattle.value_core.specs.Refusals.{suits_fields_of, suits_list};

use crate::build_fault::BuildFault;
use crate::builder::Builder;
use grammar_core::Form;
use node_core::{Leaf, index_of};
use std::alloc::Allocator;
use types_core::{IntegerWidth, Primitive, PrimitiveKind};

/// Returns the greatest number of an unsigned integer of this width.
fn most_unsigned(width: IntegerWidth) -> u128
    ensures { result ≡ most_unsigned width }
{
    match width {
        IntegerWidth::Bits8 => u128::from(u8::MAX),
        IntegerWidth::Bits16 => u128::from(u16::MAX),
        IntegerWidth::Bits32 => u128::from(u32::MAX),
        IntegerWidth::Bits64 => u128::from(u64::MAX),
        IntegerWidth::Bits128 => u128::MAX,
    }
}

/// Returns the greatest number of a signed integer of this width; the least is one further from 0.
fn most_signed(width: IntegerWidth) -> u128
    ensures { result ≡ most_signed width }
{
    most_unsigned(width) / 2
}

/// Returns whether a signed type with this greatest number has the number.
fn is_within(value: i128, greatest: u128) -> bool
    ensures { result ≡ is_within value greatest }
{
    let distance = if value < 0 { -(value + 1) } else { value };
    distance.cast_unsigned() <= greatest
}

impl<'r, A: Allocator> Builder<'r, A> {
    /// Adds the one value of a type that takes no bytes.
    ///
    /// # Errors
    ///
    /// The first that applies; the builder is unchanged.
    ///
    /// - `TooDeep`, `NoFiniteValue`, `BitSequence` or `BadCompact` if the next type stops at it.
    /// - `WrongKind` if another form is next, a run is open, or nothing is next.
    /// - `OutOfMemory` if an allocation fails.
    #[tactic(auto, using(crate::proofs::Wanted::wanted_next, crate::proofs::Wanted::wanted_closed, crate::proofs::NextLeaf::empty_next))]
    pub fn empty(&mut self) -> Result<(), BuildFault>
        ensures { Adds (judged suits_empty self.old) (with_leaf self.old (head.leaf tree.unit))
            self.old self.new result }
    {
        match self.wanted()? {
            Form::Empty => Ok(self.raw.add_leaf(Leaf::Empty)?),
            _ => Err(BuildFault::WrongKind),
        }
    }

    /// Adds a boolean.
    ///
    /// # Errors
    ///
    /// Those of [`empty`](Self::empty).
    #[tactic(auto, using(crate::proofs::Wanted::wanted_next, crate::proofs::Wanted::wanted_closed, crate::proofs::NextLeaf::bool_next))]
    pub fn bool(&mut self, value: bool) -> Result<(), BuildFault>
        ensures { Adds (judged suits_bool self.old)
            (with_leaf self.old (head.leaf (tree.bool value))) self.old self.new result }
    {
        match self.wanted()? {
            Form::Primitive(Primitive::Bool) => Ok(self.raw.add_leaf(Leaf::Bool(value))?),
            _ => Err(BuildFault::WrongKind),
        }
    }

    /// Adds an unsigned integer of at most sixteen bytes.
    ///
    /// # Errors
    ///
    /// Those of [`empty`](Self::empty), and `OutOfRange` if the number is above the range of the
    /// type.
    #[tactic(auto, using(crate::proofs::Wanted::wanted_next, crate::proofs::Wanted::wanted_closed, crate::proofs::NextLeaf::unsigned_next))]
    pub fn unsigned(&mut self, value: u128) -> Result<(), BuildFault>
        ensures { Adds (judged (suits_unsigned value) self.old)
            (with_leaf self.old (head.leaf (tree.unsigned value))) self.old self.new result }
    {
        let Form::Primitive(primitive) = self.wanted()? else {
            return Err(BuildFault::WrongKind);
        };
        let PrimitiveKind::Unsigned(width) = primitive.kind() else {
            return Err(BuildFault::WrongKind);
        };
        if value > most_unsigned(width) {
            return Err(BuildFault::OutOfRange);
        }
        self.raw.add_leaf(Leaf::Unsigned(value))?;
        Ok(())
    }

    /// Adds a sequence of elements that take no bytes: their count alone.
    ///
    /// # Errors
    ///
    /// Those of [`empty`](Self::empty).
    #[tactic(auto, using(crate::proofs::Wanted::wanted_next, crate::proofs::Wanted::wanted_closed, crate::proofs::NextLeaf::count_next))]
    pub fn count(&mut self, count: u32) -> Result<(), BuildFault>
        ensures { Adds (judged suits_count self.old)
            (with_leaf self.old (head.leaf (tree.count count))) self.old self.new result }
    {
        match self.wanted()? {
            Form::Count => Ok(self.raw.add_leaf(Leaf::Count(count))?),
            _ => Err(BuildFault::WrongKind),
        }
    }

    /// Adds a 256-bit integer by its 32 bytes, in little-endian order.
    ///
    /// # Errors
    ///
    /// Those of [`empty`](Self::empty).
    #[tactic(auto, using(crate::proofs::Wanted::wanted_next, crate::proofs::Wanted::wanted_closed, crate::proofs::NextLeaf::wide_next))]
    pub fn wide(&mut self, value: [u8; 32]) -> Result<(), BuildFault>
        ensures { Adds (judged suits_wide self.old)
            (with_leaf self.old (head.leaf (tree.wide value))) self.old self.new result }
    {
        let Form::Primitive(primitive) = self.wanted()? else {
            return Err(BuildFault::WrongKind);
        };
        match primitive.kind() {
            PrimitiveKind::Wide(_) => Ok(self.raw.add_leaf(Leaf::Wide(&value))?),
            _ => Err(BuildFault::WrongKind),
        }
    }

    /// Adds a signed integer of at most sixteen bytes.
    ///
    /// # Errors
    ///
    /// Those of [`empty`](Self::empty), and `OutOfRange` if the number is outside the range of the
    /// type.
    pub fn signed(&mut self, value: i128) -> Result<(), BuildFault>
        ensures { Adds (judged (suits_signed value) self.old)
            (with_leaf self.old (head.leaf (tree.signed value))) self.old self.new result }
    {
        let Form::Primitive(primitive) = self.wanted()? else {
            return Err(BuildFault::WrongKind);
        };
        let PrimitiveKind::Signed(width) = primitive.kind() else {
            return Err(BuildFault::WrongKind);
        };
        if !is_within(value, most_signed(width)) {
            return Err(BuildFault::OutOfRange);
        }
        self.raw.add_leaf(Leaf::Signed(value))?;
        Ok(())
    }

    /// Adds a character.
    ///
    /// # Errors
    ///
    /// Those of [`empty`](Self::empty).
    #[tactic(auto, using(crate::proofs::Wanted::wanted_next, crate::proofs::Wanted::wanted_closed, crate::proofs::NextLeaf::char_next))]
    pub fn char(&mut self, value: char) -> Result<(), BuildFault>
        ensures { Adds (judged suits_char self.old)
            (with_leaf self.old (head.leaf (tree.char value))) self.old self.new result }
    {
        match self.wanted()? {
            Form::Primitive(Primitive::Char) => Ok(self.raw.add_leaf(Leaf::Char(value))?),
            _ => Err(BuildFault::WrongKind),
        }
    }

    /// Adds a compact integer.
    ///
    /// # Errors
    ///
    /// Those of [`empty`](Self::empty), and `OutOfRange` if the number is above the range of
    /// what the compact wraps.
    #[tactic(auto, using(crate::proofs::Wanted::wanted_next, crate::proofs::Wanted::wanted_closed, crate::proofs::NextLeaf::compact_next))]
    pub fn compact(&mut self, value: u128) -> Result<(), BuildFault>
        ensures { Adds (judged (suits_compact value) self.old)
            (with_leaf self.old (head.leaf (tree.compact value))) self.old self.new result }
    {
        let Form::Compact(target) = self.wanted()? else {
            return Err(BuildFault::WrongKind);
        };
        if !target.holds(value) {
            return Err(BuildFault::OutOfRange);
        }
        self.raw.add_leaf(Leaf::Compact(value))?;
        Ok(())
    }

    /// Adds a composite or a tuple, whose fields or members come next.
    ///
    /// # Errors
    ///
    /// Those of [`empty`](Self::empty).
    #[tactic(auto, using(crate::proofs::Wanted::wanted_next, crate::proofs::Wanted::wanted_closed))]
    pub fn fields(&mut self) -> Result<(), BuildFault>
        ensures { Adds (judged suits_fields self.old) (with_fields self.old) self.old
            self.new result }
    {
        let Form::Fields = self.wanted()? else {
            return Err(BuildFault::WrongKind);
        };
        self.raw.add_fields()?;
        Ok(())
    }

    /// Adds a variant by the index of its arm, whose fields come next.
    ///
    /// # Errors
    ///
    /// Those of [`empty`](Self::empty), and `NoSuchVariant` if no arm has the index.
    #[tactic(auto, using(crate::proofs::Wanted::wanted_next, crate::proofs::Wanted::wanted_closed))]
    pub fn arm(&mut self, index: u8) -> Result<(), BuildFault>
        ensures { Adds (judged_arm self.old index) (with_arm self.old index) self.old
            self.new result }
    {
        let Form::Arm = self.wanted()? else {
            return Err(BuildFault::WrongKind);
        };
        if !self.raw.add_arm(index)? {
            return Err(BuildFault::NoSuchVariant);
        }
        Ok(())
    }

    /// Adds a composite or a tuple of this many fields or members, which come next.
    ///
    /// # Errors
    ///
    /// Those of [`empty`](Self::empty), and `OutOfRange` if the type has another number of them.
    #[tactic(auto, using(crate::proofs::Wanted::wanted_next, crate::proofs::Wanted::wanted_closed))]
    pub fn fields_of(&mut self, count: u32) -> Result<(), BuildFault>
        ensures { Adds (judged (suits_fields_of self.old count) self.old) (with_fields self.old)
            self.old self.new result }
    {
        let Form::Fields = self.wanted()? else {
            return Err(BuildFault::WrongKind);
        };
        if self.walk().fields().count != count {
            return Err(BuildFault::OutOfRange);
        }
        Ok(self.raw.add_fields()?)
    }

    /// Adds a variant by the position of its arm, which has this many fields; they come next.
    ///
    /// # Errors
    ///
    /// Those of [`empty`](Self::empty), `NoSuchVariant` if no arm stands at the position or an
    /// earlier arm has its index, and `OutOfRange` if the arm has another number of fields.
    #[tactic(auto, using(crate::proofs::Wanted::wanted_next, crate::proofs::Wanted::wanted_closed))]
    pub fn arm_at(&mut self, position: u32, count: u32) -> Result<(), BuildFault>
        ensures { Adds (judged_arm_at self.old position count) (with_arm_at self.old position)
            self.old self.new result }
    {
        let Form::Arm = self.wanted()? else {
            return Err(BuildFault::WrongKind);
        };
        let walk = self.walk();
        let index = index_of(walk.checked(), walk.ty(), position).ok_or(BuildFault::NoSuchVariant)?;
        let (first, fields) = walk.arm(index).ok_or(BuildFault::NoSuchVariant)?;
        if first != position {
            return Err(BuildFault::NoSuchVariant);
        }
        if fields.count != count {
            return Err(BuildFault::OutOfRange);
        }
        self.raw.add_arm(index)?;
        Ok(())
    }

    /// Adds an array, or a sequence of elements that take bytes; its elements come next. `bytes`
    /// adds those of u8.
    ///
    /// # Errors
    ///
    /// Those of [`empty`](Self::empty), and `OutOfRange` if `count` is not the array's length.
    #[tactic(auto, using(crate::proofs::Wanted::wanted_next, crate::proofs::Wanted::wanted_closed))]
    pub fn list(&mut self, count: u32) -> Result<(), BuildFault>
        ensures { Adds (judged (suits_list count) self.old) (with_list self.old count) self.old
            self.new result }
    {
        match self.wanted()? {
            Form::Array(length) if count != length => return Err(BuildFault::OutOfRange),
            Form::Array(_) | Form::Sequence => {}
            _ => return Err(BuildFault::WrongKind),
        }
        self.raw.add_list(count)?;
        Ok(())
    }
}

//! The calls of a raw builder that open a node by its form.

ghost use Rattle.std.specs.Prelude.{◌≡◌, OnOk, OnErr, IfOk, IfSome, true, false, Ok, None, is_some};
ghost use Rattle.std.specs.Prelude.{length};
ghost use Rattle.value_core.specs.Built.{arm_in, next_layout, with_fields, with_arm, with_list};
ghost use Rattle.value_core.specs.Opened.{IsListNext};
ghost use Rattle.value_core.specs.Walked.{next_of};
ghost use Rattle.value_core.specs.Wrapped.{Wraps, WrapsArray};

use crate::raw_builder::RawBuilder;
use grammar_core::{Form, Next};
use growth_core::Refused;
use node_core::{Content, Leaf};
use std::alloc::Allocator;
use types_core::TypeId;

impl<'r, A: Allocator> RawBuilder<'r, A> {
    /// Adds a composite or a tuple, which must be next.
    ///
    /// # Errors
    ///
    /// Returns `Refused` if an allocation fails; the builder is unchanged.
    #[inline(always)]
    pub fn add_fields(&mut self) -> Result<(), Refused>
        requires closed { self.old.run ≡ None }
        requires next { next_of self.old.walk ≡ Next.Wants Form.Fields }
        ensures ok { OnOk result (self.new ≡ with_fields self.old) }
        ensures err { OnErr result (self.new ≡ self.old) }
    {
        let left = self.walk().fields();
        self.add_open(Content::Fields { size: 0 }, left)
    }

    /// Adds a composite or a tuple, which must be next, with its one part, as `add_fields` and then
    /// `add_leaf` do. The part is an array of u8, and `bytes` begins with all of it. Returns the
    /// length of the array, in bytes.
    ///
    /// Returns `None` if there is no such part, if `bytes` is too short, or if two more nodes do
    /// not fit; the builder is unchanged.
    ///
    /// # Errors
    ///
    /// Returns `Refused` if an allocation fails; the builder is unchanged.
    #[inline(always)]
    pub fn add_wrapped(&mut self, bytes: &[u8]) -> Result<Option<usize>, Refused>
        requires closed { self.old.run ≡ None }
        requires next { next_of self.old.walk ≡ Next.Wants Form.Fields }
        ensures added { IfOk result (λ found. IfSome found
            (λ len. Wraps self.old self.new bytes.now len)) }
        ensures none { result ≡ Ok None → self.new ≡ self.old }
        ensures err { OnErr result (self.new ≡ self.old) }
    {
        let Some((part, len)) = self.walk().wrapped_array() else {
            return Ok(None);
        };
        let len = len as usize;
        if bytes.len() < len || !self.add_wrapped_array(part, &bytes[..len])? {
            return Ok(None);
        }
        Ok(Some(len))
    }

    /// Adds a composite or a tuple, which must be next, with its one part, which is this array.
    /// Returns whether two more nodes fit; if not, the builder is unchanged.
    ///
    /// # Errors
    ///
    /// Returns `Refused` if an allocation fails; the builder is unchanged.
    #[inline(never)]
    fn add_wrapped_array(&mut self, part: TypeId, array: &[u8]) -> Result<bool, Refused>
        requires closed { self.old.run ≡ None }
        requires next { next_of self.old.walk ≡ Next.Wants Form.Fields }
        requires wraps { WrapsArray self.old.walk part.0 (length array.now) }
        ensures yes { result ≡ Ok true →
            Wraps self.old self.new array.now (length array.now) }
        ensures no { result ≡ Ok false → self.new ≡ self.old }
        ensures err { OnErr result (self.new ≡ self.old) }
    {
        self.add_around(Content::Fields { size: 0 }, part, Leaf::Bytes(array))
    }

    /// Adds a variant, which must be next, by the index of its arm. Returns whether an arm has this
    /// index; if not, the builder is unchanged.
    ///
    /// # Errors
    ///
    /// Returns `Refused` if an allocation fails; the builder is unchanged.
    #[inline(always)]
    pub fn add_arm(&mut self, index: u8) -> Result<bool, Refused>
        requires closed { self.old.run ≡ None }
        requires next { next_of self.old.walk ≡ Next.Wants Form.Arm }
        ensures found { IfOk result (λ b. b ≡ is_some (arm_in (next_layout self.old) index)) }
        ensures ok { result ≡ Ok true → self.new ≡ with_arm self.old index }
        ensures none { result ≡ Ok false → self.new ≡ self.old }
        ensures err { OnErr result (self.new ≡ self.old) }
        ensures memory { OnErr result (is_some (arm_in (next_layout self.old) index) ≡ true) }
    {
        let Some((position, left)) = self.walk().arm(index) else {
            return Ok(false);
        };
        self.add_open(Content::Arm { position, size: 0 }, left)?;
        Ok(true)
    }

    /// Adds an array of `count` elements, or a sequence of as many that take bytes; it must be
    /// next.
    ///
    /// # Errors
    ///
    /// Returns `Refused` if an allocation fails; the builder is unchanged.
    #[inline(always)]
    pub fn add_list(&mut self, count: u32) -> Result<(), Refused>
        requires closed { self.old.run ≡ None }
        requires next { IsListNext self.old.walk count }
        ensures ok { OnOk result (self.new ≡ with_list self.old count) }
        ensures err { OnErr result (self.new ≡ self.old) }
    {
        let left = self.walk().elements(count);
        self.add_open(Content::List { size: 0 }, left)
    }
}

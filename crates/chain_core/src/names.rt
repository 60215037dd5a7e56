//! The names that metadata gives to types.

ghost use Rattle.std.specs.Prelude.{◌≡◌, ◌+◌, ◌++◌, ◌<◌, ◌^◌, ℕ, Decides, IfOk, IfSome, OnOk};
ghost use Rattle.std.specs.Prelude.{Some, length, option_map, slice_get, string_bytes};
ghost use Rattle.chain_core.specs.Names.{entries_of, entry_of, find, place, placed, types_of};
ghost use Rattle.chain_core.specs.Things.{all_named, name_text, stands_for};

use crate::distinct::distinct_positions;
use crate::finding::{after_front, is_path};
use crate::thing::{Meaning, Path, Section, Thing};
use growth_core::{Refused, push, push_str, with_capacity};
use std::alloc::Global;

/// A name, the type that it stands for, and the bytes that the metadata has for it.
#[derive(Drop)]
pub struct NamedType {
    pub(crate) section: Section,
    pub(crate) path: Path,
    /// The position of the type: one of the registry's own, or of the synthetic ones after them.
    pub id: u32,
    /// The bytes of a value of the type, if the metadata has them for the name.
    pub bytes: Option<Vec<u8>>,
}

/// All things that metadata names, in order, with the types that they stand for.
// The names of a pallet's parts share its name, so they are not joined: 10,000 entries of a pallet
// whose name has 10,000 bytes would have 10^8. A handle of the library for C may be used on any
// thread, so nothing may clone or drop a shared name once all are there.
#[derive(Drop)]
pub struct Names {
    types: Vec<NamedType>,
    /// The positions in `types` of those whose name no earlier one has.
    distinct: Vec<usize>,
}

impl NamedType {
    /// Returns whether a text is the name.
    fn has_name(&self, text: &[u8]) -> bool
        ensures { Decides result (text.now ≡ name_text self.now.section self.now.path) }
    {
        match after_front(text, self.section.word().as_bytes()) {
            Some(path) => is_path(&self.path, path),
            None => false,
        }
    }

    /// Appends the name.
    ///
    /// # Errors
    ///
    /// `Refused` if an allocation fails; the first part of the name may have been appended.
    pub fn push_name(&self, text: &mut String) -> Result<(), Refused>
        ensures { OnOk result (string_bytes text.new
            ≡ string_bytes text.old ++ (entry_of self.now).name) }
    {
        push_str(text, self.section.word())?;
        match &self.path {
            Path::Empty => Ok(()),
            Path::One(name) => push_str(text, name.as_str()),
            Path::Two(outer, inner) => {
                push_str(text, outer.as_str())?;
                push_str(text, ".")?;
                push_str(text, inner.as_str())
            }
        }
    }
}

/// Returns the position of a thing's type, and the next position that is free for a synthetic type.
fn place(meaning: &Meaning<'_, '_>, free: u32) -> (u32, u32)
    requires { free + 1 < 2 ^ 32 }
    ensures { result ≡ place (stands_for meaning.now) free }
{
    match meaning {
        Meaning::Own(id) => (*id, free),
        Meaning::Extrinsic(_) | Meaning::Key(_) | Meaning::Params(_) => (free, free + 1),
    }
}

/// Returns the names of things, in order. The first synthetic type is at the position `own`.
fn named_types(
    alloc: Global,
    things: Vec<Thing<'_, '_>>,
    own: u32,
) -> Result<Vec<NamedType>, Refused>
    requires { own + length things.items < 2 ^ 32 }
    ensures { IfOk result (λ types.
        types_of types.items ≡ placed (all_named things.entry.items) own) }
{
    let mut types = with_capacity(alloc, things.len())?;
    let mut free = own;
    'things: for thing in things {
        let Thing {
            section,
            path,
            meaning,
            bytes,
        } = thing;
        let (id, next) = place(&meaning, free);
        free = next;
        let named = NamedType {
            section,
            path,
            id,
            bytes,
        };
        push(&mut types, named)?;
    }
    Ok(types)
}

/// Returns the first of these that has a name, or `None` if there is none.
fn find_in<'n>(types: &'n [NamedType], name: &[u8]) -> Option<&'n NamedType>
    ensures { option_map (λ t. entry_of t.now) result ≡ find (types_of types.now) name.now }
{
    'types: for named in types {
        if named.has_name(name) {
            return Some(named);
        }
    }
    None
}

impl Names {
    /// Creates the names of things, in order. The registry has `own` types of its own.
    ///
    /// # Errors
    ///
    /// `Refused` if an allocation fails.
    pub fn new(alloc: Global, things: Vec<Thing<'_, '_>>, own: u32) -> Result<Names, Refused>
        requires { own + length things.items < 2 ^ 32 }
        ensures { IfOk result (λ names.
            entries_of names ≡ placed (all_named things.entry.items) own) }
    {
        let types = named_types(alloc, things, own)?;
        let distinct = distinct_positions(alloc, types.as_slice())?;
        Ok(Names { types, distinct })
    }

    /// Returns the first thing that has a name, or `None` if there is none. It takes time
    /// proportional to the number of names and to the length of this one.
    pub fn find(&self, name: &[u8]) -> Option<&NamedType>
        ensures { option_map (λ t. entry_of t.now) result
            ≡ find (entries_of self.now) name.now }
    {
        find_in(self.types.as_slice(), name)
    }

    /// Returns the number of names, each counted once.
    pub fn len(&self) -> usize {
        self.distinct.len()
    }

    /// Returns the name at a position, or `None` if there are no more names. They are in order, and
    /// each is there once, with the first thing that has it.
    pub fn get(&self, position: usize) -> Option<&NamedType>
        ensures { IfSome result (λ t. (i : ℕ)
            × (slice_get (entries_of self.now) i ≡ Some (entry_of t.now))) }
    {
        self.types.get(*self.distinct.get(position)?)
    }
}

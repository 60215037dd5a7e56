//! The graph of a registry's types and references. Each look at the registry is logged.

ghost use Rattle.std.specs.Prelude.{◌≡◌, ◌<◌, [], ◌∷◌, length, option_map, OnOk, IfOk, IfErr};
ghost use Rattle.std.specs.Prelude.{slice_index};
ghost use Rattle.types_core.specs.Fits.{FitsRegistry};
ghost use Rattle.types_core.specs.declared.definition.TypeDef.{TypeDef};
ghost use Rattle.graph_core.specs.Cursors.{current, next_reference, next_arm, arm_outline};
ghost use Rattle.graph_core.specs.Cursors.{parts_left};
ghost use Rattle.graph_core.specs.Graphs.{IsLinked, IsOpened, IsGlanced, IsListed, IsMeasured};
ghost use Rattle.graph_core.specs.Graphs.{IsUnread, IsNew, IsReadNext, IsArmNext, ReadsNext, Waits};
ghost use Rattle.graph_core.specs.Graphs.{refs, numbers, befores};
ghost use Rattle.graph_core.specs.Outlines.{outline};
ghost use Rattle.graph_core.specs.References.{first_fault};
ghost use Rattle.graph_core.specs.Sizes.{AreSizesOf};
ghost use Rattle.graph_core.specs.Stops.{StopsLinking, IsFaultOf};
ghost use Rattle.graph_core.specs.Types.{shape};

use crate::cursor::Cursor;
use crate::definition::{Definition, outline};
use crate::examined::Examined;
use crate::fault::CheckFault;
use crate::link_stop::LinkStop;
use crate::looks::Looks;
use crate::sizes::{Sizes, sizes_in};
use crate::too_many::{TooMany, number};
use growth_core::{Refused, filled, push, with_capacity};
use std::alloc::Global;
use types_core::{Registry, TypeDef};

/// A reference in the list of the references to one type.
#[derive(Clone, Copy)]
pub struct Link {
    /// The counter that counts the type that it refers to.
    pub counter: u32,
    /// One more than the number of the previous reference to the same type, or 0 if it is the
    /// first.
    pub before: u32,
}

const _: () = prove!(size_of::<Link>() == 8);

/// The types of a registry, and for each the list of the references to it that were read, the
/// newest first.
///
/// A graph owns its registry and lends none of its types, so every look goes through a method that
/// logs it. A type is looked at once to be measured, and once more to be opened, in the order of
/// the registry. Its references are read after it is opened, one after the other, each once.
/// References are numbered in the order in which they are read.
// The lists are linked. Contiguous lists would need the length of each first, and so a third look
// at every reference.
#[derive(Drop)]
pub struct Graph {
    registry: Registry,
    cursor: Cursor,
    /// For each type one more than the number of the newest reference to it, or 0 if there is none.
    newest: Vec<u32>,
    links: Vec<Link>,
    /// The references in the order in which they were read.
    members: Vec<u32>,
    looks: Looks,
}

impl Graph {
    /// Creates the graph of a registry, before any look. It allocates nothing.
    pub fn new(alloc: Global, registry: Registry) -> Graph
        ensures { IsUnread registry result }
    {
        Graph {
            registry,
            cursor: Cursor {
                types: 0,
                arms: 0,
                parts: 0,
            },
            newest: Vec::new(alloc),
            links: Vec::new(alloc),
            members: Vec::new(alloc),
            looks: Looks::new(),
        }
    }

    /// Returns the number of types.
    pub fn count(&self) -> usize
        ensures { result ≡ length self.now.registry }
    {
        self.registry.types().len()
    }

    /// Returns the sizes of a type. It logs one look at the type.
    ///
    /// # Errors
    ///
    /// `TooMany` if one of them is above `usize::MAX`.
    pub(crate) fn measure(&mut self, at: u32) -> Result<Sizes, TooMany>
        requires { at < length self.old.registry }
        ensures sizes { IfOk result (λ s. (d : TypeDef)
            × (shape self.old.registry at ≡ Some d) × AreSizesOf d s) }
        ensures glanced { IsGlanced self.old self.new at }
    {
        self.looks.opened.add(at);
        let info = &self.registry.types()[at as usize];
        sizes_in(&info.shape)
    }

    /// Creates an empty list for each type, and reserves capacity for this many references.
    ///
    /// # Errors
    ///
    /// `Refused` if an allocation fails; the registry, the reading and the logs are unchanged.
    pub fn prepare(&mut self, alloc: Global, references: usize) -> Result<(), Refused>
        requires { IsMeasured self.old.registry self.old }
        ensures made { OnOk result (IsNew self.new) }
        ensures waits { Waits self.old self.new }
    {
        self.newest = filled(alloc, 0, self.registry.types().len())?;
        self.links = with_capacity(alloc, references)?;
        self.members = with_capacity(alloc, references)?;
        Ok(())
    }

    /// Returns the number of types that were opened.
    pub(crate) fn opened(&self) -> usize
        ensures { result ≡ self.now.cursor.types }
    {
        self.cursor.types
    }

    /// Opens the type after the last opened one, and returns the outline of its definition. It logs
    /// one look at the type.
    pub fn open(&mut self, position: u32) -> Definition
        requires next { position ≡ self.old.cursor.types }
        requires within { position < length self.old.registry }
        ensures found { (d : TypeDef) × (shape self.old.registry position ≡ Some d)
            × (result ≡ outline d) }
        ensures opened { IsOpened self.old self.new position }
    {
        self.looks.opened.add(position);
        self.cursor = Cursor {
            types: position as usize + 1,
            arms: 0,
            parts: 0,
        };
        let info = &self.registry.types()[position as usize];
        outline(&info.shape)
    }

    /// Returns the open definition, or `None` if no type is open.
    fn current(&self) -> Option<&TypeDef>
        ensures found { option_map (λ d. d.now) result ≡ current self.now }
        ensures fits { FitsRegistry self.now.registry }
    {
        let types = self.registry.types();
        let info = match self.cursor.types {
            0 => None,
            opened => types.get(opened - 1),
        };
        Some(&info?.shape)
    }

    /// Returns the next reference of what is open, or `None` if none is left.
    fn next_reference(&self) -> Option<u32>
        ensures found { result ≡ next_reference self.now }
        ensures fits { FitsRegistry self.now.registry }
    {
        self.cursor.reference(self.current()?)
    }

    /// Returns the index of the next arm of the open definition and the number of its fields, or
    /// `None` if no arm is left.
    fn arm(&self) -> Option<(u8, usize)>
        ensures found { result ≡ arm_outline (next_arm self.now) }
        ensures fits { FitsRegistry self.now.registry }
    {
        self.cursor.arm(self.current()?)
    }

    /// Reads the next reference of what is open, or returns `None` if none is left. It logs one
    /// look at the reference.
    pub(crate) fn read_next(&mut self) -> Option<u32>
        ensures { IsReadNext self.old self.new result }
    {
        let id = self.next_reference()?;
        self.looks.read.add(id);
        self.cursor.parts += 1;
        Some(id)
    }

    /// Begins the next arm of the open definition, and returns its index and the number of its
    /// fields, or `None` if no arm is left.
    pub fn next_arm(&mut self) -> Option<(u8, usize)>
        requires { parts_left self.old ≡ [] }
        ensures { IsArmNext self.old self.new result }
    {
        let arm = self.arm()?;
        self.cursor.arms += 1;
        self.cursor.parts = 0;
        Some(arm)
    }

    /// Reads the next reference of what is open, and returns the position that it refers to.
    ///
    /// The reference is added, with the counter, to the list of references to its type. It logs one
    /// look at the reference.
    ///
    /// # Errors
    ///
    /// - `Unknown` if the reference is not a position of the registry.
    /// - `TooMany` if 4294967295 references were read before.
    /// - `Memory` if an allocation fails.
    ///
    /// After an error the reading has passed the reference and its look is logged, but it is in no
    /// list.
    pub fn next(&mut self, counter: u32) -> Result<u32, LinkStop>
        requires linked { IsLinked self.old }
        requires some { 0 < length (parts_left self.old) }
        ensures reads { IfOk result (λ to. ReadsNext self.old self.new to counter) }
        ensures stops { IfErr result (StopsLinking (parts_left self.old) self.old self.new) }
    {
        let id = self.read_next().unwrap();
        let to = id as usize;
        if to >= self.registry.types().len() {
            return Err(LinkStop::Unknown(id));
        }
        let count = number(self.links.len() + 1)?;
        let before = self.newest[to];
        push(&mut self.members, id)?;
        push(&mut self.links, Link { counter, before })?;
        self.newest[to] = count;
        Ok(id)
    }

    /// Returns the number of references that were read.
    pub fn read(&self) -> u32
        requires { IsLinked self.now }
        ensures { result ≡ length (refs self.now) }
    {
        self.links.len() as u32
    }

    /// Returns one more than the number of the newest reference to a type, or 0 if there is none.
    pub fn newest(&self, position: u32) -> u32
        requires { position < length self.now.newest.items }
        ensures { result ≡ slice_index self.now.newest.items position }
    {
        self.newest[position as usize]
    }

    /// Returns the reference with this number, from the list of references to its type. It logs one
    /// look at the reference.
    pub fn link(&mut self, number: u32) -> Link
        requires { number < length self.old.links.items }
        ensures counter { result.counter ≡ slice_index (numbers self.old) number }
        ensures before { result.before ≡ slice_index (befores self.old) number }
        ensures listed { IsListed self.old self.new number }
    {
        self.looks.listed.add(number);
        self.links[number as usize]
    }

    /// Returns the registry with the looks that were taken at it, and the references in the order
    /// in which they were read.
    pub fn into_parts(self) -> (Examined, Vec<u32>)
        ensures registry { result.0.registry ≡ self.registry }
        ensures looks { result.0.looks ≡ self.looks }
        ensures members { result.1.items ≡ self.members.items }
    {
        let Graph {
            registry,
            cursor: _,
            newest: _,
            links: _,
            members,
            looks,
        } = self;
        (Examined { registry, looks }, members)
    }

    /// Returns the fault for which the registry is rejected, and the registry.
    pub fn refuse(self, fault: CheckFault) -> (CheckFault, Registry)
        requires { IsFaultOf fault (first_fault self.registry) }
        ensures fault { result.0 ≡ fault }
        ensures registry { result.1 ≡ self.registry }
    {
        let Graph {
            registry,
            cursor: _,
            newest: _,
            links: _,
            members: _,
            looks: _,
        } = self;
        (fault, registry)
    }
}

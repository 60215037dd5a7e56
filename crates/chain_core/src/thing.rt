//! Things that metadata names.

ghost use Rattle.std.specs.Prelude.{◌≡◌};
ghost use Rattle.chain_core.specs.Things.{word_of};

use crate::extrinsics::ExtrinsicTypes;
use crate::keys::KeyPart;
use node_core::NodeRef;
use std::rc::RcStr;

/// What a name begins with.
#[derive(Clone, Copy, Debug, PartialEq, Eq)]
pub enum Section {
    Extrinsic,
    Call,
    Event,
    Error,
    Calls,
    Events,
    Errors,
    Storage,
    Key,
    Constant,
    Result,
    Params,
    Custom,
}

impl Section {
    /// Returns the word that a name begins with, and the colon after it if a path follows.
    pub fn word(self) -> &'static str
        ensures { result.now ≡ word_of self }
    {
        match self {
            Section::Extrinsic => "extrinsic",
            Section::Call => "call",
            Section::Event => "event",
            Section::Error => "error",
            Section::Calls => "calls:",
            Section::Events => "events:",
            Section::Errors => "errors:",
            Section::Storage => "storage:",
            Section::Key => "key:",
            Section::Constant => "constant:",
            Section::Result => "result:",
            Section::Params => "params:",
            Section::Custom => "custom:",
        }
    }
}

/// What follows the word of a name.
#[derive(Drop)]
pub enum Path {
    Empty,
    /// A pallet, or a custom value.
    One(String),
    /// A pallet or an api, and a part of it, with a dot between. All its parts share its name.
    Two(RcStr, String),
}

/// What a name stands for.
#[derive(Drop)]
pub enum Meaning<'v, 'r> {
    /// The type at a position of the registry.
    Own(u32),
    /// The type of extrinsics.
    Extrinsic(ExtrinsicTypes),
    /// The type of the keys of a storage entry, by what follows the two hashes in front.
    Key(Vec<KeyPart>),
    /// The type of the parameters of a method, by their list.
    Params(NodeRef<'v, 'r>),
}

/// A thing that metadata names.
#[derive(Drop)]
pub struct Thing<'v, 'r> {
    pub section: Section,
    pub path: Path,
    pub meaning: Meaning<'v, 'r>,
    /// The bytes of its value, if the metadata has them.
    pub bytes: Option<Vec<u8>>,
}

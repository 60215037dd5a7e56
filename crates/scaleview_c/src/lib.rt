//! For users: the library for C, registries and sessions behind handles, and answers as numbers.
//! `clients/c/scaleview.h` documents the calls.
#![tactic(auto)]

mod allowance;
mod annotations;
mod box_parts;
mod handle;
mod keeper;
mod lent;
mod nodes;
mod opaque;
mod opened;
mod paths;
mod reasons;
mod registries;
mod resource;
mod session;
mod sessions;
mod text;
mod type_names;
mod types;

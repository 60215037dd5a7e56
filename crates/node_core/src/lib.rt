//! For crates: the nodes of a value, how they are kept, read and written. value_core offers them to
//! users.
#![tactic(auto)]

mod children;
mod leaf;
mod node;
mod node_ref;
mod open_run;
mod pool;
mod remaining;
mod value;
mod what;
mod writing;

pub use children::Children;
pub use leaf::Leaf;
pub use node::{Content, NODE_BYTES, Node};
pub use node_ref::NodeRef;
pub use open_run::OpenRun;
pub use pool::{bit_count, long_at, put_piece};
pub use remaining::{Frame, Remaining};
pub use scale_core::{WriteFault, send};
pub use value::Value;
pub use what::What;
pub use writing::{encode, index_of, node_len, pooled};

//! For crates: a node's own bytes, how many there are, what they spell, how those of a cut node are
//! kept, and complete nodes without parts at the start of a piece.
#![tactic(auto)]

mod carry;
mod compacts;
mod forms;
mod fronts;
mod needs;
mod plain;
mod runs;

pub use carry::Carry;
pub use compacts::whole_compact;
pub use forms::{BytesForm, PlainForm, bytes_form};
pub use fronts::LeafForm;
pub use needs::need;
pub use plain::{read_length, read_plain};
pub use runs::whole_run;

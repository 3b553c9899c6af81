//! What the names of a unit with structs stand for, and expressions without the forms of structs: the lower part of the
//! expansion of structs, whose items stand in `wm_struct`.
#![tactic(auto)]

mod expression;
mod fault;
mod handed;
mod member;
mod naming;
mod room;
mod spot;
mod state;
mod table;

pub use expression::{call_of, expression_of, spot_of};
pub use fault::{Found, Kind, StructFault};
pub use member::Member;
pub use naming::{copied_name, name_of_member};
pub use room::room_for;
pub use state::{Meaning, Slot, State};
pub use table::Table;

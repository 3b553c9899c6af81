//! Abstract states: forms over variables, the shape of a state, and the calls that a domain has.
#![tactic(auto)]

mod domain;
mod form;
mod shape;

pub use domain::Domain;
pub use form::{Form, Relation, Term};
pub use shape::Shape;

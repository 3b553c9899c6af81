//! The tokens of a unit that are left to read, and what the next of them is to each production.
#![tactic(auto)]

mod fault;
mod operator;
mod token;
mod word;

pub use fault::ParseFault;
pub use operator::{Binary, Joint, Start, base_of, binary_of, joint_of, start_of};
pub use token::{Next, Tokens};
pub use word::{
    Beginning, Head, Lead, Specifier, Tail, assign_of, beginning_of, else_of, head_of, is_const,
    is_declaration, is_name, lead_of, specifier_of, step_of, tail_of, while_of,
};

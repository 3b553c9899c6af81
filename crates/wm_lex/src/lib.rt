//! From the bytes of C sources to their tokens, after splices and comments are gone and macros are replaced.
#![tactic(auto)]

mod beginning;
mod character;
mod comment;
mod definitions;
mod directive;
mod fault;
mod key;
mod laws;
mod lexeme;
mod lexing;
mod number;
mod piece;
mod punctuation;
mod replacement;
mod splice;
mod state;
mod walk;

pub use fault::LexFault;
pub use laws::lex_laws;
pub use lexing::lex;

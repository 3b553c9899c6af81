//! The words of a C source in the profile: places, names, tokens, and the trees of a unit.
#![tactic(auto)]

mod expression;
mod name;
mod place;
mod statement;
mod token;
mod unit;

pub use expression::{
    BaseType, Call, Chain, EqualityMark, Expr, Identifier, MemberMark, Part, ProductMark,
    RelationMark, Spot, SpotKind, SumMark, UnaryMark,
};
pub use name::Name;
pub use place::{Place, Position};
pub use statement::{
    AssignMark, Block, BlockItem, Declaration, Declarator, Initializer, InitializerList, Otherwise,
    Simple, Statement, StepMark, Word, Words,
};
pub use token::{Key, Punct, Token, TokenKind};
pub use unit::{
    Function, Item, MemberDeclarator, Members, Parameter, ParameterKind, Struct, StructObjects,
    Unit,
};

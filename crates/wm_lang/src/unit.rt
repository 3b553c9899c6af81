// A unit: what all source files of a program hold together.
use crate::expression::{BaseType, Expr, Identifier};
use crate::place::Position;
use crate::statement::{Block, Declaration, Statement, Words};
use sqlite_items::Items;
use wm_ops::List;

/// What a parameter takes.
#[derive(Drop)]
pub enum ParameterKind {
    /// `type v`
    Scalar(BaseType),
    /// `type a[e]` and `type a[]`
    Array {
        element: BaseType,
        bracket: Position,
        length: Option<Expr>,
    },
    /// `type *p`
    Pointer(BaseType),
    /// `struct S *p`
    Struct(Identifier),
}

/// A parameter. Only in a function item without a block its name may be absent.
#[derive(Drop)]
pub struct Parameter {
    /// The first token.
    pub at: Position,
    pub is_const: bool,
    pub kind: ParameterKind,
    pub name: Option<Identifier>,
}

/// A function with its block, or a prototype without one, which declares nothing.
#[derive(Drop)]
pub struct Function {
    /// The first token.
    pub at: Position,
    pub words: Words,
    /// None for `void`.
    pub result: Option<BaseType>,
    pub name: Identifier,
    /// None for `()` and `(void)`.
    pub parameters: Items<Parameter>,
    pub body: Option<Block<Statement>>,
}

/// One name of a member line.
#[derive(Drop)]
pub enum MemberDeclarator {
    /// `m`
    Scalar(Identifier),
    /// `m[e]`
    Array {
        name: Identifier,
        bracket: Position,
        length: Expr,
    },
}

/// Members of one type, at least one.
#[derive(Drop)]
pub struct Members {
    /// The first token.
    pub at: Position,
    pub base: BaseType,
    pub declarators: Items<MemberDeclarator>,
}

/// `struct S { .. };` with at least one line of members
#[derive(Drop)]
pub struct Struct {
    /// The first token.
    pub at: Position,
    pub name: Identifier,
    pub members: Items<Members>,
}

/// `struct S v, w;` with at least one object
#[derive(Drop)]
pub struct StructObjects {
    /// The first token.
    pub at: Position,
    pub words: Words,
    pub structure: Identifier,
    pub objects: Items<Identifier>,
}

/// An item of a unit.
#[derive(Drop)]
pub enum Item {
    Objects(Declaration),
    Function(Function),
    Struct(Struct),
    StructObjects(StructObjects),
}

/// The tree of all tokens.
#[derive(Drop)]
pub struct Unit {
    pub items: List<Item>,
}

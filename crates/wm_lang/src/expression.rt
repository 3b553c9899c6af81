// Expressions, and what they share with assignments: spots and calls.
use crate::name::Name;
use crate::place::Position;
use sqlite_items::{Boxed, Items};

/// A name where it stands in the source.
#[derive(Drop)]
pub struct Identifier {
    pub name: Name,
    pub at: Position,
}

/// A type of the profile. `Flag` and `int` have 32 bits.
#[derive(Clone, Copy, Debug, PartialEq, Eq)]
pub enum BaseType {
    Word16,
    Word32,
    Flag,
    Int,
}

/// The two marks of equality.
#[derive(Clone, Copy, Debug, PartialEq, Eq)]
pub enum EqualityMark {
    Equal,
    NotEqual,
}

/// The four marks of order.
#[derive(Clone, Copy, Debug, PartialEq, Eq)]
pub enum RelationMark {
    Less,
    LessEqual,
    Greater,
    GreaterEqual,
}

/// The marks of a sum.
#[derive(Clone, Copy, Debug, PartialEq, Eq)]
pub enum SumMark {
    Plus,
    Minus,
}

/// The marks of a product.
#[derive(Clone, Copy, Debug, PartialEq, Eq)]
pub enum ProductMark {
    Times,
    Divide,
}

/// The marks before an operand.
#[derive(Clone, Copy, Debug, PartialEq, Eq)]
pub enum UnaryMark {
    Minus,
    Plus,
    Not,
}

/// Between an object and its member.
#[derive(Clone, Copy, Debug, PartialEq, Eq)]
pub enum MemberMark {
    Dot,
    Arrow,
}

/// An operator of a chain and the operand behind it.
#[derive(Drop)]
pub struct Part<M, E> {
    pub mark: M,
    /// Where the operator stands.
    pub at: Position,
    pub operand: E,
}

/// Operators of one level with their operands, as `a - b + c`. There is at least one operator.
#[derive(Drop)]
pub struct Chain<M, E> {
    /// The first token of the first operand.
    pub at: Position,
    pub first: Boxed<E>,
    pub rest: Items<Part<M, E>>,
}

/// What an assignment may write and an expression may read.
#[derive(Drop)]
pub struct Spot<E> {
    /// The first token.
    pub at: Position,
    pub kind: SpotKind<E>,
}

/// The forms of a spot.
#[derive(Drop)]
pub enum SpotKind<E> {
    /// `v`
    Scalar {
        name: Identifier,
    },
    /// `a[e]`
    Element {
        name: Identifier,
        bracket: Position,
        index: E,
    },
    /// `*p`
    Pointed {
        star: Position,
        name: Identifier,
    },
    /// `v.m` and `p->m`
    Member {
        object: Identifier,
        mark: MemberMark,
        mark_at: Position,
        member: Identifier,
    },
    /// `v.m[e]` and `p->m[e]`
    MemberElement {
        object: Identifier,
        mark: MemberMark,
        mark_at: Position,
        member: Identifier,
        bracket: Position,
        index: E,
    },
}

/// A call of an operator, a counting call or a function.
#[derive(Drop)]
pub struct Call<E> {
    pub name: Identifier,
    pub arguments: Items<E>,
}

/// An expression.
#[derive(Drop)]
pub enum Expr {
    Or(Chain<(), Expr>),
    And(Chain<(), Expr>),
    Equality(Chain<EqualityMark, Expr>),
    Relation(Chain<RelationMark, Expr>),
    Sum(Chain<SumMark, Expr>),
    Product(Chain<ProductMark, Expr>),
    Unary {
        mark: UnaryMark,
        at: Position,
        operand: Boxed<Expr>,
    },
    /// `(type) operand`; it begins at the parenthesis.
    Cast {
        at: Position,
        to: BaseType,
        operand: Boxed<Expr>,
    },
    Number {
        at: Position,
        value: i64,
    },
    Spot(Spot<Boxed<Expr>>),
    Call(Call<Expr>),
    /// `( inner )`
    Parenthesis {
        at: Position,
        inner: Boxed<Expr>,
    },
    /// `&` before a name, an element or a member; its spot is never `*p`.
    Address {
        at: Position,
        spot: Spot<Boxed<Expr>>,
    },
}

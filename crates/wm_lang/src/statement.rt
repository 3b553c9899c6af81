// Declarations and statements.
use crate::expression::{BaseType, Call, Expr, Identifier, Spot};
use crate::place::Position;
use sqlite_items::{Boxed, Items};

/// The words before a type. Each may come several times in the source; order means nothing.
#[derive(Clone, Copy, Debug, PartialEq, Eq)]
pub struct Words {
    pub is_static: bool,
    pub is_const: bool,
    pub is_extern: bool,
}

/// What a declared scalar begins with.
#[derive(Drop)]
pub struct Initializer {
    /// Where the `=` stands.
    pub at: Position,
    pub value: Expr,
}

/// What a declared array begins with: at least one value.
#[derive(Drop)]
pub struct InitializerList {
    /// Where the `=` stands.
    pub at: Position,
    pub values: Items<Expr>,
}

/// One name of a declaration.
#[derive(Drop)]
pub enum Declarator {
    /// `v` or `v = e`
    Scalar {
        name: Identifier,
        initial: Option<Initializer>,
    },
    /// `a[e]` or `a[]`, and the list behind it
    Array {
        name: Identifier,
        bracket: Position,
        length: Option<Expr>,
        initial: Option<InitializerList>,
    },
}

/// A declaration of at least one object, in a block or outside of functions. In a block no `extern` stands.
#[derive(Drop)]
pub struct Declaration {
    /// The first token.
    pub at: Position,
    pub words: Words,
    pub base: BaseType,
    pub declarators: Items<Declarator>,
}

/// The mark of an assignment.
#[derive(Clone, Copy, Debug, PartialEq, Eq)]
pub enum AssignMark {
    /// `=`
    Plain,
    /// `+=`
    Plus,
    /// `-=`
    Minus,
    /// `*=`
    Times,
}

/// `++` or `--`
#[derive(Clone, Copy, Debug, PartialEq, Eq)]
pub enum StepMark {
    Increment,
    Decrement,
}

/// A statement without words of its own: an assignment, a step or a call.
#[derive(Drop)]
pub enum Simple {
    /// `spot = value` and its kin
    Assign {
        spot: Spot<Boxed<Expr>>,
        mark: AssignMark,
        at: Position,
        value: Expr,
    },
    /// `spot++`, whose spot is never `*p`
    StepAfter {
        spot: Spot<Boxed<Expr>>,
        mark: StepMark,
        at: Position,
    },
    /// `++spot`
    StepBefore {
        mark: StepMark,
        at: Position,
        spot: Spot<Boxed<Expr>>,
    },
    Call(Call<Expr>),
}

/// A control word where it stands.
#[derive(Clone, Copy, Debug, PartialEq, Eq)]
pub struct Word {
    /// Whether it is written in capitals, and so is counted.
    pub is_counted: bool,
    pub at: Position,
}

/// A block, with both its braces.
#[derive(Drop)]
pub struct Block<S> {
    /// The `{`.
    pub first: Position,
    pub items: Items<BlockItem<S>>,
    /// The `}`.
    pub last: Position,
}

/// What stands in a block.
#[derive(Drop)]
pub enum BlockItem<S> {
    Declaration(Declaration),
    Statement(S),
}

/// The part of an `if` behind its statement.
#[derive(Drop)]
pub struct Otherwise<S> {
    pub word: Word,
    pub body: S,
}

/// A statement.
#[derive(Drop)]
pub enum Statement {
    Block(Block<Statement>),
    /// `;`
    Empty {
        at: Position,
    },
    Simple(Simple),
    /// An `else` belongs to the nearest `if`.
    If {
        word: Word,
        condition: Expr,
        then: Boxed<Statement>,
        otherwise: Option<Otherwise<Boxed<Statement>>>,
    },
    /// A for loop; each of the three parts of its head may be absent.
    For {
        word: Word,
        begin: Items<Simple>,
        condition: Option<Expr>,
        step: Items<Simple>,
        body: Boxed<Statement>,
    },
    While {
        word: Word,
        condition: Expr,
        body: Boxed<Statement>,
    },
    /// `do body while (condition);`, with both its words
    Do {
        word: Word,
        body: Boxed<Statement>,
        tail: Word,
        condition: Expr,
    },
    Break {
        word: Word,
    },
    Continue {
        word: Word,
    },
    Return {
        at: Position,
        value: Option<Expr>,
    },
}

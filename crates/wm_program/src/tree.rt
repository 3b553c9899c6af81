// The tree of a function's body: names are numbers, conversions stand where they happen, each place that may fail has
// the number of its site, and constant expressions are their values. Parentheses are gone.
use sqlite_items::{Boxed, Items};
use wm_ops::{CountCall, Op, Width};

/// A scalar that a name means.
#[derive(Clone, Copy, Debug, PartialEq, Eq)]
pub enum Scalar {
    /// The flag `Overflow` of the outermost scope.
    Overflow,
    /// An object of static storage, by its number.
    Object(u32),
    /// A parameter or an automatic scalar of the function, by its number among the function's locals.
    Local(u32),
}

/// An array that a name means, or a scalar whose address is taken, which is kept as an array of length 1.
#[derive(Clone, Copy, Debug, PartialEq, Eq)]
pub enum Array {
    /// An object of static storage, by its number.
    Object(u32),
    /// An automatic array or scalar of the function, by its number among the locals.
    Local(u32),
    /// A view parameter, by its number among the locals and its number among the view parameters.
    View { local: u32, number: u32 },
}

/// An operator of plain C between two operands.
#[derive(Clone, Copy, Debug, PartialEq, Eq)]
pub enum PlainMark {
    Plus,
    Minus,
    Times,
    /// The quotient, truncated towards zero. The divisor is a constant that is not 0.
    Divide,
}

/// A comparison.
#[derive(Clone, Copy, Debug, PartialEq, Eq)]
pub enum Comparison {
    Less,
    LessEqual,
    Greater,
    GreaterEqual,
    Equal,
    NotEqual,
}

/// A value and its conversion: where one of 32 bits goes to 16 bits and is no fitting constant, the conversion is a
/// site, by its number.
#[derive(Drop)]
pub struct Converted<E> {
    pub value: E,
    pub narrowing: Option<u32>,
}

/// An operator of a chain, its site, and the operand behind it.
#[derive(Drop)]
pub struct Link<E> {
    pub mark: PlainMark,
    pub site: u32,
    pub operand: E,
}

/// The part of an array that a call hands over.
#[derive(Drop)]
pub enum View<E> {
    /// `a`, and `&v` for a scalar.
    Whole(Array),
    /// `a + e` and `&a[e]`, which is a site.
    From { array: Array, index: E, site: u32 },
}

/// An argument of a function.
#[derive(Drop)]
pub enum Passed<E> {
    Value(Converted<E>),
    View(View<E>),
}

/// A call of a function.
#[derive(Drop)]
pub struct Call<E> {
    /// The function's number.
    pub function: u32,
    /// What is added to the instance in which the call stands, to give the instance that is called. At least 1.
    pub offset: u32,
    pub arguments: Items<Passed<E>>,
}

/// An expression that gives a number.
#[derive(Drop)]
pub enum Expr {
    Constant(i64),
    Scalar(Scalar),
    /// `a[e]`, and `*p` and a scalar member `p->m` with the index 0.
    Element {
        array: Array,
        index: Boxed<Expr>,
        site: u32,
    },
    Operator {
        op: Op,
        arguments: Items<Converted<Expr>>,
        site: u32,
    },
    Call(Call<Expr>),
    /// Plain operators of one level, from left to right. There is at least one.
    Chain {
        first: Boxed<Expr>,
        rest: Items<Link<Expr>>,
    },
    /// `-e`
    Negate {
        operand: Boxed<Expr>,
        site: u32,
    },
    /// `+e`
    Plus(Boxed<Expr>),
    /// A cast to a type of this width.
    Cast {
        to: Width,
        operand: Boxed<Expr>,
    },
}

/// A condition.
#[derive(Drop)]
pub enum Condition {
    /// `||`, evaluated up to the first that holds.
    Or {
        first: Boxed<Condition>,
        rest: Items<Condition>,
    },
    /// `&&`, evaluated up to the first that does not hold.
    And {
        first: Boxed<Condition>,
        rest: Items<Condition>,
    },
    Not(Boxed<Condition>),
    Compare {
        left: Expr,
        mark: Comparison,
        right: Expr,
    },
    /// A number, which holds where it is not 0.
    Truth(Expr),
}

/// What an assignment writes.
#[derive(Drop)]
pub enum Spot {
    Scalar(Scalar),
    /// `a[e]`, and `*p` and a scalar member `p->m` with the index 0.
    Element {
        array: Array,
        index: Expr,
        site: u32,
    },
}

/// A statement without words of its own.
#[derive(Drop)]
pub enum Simple {
    /// `spot = value`
    Assign {
        spot: Spot,
        value: Converted<Expr>,
    },
    /// `+=`, `-=`, `*=`, and `++` and `--` with the value 1. The mark is never that of a quotient.
    Update {
        spot: Spot,
        mark: PlainMark,
        value: Expr,
        arithmetic: u32,
        narrowing: Option<u32>,
    },
    /// A call of an operator or a function, whose value is dropped.
    Evaluate(Expr),
    /// A counting call.
    Count(CountCall),
}

/// A name that a declaration makes, by its number among the locals.
#[derive(Drop)]
pub enum Declared {
    /// A scalar. Without a value it takes the next number of the fill list, clamped to the width.
    Scalar {
        local: u32,
        width: Width,
        initial: Option<Converted<Expr>>,
    },
    /// An array. Without values each cell is unset; else the cells behind the values are 0.
    Array {
        local: u32,
        length: u32,
        values: Option<Items<i64>>,
    },
}

/// The part of an `if` behind its statement.
#[derive(Drop)]
pub struct Otherwise<S> {
    pub is_counted: bool,
    pub body: S,
}

/// A statement.
#[derive(Drop)]
pub enum Statement {
    Block(Items<Statement>),
    /// `;`
    Empty,
    /// A declaration, whose statics are none of its names here: they are objects.
    Declare(Items<Declared>),
    Simple(Simple),
    If {
        is_counted: bool,
        condition: Condition,
        then: Boxed<Statement>,
        otherwise: Option<Otherwise<Boxed<Statement>>>,
    },
    /// A for loop, by its number; each of the three parts of its head may be absent.
    For {
        is_counted: bool,
        number: u32,
        begin: Items<Simple>,
        condition: Option<Condition>,
        step: Items<Simple>,
        body: Boxed<Statement>,
    },
    While {
        is_counted: bool,
        number: u32,
        condition: Condition,
        body: Boxed<Statement>,
    },
    /// `do body while (condition);`, both of whose words may be counted.
    Do {
        is_counted: bool,
        is_tail_counted: bool,
        number: u32,
        body: Boxed<Statement>,
        condition: Condition,
    },
    Break {
        is_counted: bool,
    },
    Continue {
        is_counted: bool,
    },
    Return(Option<Converted<Expr>>),
}

/// The block of a function.
#[derive(Drop)]
pub struct Body {
    pub statements: Items<Statement>,
}

// What the next token is to an expression.
ghost use Rattle.std.specs.Prelude.{◌≡◌, None};
ghost use Rattle.wm_cursor.specs.Operators as spec;

use crate::token::Next;
use wm_lang::{
    BaseType, EqualityMark, Key, MemberMark, ProductMark, Punct, RelationMark, SumMark, UnaryMark,
};

/// What an operand begins with.
#[derive(Clone, Copy)]
pub enum Start {
    Sign(UnaryMark),
    Parenthesis,
    Star,
    Ampersand,
    Name,
    Number(i64),
    /// Nothing that begins an operand.
    Other,
}

/// What goes on behind a name.
#[derive(Clone, Copy)]
pub enum Joint {
    Bracket,
    Member(MemberMark),
    /// The name stands for itself.
    Other,
}

/// An operator between two operands.
#[derive(Clone, Copy)]
pub enum Binary {
    Or,
    And,
    Equality(EqualityMark),
    Relation(RelationMark),
    Sum(SumMark),
    Product(ProductMark),
}

/// What a mark is before an operand.
fn start_at(mark: Punct) -> Start
    ensures { result ≡ spec.start_at mark }
{
    match mark {
        Punct::Minus => Start::Sign(UnaryMark::Minus),
        Punct::Plus => Start::Sign(UnaryMark::Plus),
        Punct::Not => Start::Sign(UnaryMark::Not),
        Punct::LeftParenthesis => Start::Parenthesis,
        Punct::Star => Start::Star,
        Punct::Ampersand => Start::Ampersand,
        _ => Start::Other,
    }
}

#[tactic(auto, unfolding(crate::specs::Operators::start_of))]
/// What an operand begins with.
pub fn start_of(next: Next) -> Start
    ensures { result ≡ spec.start_of next }
{
    match next {
        Next::End => Start::Other,
        Next::Name => Start::Name,
        Next::Number(value) => Start::Number(value),
        Next::Key(_) => Start::Other,
        Next::Mark(mark) => start_at(mark),
    }
}

/// What a mark is behind a name.
fn joint_at(mark: Punct) -> Joint
    ensures { result ≡ spec.joint_at mark }
{
    match mark {
        Punct::LeftBracket => Joint::Bracket,
        Punct::Dot => Joint::Member(MemberMark::Dot),
        Punct::Arrow => Joint::Member(MemberMark::Arrow),
        _ => Joint::Other,
    }
}

#[tactic(auto, unfolding(crate::specs::Operators::joint_of))]
/// What goes on behind a name.
pub fn joint_of(next: Next) -> Joint
    ensures { result ≡ spec.joint_of next }
{
    match next {
        Next::End => Joint::Other,
        Next::Name => Joint::Other,
        Next::Number(_) => Joint::Other,
        Next::Key(_) => Joint::Other,
        Next::Mark(mark) => joint_at(mark),
    }
}

/// The operator that a mark is between two operands.
fn binary_at(mark: Punct) -> Option<Binary>
    ensures { result ≡ spec.binary_at mark }
{
    match mark {
        Punct::Or => Some(Binary::Or),
        Punct::And => Some(Binary::And),
        Punct::Equal => Some(Binary::Equality(EqualityMark::Equal)),
        Punct::NotEqual => Some(Binary::Equality(EqualityMark::NotEqual)),
        Punct::Less => Some(Binary::Relation(RelationMark::Less)),
        Punct::LessEqual => Some(Binary::Relation(RelationMark::LessEqual)),
        Punct::Greater => Some(Binary::Relation(RelationMark::Greater)),
        Punct::GreaterEqual => Some(Binary::Relation(RelationMark::GreaterEqual)),
        Punct::Plus => Some(Binary::Sum(SumMark::Plus)),
        Punct::Minus => Some(Binary::Sum(SumMark::Minus)),
        Punct::Star => Some(Binary::Product(ProductMark::Times)),
        Punct::Slash => Some(Binary::Product(ProductMark::Divide)),
        _ => None,
    }
}

/// How loosely an operator binds, from 1 for the products.
fn level_of(binary: Binary) -> u8
    ensures { result ≡ spec.level_of binary }
{
    match binary {
        Binary::Product(_) => 1,
        Binary::Sum(_) => 2,
        Binary::Relation(_) => 3,
        Binary::Equality(_) => 4,
        Binary::And => 5,
        Binary::Or => 6,
    }
}

/// The operator, if it is one of this level.
fn at_level(level: u8, binary: Binary) -> Option<Binary>
    ensures { result ≡ spec.at_level level binary }
{
    if level_of(binary) == level {
        Some(binary)
    } else {
        None
    }
}

/// The operator of this level that a mark is between two operands.
fn binary_of_mark(level: u8, mark: Punct) -> Option<Binary>
    ensures { result ≡ spec.leveled level (spec.binary_at mark) }
{
    match binary_at(mark) {
        Some(binary) => at_level(level, binary),
        None => None,
    }
}

#[tactic(auto, unfolding(crate::specs::Operators::binary_of))]
/// The operator of this level that comes next.
pub fn binary_of(level: u8, next: Next) -> Option<Binary>
    ensures { result ≡ spec.binary_of level next }
{
    match next {
        Next::End => None,
        Next::Name => None,
        Next::Number(_) => None,
        Next::Key(_) => None,
        Next::Mark(mark) => binary_of_mark(level, mark),
    }
}

/// The type that a keyword names.
fn base_at(key: Key) -> Option<BaseType>
    ensures { result ≡ spec.base_at key }
{
    match key {
        Key::Word16 => Some(BaseType::Word16),
        Key::Word32 => Some(BaseType::Word32),
        Key::Flag => Some(BaseType::Flag),
        Key::Int => Some(BaseType::Int),
        _ => None,
    }
}

#[tactic(auto, unfolding(crate::specs::Operators::base_of))]
/// The type that comes next.
pub fn base_of(next: Next) -> Option<BaseType>
    ensures { result ≡ spec.base_of next }
{
    match next {
        Next::End => None,
        Next::Name => None,
        Next::Number(_) => None,
        Next::Key(key) => base_at(key),
        Next::Mark(_) => None,
    }
}

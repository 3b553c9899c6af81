// What the next token is to a statement, a declaration or an item.
ghost use Rattle.std.specs.Prelude.{◌≡◌, None};
ghost use Rattle.wm_cursor.specs.Words as spec;

use crate::operator::base_of;
use crate::token::Next;
use wm_lang::{AssignMark, BaseType, Key, Punct, StepMark};

/// What a statement begins with. A control word is counted where it is written in capitals.
#[derive(Clone, Copy)]
pub enum Lead {
    Block,
    Empty,
    If(bool),
    For(bool),
    While(bool),
    Do(bool),
    Break(bool),
    Continue(bool),
    Return,
    /// An assignment, a step or a call, or nothing that begins a statement.
    Other,
}

/// What an assignment, a step or a call begins with.
#[derive(Clone, Copy)]
pub enum Beginning {
    Step(StepMark),
    Star,
    Name,
    Other,
}

/// A word before a type.
#[derive(Clone, Copy)]
pub enum Specifier {
    Static,
    Const,
    Extern,
}

/// What goes on behind a declared name.
#[derive(Clone, Copy)]
pub enum Tail {
    Assign,
    Bracket,
    Other,
}

/// What an item or a parameter begins with behind its words.
#[derive(Clone, Copy)]
pub enum Head {
    Type(BaseType),
    Void,
    Struct,
    Other,
}

/// What a mark is at the beginning of a statement.
fn lead_at_mark(mark: Punct) -> Lead
    ensures { result ≡ spec.lead_at_mark mark }
{
    match mark {
        Punct::LeftBrace => Lead::Block,
        Punct::Semicolon => Lead::Empty,
        _ => Lead::Other,
    }
}

/// What a keyword is at the beginning of a statement.
fn lead_at_key(key: Key) -> Lead
    ensures { result ≡ spec.lead_at_key key }
{
    match key {
        Key::If => Lead::If(false),
        Key::For => Lead::For(false),
        Key::While => Lead::While(false),
        Key::Do => Lead::Do(false),
        Key::Break => Lead::Break(false),
        Key::Continue => Lead::Continue(false),
        Key::CountedIf => Lead::If(true),
        Key::CountedFor => Lead::For(true),
        Key::CountedWhile => Lead::While(true),
        Key::CountedDo => Lead::Do(true),
        Key::CountedBreak => Lead::Break(true),
        Key::CountedContinue => Lead::Continue(true),
        Key::Return => Lead::Return,
        _ => Lead::Other,
    }
}

#[tactic(auto, unfolding(crate::specs::Words::lead_of))]
/// What a statement begins with.
pub fn lead_of(next: Next) -> Lead
    ensures { result ≡ spec.lead_of next }
{
    match next {
        Next::End => Lead::Other,
        Next::Name => Lead::Other,
        Next::Number(_) => Lead::Other,
        Next::Key(key) => lead_at_key(key),
        Next::Mark(mark) => lead_at_mark(mark),
    }
}

/// The case of an `else`.
fn else_at(key: Key) -> Option<bool>
    ensures { result ≡ spec.else_at key }
{
    match key {
        Key::Else => Some(false),
        Key::CountedElse => Some(true),
        _ => None,
    }
}

#[tactic(auto, unfolding(crate::specs::Words::else_of))]
/// The case of an `else` that comes next.
pub fn else_of(next: Next) -> Option<bool>
    ensures { result ≡ spec.else_of next }
{
    match next {
        Next::End => None,
        Next::Name => None,
        Next::Number(_) => None,
        Next::Key(key) => else_at(key),
        Next::Mark(_) => None,
    }
}

/// The case of a `while`.
fn while_at(key: Key) -> Option<bool>
    ensures { result ≡ spec.while_at key }
{
    match key {
        Key::While => Some(false),
        Key::CountedWhile => Some(true),
        _ => None,
    }
}

#[tactic(auto, unfolding(crate::specs::Words::while_of))]
/// The case of a `while` that comes next.
pub fn while_of(next: Next) -> Option<bool>
    ensures { result ≡ spec.while_of next }
{
    match next {
        Next::End => None,
        Next::Name => None,
        Next::Number(_) => None,
        Next::Key(key) => while_at(key),
        Next::Mark(_) => None,
    }
}

/// The mark of a step.
fn step_at(mark: Punct) -> Option<StepMark>
    ensures { result ≡ spec.step_at mark }
{
    match mark {
        Punct::Increment => Some(StepMark::Increment),
        Punct::Decrement => Some(StepMark::Decrement),
        _ => None,
    }
}

#[tactic(auto, unfolding(crate::specs::Words::step_of))]
/// The mark of a step that comes next.
pub fn step_of(next: Next) -> Option<StepMark>
    ensures { result ≡ spec.step_of next }
{
    match next {
        Next::End => None,
        Next::Name => None,
        Next::Number(_) => None,
        Next::Key(_) => None,
        Next::Mark(mark) => step_at(mark),
    }
}

/// The mark of an assignment.
fn assign_at(mark: Punct) -> Option<AssignMark>
    ensures { result ≡ spec.assign_at mark }
{
    match mark {
        Punct::Assign => Some(AssignMark::Plain),
        Punct::PlusAssign => Some(AssignMark::Plus),
        Punct::MinusAssign => Some(AssignMark::Minus),
        Punct::TimesAssign => Some(AssignMark::Times),
        _ => None,
    }
}

#[tactic(auto, unfolding(crate::specs::Words::assign_of))]
/// The mark of an assignment that comes next.
pub fn assign_of(next: Next) -> Option<AssignMark>
    ensures { result ≡ spec.assign_of next }
{
    match next {
        Next::End => None,
        Next::Name => None,
        Next::Number(_) => None,
        Next::Key(_) => None,
        Next::Mark(mark) => assign_at(mark),
    }
}

/// What a mark is at the beginning of an assignment or a step.
fn beginning_at(mark: Punct) -> Beginning
    ensures { result ≡ spec.beginning_at mark }
{
    match mark {
        Punct::Increment => Beginning::Step(StepMark::Increment),
        Punct::Decrement => Beginning::Step(StepMark::Decrement),
        Punct::Star => Beginning::Star,
        _ => Beginning::Other,
    }
}

#[tactic(auto, unfolding(crate::specs::Words::beginning_of))]
/// What an assignment, a step or a call begins with.
pub fn beginning_of(next: Next) -> Beginning
    ensures { result ≡ spec.beginning_of next }
{
    match next {
        Next::End => Beginning::Other,
        Next::Name => Beginning::Name,
        Next::Number(_) => Beginning::Other,
        Next::Key(_) => Beginning::Other,
        Next::Mark(mark) => beginning_at(mark),
    }
}

/// The word that a keyword is before a type. Only outside of functions `extern` is one.
fn specifier_at(is_outside: bool, key: Key) -> Option<Specifier>
    ensures { result ≡ spec.specifier_at is_outside key }
{
    match key {
        Key::Static => Some(Specifier::Static),
        Key::Const => Some(Specifier::Const),
        Key::Extern => {
            if is_outside {
                Some(Specifier::Extern)
            } else {
                None
            }
        }
        _ => None,
    }
}

#[tactic(auto, unfolding(crate::specs::Words::specifier_of))]
/// The word before a type that comes next. Only outside of functions `extern` is one.
pub fn specifier_of(is_outside: bool, next: Next) -> Option<Specifier>
    ensures { result ≡ spec.specifier_of is_outside next }
{
    match next {
        Next::End => None,
        Next::Name => None,
        Next::Number(_) => None,
        Next::Key(key) => specifier_at(is_outside, key),
        Next::Mark(_) => None,
    }
}

/// What a mark is behind a declared name.
fn tail_at(mark: Punct) -> Tail
    ensures { result ≡ spec.tail_at mark }
{
    match mark {
        Punct::Assign => Tail::Assign,
        Punct::LeftBracket => Tail::Bracket,
        _ => Tail::Other,
    }
}

#[tactic(auto, unfolding(crate::specs::Words::tail_of))]
/// What goes on behind a declared name.
pub fn tail_of(next: Next) -> Tail
    ensures { result ≡ spec.tail_of next }
{
    match next {
        Next::End => Tail::Other,
        Next::Name => Tail::Other,
        Next::Number(_) => Tail::Other,
        Next::Key(_) => Tail::Other,
        Next::Mark(mark) => tail_at(mark),
    }
}

/// What a keyword is at the beginning of an item or a parameter.
fn head_at(key: Key) -> Head
    ensures { result ≡ spec.head_at key }
{
    match key {
        Key::Word16 => Head::Type(BaseType::Word16),
        Key::Word32 => Head::Type(BaseType::Word32),
        Key::Flag => Head::Type(BaseType::Flag),
        Key::Int => Head::Type(BaseType::Int),
        Key::Void => Head::Void,
        Key::Struct => Head::Struct,
        _ => Head::Other,
    }
}

#[tactic(auto, unfolding(crate::specs::Words::head_of))]
/// What an item or a parameter begins with behind its words.
pub fn head_of(next: Next) -> Head
    ensures { result ≡ spec.head_of next }
{
    match next {
        Next::End => Head::Other,
        Next::Name => Head::Other,
        Next::Number(_) => Head::Other,
        Next::Key(key) => head_at(key),
        Next::Mark(_) => Head::Other,
    }
}

#[tactic(auto, unfolding(crate::specs::Words::is_declaration))]
/// Whether a declaration of a block comes next.
pub fn is_declaration(next: Next) -> bool
    ensures { result ≡ spec.is_declaration next }
{
    specifier_of(false, next).is_some() || base_of(next).is_some()
}

#[tactic(auto, unfolding(crate::specs::Words::is_const))]
/// Whether a `const` comes next.
pub fn is_const(next: Next) -> bool
    ensures { result ≡ spec.is_const next }
{
    match specifier_of(false, next) {
        Some(Specifier::Const) => true,
        Some(Specifier::Static) => false,
        Some(Specifier::Extern) => false,
        None => false,
    }
}

#[tactic(auto, unfolding(crate::specs::Words::is_name))]
/// Whether a name comes next.
pub fn is_name(next: Next) -> bool
    ensures { result ≡ spec.is_name next }
{
    match next {
        Next::End => false,
        Next::Name => true,
        Next::Number(_) => false,
        Next::Key(_) => false,
        Next::Mark(_) => false,
    }
}

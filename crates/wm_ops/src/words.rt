// The words that a complexity count counts: the operators, five calls and seven control words.
ghost use Rattle.std.specs.Prelude.{◌≡◌, ◌<◌, ◌↔◌, Some};
ghost use Rattle.wm_ops.specs.declared.words.Counted as other;
ghost use Rattle.wm_ops.specs.Words.{word_number_of, word_numbered, word_name_of, call_name_of, control_name_of};

use crate::operators::{OPERATORS, Op, name, op_at, op_number};
use crate::search::item_at;

/// A counting call of no effect but its weight.
#[derive(Clone, Copy, Debug, PartialEq, Eq, Hash)]
pub enum CountCall {
    Move16,
    Move32,
    Logic16,
    Logic32,
    Test,
}

/// A C keyword in its counted form, in capitals.
#[derive(Clone, Copy, Debug, PartialEq, Eq, Hash)]
pub enum ControlWord {
    If,
    Else,
    For,
    While,
    Do,
    Break,
    Continue,
}

/// A counted word.
#[derive(Clone, Copy, Debug, PartialEq, Eq, Hash)]
pub enum Counted {
    Operator(Op),
    Call(CountCall),
    Word(ControlWord),
}

/// The counted words that are no operators, in order.
pub(crate) const OTHERS: [Counted; 12] = [
    Counted::Call(CountCall::Move16),
    Counted::Call(CountCall::Move32),
    Counted::Call(CountCall::Logic16),
    Counted::Call(CountCall::Logic32),
    Counted::Call(CountCall::Test),
    Counted::Word(ControlWord::If),
    Counted::Word(ControlWord::Else),
    Counted::Word(ControlWord::For),
    Counted::Word(ControlWord::While),
    Counted::Word(ControlWord::Do),
    Counted::Word(ControlWord::Break),
    Counted::Word(ControlWord::Continue),
];

/// How many counted words there are.
pub const COUNTED_WORDS: usize = OPERATORS + 12;

/// The word's place among the counted words, from 0: the operators first, then the calls, then the control words.
pub fn counted_number(word: Counted) -> usize
    ensures number { result ≡ word_number_of word }
    ensures within { result < COUNTED_WORDS }
{
    match word {
        Counted::Operator(op) => op_number(op),
        Counted::Call(call) => OPERATORS + call as usize,
        Counted::Word(control) => OPERATORS + 5 + control as usize,
    }
}

/// The counted word at this place; None exactly past the last.
pub fn counted_at(number: usize) -> Option<Counted>
    ensures word { result ≡ word_numbered number }
    ensures exact { (word : other.Counted) → (result ≡ Some word) ↔ (word_number_of word ≡ number) }
{
    if number < OPERATORS {
        op_at(number).map(|op| Counted::Operator(op))
    } else {
        item_at(&OTHERS, number - OPERATORS).copied()
    }
}

fn call_name(call: CountCall) -> &'static [u8]
    ensures name { result.now ≡ call_name_of call }
{
    match call {
        CountCall::Move16 => b"move16",
        CountCall::Move32 => b"move32",
        CountCall::Logic16 => b"logic16",
        CountCall::Logic32 => b"logic32",
        CountCall::Test => b"test",
    }
}

fn control_name(control: ControlWord) -> &'static [u8]
    ensures name { result.now ≡ control_name_of control }
{
    match control {
        ControlWord::If => b"IF",
        ControlWord::Else => b"ELSE",
        ControlWord::For => b"FOR",
        ControlWord::While => b"WHILE",
        ControlWord::Do => b"DO",
        ControlWord::Break => b"BREAK",
        ControlWord::Continue => b"CONTINUE",
    }
}

/// The word as a weights file and a report spell it.
pub fn counted_name(word: Counted) -> &'static [u8]
    ensures name { result.now ≡ word_name_of word }
{
    match word {
        Counted::Operator(op) => name(op),
        Counted::Call(call) => call_name(call),
        Counted::Word(control) => control_name(control),
    }
}

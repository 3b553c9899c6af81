// Tokens before macro replacement.
ghost use Rattle.std.specs.Prelude.{◌≡◌, IfOk};
ghost use Rattle.wm_lex.specs.Lexemes.{kind_of_word, kind_of, token_of, same_lexeme};

use crate::key::key_of;
use crate::punctuation::mark_number;
use std::alloc::Global;
use wm_lang::{Name, Place, Punct, Token, TokenKind};
use wm_ops::NoMemory;

/// A token of a text or of a macro's list. A word may be a key, a name or a macro.
#[derive(Drop)]
pub enum Lexeme {
    Word(Name),
    Number(i64),
    Mark(Punct),
}

/// What a word is that no macro replaces.
fn kind_of_word(alloc: Global, word: &[u8]) -> Result<TokenKind, NoMemory>
    ensures { IfOk result (λ kind. kind ≡ kind_of_word word.now) }
{
    match key_of(word) {
        Some(key) => Ok(TokenKind::Key(key)),
        None => Ok(TokenKind::Name(Name::new(alloc, word)?)),
    }
}

/// The token at this place that a lexeme is.
pub fn token_of(alloc: Global, lexeme: &Lexeme, place: Place) -> Result<Token, NoMemory>
    ensures { IfOk result (λ token. token ≡ token_of lexeme.now place) }
{
    let kind = match lexeme {
        Lexeme::Word(name) => kind_of_word(alloc, name.bytes())?,
        Lexeme::Number(value) => TokenKind::Number(*value),
        Lexeme::Mark(mark) => TokenKind::Punct(*mark),
    };
    Ok(Token { kind, place })
}

/// The token at this place that a lexeme is, whose name it takes.
pub fn token_from(lexeme: Lexeme, place: Place) -> Token
    ensures { result ≡ token_of lexeme place }
{
    let kind = match lexeme {
        Lexeme::Word(name) => kind_from_word(name),
        Lexeme::Number(value) => TokenKind::Number(value),
        Lexeme::Mark(mark) => TokenKind::Punct(mark),
    };
    Token { kind, place }
}

/// What a word is that no macro replaces.
fn kind_from_word(name: Name) -> TokenKind
    ensures { result ≡ kind_of_word name }
{
    match key_of(name.bytes()) {
        Some(key) => TokenKind::Key(key),
        None => TokenKind::Name(name),
    }
}

/// Another lexeme like this one.
pub fn copied(alloc: Global, lexeme: &Lexeme) -> Result<Lexeme, NoMemory>
    ensures { IfOk result (λ copy. copy ≡ lexeme.now) }
{
    match lexeme {
        Lexeme::Word(name) => Ok(Lexeme::Word(Name::new(alloc, name.bytes())?)),
        Lexeme::Number(value) => Ok(Lexeme::Number(*value)),
        Lexeme::Mark(mark) => Ok(Lexeme::Mark(*mark)),
    }
}

/// Whether two lexemes have the same kind, and the same word, value or mark.
pub fn same_lexeme(a: &Lexeme, b: &Lexeme) -> bool
    ensures { result ≡ same_lexeme a.now b.now }
{
    match a {
        Lexeme::Word(name) => match b {
            Lexeme::Word(other) => name.bytes() == other.bytes(),
            Lexeme::Number(_) => false,
            Lexeme::Mark(_) => false,
        },
        Lexeme::Number(value) => match b {
            Lexeme::Word(_) => false,
            Lexeme::Number(other) => *value == *other,
            Lexeme::Mark(_) => false,
        },
        Lexeme::Mark(mark) => match b {
            Lexeme::Word(_) => false,
            Lexeme::Number(_) => false,
            Lexeme::Mark(other) => mark_number(*mark) == mark_number(*other),
        },
    }
}

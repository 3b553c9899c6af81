// The keywords of C99 (6.4.1), the names of the basic operators' types, and the control words in capitals.
ghost use Rattle.std.specs.Prelude.{◌≡◌};
ghost use Rattle.wm_lex.specs.Keys.{spelling_of, key_in, key_of};

use wm_lang::Key;

const KEYS: [Key; 47] = [
    Key::Word16,
    Key::Word32,
    Key::Flag,
    Key::Int,
    Key::Void,
    Key::Static,
    Key::Const,
    Key::Extern,
    Key::Struct,
    Key::If,
    Key::Else,
    Key::For,
    Key::While,
    Key::Do,
    Key::Break,
    Key::Continue,
    Key::Return,
    Key::CountedIf,
    Key::CountedElse,
    Key::CountedFor,
    Key::CountedWhile,
    Key::CountedDo,
    Key::CountedBreak,
    Key::CountedContinue,
    Key::Auto,
    Key::Case,
    Key::Char,
    Key::Default,
    Key::Double,
    Key::Enum,
    Key::Float,
    Key::Goto,
    Key::Inline,
    Key::Long,
    Key::Register,
    Key::Restrict,
    Key::Short,
    Key::Signed,
    Key::Sizeof,
    Key::Switch,
    Key::Typedef,
    Key::Union,
    Key::Unsigned,
    Key::Volatile,
    Key::Bool,
    Key::Complex,
    Key::Imaginary,
];

/// How a key is spelled.
fn spelling_of(key: Key) -> &'static [u8]
    ensures { result.now ≡ spelling_of key }
{
    match key {
        Key::Word16 => b"Word16",
        Key::Word32 => b"Word32",
        Key::Flag => b"Flag",
        Key::Int => b"int",
        Key::Void => b"void",
        Key::Static => b"static",
        Key::Const => b"const",
        Key::Extern => b"extern",
        Key::Struct => b"struct",
        Key::If => b"if",
        Key::Else => b"else",
        Key::For => b"for",
        Key::While => b"while",
        Key::Do => b"do",
        Key::Break => b"break",
        Key::Continue => b"continue",
        Key::Return => b"return",
        Key::CountedIf => b"IF",
        Key::CountedElse => b"ELSE",
        Key::CountedFor => b"FOR",
        Key::CountedWhile => b"WHILE",
        Key::CountedDo => b"DO",
        Key::CountedBreak => b"BREAK",
        Key::CountedContinue => b"CONTINUE",
        Key::Auto => b"auto",
        Key::Case => b"case",
        Key::Char => b"char",
        Key::Default => b"default",
        Key::Double => b"double",
        Key::Enum => b"enum",
        Key::Float => b"float",
        Key::Goto => b"goto",
        Key::Inline => b"inline",
        Key::Long => b"long",
        Key::Register => b"register",
        Key::Restrict => b"restrict",
        Key::Short => b"short",
        Key::Signed => b"signed",
        Key::Sizeof => b"sizeof",
        Key::Switch => b"switch",
        Key::Typedef => b"typedef",
        Key::Union => b"union",
        Key::Unsigned => b"unsigned",
        Key::Volatile => b"volatile",
        Key::Bool => b"_Bool",
        Key::Complex => b"_Complex",
        Key::Imaginary => b"_Imaginary",
    }
}

/// The first of these keys that is spelled so.
fn key_in(keys: &[Key], word: &[u8]) -> Option<Key>
    ensures { result ≡ key_in keys.now word.now }
{
    for key in keys {
        if spelling_of(*key) == word {
            return Some(*key);
        }
    }
    None
}

#[tactic(auto, unfolding(crate::specs::Keys::key_of))]
/// The key that is spelled so; None where the word is a name.
pub fn key_of(word: &[u8]) -> Option<Key>
    ensures { result ≡ key_of word.now }
{
    key_in(&KEYS, word)
}

// Tokens of a source, after comments are gone and macros are replaced.
use crate::name::Name;
use crate::place::Place;

/// A keyword of C99 or of the basic operators' type names, or a control word in capitals.
///
/// The keywords from `Auto` on are keys that no production of the grammar uses.
#[derive(Clone, Copy, Debug, PartialEq, Eq)]
pub enum Key {
    Word16,
    Word32,
    Flag,
    Int,
    Void,
    Static,
    Const,
    Extern,
    Struct,
    If,
    Else,
    For,
    While,
    Do,
    Break,
    Continue,
    Return,
    /// `IF`, which a count of the words counts.
    CountedIf,
    CountedElse,
    CountedFor,
    CountedWhile,
    CountedDo,
    CountedBreak,
    CountedContinue,
    Auto,
    Case,
    Char,
    Default,
    Double,
    Enum,
    Float,
    Goto,
    Inline,
    Long,
    Register,
    Restrict,
    Short,
    Signed,
    Sizeof,
    Switch,
    Typedef,
    Union,
    Unsigned,
    Volatile,
    /// `_Bool`
    Bool,
    /// `_Complex`
    Complex,
    /// `_Imaginary`
    Imaginary,
}

/// A mark, named as C99 6.4.6 and its readers name it.
#[derive(Clone, Copy, Debug, PartialEq, Eq)]
pub enum Punct {
    /// `(`
    LeftParenthesis,
    /// `)`
    RightParenthesis,
    /// `[`
    LeftBracket,
    /// `]`
    RightBracket,
    /// `{`
    LeftBrace,
    /// `}`
    RightBrace,
    /// `;`
    Semicolon,
    /// `,`
    Comma,
    /// `=`
    Assign,
    /// `+=`
    PlusAssign,
    /// `-=`
    MinusAssign,
    /// `*=`
    TimesAssign,
    /// `+`
    Plus,
    /// `-`
    Minus,
    /// `*`
    Star,
    /// `/`
    Slash,
    /// `++`
    Increment,
    /// `--`
    Decrement,
    /// `<`
    Less,
    /// `<=`
    LessEqual,
    /// `>`
    Greater,
    /// `>=`
    GreaterEqual,
    /// `==`
    Equal,
    /// `!=`
    NotEqual,
    /// `&&`
    And,
    /// `||`
    Or,
    /// `!`
    Not,
    /// `&`
    Ampersand,
    /// `.`
    Dot,
    /// `->`
    Arrow,
}

/// What a token is.
#[derive(Drop)]
pub enum TokenKind {
    Name(Name),
    /// The value of a number, from -2,147,483,648 to 2,147,483,647.
    Number(i64),
    Key(Key),
    Punct(Punct),
}

/// A token and where its text stands. A token that a macro made has the place of the macro's name.
#[derive(Drop)]
pub struct Token {
    pub kind: TokenKind,
    pub place: Place,
}

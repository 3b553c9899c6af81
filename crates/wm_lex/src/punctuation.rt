// The marks of the profile, the longest first (C99 6.4.6).
ghost use Rattle.std.specs.Prelude.{◌≡◌};
ghost use Rattle.wm_lex.specs.Punctuation.{pair_in, single_in, pair_mark, single_mark, mark_number};

use wm_lang::Punct;

/// A mark of two bytes.
#[derive(Clone, Copy)]
pub struct Pair {
    pub first: u8,
    pub second: u8,
    pub mark: Punct,
}

/// A mark of one byte.
#[derive(Clone, Copy)]
pub struct Single {
    pub byte: u8,
    pub mark: Punct,
}

const PAIRS: [Pair; 12] = [
    Pair {
        first: b'-',
        second: b'>',
        mark: Punct::Arrow,
    },
    Pair {
        first: b'+',
        second: b'=',
        mark: Punct::PlusAssign,
    },
    Pair {
        first: b'-',
        second: b'=',
        mark: Punct::MinusAssign,
    },
    Pair {
        first: b'*',
        second: b'=',
        mark: Punct::TimesAssign,
    },
    Pair {
        first: b'+',
        second: b'+',
        mark: Punct::Increment,
    },
    Pair {
        first: b'-',
        second: b'-',
        mark: Punct::Decrement,
    },
    Pair {
        first: b'<',
        second: b'=',
        mark: Punct::LessEqual,
    },
    Pair {
        first: b'>',
        second: b'=',
        mark: Punct::GreaterEqual,
    },
    Pair {
        first: b'=',
        second: b'=',
        mark: Punct::Equal,
    },
    Pair {
        first: b'!',
        second: b'=',
        mark: Punct::NotEqual,
    },
    Pair {
        first: b'&',
        second: b'&',
        mark: Punct::And,
    },
    Pair {
        first: b'|',
        second: b'|',
        mark: Punct::Or,
    },
];

const SINGLES: [Single; 18] = [
    Single {
        byte: b'(',
        mark: Punct::LeftParenthesis,
    },
    Single {
        byte: b')',
        mark: Punct::RightParenthesis,
    },
    Single {
        byte: b'[',
        mark: Punct::LeftBracket,
    },
    Single {
        byte: b']',
        mark: Punct::RightBracket,
    },
    Single {
        byte: b'{',
        mark: Punct::LeftBrace,
    },
    Single {
        byte: b'}',
        mark: Punct::RightBrace,
    },
    Single {
        byte: b';',
        mark: Punct::Semicolon,
    },
    Single {
        byte: b',',
        mark: Punct::Comma,
    },
    Single {
        byte: b'=',
        mark: Punct::Assign,
    },
    Single {
        byte: b'+',
        mark: Punct::Plus,
    },
    Single {
        byte: b'-',
        mark: Punct::Minus,
    },
    Single {
        byte: b'*',
        mark: Punct::Star,
    },
    Single {
        byte: b'/',
        mark: Punct::Slash,
    },
    Single {
        byte: b'<',
        mark: Punct::Less,
    },
    Single {
        byte: b'>',
        mark: Punct::Greater,
    },
    Single {
        byte: b'!',
        mark: Punct::Not,
    },
    Single {
        byte: b'&',
        mark: Punct::Ampersand,
    },
    Single {
        byte: b'.',
        mark: Punct::Dot,
    },
];

/// The first of these marks that has these two bytes.
fn pair_in(rows: &[Pair], first: u8, second: u8) -> Option<Punct>
    ensures { result ≡ pair_in rows.now first second }
{
    for row in rows {
        if row.first == first && row.second == second {
            return Some(row.mark);
        }
    }
    None
}

/// The first of these marks that has this byte.
fn single_in(rows: &[Single], byte: u8) -> Option<Punct>
    ensures { result ≡ single_in rows.now byte }
{
    for row in rows {
        if row.byte == byte {
            return Some(row.mark);
        }
    }
    None
}

#[tactic(auto, unfolding(crate::specs::Punctuation::pair_mark))]
/// The mark of these two bytes.
pub fn pair_mark(first: u8, second: u8) -> Option<Punct>
    ensures { result ≡ pair_mark first second }
{
    pair_in(&PAIRS, first, second)
}

#[tactic(auto, unfolding(crate::specs::Punctuation::single_mark))]
/// The mark of this byte alone.
pub fn single_mark(byte: u8) -> Option<Punct>
    ensures { result ≡ single_mark byte }
{
    single_in(&SINGLES, byte)
}

/// A number for each mark, which tells it from the others.
pub fn mark_number(mark: Punct) -> u8
    ensures { result ≡ mark_number mark }
{
    match mark {
        Punct::Arrow => 0,
        Punct::PlusAssign => 1,
        Punct::MinusAssign => 2,
        Punct::TimesAssign => 3,
        Punct::Increment => 4,
        Punct::Decrement => 5,
        Punct::LessEqual => 6,
        Punct::GreaterEqual => 7,
        Punct::Equal => 8,
        Punct::NotEqual => 9,
        Punct::And => 10,
        Punct::Or => 11,
        Punct::LeftParenthesis => 12,
        Punct::RightParenthesis => 13,
        Punct::LeftBracket => 14,
        Punct::RightBracket => 15,
        Punct::LeftBrace => 16,
        Punct::RightBrace => 17,
        Punct::Semicolon => 18,
        Punct::Comma => 19,
        Punct::Assign => 20,
        Punct::Plus => 21,
        Punct::Minus => 22,
        Punct::Star => 23,
        Punct::Slash => 24,
        Punct::Less => 25,
        Punct::Greater => 26,
        Punct::Not => 27,
        Punct::Ampersand => 28,
        Punct::Dot => 29,
    }
}

// A form in a fixed room, as it is kept while an expression is looked at.
use wm_domain::Term;

/// The sum of at most two terms of different variables and a constant. Where there is one term it is the first.
#[derive(Clone, Copy, Debug, PartialEq, Eq)]
pub struct Kept {
    pub first: Option<Term>,
    pub second: Option<Term>,
    pub constant: i64,
}

/// At most two terms of different variables. Where there is one it is the first.
#[derive(Clone, Copy, Debug, PartialEq, Eq)]
pub struct Pair {
    pub first: Option<Term>,
    pub second: Option<Term>,
}

// Sums of at most two variables and a constant, and what may hold of one.
use wm_ops::List;

/// A variable or its negative, as a part of a form.
#[derive(Clone, Copy, Debug, PartialEq, Eq)]
pub struct Term {
    /// The number of the variable in its shape: through the group, then the singles.
    pub variable: u32,
    pub negative: bool,
}

/// The sum of at most two terms of different variables and a constant below 2^50 in size.
#[derive(Debug, Drop)]
pub struct Form {
    pub terms: List<Term>,
    pub constant: i64,
}

/// What holds between a form and 0.
#[derive(Clone, Copy, Debug, PartialEq, Eq)]
pub enum Relation {
    AtMost,
    Equal,
    NotEqual,
}

// What an expression is once its names are known.
use wm_ops::Width;
use wm_program::{Array, Condition, Expr, Simple, View};

/// An array that a name stands for.
#[derive(Clone, Copy, Debug, PartialEq, Eq)]
pub struct Sight {
    pub array: Array,
    /// The width of its elements.
    pub width: Width,
    pub is_const: bool,
}

/// What `&a[e]` tells before its index is read.
#[derive(Clone, Copy)]
pub struct Begun {
    /// The array, where it is one.
    pub sight: Option<Sight>,
    pub site: u32,
}

/// What an expression is. Where something is wrong inside, the kind stands and the tree is a stand-in.
#[derive(Drop)]
pub enum Value {
    Number(Expr),
    /// A comparison or a logical value.
    Truth(Condition),
    View { view: View<Expr>, sight: Sight },
    /// A view of something of which nothing is known.
    LostView,
    /// The name of a function.
    Function,
    /// A call that gives no value.
    Effect(Simple),
    /// Nothing is known.
    Nothing,
}

/// How a sum begins where a view may stand.
#[derive(Clone, Copy)]
pub enum Head {
    /// With a number.
    Number,
    /// With an array, before one `+`.
    Sight(Sight),
    /// With a name that is not declared, before one `+`.
    Nothing,
}

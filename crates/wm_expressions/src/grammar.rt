// The productions that hold expressions take the reader of those as a parameter, so that each is proved by itself.
ghost use Rattle.wm_cursor.specs.Inputs.{Reads, input_of};
ghost use Rattle.wm_expressions.specs.Expressions as spec;
ghost use Rattle.wm_expressions.specs.Nests.{Nests};

use sqlite_items::Boxed;
use std::alloc::Global;
use wm_cursor::{ParseFault, Tokens};
use wm_lang::{Call, Expr, Identifier, SpotKind};

/// How much of an expression is read.
#[derive(Clone, Copy)]
pub enum Reach {
    Whole,
    /// One operand, with the signs and casts before it.
    Operand,
}

/// What the productions of an expression need.
#[derive(Clone, Copy)]
pub struct Grammar<F> {
    pub alloc: Global,
    /// How many more levels may be opened.
    pub depth: usize,
    pub expression: F,
}

impl<F: Fn(Global, &mut Tokens<'_>, usize, Reach) -> Result<Expr, ParseFault>> Grammar<F> {
    #[tactic(auto, unfolding(crate::specs::Expressions::deeper))]
    /// An expression with one more level open.
    pub fn deeper(&self, tokens: &mut Tokens<'_>, reach: Reach) -> Result<Expr, ParseFault>
        requires { Nests self.now.depth (F.pre self.now.expression) (F.post self.now.expression) }
        ensures { Reads (spec.deeper self.now.depth reach (input_of tokens.old)) result (input_of tokens.new) }
    {
        if self.depth == 0 {
            return Err(tokens.refuse());
        }
        (self.expression)(self.alloc, tokens, self.depth - 1, reach)
    }
}

/// An expression, or an operand of one, where this many more levels may be opened.
pub fn expression(
    alloc: Global,
    tokens: &mut Tokens<'_>,
    depth: usize,
    reach: Reach,
) -> Result<Expr, ParseFault>
    ensures { Reads (spec.expression depth reach (input_of tokens.old)) result (input_of tokens.new) }
{
    Grammar {
        alloc,
        depth,
        expression,
    }
    .reach(tokens, reach)
}

/// A whole expression.
pub fn whole(alloc: Global, tokens: &mut Tokens<'_>, depth: usize) -> Result<Expr, ParseFault>
    ensures { Reads (spec.whole depth (input_of tokens.old)) result (input_of tokens.new) }
{
    expression(alloc, tokens, depth, Reach::Whole)
}

/// A call behind its name; the next token is the `(`.
pub fn call_at(
    alloc: Global,
    tokens: &mut Tokens<'_>,
    depth: usize,
    name: Identifier,
) -> Result<Call<Expr>, ParseFault>
    ensures { Reads (spec.call_at depth name (input_of tokens.old)) result (input_of tokens.new) }
{
    Grammar {
        alloc,
        depth,
        expression,
    }
    .call(tokens, name)
}

/// A variable, an element or a member, behind its name.
pub fn spot_at(
    alloc: Global,
    tokens: &mut Tokens<'_>,
    depth: usize,
    name: Identifier,
) -> Result<SpotKind<Boxed<Expr>>, ParseFault>
    ensures { Reads (spec.spot_at depth name (input_of tokens.old)) result (input_of tokens.new) }
{
    Grammar {
        alloc,
        depth,
        expression,
    }
    .spot(tokens, name)
}

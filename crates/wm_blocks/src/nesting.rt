// The productions that hold statements take the reader of those as a parameter, so that each is proved by itself.
ghost use Rattle.std.specs.Prelude.{◌≡◌};
ghost use Rattle.wm_cursor.specs.Inputs.{Reads, input_of};
ghost use Rattle.wm_blocks.specs.Statements as spec;
ghost use Rattle.wm_blocks.specs.Holds.{Holds};

use std::alloc::Global;
use wm_cursor::{ParseFault, Tokens};
use wm_lang::{Block, Statement};

/// What the productions of a statement need.
#[derive(Clone, Copy)]
pub struct Nesting<F> {
    pub alloc: Global,
    /// How many more levels may be opened.
    pub depth: usize,
    pub statement: F,
}

impl<F: Fn(Global, &mut Tokens<'_>, usize) -> Result<Statement, ParseFault>> Nesting<F> {
    #[tactic(auto, unfolding(crate::specs::Statements::inner))]
    /// A statement with one more level open.
    pub fn inner(&self, tokens: &mut Tokens<'_>) -> Result<Statement, ParseFault>
        requires { Holds self.now.depth (F.pre self.now.statement) (F.post self.now.statement) }
        ensures { Reads (spec.inner self.now.depth (input_of tokens.old)) result (input_of tokens.new) }
    {
        if self.depth == 0 {
            return Err(tokens.refuse());
        }
        (self.statement)(self.alloc, tokens, self.depth - 1)
    }
}

/// A statement, where this many more levels may be opened.
pub fn statement(
    alloc: Global,
    tokens: &mut Tokens<'_>,
    depth: usize,
) -> Result<Statement, ParseFault>
    ensures { Reads (spec.statement depth (input_of tokens.old)) result (input_of tokens.new) }
{
    Nesting {
        alloc,
        depth,
        statement,
    }
    .any(tokens)
}

/// A block, where this many more levels may be opened.
pub fn block_at(
    alloc: Global,
    tokens: &mut Tokens<'_>,
    depth: usize,
) -> Result<Block<Statement>, ParseFault>
    ensures { Reads (spec.block_at depth (input_of tokens.old)) result (input_of tokens.new) }
{
    Nesting {
        alloc,
        depth,
        statement,
    }
    .block(tokens)
}

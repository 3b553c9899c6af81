// The productions of a statement.
ghost use Rattle.std.specs.Prelude.{◌≡◌, ◌-◌};
ghost use Rattle.wm_cursor.specs.Inputs.{Reads, input_of};
ghost use Rattle.wm_blocks.specs.Statements as spec;
ghost use Rattle.wm_blocks.specs.Holds.{Holds};

use crate::nesting::Nesting;
use sqlite_items::{Boxed, Items};
use std::alloc::Global;
use wm_cursor::{Lead, ParseFault, Tokens, else_of, is_declaration, lead_of};
use wm_declarations::declaration;
use wm_lang::{Block, BlockItem, Otherwise, Punct, Statement, Word};
use wm_simples::{condition, control, for_head, leap, returned, simple, tail, tested};

#[tactic(auto, unfolding(crate::specs::Statements::plain))]
/// An assignment, a step or a call, and the `;` behind it.
fn plain(alloc: Global, tokens: &mut Tokens<'_>, depth: usize) -> Result<Statement, ParseFault>
    ensures { Reads (spec.plain depth (input_of tokens.old)) result (input_of tokens.new) }
{
    let simple = simple(alloc, tokens, depth)?;
    tokens.expect(Punct::Semicolon)?;
    Ok(Statement::Simple(simple))
}

impl<F: Fn(Global, &mut Tokens<'_>, usize) -> Result<Statement, ParseFault>> Nesting<F> {
    #[tactic(auto, unfolding(crate::specs::Statements::otherwise))]
    /// The else of an if, if there is one: it belongs to the nearest if.
    fn otherwise(
        &self,
        tokens: &mut Tokens<'_>,
    ) -> Result<Option<Otherwise<Boxed<Statement>>>, ParseFault>
        requires { Holds self.now.depth (F.pre self.now.statement) (F.post self.now.statement) }
        ensures { Reads (spec.otherwise (spec.inner self.now.depth) (input_of tokens.old)) result (input_of tokens.new) }
    {
        match else_of(tokens.peek()) {
            None => Ok(None),
            Some(is_counted) => {
                let at = tokens.take();
                let body = Boxed::new(self.alloc, self.inner(tokens)?)?;
                Ok(Some(Otherwise {
                    word: Word { is_counted, at },
                    body,
                }))
            }
        }
    }

    #[tactic(auto, unfolding(crate::specs::Statements::branches))]
    /// The statement of an if, and its else.
    fn branches(
        &self,
        tokens: &mut Tokens<'_>,
    ) -> Result<(Boxed<Statement>, Option<Otherwise<Boxed<Statement>>>), ParseFault>
        requires { Holds self.now.depth (F.pre self.now.statement) (F.post self.now.statement) }
        ensures { Reads (spec.branches (spec.inner self.now.depth) (input_of tokens.old)) result (input_of tokens.new) }
    {
        let then = Boxed::new(self.alloc, self.inner(tokens)?)?;
        let otherwise = self.otherwise(tokens)?;
        Ok((then, otherwise))
    }

    #[tactic(auto, unfolding(crate::specs::Statements::conditional))]
    fn conditional(
        &self,
        tokens: &mut Tokens<'_>,
        is_counted: bool,
    ) -> Result<Statement, ParseFault>
        requires { Holds self.now.depth (F.pre self.now.statement) (F.post self.now.statement) }
        ensures { Reads (spec.conditional self.now.depth (spec.inner self.now.depth) is_counted (input_of tokens.old)) result (input_of tokens.new) }
    {
        let (word, condition) = tested(self.alloc, tokens, self.depth, is_counted)?;
        let (then, otherwise) = self.branches(tokens)?;
        Ok(Statement::If {
            word,
            condition,
            then,
            otherwise,
        })
    }

    #[tactic(auto, unfolding(crate::specs::Statements::for_loop))]
    fn for_loop(&self, tokens: &mut Tokens<'_>, is_counted: bool) -> Result<Statement, ParseFault>
        requires { Holds self.now.depth (F.pre self.now.statement) (F.post self.now.statement) }
        ensures { Reads (spec.for_loop self.now.depth (spec.inner self.now.depth) is_counted (input_of tokens.old)) result (input_of tokens.new) }
    {
        let word = control(tokens, self.depth, is_counted)?;
        let head = for_head(self.alloc, tokens, self.depth)?;
        let body = Boxed::new(self.alloc, self.inner(tokens)?)?;
        Ok(Statement::For {
            word,
            begin: head.begin,
            condition: head.condition,
            step: head.step,
            body,
        })
    }

    #[tactic(auto, unfolding(crate::specs::Statements::while_loop))]
    fn while_loop(&self, tokens: &mut Tokens<'_>, is_counted: bool) -> Result<Statement, ParseFault>
        requires { Holds self.now.depth (F.pre self.now.statement) (F.post self.now.statement) }
        ensures { Reads (spec.while_loop self.now.depth (spec.inner self.now.depth) is_counted (input_of tokens.old)) result (input_of tokens.new) }
    {
        let word = control(tokens, self.depth, is_counted)?;
        let condition = condition(self.alloc, tokens, self.depth)?;
        let body = Boxed::new(self.alloc, self.inner(tokens)?)?;
        Ok(Statement::While {
            word,
            condition,
            body,
        })
    }

    #[tactic(auto, unfolding(crate::specs::Statements::do_loop))]
    fn do_loop(&self, tokens: &mut Tokens<'_>, is_counted: bool) -> Result<Statement, ParseFault>
        requires { Holds self.now.depth (F.pre self.now.statement) (F.post self.now.statement) }
        ensures { Reads (spec.do_loop self.now.depth (spec.inner self.now.depth) is_counted (input_of tokens.old)) result (input_of tokens.new) }
    {
        let word = control(tokens, self.depth, is_counted)?;
        let body = Boxed::new(self.alloc, self.inner(tokens)?)?;
        let tail = tail(tokens)?;
        let condition = condition(self.alloc, tokens, self.depth)?;
        tokens.expect(Punct::Semicolon)?;
        Ok(Statement::Do {
            word,
            body,
            tail,
            condition,
        })
    }

    #[tactic(auto, unfolding(crate::specs::Statements::item))]
    /// What stands in a block: the levels that are left are those in front of the block.
    fn item(&self, tokens: &mut Tokens<'_>) -> Result<BlockItem<Statement>, ParseFault>
        requires { Holds self.now.depth (F.pre self.now.statement) (F.post self.now.statement) }
        ensures { Reads (spec.item self.now.depth (spec.inner self.now.depth) (input_of tokens.old)) result (input_of tokens.new) }
    {
        if is_declaration(tokens.peek()) {
            return Ok(BlockItem::Declaration(declaration(
                self.alloc,
                tokens,
                self.depth.saturating_sub(1),
            )?));
        }
        Ok(BlockItem::Statement(self.inner(tokens)?))
    }

    #[tactic(auto, unfolding(crate::specs::Statements::items))]
    /// What stands in a block, up to the `}`.
    fn items(&self, tokens: &mut Tokens<'_>) -> Result<Items<BlockItem<Statement>>, ParseFault>
        requires { Holds self.now.depth (F.pre self.now.statement) (F.post self.now.statement) }
        ensures { Reads (spec.items self.now.depth (spec.inner self.now.depth) (input_of tokens.old)) result (input_of tokens.new) }
    {
        // Blocks inside one another mostly hold one item each.
        let mut found = Items::from_vec(Vec::with_capacity(self.alloc, 1)?);
        for _turn in 0..tokens.count() {
            if tokens.sees(Punct::RightBrace) {
                return Ok(found);
            }
            found.push(self.item(tokens)?)?;
        }
        Ok(found)
    }

    #[tactic(auto, unfolding(crate::specs::Statements::block))]
    /// A block, of which the next token is the `{`.
    pub fn block(&self, tokens: &mut Tokens<'_>) -> Result<Block<Statement>, ParseFault>
        requires { Holds self.now.depth (F.pre self.now.statement) (F.post self.now.statement) }
        ensures { Reads (spec.block self.now.depth (spec.inner self.now.depth) (input_of tokens.old)) result (input_of tokens.new) }
    {
        let first = tokens.enter(self.depth)?;
        let items = self.items(tokens)?;
        let last = tokens.expect(Punct::RightBrace)?;
        Ok(Block { first, items, last })
    }

    #[tactic(auto, unfolding(crate::specs::Statements::any))]
    /// A statement.
    pub fn any(&self, tokens: &mut Tokens<'_>) -> Result<Statement, ParseFault>
        requires { Holds self.now.depth (F.pre self.now.statement) (F.post self.now.statement) }
        ensures { Reads (spec.any self.now.depth (spec.inner self.now.depth) (input_of tokens.old)) result (input_of tokens.new) }
    {
        match lead_of(tokens.peek()) {
            Lead::Block => Ok(Statement::Block(self.block(tokens)?)),
            Lead::Empty => {
                let at = tokens.take();
                Ok(Statement::Empty { at })
            }
            Lead::If(is_counted) => self.conditional(tokens, is_counted),
            Lead::For(is_counted) => self.for_loop(tokens, is_counted),
            Lead::While(is_counted) => self.while_loop(tokens, is_counted),
            Lead::Do(is_counted) => self.do_loop(tokens, is_counted),
            Lead::Break(is_counted) => {
                let word = leap(tokens, is_counted)?;
                Ok(Statement::Break { word })
            }
            Lead::Continue(is_counted) => {
                let word = leap(tokens, is_counted)?;
                Ok(Statement::Continue { word })
            }
            Lead::Return => returned(self.alloc, tokens, self.depth),
            Lead::Other => plain(self.alloc, tokens, self.depth),
        }
    }
}

// The productions of an expression, from the operands up to the chains of operators.
ghost use Rattle.std.specs.Prelude.{◌≡◌, ◌≤◌};
ghost use Rattle.wm_cursor.specs.Inputs.{Reads, input_of};
ghost use Rattle.wm_cursor.specs.Operators.{binary_at};
ghost use Rattle.wm_expressions.specs.Expressions as spec;
ghost use Rattle.wm_expressions.specs.Nests.{Nests};

use crate::chain::joined;
use crate::grammar::{Grammar, Reach};
use sqlite_items::{Boxed, Items};
use std::alloc::Global;
use wm_cursor::{Joint, Next, ParseFault, Start, Tokens, base_of, binary_of, joint_of, start_of};
use wm_lang::{
    BaseType, Call, Expr, Identifier, MemberMark, Position, Punct, Spot, SpotKind, UnaryMark,
};

#[tactic(auto, unfolding(crate::specs::Expressions::pointed))]
/// `*p`, of which the next token is the `*`.
pub fn pointed(alloc: Global, tokens: &mut Tokens<'_>) -> Result<Spot<Boxed<Expr>>, ParseFault>
    ensures { Reads (spec.pointed (input_of tokens.old)) result (input_of tokens.new) }
{
    let star = tokens.take();
    let name = tokens.identifier(alloc)?;
    Ok(Spot {
        at: star,
        kind: SpotKind::Pointed { star, name },
    })
}

/// Whether a mark stands between two operands as an operator.
fn is_between(mark: Punct) -> bool
    ensures { result ≡ spec.is_binary (binary_at mark) }
{
    match mark {
        Punct::Or => true,
        Punct::And => true,
        Punct::Equal => true,
        Punct::NotEqual => true,
        Punct::Less => true,
        Punct::LessEqual => true,
        Punct::Greater => true,
        Punct::GreaterEqual => true,
        Punct::Plus => true,
        Punct::Minus => true,
        Punct::Star => true,
        Punct::Slash => true,
        _ => false,
    }
}

/// Whether an operator between two operands comes next.
#[tactic(auto, unfolding(crate::specs::Expressions::is_operator))]
fn is_operator(next: Next) -> bool
    ensures { result ≡ spec.is_operator next }
{
    match next {
        Next::End => false,
        Next::Name => false,
        Next::Number(_) => false,
        Next::Key(_) => false,
        Next::Mark(mark) => is_between(mark),
    }
}

impl<F: Fn(Global, &mut Tokens<'_>, usize, Reach) -> Result<Expr, ParseFault>> Grammar<F> {
    #[tactic(auto, unfolding(crate::specs::Expressions::bracketed))]
    /// `[ index ]`, of which the next token is the `[`.
    fn bracketed(&self, tokens: &mut Tokens<'_>) -> Result<(Position, Boxed<Expr>), ParseFault>
        requires { Nests self.now.depth (F.pre self.now.expression) (F.post self.now.expression) }
        ensures { Reads (spec.bracketed self.now.depth (spec.deeper self.now.depth) (input_of tokens.old)) result (input_of tokens.new) }
    {
        let bracket = tokens.enter(self.depth)?;
        let index = self.deeper(tokens, Reach::Whole)?;
        tokens.expect(Punct::RightBracket)?;
        Ok((bracket, Boxed::new(self.alloc, index)?))
    }

    #[tactic(auto, unfolding(crate::specs::Expressions::member))]
    /// What stands behind the mark of a member.
    fn member(
        &self,
        tokens: &mut Tokens<'_>,
        object: Identifier,
        mark: MemberMark,
        mark_at: Position,
    ) -> Result<SpotKind<Boxed<Expr>>, ParseFault>
        requires { Nests self.now.depth (F.pre self.now.expression) (F.post self.now.expression) }
        ensures { Reads (spec.member self.now.depth (spec.deeper self.now.depth) object mark mark_at (input_of tokens.old)) result (input_of tokens.new) }
    {
        let member = tokens.identifier(self.alloc)?;
        if !tokens.sees(Punct::LeftBracket) {
            return Ok(SpotKind::Member {
                object,
                mark,
                mark_at,
                member,
            });
        }
        let (bracket, index) = self.bracketed(tokens)?;
        Ok(SpotKind::MemberElement {
            object,
            mark,
            mark_at,
            member,
            bracket,
            index,
        })
    }

    #[tactic(auto, unfolding(crate::specs::Expressions::element))]
    /// An element of an array, behind its name.
    fn element(
        &self,
        tokens: &mut Tokens<'_>,
        name: Identifier,
    ) -> Result<SpotKind<Boxed<Expr>>, ParseFault>
        requires { Nests self.now.depth (F.pre self.now.expression) (F.post self.now.expression) }
        ensures { Reads (spec.element self.now.depth (spec.deeper self.now.depth) name (input_of tokens.old)) result (input_of tokens.new) }
    {
        let (bracket, index) = self.bracketed(tokens)?;
        Ok(SpotKind::Element {
            name,
            bracket,
            index,
        })
    }

    #[tactic(auto, unfolding(crate::specs::Expressions::spot))]
    /// A variable, an element or a member, behind its name.
    pub fn spot(
        &self,
        tokens: &mut Tokens<'_>,
        name: Identifier,
    ) -> Result<SpotKind<Boxed<Expr>>, ParseFault>
        requires { Nests self.now.depth (F.pre self.now.expression) (F.post self.now.expression) }
        ensures { Reads (spec.spot self.now.depth (spec.deeper self.now.depth) name (input_of tokens.old)) result (input_of tokens.new) }
    {
        match joint_of(tokens.peek()) {
            Joint::Bracket => self.element(tokens, name),
            Joint::Member(mark) => {
                let mark_at = tokens.take();
                self.member(tokens, name, mark, mark_at)
            }
            Joint::Other => Ok(SpotKind::Scalar { name }),
        }
    }

    #[tactic(auto, unfolding(crate::specs::Expressions::list))]
    /// Expressions with commas between them, at least one.
    fn list(&self, tokens: &mut Tokens<'_>) -> Result<Items<Expr>, ParseFault>
        requires { Nests self.now.depth (F.pre self.now.expression) (F.post self.now.expression) }
        ensures { Reads (spec.list (spec.deeper self.now.depth) (input_of tokens.old)) result (input_of tokens.new) }
    {
        let mut found = Items::new(self.alloc);
        found.push(self.deeper(tokens, Reach::Whole)?)?;
        for _turn in 0..tokens.count() {
            if !tokens.eat(Punct::Comma) {
                return Ok(found);
            }
            found.push(self.deeper(tokens, Reach::Whole)?)?;
        }
        Ok(found)
    }

    #[tactic(auto, unfolding(crate::specs::Expressions::arguments))]
    /// The arguments of a call, and the `)` behind them.
    fn arguments(&self, tokens: &mut Tokens<'_>) -> Result<Items<Expr>, ParseFault>
        requires { Nests self.now.depth (F.pre self.now.expression) (F.post self.now.expression) }
        ensures { Reads (spec.arguments (spec.deeper self.now.depth) (input_of tokens.old)) result (input_of tokens.new) }
    {
        if tokens.eat(Punct::RightParenthesis) {
            return Ok(Items::new(self.alloc));
        }
        let found = self.list(tokens)?;
        tokens.expect(Punct::RightParenthesis)?;
        Ok(found)
    }

    #[tactic(auto, unfolding(crate::specs::Expressions::call))]
    /// A call behind its name; the next token is the `(`.
    pub fn call(&self, tokens: &mut Tokens<'_>, name: Identifier) -> Result<Call<Expr>, ParseFault>
        requires { Nests self.now.depth (F.pre self.now.expression) (F.post self.now.expression) }
        ensures { Reads (spec.call self.now.depth (spec.deeper self.now.depth) name (input_of tokens.old)) result (input_of tokens.new) }
    {
        tokens.enter(self.depth)?;
        let arguments = self.arguments(tokens)?;
        Ok(Call { name, arguments })
    }

    #[tactic(auto, unfolding(crate::specs::Expressions::named))]
    /// A call, or what an expression reads by its name.
    fn named(&self, tokens: &mut Tokens<'_>) -> Result<Expr, ParseFault>
        requires { Nests self.now.depth (F.pre self.now.expression) (F.post self.now.expression) }
        ensures { Reads (spec.named self.now.depth (spec.deeper self.now.depth) (input_of tokens.old)) result (input_of tokens.new) }
    {
        let name = tokens.identifier(self.alloc)?;
        if tokens.sees(Punct::LeftParenthesis) {
            return Ok(Expr::Call(self.call(tokens, name)?));
        }
        let at = name.at;
        let kind = self.spot(tokens, name)?;
        Ok(Expr::Spot(Spot { at, kind }))
    }

    #[tactic(auto, unfolding(crate::specs::Expressions::address))]
    /// `&` and what has the address.
    fn address(&self, tokens: &mut Tokens<'_>) -> Result<Expr, ParseFault>
        requires { Nests self.now.depth (F.pre self.now.expression) (F.post self.now.expression) }
        ensures { Reads (spec.address self.now.depth (spec.deeper self.now.depth) (input_of tokens.old)) result (input_of tokens.new) }
    {
        let at = tokens.take();
        let name = tokens.identifier(self.alloc)?;
        let first = name.at;
        let kind = self.spot(tokens, name)?;
        Ok(Expr::Address {
            at,
            spot: Spot { at: first, kind },
        })
    }

    #[tactic(auto, unfolding(crate::specs::Expressions::signed))]
    /// A sign and its operand.
    fn signed(&self, tokens: &mut Tokens<'_>, mark: UnaryMark) -> Result<Expr, ParseFault>
        requires { Nests self.now.depth (F.pre self.now.expression) (F.post self.now.expression) }
        ensures { Reads (spec.signed self.now.depth (spec.deeper self.now.depth) mark (input_of tokens.old)) result (input_of tokens.new) }
    {
        let at = tokens.enter(self.depth)?;
        let operand = Boxed::new(self.alloc, self.deeper(tokens, Reach::Operand)?)?;
        Ok(Expr::Unary { mark, at, operand })
    }

    #[tactic(auto, unfolding(crate::specs::Expressions::cast))]
    /// A cast behind its `(`; the next token is its type. It opens a second level, which the `)` leaves open.
    fn cast(&self, tokens: &mut Tokens<'_>, at: Position, to: BaseType) -> Result<Expr, ParseFault>
        requires { Nests self.now.depth (F.pre self.now.expression) (F.post self.now.expression) }
        ensures { Reads (spec.cast self.now.depth (spec.deeper self.now.depth) at to (input_of tokens.old)) result (input_of tokens.new) }
    {
        if self.depth < 2 {
            return Err(tokens.refuse());
        }
        tokens.take();
        tokens.expect(Punct::RightParenthesis)?;
        let operand = Boxed::new(self.alloc, self.deeper(tokens, Reach::Operand)?)?;
        Ok(Expr::Cast { at, to, operand })
    }

    #[tactic(auto, unfolding(crate::specs::Expressions::enclosed))]
    /// An expression in parentheses, behind the `(`.
    fn enclosed(&self, tokens: &mut Tokens<'_>, at: Position) -> Result<Expr, ParseFault>
        requires { Nests self.now.depth (F.pre self.now.expression) (F.post self.now.expression) }
        ensures { Reads (spec.enclosed (spec.deeper self.now.depth) at (input_of tokens.old)) result (input_of tokens.new) }
    {
        let inner = Boxed::new(self.alloc, self.deeper(tokens, Reach::Whole)?)?;
        tokens.expect(Punct::RightParenthesis)?;
        Ok(Expr::Parenthesis { at, inner })
    }

    #[tactic(auto, unfolding(crate::specs::Expressions::parenthesized))]
    /// A cast, or an expression in parentheses.
    fn parenthesized(&self, tokens: &mut Tokens<'_>) -> Result<Expr, ParseFault>
        requires { Nests self.now.depth (F.pre self.now.expression) (F.post self.now.expression) }
        ensures { Reads (spec.parenthesized self.now.depth (spec.deeper self.now.depth) (input_of tokens.old)) result (input_of tokens.new) }
    {
        let at = tokens.enter(self.depth)?;
        match base_of(tokens.peek()) {
            Some(to) => self.cast(tokens, at, to),
            None => self.enclosed(tokens, at),
        }
    }

    #[tactic(auto, unfolding(crate::specs::Expressions::operand))]
    /// One operand, with the signs and casts before it.
    fn operand(&self, tokens: &mut Tokens<'_>) -> Result<Expr, ParseFault>
        requires { Nests self.now.depth (F.pre self.now.expression) (F.post self.now.expression) }
        ensures { Reads (spec.operand self.now.depth (spec.deeper self.now.depth) (input_of tokens.old)) result (input_of tokens.new) }
    {
        match start_of(tokens.peek()) {
            Start::Sign(mark) => self.signed(tokens, mark),
            Start::Parenthesis => self.parenthesized(tokens),
            Start::Star => Ok(Expr::Spot(pointed(self.alloc, tokens)?)),
            Start::Ampersand => self.address(tokens),
            Start::Name => self.named(tokens),
            Start::Number(value) => {
                let at = tokens.take();
                Ok(Expr::Number { at, value })
            }
            Start::Other => Err(tokens.refuse()),
        }
    }

    /// A chain of operators of this level; level 0 is one operand.
    fn level(&self, tokens: &mut Tokens<'_>, level: u8) -> Result<Expr, ParseFault>
        requires { Nests self.now.depth (F.pre self.now.expression) (F.post self.now.expression) }
        ensures { Reads (spec.level self.now.depth (spec.deeper self.now.depth) level (input_of tokens.old)) result (input_of tokens.new) }
    {
        if level == 0 {
            return self.operand(tokens);
        }
        let start = tokens.position();
        let mut whole = self.level(tokens, level - 1)?;
        for _turn in 0..tokens.count() {
            let Some(binary) = binary_of(level, tokens.peek()) else {
                return Ok(whole);
            };
            let at = tokens.take();
            let operand = self.level(tokens, level - 1)?;
            whole = joined(self.alloc, start, whole, binary, at, operand)?;
        }
        Ok(whole)
    }

    /// The operators of the levels up to this one, behind a first operand.
    fn behind(
        &self,
        tokens: &mut Tokens<'_>,
        level: u8,
        start: Position,
        first: Expr,
    ) -> Result<Expr, ParseFault>
        requires { Nests self.now.depth (F.pre self.now.expression) (F.post self.now.expression) }
        ensures { Reads (spec.behind_first self.now.depth (spec.deeper self.now.depth) level start first (input_of tokens.old)) result (input_of tokens.new) }
    {
        if level == 0 {
            return Ok(first);
        }
        let mut whole = self.behind(tokens, level - 1, start, first)?;
        for _turn in 0..tokens.count() {
            let Some(binary) = binary_of(level, tokens.peek()) else {
                return Ok(whole);
            };
            let at = tokens.take();
            let operand = self.level(tokens, level - 1)?;
            whole = joined(self.alloc, start, whole, binary, at, operand)?;
        }
        Ok(whole)
    }

    /// A whole expression. Most are one operand, behind which no operator comes; these need no level.
    fn chained(&self, tokens: &mut Tokens<'_>) -> Result<Expr, ParseFault>
        requires { Nests self.now.depth (F.pre self.now.expression) (F.post self.now.expression) }
        ensures { Reads (spec.level self.now.depth (spec.deeper self.now.depth) 6 (input_of tokens.old)) result (input_of tokens.new) }
    {
        let start = tokens.position();
        let first = self.operand(tokens)?;
        if !is_operator(tokens.peek()) {
            return Ok(first);
        }
        self.behind(tokens, 6, start, first)
    }

    /// A whole expression, or one operand.
    pub fn reach(&self, tokens: &mut Tokens<'_>, reach: Reach) -> Result<Expr, ParseFault>
        requires { Nests self.now.depth (F.pre self.now.expression) (F.post self.now.expression) }
        ensures { Reads (spec.reached self.now.depth (spec.deeper self.now.depth) reach (input_of tokens.old)) result (input_of tokens.new) }
    {
        match reach {
            Reach::Whole => self.chained(tokens),
            Reach::Operand => self.operand(tokens),
        }
    }
}

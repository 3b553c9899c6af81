// The members of structs.
ghost use Rattle.std.specs.Prelude.{◌≡◌};
ghost use Rattle.std.specs.Option.{option_copied};
ghost use Rattle.wm_members.specs.Members.{scalar_member, array_member};

use std::marker::Model;
use wm_lang::{BaseType, Expr, Identifier, Position};

/// A member of a struct, a scalar or an array, which contracts see without where it lies.
#[derive(Drop)]
pub struct Member<'u> {
    name: &'u Identifier,
    base: BaseType,
    /// None for a scalar.
    bracket: Option<Position>,
    /// None for a scalar.
    length: Option<&'u Expr>,
}

impl<'u> Model for Member<'u> {
    ghost use Rattle.wm_members.specs.Members.{StructMember};
    ghost use Rattle.std.specs.Coded.{codes};
    ghost use Rattle.std.specs.Option.{option_copied};
    ghost use Rattle.wm_lang.specs.contracts.expression.Expr as expr;

    ghost Value = { StructMember };

    ghost coded = { Prim.hlevel (codes, expr.the_row.coded) };

    ghost view = { λ member. record { name = member.name.now; base = member.base; bracket = member.bracket; length = option_copied member.length } };
}

impl<'u> Member<'u> {
    /// A scalar.
    pub fn scalar(name: &'u Identifier, base: BaseType) -> Member<'u>
        ensures member { result ≡ scalar_member name.now base }
    {
        Member {
            name,
            base,
            bracket: None,
            length: None,
        }
    }

    /// An array.
    pub fn array(
        name: &'u Identifier,
        base: BaseType,
        bracket: Position,
        length: &'u Expr,
    ) -> Member<'u>
        ensures member { result ≡ array_member name.now base bracket length.now }
    {
        Member {
            name,
            base,
            bracket: Some(bracket),
            length: Some(length),
        }
    }

    /// The same member.
    pub fn copied(&self) -> Member<'u>
        ensures same { result ≡ self.now }
    {
        Member {
            name: self.name,
            base: self.base,
            bracket: self.bracket,
            length: self.length,
        }
    }

    pub fn name(&self) -> &'u Identifier
        ensures name { result.now ≡ self.now.name }
    {
        self.name
    }

    pub fn base(&self) -> BaseType
        ensures base { result ≡ self.now.base }
    {
        self.base
    }

    /// Where the bracket of an array stands.
    pub fn bracket(&self) -> Option<Position>
        ensures bracket { result ≡ self.now.bracket }
    {
        self.bracket
    }

    /// The length of an array.
    pub fn length(&self) -> Option<&'u Expr>
        ensures length { option_copied result ≡ self.now.length }
    {
        self.length
    }
}

// All tokens of a list.
ghost use Rattle.std.specs.Prelude.{◌≡◌};
ghost use Rattle.wm_cursor.specs.Inputs.{Reads, input_of};
ghost use Rattle.wm_parse.specs.Units as spec;

use crate::item::item;
use std::alloc::Global;
use wm_cursor::{ParseFault, Tokens};
use wm_lang::{Item, Token, Unit};
use wm_ops::List;

#[tactic(auto, unfolding(crate::specs::Units::items))]
/// Items up to the last token.
fn items(alloc: Global, tokens: &mut Tokens<'_>) -> Result<List<Item>, ParseFault>
    ensures { Reads (spec.items (input_of tokens.old)) result (input_of tokens.new) }
{
    let mut found = List::new(alloc);
    for _turn in 0..tokens.count() {
        if tokens.count() == 0 {
            return Ok(found);
        }
        found.push(item(alloc, tokens)?)?;
    }
    Ok(found)
}

#[tactic(auto, unfolding(crate::specs::Units::unit_of))]
/// The unit that the tokens are, by the grammar of the profile: C99 6.5 to 6.9 without what the profile leaves out, with at
/// most 64 levels open at any token.
///
/// Where they are no unit the answer is `Syntax`, with the first token such that the tokens through it begin no unit, or the
/// number of tokens where all of them begin one.
pub fn parse(alloc: Global, tokens: &[Token]) -> Result<Unit, ParseFault>
    ensures unit { spec.Gives result (spec.unit_of tokens.now) }
{
    let mut left = Tokens::new(tokens);
    let items = items(alloc, &mut left)?;
    if left.count() != 0 {
        return Err(left.refuse());
    }
    Ok(Unit { items })
}

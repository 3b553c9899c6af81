// The expansion of a whole unit.
ghost use Rattle.wm_members.specs.Faults.{Answers};
ghost use Rattle.wm_struct.specs.Items.{expansion_of};

use crate::item::add_items;
use crate::names::declare_items;
use std::alloc::Global;
use wm_lang::Unit;
use wm_members::{State, StructFault};

fn expanded(unit: &Unit, alloc: Global) -> Result<Unit, StructFault>
    ensures expansion { Answers result (expansion_of unit.now) }
{
    let mut state = State::new(alloc);
    declare_items(unit.items.items(), &mut state, alloc)?;
    let items = add_items(unit.items.items(), &mut state, alloc)?;
    match state.least {
        None => Ok(Unit { items }),
        Some(found) => Err(found.fault()),
    }
}

/// The unit without the forms of structs, or the struct fault at the least token, at one token the first in their order. A struct
/// object is one object for each member, in their order and named `v.m`; a struct parameter is one view parameter for each member;
/// what declares nothing is left out. The nodes keep the tokens and places of what they stand for. On a refusal the unit is given up.
pub fn expand(alloc: Global, unit: Unit) -> Result<Unit, StructFault>
    ensures expansion { Answers result (expansion_of unit) }
{
    expanded(&unit, alloc)
}

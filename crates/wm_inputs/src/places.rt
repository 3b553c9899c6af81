// Where functions are defined.
ghost use Rattle.std.specs.Prelude.{◌≡◌, OnOk, IfOk};
ghost use Rattle.wm_inputs.specs.Definitions.{definition_of, with_definition, definitions_in};

use std::alloc::Global;
use wm_lang::{Item, Position, Unit};
use wm_ops::{List, NoMemory};

/// The place of the name of a function that has a block.
fn definition_of(item: &Item) -> Option<Position>
    ensures { result ≡ definition_of item.now }
{
    match item {
        Item::Function(function) => match &function.body {
            Some(_) => Some(function.name.at),
            None => None,
        },
        Item::Objects(_) => None,
        Item::Struct(_) => None,
        Item::StructObjects(_) => None,
    }
}

fn push_definition(places: &mut List<Position>, at: Option<Position>) -> Result<(), NoMemory>
    ensures { OnOk result (places.new ≡ with_definition at places.old) }
{
    match at {
        None => Ok(()),
        Some(at) => places.push(at),
    }
}

/// Where the names of the functions that have a block stand at their definitions, in the order of the source.
#[tactic(auto, unfolding(crate::specs::Definitions::definitions_in))]
pub fn definitions(alloc: Global, unit: &Unit) -> Result<List<Position>, NoMemory>
    ensures definitions { IfOk result (λ places. places ≡ definitions_in unit.now.items) }
{
    let mut places = List::new(alloc);
    for item in unit.items.items() {
        push_definition(&mut places, definition_of(item))?;
    }
    Ok(places)
}

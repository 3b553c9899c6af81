// The different numbers of the number tokens of all function bodies, in growing order.
ghost use Rattle.std.specs.Prelude.{◌≡◌, [], OnOk, IfOk};
ghost use Rattle.std.specs.BTreeSet.{insert_key};
ghost use Rattle.std.specs.Ordering.{int_cmp};
ghost use Rattle.wm_instances.specs.Constants.{numbers_of_item, numbers_from, sorted_from, constants_of};

use std::alloc::Global;
use std::collections::BTreeSet;
use wm_lang::{Item, Unit};
use wm_ops::{List, NoMemory};
use wm_source::body_numbers;

/// Puts the numbers of a function's body at the end.
fn item_numbers(item: &Item, seen: &mut List<i64>) -> Result<(), NoMemory>
    ensures { OnOk result (seen.new ≡ numbers_of_item item.now seen.old) }
{
    match item {
        Item::Function(function) => match &function.body {
            Some(block) => body_numbers(&block.items, seen),
            None => Ok(()),
        },
        Item::Objects(_) => Ok(()),
        Item::Struct(_) => Ok(()),
        Item::StructObjects(_) => Ok(()),
    }
}

fn all_numbers(alloc: Global, unit: &Unit) -> Result<List<i64>, NoMemory>
    ensures { IfOk result (λ seen. seen ≡ numbers_from unit.now.items []) }
{
    let mut seen = List::new(alloc);
    for item in unit.items.items() {
        item_numbers(item, &mut seen)?;
    }
    Ok(seen)
}

fn insert(sorted: &mut BTreeSet<i64>, number: i64) -> Result<(), NoMemory>
    ensures { OnOk result (sorted.new.keys ≡ insert_key int_cmp sorted.old.keys number) }
{
    sorted.insert(number)?;
    Ok(())
}

/// The different numbers.
fn sorted(alloc: Global, numbers: &[i64]) -> Result<BTreeSet<i64>, NoMemory>
    ensures { IfOk result (λ sorted. sorted.keys ≡ sorted_from numbers.now []) }
{
    let mut sorted = BTreeSet::new(alloc);
    for number in numbers {
        insert(&mut sorted, *number)?;
    }
    Ok(sorted)
}

fn keys_of(alloc: Global, sorted: &BTreeSet<i64>) -> Result<Vec<i64>, NoMemory>
    ensures { IfOk result (λ keys. keys.items ≡ sorted.now.keys) }
{
    let keys = sorted.iter().copied().collect(alloc)?;
    Ok(keys)
}

fn listed(alloc: Global, numbers: &[i64]) -> Result<List<i64>, NoMemory>
    ensures { IfOk result (λ list. list ≡ numbers.now) }
{
    let mut list = List::new(alloc);
    for number in numbers {
        list.push(*number)?;
    }
    Ok(list)
}

/// The different numbers of the number tokens of all function bodies, in growing order.
#[tactic(auto, unfolding(crate::specs::Constants::constants_of))]
pub fn distinct_constants(alloc: Global, unit: &Unit) -> Result<List<i64>, NoMemory>
    ensures constants { IfOk result (λ constants. constants ≡ constants_of unit.now.items) }
{
    let numbers = all_numbers(alloc, unit)?;
    let sorted = sorted(alloc, numbers.items())?;
    let keys = keys_of(alloc, &sorted)?;
    listed(alloc, keys.as_slice())
}

// The variables between.
ghost use Rattle.std.specs.Prelude.{◌≡◌, ◌<◌, ◌≤◌, ◌^◌, ℕ, Some, None, slice_index_or, All, length, IfOk, OnOk, MatchOption};
ghost use Rattle.wm_domain.specs.Changes.{ArePicks};
ghost use Rattle.wm_domain.specs.Forms.{IsForm};
ghost use Rattle.wm_middle.specs.Parting.{AreParts, IsApart, IsArgument};
ghost use Rattle.wm_middle.specs.declared.parts.Part.TheVariants.{Caller};

use crate::parts::{Part, add, add_single};
use std::alloc::Global;
use wm_domain::Form;
use wm_flow::Argument;
use wm_ops::NoMemory;

/// From where the variables and arrays of the callee come, and its parameters with their arguments.
#[derive(Clone, Copy)]
pub struct Call<'g> {
    pub picks: &'g [Option<u32>],
    pub arrays: &'g [Option<u32>],
    pub arguments: &'g [Argument],
}

/// The variables of the shape: so many in its group, the others singles.
#[derive(Drop)]
pub struct Middle {
    pub parts: Vec<Part>,
    pub group: usize,
}

// the variable that the value of a form follows: the one that it has or, of two, the first with the plus sign
fn followed(f: &Form) -> Option<u32>
    ensures { (n : ℕ) → IsForm n f.now → MatchOption result (Unit {0}) (λ v. v < n) }
{
    match f.terms.items().split_first() {
        None => None,
        Some((t, rest)) => match rest.split_first() {
            None => Some(t.variable),
            Some((u, _more)) => {
                if !t.negative {
                    return Some(t.variable);
                }
                if !u.negative {
                    return Some(u.variable);
                }
                None
            }
        },
    }
}

// a variable of the caller, where there is one
fn add_pick(parts: &mut Vec<Part>, pick: Option<u32>, most: u32) -> Result<(), NoMemory>
    requires few { length parts.old.items ≤ most }
    ensures more { OnOk result (length parts.old.items ≤ length parts.new.items) }
    ensures few { OnOk result (length parts.new.items ≤ most) }
    ensures good { OnOk result ((n m : ℕ) → MatchOption pick (Unit {0}) (λ v. v < n) → AreParts n m most parts.old.items → AreParts n m most parts.new.items) }
{
    match pick {
        None => Ok(()),
        Some(v) => add(parts, Part::Caller(v), most),
    }
}

// the variables that the places from one to another come from
fn add_picked(
    parts: &mut Vec<Part>,
    picks: &[Option<u32>],
    first: usize,
    end: usize,
    most: u32,
) -> Result<(), NoMemory>
    requires few { length parts.old.items ≤ most }
    requires inside { end ≤ length picks.now }
    ensures more { OnOk result (length parts.old.items ≤ length parts.new.items) }
    ensures few { OnOk result (length parts.new.items ≤ most) }
    ensures good { OnOk result ((n m : ℕ) → ArePicks n picks.now → AreParts n m most parts.old.items → AreParts n m most parts.new.items) }
{
    for k in first..end {
        add_pick(parts, picks[k], most)?;
    }
    Ok(())
}

// a variable of the caller, where there is one and none of the first so many parts is it
fn add_single_pick(
    parts: &mut Vec<Part>,
    pick: Option<u32>,
    count: usize,
    most: u32,
) -> Result<(), NoMemory>
    requires few { length parts.old.items ≤ most }
    requires inside { count ≤ length parts.old.items }
    ensures more { OnOk result (length parts.old.items ≤ length parts.new.items) }
    ensures few { OnOk result (length parts.new.items ≤ most) }
    ensures apart { OnOk result ((w : ℕ) → (pick ≡ Some w → ⊥) → IsApart count parts.old.items (Caller w) → IsApart count parts.new.items (Caller w)) }
    ensures good { OnOk result ((n m : ℕ) → MatchOption pick (Unit {0}) (λ v. (v < n) × IsApart count parts.old.items (Caller v)) → AreParts n m most parts.old.items → AreParts n m most parts.new.items) }
{
    match pick {
        None => Ok(()),
        Some(v) => add_single(parts, Part::Caller(v), count, most),
    }
}

// the variables that the places from one on come from, where they are not in the group: as each is picked once, none of the
// singles before is it
fn add_singles(
    parts: &mut Vec<Part>,
    picks: &[Option<u32>],
    first: usize,
    most: u32,
) -> Result<(), NoMemory>
    requires few { length parts.old.items ≤ most }
    ensures more { OnOk result (length parts.old.items ≤ length parts.new.items) }
    ensures good { OnOk result ((n m : ℕ) → ArePicks n picks.now → AreParts n m most parts.old.items → AreParts n m most parts.new.items) }
{
    let count = parts.len();
    for k in first..picks.len() {
        add_single_pick(parts, picks[k], count, most)?;
    }
    Ok(())
}

// a variable that a parameter of the group follows
fn add_followed(parts: &mut Vec<Part>, it: &Argument, group: usize) -> Result<(), NoMemory>
    requires few { length parts.old.items ≤ 32 }
    ensures more { OnOk result (length parts.old.items ≤ length parts.new.items) }
    ensures few { OnOk result (length parts.new.items ≤ 32) }
    ensures good { OnOk result ((n m : ℕ) → IsArgument n m it.now → AreParts n m 32 parts.old.items → AreParts n m 32 parts.new.items) }
{
    if it.parameter as usize >= group {
        return Ok(());
    }
    add_pick(parts, followed(&it.form), 32)
}

// a parameter of the group
fn add_parameter(parts: &mut Vec<Part>, it: &Argument, group: usize) -> Result<(), NoMemory>
    requires few { length parts.old.items ≤ 32 }
    ensures more { OnOk result (length parts.old.items ≤ length parts.new.items) }
    ensures few { OnOk result (length parts.new.items ≤ 32) }
    ensures good { OnOk result ((n m : ℕ) → IsArgument n m it.now → AreParts n m 32 parts.old.items → AreParts n m 32 parts.new.items) }
{
    if it.parameter as usize >= group {
        return Ok(());
    }
    add(parts, Part::Parameter(it.parameter), 32)
}

// what the parameters of the group follow
fn add_all_followed(
    parts: &mut Vec<Part>,
    arguments: &[Argument],
    group: usize,
) -> Result<(), NoMemory>
    requires few { length parts.old.items ≤ 32 }
    ensures few { OnOk result (length parts.new.items ≤ 32) }
    ensures good { OnOk result ((n m : ℕ) → All (IsArgument n m) arguments.now → AreParts n m 32 parts.old.items → AreParts n m 32 parts.new.items) }
{
    for k in 0..arguments.len() {
        add_followed(parts, &arguments[k], group)?;
    }
    Ok(())
}

// the parameters of the group
fn add_all_parameters(
    parts: &mut Vec<Part>,
    arguments: &[Argument],
    group: usize,
) -> Result<(), NoMemory>
    requires few { length parts.old.items ≤ 32 }
    ensures few { OnOk result (length parts.new.items ≤ 32) }
    ensures good { OnOk result ((n m : ℕ) → All (IsArgument n m) arguments.now → AreParts n m 32 parts.old.items → AreParts n m 32 parts.new.items) }
{
    for k in 0..arguments.len() {
        add_parameter(parts, &arguments[k], group)?;
    }
    Ok(())
}

// the variables of the group
fn related(alloc: Global, call: &Call, group: usize) -> Result<Vec<Part>, NoMemory>
    ensures few { IfOk result (λ parts. length parts.items ≤ 32) }
    ensures good { IfOk result (λ parts. (n m : ℕ) → ArePicks n call.now.picks.now → All (IsArgument n m) call.now.arguments.now → AreParts n m 32 parts.items) }
{
    let mut parts = Vec::new(alloc);
    let end = group.min(call.picks.len());
    add_picked(&mut parts, call.picks, 0, end, 32)?;
    add_all_followed(&mut parts, call.arguments, group)?;
    add_all_parameters(&mut parts, call.arguments, group)?;
    Ok(parts)
}

/// The state scalars of the callee's group, which has this size, the variables that parameters of this group follow, and
/// these parameters make the group, as many of them as it has room for; then come the callee's other variables.
/// `NoMemory`: memory ran out.
pub fn middle_of(alloc: Global, call: &Call, group: usize) -> Result<Middle, NoMemory>
    ensures few { IfOk result (λ it. (it.group ≤ 32) × (it.group ≤ length it.parts.items)) }
    ensures good { IfOk result (λ it. (n m : ℕ) → ArePicks n call.now.picks.now → All (IsArgument n m) call.now.arguments.now → AreParts n m 4294967295 it.parts.items) }
{
    let mut parts = related(alloc, call, group)?;
    let count = parts.len();
    add_singles(&mut parts, call.picks, group, u32::MAX)?;
    Ok(Middle {
        parts,
        group: count,
    })
}

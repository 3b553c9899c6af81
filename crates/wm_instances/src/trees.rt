// The instances, depth first, calls in the order of the source.
ghost use Rattle.std.specs.Prelude.{◌≡◌, [], ◌∷◌, ◌++◌, map, length, OnOk, IfOk};
ghost use Rattle.std.specs.Option.{option_map_or};
ghost use Rattle.wm_program.specs.State.{root_of};
ghost use Rattle.wm_instances.specs.Instances.{root_instance, here_in, called, grown, grown_each, views_in};

use sqlite_items::at;
use std::alloc::Global;
use wm_ops::{List, NoMemory};
use wm_program::{Array, InstanceInfo, Root};
use wm_scope::CallPlace;

/// The instance of a function that nobody calls.
pub fn root_instance(alloc: Global, function: u32) -> InstanceInfo
    ensures root { result ≡ root_instance function }
{
    InstanceInfo {
        function,
        caller: None,
        call: None,
        roots: List::new(alloc),
    }
}

fn root_of(number: u32, roots: &[Root], array: Array) -> Root
    ensures { result ≡ root_of (here_in number roots.now) array }
{
    match array {
        Array::Object(object) => Root::Object(object),
        Array::Local(local) => Root::Local {
            instance: number,
            local,
        },
        Array::View {
            local,
            number: view,
        } => match roots.get(view as usize) {
            Some(root) => *root,
            None => Root::Local {
                instance: number,
                local,
            },
        },
    }
}

/// What the views of a call look into.
fn views_in(
    alloc: Global,
    number: u32,
    roots: &[Root],
    views: &[Array],
) -> Result<List<Root>, NoMemory>
    ensures { IfOk result (λ found. found ≡ views_in number roots.now views.now) }
{
    let mut found = List::new(alloc);
    for array in views {
        found.push(root_of(number, roots, *array))?;
    }
    Ok(found)
}

/// The instance that a call leads to from the instance of this number.
fn called(
    alloc: Global,
    number: u32,
    roots: &[Root],
    place: &CallPlace,
) -> Result<InstanceInfo, NoMemory>
    ensures { IfOk result (λ info. info ≡ called number roots.now place.now) }
{
    let views = views_in(alloc, number, roots, place.views.items())?;
    Ok(InstanceInfo {
        function: place.function,
        caller: Some(number),
        call: Some(place.at.place),
        roots: views,
    })
}

fn copied(alloc: Global, roots: &[Root]) -> Result<Vec<Root>, NoMemory>
    ensures { IfOk result (λ copy. copy.items ≡ roots.now) }
{
    let copy = Vec::from_slice(alloc, roots)?;
    Ok(copy)
}

fn number_of(made: &[InstanceInfo]) -> Result<u32, NoMemory>
    ensures { IfOk result (λ number. number ≡ length made.now) }
{
    match u32::try_from(made.len()) {
        Ok(number) => Ok(number),
        Err(_) => Err(NoMemory),
    }
}

/// Puts an instance and all that it leads to at the end, through calls at most `depth` deep, itself counted. The calls are
/// those of each function; a function that is not there has no instance.
#[tactic(auto, using(crate::proofs::Growing::nothing, crate::proofs::Growing::nowhere, crate::proofs::Growing::begun, crate::proofs::Growing::one))]
pub fn grow(
    alloc: Global,
    depth: usize,
    calls: &[List<CallPlace>],
    info: InstanceInfo,
    made: &mut List<InstanceInfo>,
) -> Result<(), NoMemory>
    ensures grown { OnOk result (made.new ≡ grown depth calls.now info made.old) }
{
    if depth == 0 {
        return Ok(());
    }
    match at(calls, info.function as usize) {
        None => Ok(()),
        Some(places) => {
            let number = number_of(made.items())?;
            let roots = copied(alloc, info.roots.items())?;
            made.push(info)?;
            for place in places.items() {
                let next = called(alloc, number, roots.as_slice(), place)?;
                grow(alloc, depth - 1, calls, next, made)?;
            }
            Ok(())
        }
    }
}

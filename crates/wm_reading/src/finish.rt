// Locals and objects with what is known of their addresses at the end.
ghost use Rattle.std.specs.Prelude.{◌≡◌, [], IfOk};
ghost use Rattle.wm_reading.specs.Finishing as spec;

use std::alloc::Global;
use wm_lang::Name;
use wm_marks::{Taken, number_of};
use wm_ops::{List, NoMemory};
use wm_program::{LocalInfo, ObjectInfo};

fn local(alloc: Global, info: &LocalInfo, number: u32, taken: &Taken) -> Result<LocalInfo, NoMemory>
    ensures { IfOk result (λ local. local ≡ spec.local taken.now number info.now) }
{
    let name = Name::new(alloc, info.name.bytes())?;
    let addressed = taken.has(number);
    Ok(LocalInfo {
        name,
        width: info.width,
        array: info.array,
        view: info.view,
        addressed,
    })
}

/// The locals of a function, with those whose address is taken.
pub fn locals(
    alloc: Global,
    infos: &[LocalInfo],
    taken: &Taken,
) -> Result<List<LocalInfo>, NoMemory>
    ensures locals { IfOk result (λ locals. locals ≡ spec.locals taken.now [] infos.now) }
{
    let mut found = List::new(alloc);
    for info in infos {
        let number = number_of(found.items().len())?;
        found.push(local(alloc, info, number, taken)?)?;
    }
    Ok(found)
}

fn copied(alloc: Global, numbers: &[i64]) -> Result<List<i64>, NoMemory>
    ensures { IfOk result (λ list. list ≡ numbers.now) }
{
    let mut list = List::new(alloc);
    for number in numbers {
        list.push(*number)?;
    }
    Ok(list)
}

fn object(
    alloc: Global,
    info: &ObjectInfo,
    number: u32,
    taken: &Taken,
) -> Result<ObjectInfo, NoMemory>
    ensures { IfOk result (λ object. object ≡ spec.object taken.now number info.now) }
{
    let name = Name::new(alloc, info.name.bytes())?;
    let initial = copied(alloc, info.initial.items())?;
    let addressed = taken.has(number);
    Ok(ObjectInfo {
        name,
        width: info.width,
        length: info.length,
        scalar: info.scalar,
        constant: info.constant,
        addressed,
        initial,
        input: info.input,
    })
}

/// The objects of a unit, with those whose address is taken.
pub fn objects(
    alloc: Global,
    infos: &[ObjectInfo],
    taken: &Taken,
) -> Result<List<ObjectInfo>, NoMemory>
    ensures objects { IfOk result (λ objects. objects ≡ spec.objects taken.now [] infos.now) }
{
    let mut found = List::new(alloc);
    for info in infos {
        let number = number_of(found.items().len())?;
        found.push(object(alloc, info, number, taken)?)?;
    }
    Ok(found)
}

// The names of members, and copies of names.
ghost use Rattle.std.specs.Prelude.{◌≡◌, IfOk};
ghost use Rattle.wm_members.specs.Naming.{member_name, member_identifier};

use std::alloc::Global;
use wm_lang::{Identifier, Name};
use wm_ops::NoMemory;

/// The name `v.m`.
fn joined(object: &[u8], member: &[u8], alloc: Global) -> Result<Name, NoMemory>
    ensures name { IfOk result (λ name. name ≡ member_name object.now member.now) }
{
    let mut bytes = Vec::from_slice(alloc, object)?;
    bytes.push(b'.')?;
    bytes.extend_from_slice(member)?;
    Name::new(alloc, bytes.as_slice())
}

/// The name of an object's member, at the object.
pub fn name_of_member(
    object: &Identifier,
    member: &[u8],
    alloc: Global,
) -> Result<Identifier, NoMemory>
    ensures name { IfOk result (λ name. name ≡ member_identifier object.now member.now) }
{
    let name = joined(object.name.bytes(), member, alloc)?;
    Ok(Identifier {
        name,
        at: object.at,
    })
}

/// The same name.
pub fn copied_name(name: &Identifier, alloc: Global) -> Result<Identifier, NoMemory>
    ensures same { IfOk result (λ copy. copy ≡ name.now) }
{
    let copy = Name::new(alloc, name.name.bytes())?;
    Ok(Identifier {
        name: copy,
        at: name.at,
    })
}

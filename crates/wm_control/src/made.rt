// The scalars that a block declares itself.
ghost use Rattle.std.specs.Prelude.{◌≡◌, ◌++◌, map, OnOk, IfOk};
ghost use Rattle.wm_program.specs.Trees.{fresh_of, tree_of};
ghost use Rattle.wm_program.specs.UsedParts.{tree_all};
ghost use Rattle.wm_flow.specs.Statements as statements;

use sqlite_items::Items;
use std::alloc::Global;
use wm_ops::{List, NoMemory};
use wm_program::{Declared, Statement};

#[tactic(auto, using(crate::proofs::NamesMade::scalar_named, crate::proofs::NamesMade::array_named))]
fn push_scalar(list: &mut List<u32>, declared: &Declared) -> Result<(), NoMemory>
    ensures { OnOk result (list.new ≡ list.old ++ statements.scalar_made (fresh_of declared.now)) }
{
    match declared {
        Declared::Scalar { local, .. } => list.push(*local),
        Declared::Array { .. } => Ok(()),
    }
}

fn push_scalars(list: &mut List<u32>, all: &[Declared]) -> Result<(), NoMemory>
    ensures { OnOk result (list.new ≡ list.old ++ statements.scalars_made (map fresh_of all.now)) }
{
    for declared in all {
        push_scalar(list, declared)?;
    }
    Ok(())
}

#[tactic(auto, using(crate::proofs::NamesMade::none_in_if, crate::proofs::NamesMade::none_in_return))]
fn push_made(list: &mut List<u32>, statement: &Statement) -> Result<(), NoMemory>
    ensures { OnOk result (list.new ≡ list.old ++ statements.made_in (tree_of statement.now)) }
{
    match statement {
        Statement::Declare(all) => push_scalars(list, all.as_slice()),
        Statement::Block(_) => Ok(()),
        Statement::Empty => Ok(()),
        Statement::Simple(_) => Ok(()),
        Statement::If { .. } => Ok(()),
        Statement::For { .. } => Ok(()),
        Statement::While { .. } => Ok(()),
        Statement::Do { .. } => Ok(()),
        Statement::Break { .. } => Ok(()),
        Statement::Continue { .. } => Ok(()),
        Statement::Return(_) => Ok(()),
    }
}

/// The scalars that these statements declare, by their numbers among the locals.
pub fn made_in(alloc: Global, list: &Items<Statement>) -> Result<List<u32>, NoMemory>
    ensures { IfOk result (λ made. made ≡ statements.made_in (tree_all list.now)) }
{
    let mut made = List::new(alloc);
    for statement in list.as_slice() {
        push_made(&mut made, statement)?;
    }
    Ok(made)
}

fn push_all(list: &mut List<u32>, more: &[u32]) -> Result<(), NoMemory>
    ensures { OnOk result (list.new ≡ list.old ++ more.now) }
{
    for number in more {
        list.push(*number)?;
    }
    Ok(())
}

/// The numbers of both lists.
pub fn joined(alloc: Global, first: &[u32], second: &[u32]) -> Result<List<u32>, NoMemory>
    ensures { IfOk result (λ both. both ≡ first.now ++ second.now) }
{
    let mut both = List::new(alloc);
    push_all(&mut both, first)?;
    push_all(&mut both, second)?;
    Ok(both)
}

// How many objects of static storage the blocks of a body declare.
ghost use Rattle.std.specs.Prelude.{◌≡◌, OnOk};
ghost use Rattle.wm_source.specs.Pieces.{piece_of, written_items};
ghost use Rattle.wm_reading.specs.Statics as spec;

use sqlite_items::Items;
use wm_lang::{BlockItem, Declaration, Statement};
use wm_marks::number_of;
use wm_ops::NoMemory;

fn grow(count: &mut u32, more: usize) -> Result<(), NoMemory>
    ensures { OnOk result (count.new ≡ spec.grown more count.old) }
{
    if more < 4294967296 {
        *count = number_of(*count as usize + more)?;
        return Ok(());
    }
    Err(NoMemory)
}

fn count_declared(declaration: &Declaration, count: &mut u32) -> Result<(), NoMemory>
    ensures { OnOk result (count.new ≡ spec.declared declaration.now count.old) }
{
    if declaration.words.is_static {
        return grow(count, declaration.declarators.len());
    }
    Ok(())
}

/// Adds those of the blocks of a body to a count.
#[cycle(statics)]
pub fn count_statics(items: &Items<BlockItem<Statement>>, count: &mut u32) -> Result<(), NoMemory>
    ensures statics { OnOk result (count.new ≡ spec.statics_of (written_items items.now) count.old) }
{
    for item in items.as_slice() {
        match item {
            BlockItem::Declaration(declaration) => count_declared(declaration, count)?,
            BlockItem::Statement(statement) => count_inside(statement, count)?,
        }
    }
    Ok(())
}

#[cycle(statics)]
fn count_inside(statement: &Statement, count: &mut u32) -> Result<(), NoMemory>
    ensures { OnOk result (count.new ≡ spec.statics_in (piece_of statement.now) count.old) }
{
    match statement {
        Statement::Block(block) => count_statics(&block.items, count),
        Statement::If {
            then,
            otherwise,
            ..
        } => {
            count_inside(then.get(), count)?;
            match otherwise {
                None => Ok(()),
                Some(otherwise) => count_inside(otherwise.body.get(), count),
            }
        }
        Statement::For { body, .. } => count_inside(body.get(), count),
        Statement::While { body, .. } => count_inside(body.get(), count),
        Statement::Do { body, .. } => count_inside(body.get(), count),
        Statement::Empty { .. } => Ok(()),
        Statement::Simple(_) => Ok(()),
        Statement::Break { .. } => Ok(()),
        Statement::Continue { .. } => Ok(()),
        Statement::Return { .. } => Ok(()),
    }
}

// Whether a body ends in a return: its last statement is a return, a block that ends so, or an if with an else that both
// end so. What stands before the last statement says nothing.
ghost use Rattle.std.specs.Prelude.{◌≡◌};
ghost use Rattle.wm_source.specs.Endings.{ends_of, block_ends};

use sqlite_items::Items;
use wm_lang::{BlockItem, Statement};

/// Whether the last of these items is a statement that ends in a return.
#[cycle(ends)]
pub fn ends_in_return(items: &Items<BlockItem<Statement>>) -> bool
    ensures ends { result ≡ block_ends items.now }
{
    let mut ends = false;
    for item in items.as_slice() {
        ends = match item {
            BlockItem::Declaration(_) => false,
            BlockItem::Statement(statement) => ends_so(statement),
        };
    }
    ends
}

#[cycle(ends)]
fn ends_so(statement: &Statement) -> bool
    ensures ends { result ≡ ends_of statement.now }
{
    match statement {
        Statement::Block(block) => ends_in_return(&block.items),
        Statement::If {
            then,
            otherwise,
            ..
        } => match otherwise {
            None => false,
            Some(otherwise) => {
                if ends_so(then.get()) {
                    return ends_so(otherwise.body.get());
                }
                false
            }
        },
        Statement::Return { .. } => true,
        Statement::Empty { .. } => false,
        Statement::Simple(_) => false,
        Statement::For { .. } => false,
        Statement::While { .. } => false,
        Statement::Do { .. } => false,
        Statement::Break { .. } => false,
        Statement::Continue { .. } => false,
    }
}

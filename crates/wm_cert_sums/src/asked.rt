// The sum counters of a text in their order.
ghost use Rattle.std.specs.Prelude.{◌≡◌, ◌++◌, IfOk, OnOk};
ghost use Rattle.wm_cert_sums.specs.Asked.{sums_with, sums_from};

use std::alloc::Global;
use wm_cert_text::{Head, SumStep};
use wm_flow::Sum;
use wm_ops::{List, NoMemory};

/// The number in 32 bits; a larger one, which no head has, wants memory.
fn small(number: usize) -> Result<u32, NoMemory>
    ensures { IfOk result (λ small. small ≡ number) }
{
    match u32::try_from(number) {
        Ok(small) => Ok(small),
        Err(_large) => Err(NoMemory),
    }
}

fn push_sums(list: &mut List<Sum>, head: u32, sums: &[SumStep]) -> Result<(), NoMemory>
    ensures { OnOk result (list.new ≡ list.old ++ sums_with head sums.now) }
{
    for sum in sums {
        list.push(Sum {
            head,
            variable: sum.variable,
            step: sum.step,
        })?;
    }
    Ok(())
}

fn push_head(list: &mut List<Sum>, number: usize, head: &Head) -> Result<(), NoMemory>
    ensures { OnOk result (list.new ≡ list.old ++ sums_with number head.now.sums) }
{
    let number = small(number)?;
    push_sums(list, number, head.sums.items())?;
    Ok(())
}

fn push_heads(list: &mut List<Sum>, heads: &[Head]) -> Result<(), NoMemory>
    ensures { OnOk result (list.new ≡ list.old ++ sums_from 0 heads.now) }
{
    let mut number = 0;
    for head in heads {
        push_head(list, number, head)?;
        number += 1;
    }
    Ok(())
}

/// The sum counters of the heads of a text.
pub fn sums_of(alloc: Global, heads: &[Head]) -> Result<List<Sum>, NoMemory>
    ensures { IfOk result (λ list. list ≡ sums_from 0 heads.now) }
{
    let mut list = List::new(alloc);
    push_heads(&mut list, heads)?;
    Ok(list)
}

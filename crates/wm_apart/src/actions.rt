// Actions between slim nodes.
use crate::renaming::{Renaming, Side};
use std::alloc::Global;
use wm_flow::{Action, Given, Growth};
use wm_ops::{List, NoMemory};

fn growths(alloc: Global, side: Side, growths: &[Growth]) -> Result<List<Growth>, NoMemory> {
    let mut list = List::new(alloc);
    for growth in growths {
        list.push(Growth {
            variable: side.variable(growth.variable),
            step: growth.step,
        })?;
    }
    Ok(list)
}

fn scalars(alloc: Global, side: Side, scalars: &[Given]) -> Result<List<Given>, NoMemory> {
    let mut list = List::new(alloc);
    for given in scalars {
        list.push(Given {
            target: side.variable(given.target),
            range: given.range,
        })?;
    }
    Ok(list)
}

fn arrays(alloc: Global, side: Side, arrays: &[Given]) -> Result<List<Given>, NoMemory> {
    let mut list = List::new(alloc);
    for given in arrays {
        list.push(Given {
            target: side.array(given.target),
            range: given.range,
        })?;
    }
    Ok(list)
}

/// An action that pairs its nodes by place, between the slim nodes. None for a call and for a return.
pub(crate) fn renamed(to: &Renaming, action: &Action) -> Result<Option<Action>, NoMemory> {
    let alloc = to.alloc;
    let action = match action {
        Action::AssignForm { target, form } => Action::AssignForm {
            target: to.target.variable(*target),
            form: to.source.form(alloc, form)?,
        },
        Action::Plain { mark, args, target } => Action::Plain {
            mark: *mark,
            args: [
                to.source.form(alloc, &args[0])?,
                to.source.form(alloc, &args[1])?,
            ],
            target: to.target.variable(*target),
        },
        Action::Cast { form, target } => Action::Cast {
            form: to.source.form(alloc, form)?,
            target: to.target.variable(*target),
        },
        Action::AssignRange { target, range } => Action::AssignRange {
            target: to.target.variable(*target),
            range: *range,
        },
        Action::SetArray { array, summary } => Action::SetArray {
            array: to.target.array(*array),
            summary: *summary,
        },
        Action::Operate {
            op,
            args,
            target,
            overflow,
        } => Action::Operate {
            op: *op,
            args: [
                to.source.form(alloc, &args[0])?,
                to.source.form(alloc, &args[1])?,
                to.source.form(alloc, &args[2])?,
            ],
            target: to.target.variable(*target),
            overflow: to.target.variable(*overflow),
        },
        Action::Read { array, target } => Action::Read {
            array: to.source.array(*array),
            target: to.target.variable(*target),
        },
        Action::Write {
            array,
            value,
            length,
        } => Action::Write {
            array: to.source.array(*array),
            value: to.source.form(alloc, value)?,
            length: *length,
        },
        Action::Clear { variables } => Action::Clear {
            variables: to.target.variables(alloc, variables.items())?,
        },
        Action::Keep { form, relation } => Action::Keep {
            form: to.source.form(alloc, form)?,
            relation: *relation,
        },
        Action::Test {
            args,
            form,
            low,
            high,
            how,
        } => Action::Test {
            args: List::new(alloc),
            form: to.source.form(alloc, form)?,
            low: *low,
            high: *high,
            how: *how,
        },
        Action::Count { word } => Action::Count { word: *word },
        Action::Enter { .. } => return Ok(None),
        Action::Leave { .. } => return Ok(None),
        Action::Reset { counters } => Action::Reset {
            counters: to.target.variables(alloc, counters.items())?,
        },
        Action::Turn { growths: grown } => Action::Turn {
            growths: growths(alloc, to.target, grown.items())?,
        },
        Action::Tie {
            counter,
            loop_step,
            variable,
            step,
        } => Action::Tie {
            counter: to.source.variable(*counter),
            loop_step: *loop_step,
            variable: to.source.variable(*variable),
            step: *step,
        },
        Action::Inputs {
            scalars: given,
            arrays: stored,
        } => Action::Inputs {
            scalars: scalars(alloc, to.target, given.items())?,
            arrays: arrays(alloc, to.target, stored.items())?,
        },
    };
    Ok(Some(action))
}

// Expressions, conditions, statements and calls: a recursion over the trees of the functions.
ghost use Rattle.std.specs.Prelude.{◌≡◌, ◌+◌, [], ◌∷◌, ◌++◌, map, slice_get, IfOk, OnOk};
ghost use Rattle.wm_program.specs.Trees.{expression_of, test_of, tree_of, effect_of, target_of, fresh_of};
ghost use Rattle.wm_program.specs.Code as codes;
ghost use Rattle.wm_program.specs.Numbers.{plain_of};
ghost use Rattle.wm_interp.specs.Held.{Goes, GoesBy};
ghost use Rattle.wm_interp.specs.Going.{evaluate_on, three_on, gather_on, links_on};
ghost use Rattle.wm_interp.specs.Doing as doing;
ghost use Rattle.wm_interp.specs.Layers.{operand_on, pass_on, series_on, asked, loop_turn};
ghost use Rattle.wm_interp.specs.Parts.{plain_link, plain_passed, operands_of, passed_in, tree_all};
ghost use Rattle.wm_interp.specs.Seen.{held_of, setting_of, numbers_in, vec_items, call_meant, invoked};

use crate::access::{blank, fill, list, location_of, named, offset, set_number, write};
use crate::calls::{back, enter, roots_in};
use crate::halt::{Flow, Halt, Location, Refusal};
use crate::memory::Memory;
use crate::numbers::{cast_to, compares};
use crate::operations::{
    Operands, computed, converted, count, count_if, element, negated, operate, reach, read,
    view_from,
};
use crate::scene::Scene;
use wm_ops::{ControlWord, Counted};
use wm_program::{
    Call, Condition, Converted, Declared, End, Expr, Link, Passed, PlainMark, Scalar, Simple, Spot,
    Statement, View,
};

/// A loop, as it is turned.
#[derive(Clone, Copy)]
pub(crate) enum Loop<'a> {
    /// A for or a while, whose test may be counted or absent.
    Tested {
        is_counted: bool,
        condition: Option<&'a Condition>,
        step: &'a [Simple],
        body: &'a Statement,
    },
    Do {
        is_counted: bool,
        condition: &'a Condition,
        body: &'a Statement,
    },
}

/// One level of the recursion less.
fn deeper(depth: u64) -> Result<u64, Refusal>
    ensures { IfOk result (λ left. left + 1 ≡ depth) }
{
    if depth == 0 {
        return Err(Refusal::Unfit);
    }
    Ok(depth - 1)
}

/// The number of an expression.
#[cycle(machine)]
#[tactic(auto, using(crate::proofs::Arms::on_constant, crate::proofs::Arms::on_scalar, crate::proofs::Arms::on_element, crate::proofs::Arms::on_operator, crate::proofs::Arms::on_call, crate::proofs::Arms::on_chain, crate::proofs::Arms::on_negate, crate::proofs::Arms::on_plus, crate::proofs::Arms::on_cast))]
pub(crate) fn evaluate(memory: &mut Memory, at: &Scene, x: &Expr, depth: u64) -> Result<i64, Halt>
    ensures { Goes result (held_of memory.new) (evaluate_on (setting_of at.now) (expression_of x.now) (held_of memory.old)) }
{
    let depth = deeper(depth)?;
    match x {
        Expr::Constant(z) => Ok(*z),
        Expr::Scalar(scalar) => Ok(named(memory, at, *scalar)),
        Expr::Element { array, index, site } => {
            let i = evaluate(memory, at, index.get(), depth)?;
            element(memory, at, *array, *site, i)
        }
        Expr::Operator {
            op,
            arguments,
            site,
        } => {
            let with = operands(memory, at, arguments.as_slice(), depth)?;
            operate(memory, at, *op, *site, with)
        }
        Expr::Call(call) => enter_call(memory, at, call, depth),
        Expr::Chain { first, rest } => {
            let a = evaluate(memory, at, first.get(), depth)?;
            links(memory, at, a, rest.as_slice(), depth)
        }
        Expr::Negate { operand, site } => {
            let z = evaluate(memory, at, operand.get(), depth)?;
            negated(memory, *site, z)
        }
        Expr::Plus(operand) => evaluate(memory, at, operand.get(), depth),
        Expr::Cast { to, operand } => {
            let z = evaluate(memory, at, operand.get(), depth)?;
            Ok(cast_to(*to, z)?)
        }
    }
}

/// The number of an expression, converted.
#[cycle(machine)]
fn convert(memory: &mut Memory, at: &Scene, x: &Converted<Expr>, depth: u64) -> Result<i64, Halt>
    ensures { Goes result (held_of memory.new) (doing.convert_on (setting_of at.now) (expression_of x.now.value) x.now.narrowing (held_of memory.old)) }
{
    let z = evaluate(memory, at, &x.value, depth)?;
    converted(memory, x.narrowing, z)
}

/// The numbers of an operator's arguments.
#[cycle(machine)]
#[tactic(auto, using(crate::proofs::Arms::three_operands))]
fn operands(
    memory: &mut Memory,
    at: &Scene,
    arguments: &[Converted<Expr>],
    depth: u64,
) -> Result<Operands, Halt>
    ensures { GoesBy numbers_in result (held_of memory.new) (three_on (setting_of at.now) (operands_of arguments.now) (held_of memory.old)) }
{
    if arguments.len() > 3 {
        return Err(Halt::Refused(Refusal::Unfit));
    }
    let a = operand(memory, at, arguments, 0, depth)?;
    let b = operand(memory, at, arguments, 1, depth)?;
    let c = operand(memory, at, arguments, 2, depth)?;
    Ok(Operands::of(a, b, c))
}

/// The number of an argument of an operator, or 0 where there is none.
#[cycle(machine)]
fn operand(
    memory: &mut Memory,
    at: &Scene,
    arguments: &[Converted<Expr>],
    k: usize,
    depth: u64,
) -> Result<i64, Halt>
    ensures { Goes result (held_of memory.new) (operand_on (setting_of at.now) (slice_get arguments.now k) (held_of memory.old)) }
{
    match arguments.get(k) {
        Some(x) => convert(memory, at, x, depth),
        None => Ok(0),
    }
}

/// Plain operators of one level behind a number.
#[cycle(machine)]
fn links(
    memory: &mut Memory,
    at: &Scene,
    first: i64,
    rest: &[Link<Expr>],
    depth: u64,
) -> Result<i64, Halt>
    ensures { Goes result (held_of memory.new) (links_on (setting_of at.now) (map plain_link rest.now) first (held_of memory.old)) }
{
    let mut z = first;
    for link in rest {
        let b = evaluate(memory, at, &link.operand, depth)?;
        z = computed(memory, link.site, link.mark, z, b)?;
    }
    Ok(z)
}

/// The number of an argument of a function; that of a view is how far into its root it begins.
#[cycle(machine)]
fn pass(memory: &mut Memory, at: &Scene, argument: &Passed<Expr>, depth: u64) -> Result<i64, Halt>
    ensures { Goes result (held_of memory.new) (pass_on (setting_of at.now) argument.now (held_of memory.old)) }
{
    match argument {
        Passed::Value(x) => convert(memory, at, x, depth),
        Passed::View(View::Whole(array)) => Ok(offset(memory, at, *array)),
        Passed::View(View::From { array, index, site }) => {
            let i = evaluate(memory, at, index, depth)?;
            view_from(memory, at, *array, *site, i)
        }
    }
}

/// The numbers of a function's arguments.
#[cycle(machine)]
#[tactic(auto, using(crate::proofs::Arms::gather_next))]
fn gather(
    memory: &mut Memory,
    at: &Scene,
    arguments: &[Passed<Expr>],
    depth: u64,
) -> Result<Vec<i64>, Halt>
    ensures { GoesBy vec_items result (held_of memory.new) (gather_on (setting_of at.now) (passed_in arguments.now) [] (held_of memory.old)) }
{
    let mut numbers = Vec::new(at.alloc);
    for argument in arguments {
        let z = pass(memory, at, argument, depth)?;
        push_number(&mut numbers, z)?;
    }
    Ok(numbers)
}

fn push_number(numbers: &mut Vec<i64>, z: i64) -> Result<(), Refusal>
    ensures { OnOk result (numbers.new.items ≡ numbers.old.items ++ z ∷ []) }
{
    match numbers.push(z) {
        Ok(()) => Ok(()),
        Err(_) => Err(Refusal::NoMemory),
    }
}

/// The call of a function.
#[cycle(machine)]
#[tactic(auto, unfolding(crate::specs::Seen::setting_of))]
fn enter_call(memory: &mut Memory, at: &Scene, call: &Call<Expr>, depth: u64) -> Result<i64, Halt>
    ensures { Goes result (held_of memory.new) (call_meant (setting_of at.now) call.now (held_of memory.old)) }
{
    let numbers = gather(memory, at, call.arguments.as_slice(), depth)?;
    let roots = roots_in(at, call.arguments.as_slice())?;
    let Some(instance) = at.instance.checked_add(call.offset) else {
        return Err(Halt::Refused(Refusal::Unfit));
    };
    let there = Scene {
        instance,
        roots: roots.as_slice(),
        ..*at
    };
    invoke(memory, &there, call.function, numbers.as_slice(), depth)
}

/// A function, in the instance of the scene.
#[cycle(machine)]
#[tactic(auto, using(crate::proofs::Statements::call_none, crate::proofs::Statements::call_some), unfolding(crate::specs::Seen::setting_of))]
pub(crate) fn invoke(
    memory: &mut Memory,
    at: &Scene,
    function: u32,
    numbers: &[i64],
    depth: u64,
) -> Result<i64, Halt>
    ensures { Goes result (held_of memory.new) (invoked at.now function numbers.now (held_of memory.old)) }
{
    if at.levels == 0 {
        return Err(Halt::Over(End::StepLimit));
    }
    let inner = Scene {
        levels: at.levels - 1,
        ..*at
    };
    enter(memory, &inner, function, numbers)?;
    let flow = body(memory, &inner, function, depth)?;
    Ok(back(flow))
}

/// The block of a function.
#[cycle(machine)]
#[tactic(auto, using(crate::proofs::Routines::routine_there, crate::proofs::Routines::routine_nowhere))]
fn body(memory: &mut Memory, at: &Scene, function: u32, depth: u64) -> Result<Flow, Halt>
    ensures { Goes result (held_of memory.new) (doing.exec_on (setting_of at.now) (codes.routine_at (codes.code_of at.now.program.now) function).body (held_of memory.old)) }
{
    match at.program.functions.items().get(function as usize) {
        Some(info) => {
            memory.step()?;
            exec_all(memory, at, info.body.statements.as_slice(), depth)
        }
        None => Ok(Flow::Next),
    }
}

/// Whether a condition holds.
#[cycle(machine)]
#[tactic(auto, using(crate::proofs::Arms::on_or, crate::proofs::Arms::on_and, crate::proofs::Arms::on_not, crate::proofs::Arms::on_compare, crate::proofs::Arms::on_truth))]
fn ask(memory: &mut Memory, at: &Scene, condition: &Condition, depth: u64) -> Result<bool, Halt>
    ensures { Goes result (held_of memory.new) (doing.ask_on (setting_of at.now) (test_of condition.now) (held_of memory.old)) }
{
    let depth = deeper(depth)?;
    match condition {
        Condition::Or { first, rest } => {
            if ask(memory, at, first.get(), depth)? {
                return Ok(true);
            }
            series(memory, at, true, rest.as_slice(), depth)
        }
        Condition::And { first, rest } => {
            if !ask(memory, at, first.get(), depth)? {
                return Ok(false);
            }
            series(memory, at, false, rest.as_slice(), depth)
        }
        Condition::Not(condition) => {
            let holds = ask(memory, at, condition.get(), depth)?;
            Ok(!holds)
        }
        Condition::Compare { left, mark, right } => {
            let a = evaluate(memory, at, left, depth)?;
            let b = evaluate(memory, at, right, depth)?;
            Ok(compares(*mark, a, b))
        }
        Condition::Truth(x) => {
            let z = evaluate(memory, at, x, depth)?;
            Ok(z != 0)
        }
    }
}

/// Conditions up to the first that answers `stop`: whether one of them holds, or all.
#[cycle(machine)]
fn series(
    memory: &mut Memory,
    at: &Scene,
    stop: bool,
    rest: &[Condition],
    depth: u64,
) -> Result<bool, Halt>
    ensures { Goes result (held_of memory.new) (series_on (setting_of at.now) stop (map test_of rest.now) (held_of memory.old)) }
{
    for condition in rest {
        let holds = ask(memory, at, condition, depth)?;
        if holds == stop {
            return Ok(holds);
        }
    }
    Ok(!stop)
}

/// Where an assignment writes, after the test of the index.
#[cycle(machine)]
fn find(memory: &mut Memory, at: &Scene, spot: &Spot, depth: u64) -> Result<Location, Halt>
    ensures { Goes result (held_of memory.new) (doing.find_on (setting_of at.now) (target_of spot.now) (held_of memory.old)) }
{
    match spot {
        Spot::Scalar(scalar) => Ok(location_of(at, *scalar)),
        Spot::Element { array, index, site } => {
            let i = evaluate(memory, at, index, depth)?;
            reach(memory, at, *array, *site, i)
        }
    }
}

/// The number at a spot whose location is known.
fn fetch(memory: &Memory, spot: &Spot, location: Location) -> Result<i64, Halt>
    ensures { Goes result (held_of memory.now) (doing.fetch_on (target_of spot.now) location (held_of memory.now)) }
{
    match spot {
        Spot::Scalar(_) => Ok(set_number(memory, location)),
        Spot::Element { site, .. } => read(memory, *site, location),
    }
}

/// A statement without words of its own.
#[cycle(machine)]
fn perform(memory: &mut Memory, at: &Scene, simple: &Simple, depth: u64) -> Result<(), Halt>
    ensures { Goes result (held_of memory.new) (doing.perform_on (setting_of at.now) (effect_of simple.now) (held_of memory.old)) }
{
    match simple {
        Simple::Assign { spot, value } => {
            let location = find(memory, at, spot, depth)?;
            let z = convert(memory, at, value, depth)?;
            write(memory, location, z)?;
            Ok(())
        }
        Simple::Update {
            spot,
            mark,
            value,
            arithmetic,
            narrowing,
        } => {
            let location = find(memory, at, spot, depth)?;
            let a = fetch(memory, spot, location)?;
            let b = evaluate(memory, at, value, depth)?;
            update(memory, location, *mark, a, b, *arithmetic, *narrowing)
        }
        Simple::Evaluate(x) => {
            evaluate(memory, at, x, depth)?;
            Ok(())
        }
        Simple::Count(call) => {
            count(memory, at, Counted::Call(*call))?;
            Ok(())
        }
    }
}

/// Writes what `+=` and its kin make of two numbers.
fn update(
    memory: &mut Memory,
    location: Location,
    mark: PlainMark,
    a: i64,
    b: i64,
    arithmetic: u32,
    narrowing: Option<u32>,
) -> Result<(), Halt>
    ensures { Goes result (held_of memory.new) (doing.updated_on location arithmetic narrowing (plain_of mark a b) (held_of memory.old)) }
{
    let z = computed(memory, arithmetic, mark, a, b)?;
    let z = converted(memory, narrowing, z)?;
    write(memory, location, z)?;
    Ok(())
}

/// Simple statements, in their order.
#[cycle(machine)]
fn perform_all(memory: &mut Memory, at: &Scene, simples: &[Simple], depth: u64) -> Result<(), Halt>
    ensures { Goes result (held_of memory.new) (doing.perform_all_on (setting_of at.now) (map effect_of simples.now) (held_of memory.old)) }
{
    for simple in simples {
        perform(memory, at, simple, depth)?;
    }
    Ok(())
}

/// The step part of a for, which is one elementary step; an absent one is none.
#[cycle(machine)]
fn perform_step(memory: &mut Memory, at: &Scene, simples: &[Simple], depth: u64) -> Result<(), Halt>
    ensures { Goes result (held_of memory.new) (doing.perform_step_on (setting_of at.now) (map effect_of simples.now) (held_of memory.old)) }
{
    if simples.is_empty() {
        return Ok(());
    }
    memory.step()?;
    perform_all(memory, at, simples, depth)
}

/// A name that a declaration makes.
#[cycle(machine)]
fn make(memory: &mut Memory, at: &Scene, declared: &Declared, depth: u64) -> Result<(), Halt>
    ensures { Goes result (held_of memory.new) (doing.make_on (setting_of at.now) (fresh_of declared.now) (held_of memory.old)) }
{
    match declared {
        Declared::Scalar {
            local,
            width,
            initial,
        } => match initial {
            Some(x) => {
                let z = convert(memory, at, x, depth)?;
                write(memory, location_of(at, Scalar::Local(*local)), z)?;
                Ok(())
            }
            None => {
                fill(memory, at, *local, *width)?;
                Ok(())
            }
        },
        Declared::Array {
            local,
            length,
            values,
        } => match values {
            Some(values) => {
                list(memory, at, *local, *length, values.as_slice())?;
                Ok(())
            }
            None => {
                blank(memory, at, *local, *length)?;
                Ok(())
            }
        },
    }
}

/// The names of a declaration, in their order.
#[cycle(machine)]
fn make_all(memory: &mut Memory, at: &Scene, declared: &[Declared], depth: u64) -> Result<(), Halt>
    ensures { Goes result (held_of memory.new) (doing.make_all_on (setting_of at.now) (map fresh_of declared.now) (held_of memory.old)) }
{
    for one in declared {
        make(memory, at, one, depth)?;
    }
    Ok(())
}

/// A statement.
#[cycle(machine)]
#[tactic(auto, using(crate::proofs::Statements::on_block, crate::proofs::Statements::on_empty, crate::proofs::Statements::on_declare, crate::proofs::Statements::on_simple, crate::proofs::Statements::on_if, crate::proofs::Statements::on_if_else, crate::proofs::Statements::on_for, crate::proofs::Statements::on_while, crate::proofs::Statements::on_do, crate::proofs::Statements::on_break, crate::proofs::Statements::on_continue, crate::proofs::Statements::on_return, crate::proofs::Statements::on_leave))]
fn exec(memory: &mut Memory, at: &Scene, statement: &Statement, depth: u64) -> Result<Flow, Halt>
    ensures { Goes result (held_of memory.new) (doing.exec_on (setting_of at.now) (tree_of statement.now) (held_of memory.old)) }
{
    let depth = deeper(depth)?;
    memory.step()?;
    match statement {
        Statement::Block(statements) => exec_all(memory, at, statements.as_slice(), depth),
        Statement::Empty => Ok(Flow::Next),
        Statement::Declare(declared) => {
            make_all(memory, at, declared.as_slice(), depth)?;
            Ok(Flow::Next)
        }
        Statement::Simple(simple) => {
            perform(memory, at, simple, depth)?;
            Ok(Flow::Next)
        }
        Statement::If {
            is_counted,
            condition,
            then,
            otherwise,
        } => {
            count_if(memory, at, *is_counted, ControlWord::If)?;
            let holds = ask(memory, at, condition, depth)?;
            match otherwise {
                Some(other) => {
                    if holds {
                        return exec(memory, at, then.get(), depth);
                    }
                    count_if(memory, at, other.is_counted, ControlWord::Else)?;
                    exec(memory, at, other.body.get(), depth)
                }
                None => {
                    if holds {
                        return exec(memory, at, then.get(), depth);
                    }
                    Ok(Flow::Next)
                }
            }
        }
        Statement::For {
            is_counted,
            begin,
            condition,
            step,
            body,
            ..
        } => {
            count_if(memory, at, *is_counted, ControlWord::For)?;
            perform_all(memory, at, begin.as_slice(), depth)?;
            let step = step.as_slice();
            tested_loop(
                memory,
                at,
                false,
                condition.as_ref(),
                step,
                body.get(),
                depth,
            )
        }
        Statement::While {
            is_counted,
            condition,
            body,
            ..
        } => tested_loop(
            memory,
            at,
            *is_counted,
            Some(condition),
            &[],
            body.get(),
            depth,
        ),
        Statement::Do {
            is_counted,
            is_tail_counted,
            body,
            condition,
            ..
        } => {
            count_if(memory, at, *is_counted, ControlWord::Do)?;
            do_loop(memory, at, *is_tail_counted, condition, body.get(), depth)
        }
        Statement::Break { is_counted } => {
            count_if(memory, at, *is_counted, ControlWord::Break)?;
            Ok(Flow::Broke)
        }
        Statement::Continue { is_counted } => {
            count_if(memory, at, *is_counted, ControlWord::Continue)?;
            Ok(Flow::Continued)
        }
        Statement::Return(value) => match value {
            Some(x) => {
                let z = convert(memory, at, x, depth)?;
                Ok(Flow::returned(z))
            }
            None => Ok(Flow::returned(0)),
        },
    }
}

/// A for or a while, whose test may be counted or absent.
#[cycle(machine)]
fn tested_loop(
    memory: &mut Memory,
    at: &Scene,
    is_counted: bool,
    condition: Option<&Condition>,
    step: &[Simple],
    body: &Statement,
    depth: u64,
) -> Result<Flow, Halt>
    ensures { Goes result (held_of memory.new) (doing.loop_on (doing.turn_on (setting_of at.now) is_counted (asked condition.entry) (doing.exec_on (setting_of at.now) (tree_of body.now)) (doing.perform_step_on (setting_of at.now) (map effect_of step.now))) (held_of memory.old)) }
{
    let turning = Loop::Tested {
        is_counted,
        condition,
        step,
        body,
    };
    turns(memory, at, &turning, depth)
}

/// A do, whose test may be counted.
#[cycle(machine)]
fn do_loop(
    memory: &mut Memory,
    at: &Scene,
    is_counted: bool,
    condition: &Condition,
    body: &Statement,
    depth: u64,
) -> Result<Flow, Halt>
    ensures { Goes result (held_of memory.new) (doing.loop_on (doing.round_on (setting_of at.now) is_counted (test_of condition.now) (doing.exec_on (setting_of at.now) (tree_of body.now))) (held_of memory.old)) }
{
    let turning = Loop::Do {
        is_counted,
        condition,
        body,
    };
    turns(memory, at, &turning, depth)
}

/// Statements, in their order.
#[cycle(machine)]
#[tactic(auto, using(crate::proofs::Statements::go_past, crate::proofs::Statements::go_next))]
fn exec_all(
    memory: &mut Memory,
    at: &Scene,
    statements: &[Statement],
    depth: u64,
) -> Result<Flow, Halt>
    ensures { Goes result (held_of memory.new) (doing.exec_on (setting_of at.now) (tree_all statements.now) (held_of memory.old)) }
{
    for statement in statements {
        let flow = exec(memory, at, statement, depth)?;
        if !flow.is_next() {
            return Ok(flow);
        }
    }
    Ok(Flow::Next)
}

/// The test of a loop, which is an elementary step and may be counted.
#[cycle(machine)]
fn test(
    memory: &mut Memory,
    at: &Scene,
    is_counted: bool,
    condition: Option<&Condition>,
    depth: u64,
) -> Result<bool, Halt>
    ensures { Goes result (held_of memory.new) (doing.test_on (setting_of at.now) is_counted (asked condition.entry) (held_of memory.old)) }
{
    memory.step()?;
    count_if(memory, at, is_counted, ControlWord::While)?;
    match condition {
        Some(condition) => ask(memory, at, condition, depth),
        None => Ok(true),
    }
}

/// A turn of a loop: how the loop ends, or none where there is another turn.
#[cycle(machine)]
#[tactic(auto, unfolding(crate::specs::Doing::turn_on, crate::specs::Doing::round_on))]
fn turn(memory: &mut Memory, at: &Scene, turning: &Loop, depth: u64) -> Result<Option<Flow>, Halt>
    ensures { Goes result (held_of memory.new) (loop_turn (setting_of at.now) turning.now (held_of memory.old)) }
{
    match turning {
        Loop::Tested {
            is_counted,
            condition,
            step,
            body,
        } => {
            if !test(memory, at, *is_counted, *condition, depth)? {
                return Ok(Some(Flow::Next));
            }
            let flow = exec(memory, at, body, depth)?;
            match flow.ended() {
                Some(end) => Ok(Some(end)),
                None => {
                    perform_step(memory, at, step, depth)?;
                    Ok(None)
                }
            }
        }
        Loop::Do {
            is_counted,
            condition,
            body,
        } => {
            let flow = exec(memory, at, body, depth)?;
            match flow.ended() {
                Some(end) => Ok(Some(end)),
                None => {
                    if test(memory, at, *is_counted, Some(*condition), depth)? {
                        return Ok(None);
                    }
                    Ok(Some(Flow::Next))
                }
            }
        }
    }
}

/// The turns of a loop. Each takes an elementary step, so there are at most as many turns as steps are left, and one more.
#[cycle(machine)]
#[tactic(auto, using(crate::proofs::Statements::turns_next, crate::proofs::Statements::turns_last))]
fn turns(memory: &mut Memory, at: &Scene, turning: &Loop, depth: u64) -> Result<Flow, Halt>
    ensures { Goes result (held_of memory.new) (doing.loop_on (loop_turn (setting_of at.now) turning.now) (held_of memory.old)) }
{
    let most = memory.steps;
    for _ in 0..most {
        if let Some(flow) = turn(memory, at, turning, depth)? {
            return Ok(flow);
        }
    }
    match turn(memory, at, turning, depth)? {
        Some(flow) => Ok(flow),
        None => Err(Halt::Over(End::StepLimit)),
    }
}

// What is seen while frames are run.
use crate::programs::{
    add_function, add_input, add_object, add_site, empty, named, set, specification,
};
use sqlite_items::{Boxed, Items};
use std::alloc::Global;
use std::test::Fail;
use wm_arrays::{StateLine, Summary};
use wm_findings::{Findings, Seen};
use wm_findings_text::observe_text;
use wm_flow::Bound;
use wm_interval::Interval;
use wm_observe::observe;
use wm_ops::{CountCall, List, Op};
use wm_program::{
    Comparison, Condition, Expr, Inputs, Otherwise, Program, Scalar, Simple, SiteKind, Statement,
};
use wm_weights::all_ones;

/// `y = add(x, 1);` with an input x.
fn one_more(alloc: Global) -> Result<Program, Fail> {
    let mut program = empty(alloc);
    add_object(alloc, &mut program, b"x", false, true)?;
    add_object(alloc, &mut program, b"k", true, false)?;
    add_object(alloc, &mut program, b"y", false, false)?;
    add_input(&mut program, 0, 0, 32766)?;
    add_site(&mut program, SiteKind::Operator(Op::Add), 2, 24)?;
    let mut statements = Items::new(alloc);
    statements.push(set(alloc, 2, Op::Add, named(0), Expr::Constant(1), 0)?)?;
    add_function(alloc, &mut program, 9, statements)?;
    Ok(program)
}

/// `y = div_s(x, z);` with inputs x and z.
fn quotient(alloc: Global) -> Result<Program, Fail> {
    let mut program = empty(alloc);
    add_object(alloc, &mut program, b"x", false, true)?;
    add_object(alloc, &mut program, b"z", false, true)?;
    add_object(alloc, &mut program, b"y", false, false)?;
    add_input(&mut program, 0, 0, 11)?;
    add_input(&mut program, 1, 10, 20)?;
    add_site(&mut program, SiteKind::Operator(Op::DivS), 2, 24)?;
    let mut statements = Items::new(alloc);
    statements.push(set(alloc, 2, Op::DivS, named(0), named(1), 0)?)?;
    add_function(alloc, &mut program, 9, statements)?;
    Ok(program)
}

/// Two frame functions, of which the second counts twice: the function that chooses has no tokens.
fn two_functions(alloc: Global) -> Result<Program, Fail> {
    let mut program = empty(alloc);
    add_object(alloc, &mut program, b"call", false, true)?;
    add_object(alloc, &mut program, b"c", false, false)?;
    add_input(&mut program, 0, 1, 2)?;
    add_site(&mut program, SiteKind::Operator(Op::Add), 3, 44)?;
    let mut then = Items::new(alloc);
    then.push(Statement::Simple(Simple::Count(CountCall::Move16)))?;
    let mut other = Items::new(alloc);
    other.push(set(alloc, 1, Op::Add, named(1), Expr::Constant(1), 0)?)?;
    other.push(Statement::Simple(Simple::Count(CountCall::Move16)))?;
    let mut statements = Items::new(alloc);
    statements.push(Statement::If {
        is_counted: false,
        condition: Condition::Compare {
            left: named(0),
            mark: Comparison::Equal,
            right: Expr::Constant(1),
        },
        then: Boxed::new(alloc, Statement::Block(then))?,
        otherwise: Some(Otherwise {
            is_counted: false,
            body: Boxed::new(alloc, Statement::Block(other))?,
        }),
    })?;
    add_function(alloc, &mut program, 0, statements)?;
    Ok(program)
}

fn frames_of(alloc: Global, frames: &[&[i64]]) -> Result<Vec<Inputs>, Fail> {
    let mut all = Vec::new(alloc);
    for numbers in frames {
        let mut values = List::new(alloc);
        for number in *numbers {
            values.push(*number)?;
        }
        all.push(Inputs { values })?;
    }
    Ok(all)
}

/// What is proved: numbers of the one object, and these bounds.
fn found(alloc: Global, object: u32, bounds: &[Bound]) -> Result<Findings, Fail> {
    let mut found = Findings {
        sites: List::new(alloc),
        loops: List::new(alloc),
        states: List::new(alloc),
        bounds: List::new(alloc),
    };
    found.states.push(StateLine {
        object,
        summary: Summary::Range(Interval {
            low: 0,
            high: 32767,
        }),
    })?;
    for bound in bounds {
        found.bounds.push(*bound)?;
    }
    Ok(found)
}

fn text(bytes: &[u8]) -> &str {
    std::str::from_utf8(bytes).unwrap_or("?")
}

#[test]
fn seen_beside_proved(rt: HostRuntime) -> Result<(), Fail> {
    let alloc = rt.alloc();
    let program = one_more(alloc)?;
    let weights = all_ones();
    let spec = specification(alloc, &[b"frame"])?;
    let found = found(alloc, 2, &[Bound::At(1)])?;
    let none: [&[i64]; 0] = [];
    let two: [&[i64]; 2] = [&[5], &[9]];
    for (frames, told) in [
        (
            frames_of(alloc, &two)?,
            "wmops observe 1\nframes 2\nstate 1 y seen 0..6 proved 0..32767\ncount 1 bound 1\n",
        ),
        (
            frames_of(alloc, &none)?,
            "wmops observe 1\nframes 0\nstate 1 y seen empty proved 0..32767\ncount 0 bound 1\n",
        ),
    ] {
        let seen = observe(alloc, &program, &weights, frames.as_slice(), 1000)?;
        let shown = observe_text(alloc, &program, &spec, &found, &seen)?;
        assert_eq!(rt; text(&shown), told);
    }
    Ok(())
}

#[test]
fn the_frame_that_stops_is_the_last(rt: HostRuntime) -> Result<(), Fail> {
    let alloc = rt.alloc();
    let program = quotient(alloc)?;
    let weights = all_ones();
    let spec = specification(alloc, &[b"frame"])?;
    let found = found(alloc, 2, &[Bound::At(1)])?;
    let three: [&[i64]; 3] = [&[5, 10], &[11, 10], &[1, 10]];
    let frames = frames_of(alloc, &three)?;
    let seen = observe(alloc, &program, &weights, frames.as_slice(), 1000)?;
    let shown = observe_text(alloc, &program, &spec, &found, &seen)?;
    assert_eq!(rt;
        text(&shown),
        "wmops observe 1\nframes 2\nstate 1 y seen 0..16384 proved 0..32767\ncount 1 bound 1\n"
    );
    Ok(())
}

#[test]
fn counts_by_function(rt: HostRuntime) -> Result<(), Fail> {
    let alloc = rt.alloc();
    let program = two_functions(alloc)?;
    let weights = all_ones();
    let spec = specification(alloc, &[b"low", b"high"])?;
    let found = found(alloc, 1, &[Bound::At(1), Bound::At(2)])?;
    let one: [&[i64]; 1] = [&[1]];
    let three: [&[i64]; 3] = [&[2], &[1], &[2]];
    for (frames, told) in [
        (
            frames_of(alloc, &one)?,
            "wmops observe 1\nframes 1\nstate 1 c seen 0..0 proved 0..32767\ncount 1 bound 1 in low\ncount 0 bound 2 in high\n",
        ),
        (
            frames_of(alloc, &three)?,
            "wmops observe 1\nframes 3\nstate 1 c seen 0..1 proved 0..32767\ncount 1 bound 1 in low\ncount 2 bound 2 in high\n",
        ),
    ] {
        let seen = observe(alloc, &program, &weights, frames.as_slice(), 1000)?;
        let shown = observe_text(alloc, &program, &spec, &found, &seen)?;
        assert_eq!(rt; text(&shown), told);
    }
    Ok(())
}

// Small programs, written as trees, and what the machine shows of them.
use sqlite_items::{Boxed, Items};
use std::alloc::Global;
use std::test::Fail;
use wm_interp::{Cause, End, FrameResult, Machine};
use wm_interval::Interval;
use wm_lang::Name;
use wm_ops::{CountCall, List, Op, Width};
use wm_program::{
    Array, Body, Comparison, Condition, Converted, Declared, Expr, FunctionInfo, InputInfo, Inputs,
    InstanceInfo, LocalInfo, ObjectInfo, PlainMark, Program, Scalar, Simple, Spot, Statement,
};
use wm_weights::all_ones;

/// A scalar of static storage, of this width.
fn object(alloc: Global, width: Width) -> Result<ObjectInfo, Fail> {
    Ok(ObjectInfo {
        name: Name::new(alloc, b"x")?,
        width,
        length: 1,
        scalar: true,
        constant: false,
        addressed: false,
        initial: List::new(alloc),
        input: false,
    })
}

/// A program of one frame function over scalars of these widths, of which the first ones are inputs.
fn program(
    alloc: Global,
    widths: &[Width],
    inputs: u32,
    locals: List<LocalInfo>,
    statements: Items<Statement>,
) -> Result<Program, Fail> {
    let mut objects = List::new(alloc);
    for width in widths {
        objects.push(object(alloc, *width)?)?;
    }
    let mut cells = List::new(alloc);
    for k in 0..inputs {
        cells.push(InputInfo {
            object: k,
            range: Interval::new(-2147483648, 2147483647),
        })?;
    }
    let mut functions = List::new(alloc);
    functions.push(FunctionInfo {
        name: Name::new(alloc, b"frame")?,
        result: None,
        locals,
        parameters: 0,
        body: Body { statements },
        tokens: 0,
    })?;
    let mut instances = List::new(alloc);
    instances.push(InstanceInfo {
        function: 0,
        caller: None,
        call: None,
        roots: List::new(alloc),
    })?;
    Ok(Program {
        functions,
        objects,
        sites: List::new(alloc),
        loops: List::new(alloc),
        instances,
        inputs: cells,
        constants: List::new(alloc),
        init: None,
        frame: 0,
    })
}

fn named(k: u32) -> Expr {
    Expr::Scalar(Scalar::Object(k))
}

fn as_it_is(value: Expr) -> Converted<Expr> {
    Converted {
        value,
        narrowing: None,
    }
}

fn operator(alloc: Global, op: Op, a: Expr, b: Option<Expr>, site: u32) -> Result<Expr, Fail> {
    let mut arguments = Items::new(alloc);
    arguments.push(as_it_is(a))?;
    if let Some(b) = b {
        arguments.push(as_it_is(b))?;
    }
    Ok(Expr::Operator {
        op,
        arguments,
        site,
    })
}

fn set(k: u32, value: Expr) -> Statement {
    Statement::Simple(Simple::Assign {
        spot: Spot::Scalar(Scalar::Object(k)),
        value: as_it_is(value),
    })
}

fn only(alloc: Global, statement: Statement) -> Result<Items<Statement>, Fail> {
    let mut statements = Items::new(alloc);
    statements.push(statement)?;
    Ok(statements)
}

/// The count, `Overflow`, the failures and the end, as text.
fn told(alloc: Global, shown: &FrameResult) -> Result<String, Fail> {
    let mut text = format!(in alloc; "{} {}", shown.count, shown.overflow)?;
    for event in shown.events.items() {
        let line = format!(in alloc;
            " {}:{}:{}",
            event.site,
            cause_name(event.cause),
            event.times
        )?;
        text.push_str(line.as_str())?;
    }
    let end = match shown.end {
        End::Ended => String::from_str(alloc, " ended")?,
        End::Stopped { site, cause } => format!(in alloc;
            " stopped {} {}",
            site,
            cause_name(cause)
        )?,
        End::StepLimit => String::from_str(alloc, " steps")?,
    };
    text.push_str(end.as_str())?;
    Ok(text)
}

fn cause_name(cause: Cause) -> &'static str {
    match cause {
        Cause::Saturates => "saturates",
        Cause::Domain => "domain",
        Cause::Index => "index",
        Cause::Arithmetic => "arithmetic",
        Cause::Narrowing => "narrowing",
        Cause::Unset => "unset",
    }
}

/// What the frames of one input list each show, in one text, after a start with this fill list.
fn frames_shown(
    alloc: Global,
    program: &Program,
    fill: &[i64],
    frames: &[[i64; 2]],
    steps: u64,
) -> Result<String, Fail> {
    let weights = all_ones();
    let mut machine = Machine::new(alloc, program, &weights)?;
    machine.start(Vec::from_slice(alloc, fill)?, steps)?;
    let mut text = String::new(alloc);
    for numbers in frames {
        let mut values = List::new(alloc);
        for number in numbers {
            values.push(*number)?;
        }
        let result = machine.run_frame(&Inputs { values }, steps)?;
        let line = told(alloc, &result)?;
        text.push_str(line.as_str())?;
        text.push_str("; ")?;
    }
    Ok(text)
}

// 11 / 10 is outside the domain; the run stops, and the next frame answers the same stop with nothing counted
#[test]
fn quotient_stops(rt: HostRuntime) -> Result<(), Fail> {
    let alloc = rt.alloc();
    let body = only(
        alloc,
        set(2, operator(alloc, Op::DivS, named(0), Some(named(1)), 0)?),
    )?;
    let widths = [Width::W16, Width::W16, Width::W16];
    let program = program(alloc, &widths, 2, List::new(alloc), body)?;
    let text = frames_shown(alloc, &program, &[], &[[5, 10], [11, 10], [1, 2]], 100)?;
    assert_eq!(rt;
        text.as_str(),
        "1 0 ended; 1 0 0:domain:1 stopped 0 domain; 0 0 stopped 0 domain; "
    );
    Ok(())
}

// the size of -32768 saturates and leaves Overflow
#[test]
fn size_saturates(rt: HostRuntime) -> Result<(), Fail> {
    let alloc = rt.alloc();
    let body = only(alloc, set(1, operator(alloc, Op::AbsS, named(0), None, 0)?))?;
    let program = program(alloc, &[Width::W16, Width::W16], 2, List::new(alloc), body)?;
    let text = frames_shown(alloc, &program, &[], &[[-32768, 0]], 100)?;
    assert_eq!(rt; text.as_str(), "1 0 0:saturates:1 ended; ");
    Ok(())
}

// `while (sub(x, 16384) < 0) x = shl(x, 1);` never ends from 0: ten steps count eight operators
#[test]
fn shifting_runs_out(rt: HostRuntime) -> Result<(), Fail> {
    let alloc = rt.alloc();
    let condition = Condition::Compare {
        left: operator(alloc, Op::Sub, named(0), Some(Expr::Constant(16384)), 0)?,
        mark: Comparison::Less,
        right: Expr::Constant(0),
    };
    let shift = set(
        0,
        operator(alloc, Op::Shl, named(0), Some(Expr::Constant(1)), 1)?,
    );
    let body = only(
        alloc,
        Statement::While {
            is_counted: false,
            number: 0,
            condition,
            body: Boxed::new(alloc, shift)?,
        },
    )?;
    let program = program(alloc, &[Width::W16, Width::W16], 2, List::new(alloc), body)?;
    let text = frames_shown(alloc, &program, &[], &[[1, 0], [0, 0], [1, 0]], 100)?;
    assert_eq!(rt; text.as_str(), "29 0 ended; 98 0 steps; 0 0 steps; ");
    let text = frames_shown(alloc, &program, &[], &[[0, 0]], 10)?;
    assert_eq!(rt; text.as_str(), "8 0 steps; ");
    Ok(())
}

// `for (;;) move16();`: an absent condition is a step, an absent step part is none
#[test]
fn endless_counts(rt: HostRuntime) -> Result<(), Fail> {
    let alloc = rt.alloc();
    let move16 = Statement::Simple(Simple::Count(CountCall::Move16));
    let body = only(
        alloc,
        Statement::For {
            is_counted: true,
            number: 0,
            begin: Items::new(alloc),
            condition: None,
            step: Items::new(alloc),
            body: Boxed::new(alloc, move16)?,
        },
    )?;
    let program = program(alloc, &[Width::W16, Width::W16], 2, List::new(alloc), body)?;
    let text = frames_shown(alloc, &program, &[], &[[0, 0]], 6)?;
    assert_eq!(rt; text.as_str(), "3 0 steps; ");
    Ok(())
}

// `Word16 t[4]; y = t[0];` reads an unset cell: the run stops, and that is no failure
#[test]
fn unset_stops(rt: HostRuntime) -> Result<(), Fail> {
    let alloc = rt.alloc();
    let mut locals = List::new(alloc);
    locals.push(LocalInfo {
        name: Name::new(alloc, b"t")?,
        width: Width::W16,
        array: Some(4),
        view: false,
        addressed: false,
    })?;
    let mut declared = Items::new(alloc);
    declared.push(Declared::Array {
        local: 0,
        length: 4,
        values: None,
    })?;
    let mut body = only(alloc, Statement::Declare(declared))?;
    body.push(set(
        1,
        Expr::Element {
            array: Array::Local(0),
            index: Boxed::new(alloc, Expr::Constant(0))?,
            site: 0,
        },
    ))?;
    let program = program(alloc, &[Width::W16, Width::W16], 2, locals, body)?;
    let text = frames_shown(alloc, &program, &[], &[[0, 0]], 100)?;
    assert_eq!(rt; text.as_str(), "0 0 stopped 0 unset; ");
    Ok(())
}

// a scalar without a value takes the next number of the fill list, clamped; the sum saturates once and Overflow stays
#[test]
fn fill_is_clamped(rt: HostRuntime) -> Result<(), Fail> {
    let alloc = rt.alloc();
    let mut locals = List::new(alloc);
    locals.push(LocalInfo {
        name: Name::new(alloc, b"v")?,
        width: Width::W16,
        array: None,
        view: false,
        addressed: false,
    })?;
    let mut declared = Items::new(alloc);
    declared.push(Declared::Scalar {
        local: 0,
        width: Width::W16,
        initial: None,
    })?;
    let mut body = only(alloc, Statement::Declare(declared))?;
    let local = Expr::Scalar(Scalar::Local(0));
    body.push(set(
        1,
        operator(alloc, Op::Add, local, Some(Expr::Constant(1)), 0)?,
    ))?;
    let program = program(alloc, &[Width::W16, Width::W16], 2, locals, body)?;
    let text = frames_shown(alloc, &program, &[40000, 5], &[[0, 0], [0, 0], [0, 0]], 100)?;
    assert_eq!(rt;
        text.as_str(),
        "1 1 0:saturates:1 ended; 1 1 ended; 1 1 ended; "
    );
    Ok(())
}

// an assignment of 32 bits to 16 stops where it does not fit, and `+=` stops as arithmetic past 32 bits
#[test]
fn wide_numbers_stop(rt: HostRuntime) -> Result<(), Fail> {
    let alloc = rt.alloc();
    let narrow = Statement::Simple(Simple::Assign {
        spot: Spot::Scalar(Scalar::Object(1)),
        value: Converted {
            value: named(0),
            narrowing: Some(0),
        },
    });
    let mut body = only(alloc, narrow)?;
    body.push(Statement::Simple(Simple::Update {
        spot: Spot::Scalar(Scalar::Object(2)),
        mark: PlainMark::Plus,
        value: Expr::Constant(2147483647),
        arithmetic: 1,
        narrowing: None,
    }))?;
    let widths = [Width::W32, Width::W16, Width::W32];
    let program = program(alloc, &widths, 2, List::new(alloc), body)?;
    let text = frames_shown(alloc, &program, &[], &[[32767, 0], [5, 0]], 100)?;
    assert_eq!(rt;
        text.as_str(),
        "0 0 ended; 0 0 1:arithmetic:1 stopped 1 arithmetic; "
    );
    let text = frames_shown(alloc, &program, &[], &[[32768, 0]], 100)?;
    assert_eq!(rt; text.as_str(), "0 0 0:narrowing:1 stopped 0 narrowing; ");
    Ok(())
}

// the cells of an object are none before a start, and its number after a frame
#[test]
fn cells_are_told(rt: HostRuntime) -> Result<(), Fail> {
    let alloc = rt.alloc();
    let body = only(
        alloc,
        set(1, operator(alloc, Op::Negate, named(0), None, 0)?),
    )?;
    let program = program(alloc, &[Width::W16, Width::W16], 1, List::new(alloc), body)?;
    let weights = all_ones();
    let mut machine = Machine::new(alloc, &program, &weights)?;
    assert!(rt; machine.cells(1).is_none());
    let before = machine.run_frame(
        &Inputs {
            values: List::new(alloc),
        },
        100,
    );
    assert!(rt; before.is_err());
    machine.start(Vec::new(alloc), 100)?;
    let mut values = List::new(alloc);
    values.push(7)?;
    machine.run_frame(&Inputs { values }, 100)?;
    let Some(cells) = machine.cells(1) else {
        assert!(rt; false);
        return Ok(());
    };
    assert_eq!(rt; cells, [Some(-7)].as_slice());
    Ok(())
}

// Small programs and specifications.
use sqlite_items::Items;
use std::alloc::Global;
use std::test::Fail;
use wm_interval::Interval;
use wm_lang::{Name, Place};
use wm_ops::{List, Op, Width};
use wm_program::{
    Body, Converted, Expr, FunctionInfo, InputInfo, InstanceInfo, ObjectInfo, Program, Scalar,
    Simple, SiteInfo, SiteKind, Spec, Spot, Statement,
};

/// A program without anything in it.
pub fn empty(alloc: Global) -> Program {
    Program {
        functions: List::new(alloc),
        objects: List::new(alloc),
        sites: List::new(alloc),
        loops: List::new(alloc),
        instances: List::new(alloc),
        inputs: List::new(alloc),
        constants: List::new(alloc),
        init: None,
        frame: 0,
    }
}

pub fn add_site(program: &mut Program, kind: SiteKind, line: u32, column: u32) -> Result<(), Fail> {
    program.sites.push(SiteInfo {
        kind,
        token: 0,
        place: Place {
            file: 0,
            line,
            column,
        },
    })?;
    Ok(())
}

pub fn add_object(
    alloc: Global,
    program: &mut Program,
    name: &[u8],
    constant: bool,
    input: bool,
) -> Result<(), Fail> {
    program.objects.push(ObjectInfo {
        name: Name::new(alloc, name)?,
        width: Width::W16,
        length: 1,
        scalar: true,
        constant,
        addressed: false,
        initial: List::new(alloc),
        input,
    })?;
    Ok(())
}

/// An input of this object.
pub fn add_input(program: &mut Program, object: u32, low: i64, high: i64) -> Result<(), Fail> {
    program.inputs.push(InputInfo {
        object,
        range: if low <= high {
            Interval::new(low, high)
        } else {
            Interval::new(high, high)
        },
    })?;
    Ok(())
}

/// The one function, of these statements, with its instance.
pub fn add_function(
    alloc: Global,
    program: &mut Program,
    tokens: u32,
    statements: Items<Statement>,
) -> Result<(), Fail> {
    program.functions.push(FunctionInfo {
        name: Name::new(alloc, b"f")?,
        result: None,
        locals: List::new(alloc),
        parameters: 0,
        body: Body { statements },
        tokens,
    })?;
    program.instances.push(InstanceInfo {
        function: 0,
        caller: None,
        call: None,
        roots: List::new(alloc),
    })?;
    Ok(())
}

pub fn named(object: u32) -> Expr {
    Expr::Scalar(Scalar::Object(object))
}

/// `target = op(a, b);`
pub fn set(
    alloc: Global,
    target: u32,
    op: Op,
    a: Expr,
    b: Expr,
    site: u32,
) -> Result<Statement, Fail> {
    let mut arguments = Items::new(alloc);
    for value in [a, b] {
        arguments.push(Converted {
            value,
            narrowing: None,
        })?;
    }
    let value = Expr::Operator {
        op,
        arguments,
        site,
    };
    Ok(Statement::Simple(Simple::Assign {
        spot: Spot::Scalar(Scalar::Object(target)),
        value: Converted {
            value,
            narrowing: None,
        },
    }))
}

/// A specification of the source `a.c` with these frame functions.
pub fn specification(alloc: Global, names: &[&[u8]]) -> Result<Spec, Fail> {
    let mut sources = List::new(alloc);
    sources.push(Name::new(alloc, b"a.c")?)?;
    let mut frames = List::new(alloc);
    for name in names {
        frames.push(Name::new(alloc, name)?)?;
    }
    Ok(Spec {
        sources,
        weights: None,
        certificate: None,
        init: None,
        frames,
        frame_us: None,
        pack: None,
        steps: 1000000,
        ranges: List::new(alloc),
    })
}

// Grids of small programs, worked by hand.
use std::alloc::Global;
use std::test::Fail;
use wm_grid::Grid;
use wm_interval::Interval;
use wm_lang::{Name, Place};
use wm_ops::{List, Width};
use wm_program::{InputInfo, LoopInfo, ObjectInfo, Program};

/// An object of the program by its length and what it begins with.
fn object(
    alloc: Global,
    length: u32,
    scalar: bool,
    constant: bool,
    numbers: &[i64],
) -> Result<ObjectInfo, Fail> {
    let mut initial = List::new(alloc);
    for number in numbers {
        initial.push(*number)?;
    }
    Ok(ObjectInfo {
        name: Name::new(alloc, b"x")?,
        width: Width::W32,
        length,
        scalar,
        constant,
        addressed: false,
        initial,
        input: false,
    })
}

/// A program with these numbers in its text and these loop steps, without objects.
fn program_of(alloc: Global, numbers: &[i64], steps: &[u32]) -> Result<Program, Fail> {
    let mut constants = List::new(alloc);
    for number in numbers {
        constants.push(*number)?;
    }
    let mut loops = List::new(alloc);
    for step in steps {
        loops.push(LoopInfo {
            function: 0,
            token: 0,
            place: Place {
                file: 0,
                line: 1,
                column: 1,
            },
            step: *step,
            depth: 0,
        })?;
    }
    Ok(Program {
        functions: List::new(alloc),
        objects: List::new(alloc),
        sites: List::new(alloc),
        loops,
        instances: List::new(alloc),
        inputs: List::new(alloc),
        constants,
        init: None,
        frame: 0,
    })
}

#[test]
fn powers_of_two_and_their_neighbours(rt: HostRuntime) -> Result<(), Fail> {
    let alloc = rt.alloc();
    let grid = Grid::of(alloc, &program_of(alloc, &[], &[])?)?;
    for (z, up, down) in [
        (0, Some(0), Some(0)),
        (6, Some(7), Some(5)),
        (10, Some(15), Some(9)),
        (-10, Some(-9), Some(-15)),
        (14, Some(15), Some(9)),
        (18, Some(31), Some(17)),
        (32766, Some(32767), Some(16385)),
        (2147483649, Some(2147483649), Some(2147483649)),
        (2147483650, None, Some(2147483649)),
        (-2147483650, Some(-2147483649), None),
        (9223372036854775807, None, Some(2147483649)),
    ] {
        assert_eq!(rt; grid.up(z), up, "above {z}");
        assert_eq!(rt; grid.down(z), down, "below {z}");
    }
    Ok(())
}

#[test]
fn numbers_of_the_text_with_their_steps(rt: HostRuntime) -> Result<(), Fail> {
    let alloc = rt.alloc();
    let grid = Grid::of(alloc, &program_of(alloc, &[40], &[4, 4, 10])?)?;
    for (z, up, down) in [
        (38, Some(39), Some(33)),
        (40, Some(40), Some(40)),
        (42, Some(43), Some(41)),
        (45, Some(49), Some(44)),
        (51, Some(63), Some(50)),
        (-42, Some(-41), Some(-43)),
        (-48, Some(-44), Some(-49)),
        (-51, Some(-50), Some(-63)),
    ] {
        assert_eq!(rt; grid.up(z), up, "above {z}");
        assert_eq!(rt; grid.down(z), down, "below {z}");
    }
    Ok(())
}

#[test]
fn numbers_of_ranges_and_objects(rt: HostRuntime) -> Result<(), Fail> {
    let alloc = rt.alloc();
    let mut program = program_of(alloc, &[], &[])?;
    program.inputs.push(InputInfo {
        object: 0,
        range: Interval::new(-4200, 32767),
    })?;
    program
        .objects
        .push(object(alloc, 600, false, true, &[9000])?)?;
    program
        .objects
        .push(object(alloc, 2, false, false, &[700, 800])?)?;
    program
        .objects
        .push(object(alloc, 2, false, false, &[1300])?)?;
    program
        .objects
        .push(object(alloc, 1, true, false, &[-5000])?)?;
    let grid = Grid::of(alloc, &program)?;
    for (z, up, down) in [
        (32766, Some(32766), Some(32766)),
        (4198, Some(4199), Some(4097)),
        (-4202, Some(-4201), Some(-4999)),
        (602, Some(699), Some(601)),
        (750, Some(799), Some(701)),
        (1100, Some(1299), Some(1025)),
        (6000, Some(8191), Some(5001)),
        (9000, Some(16383), Some(8193)),
    ] {
        assert_eq!(rt; grid.up(z), up, "above {z}");
        assert_eq!(rt; grid.down(z), down, "below {z}");
    }
    Ok(())
}

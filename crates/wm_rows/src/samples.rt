// Sample files: the numbers of their frames, and what is wrong with others.
use std::alloc::Global;
use std::test::Fail;
use wm_interval::Interval;
use wm_lang::Name;
use wm_ops::{List, Width};
use wm_program::{InputInfo, ObjectInfo, Program};
use wm_samples::{SampleFault, frames};

/// An object of the program, and its range where it is an input.
type Row = (Width, u32, Option<(i64, i64)>);

fn program_of(alloc: Global, rows: &[Row]) -> Result<Program, Fail> {
    let mut objects = List::new(alloc);
    let mut inputs = List::new(alloc);
    let mut number = 0u32;
    for (width, length, range) in rows {
        objects.push(ObjectInfo {
            name: Name::new(alloc, b"x")?,
            width: *width,
            length: *length,
            scalar: *length == 1,
            constant: false,
            addressed: false,
            initial: List::new(alloc),
            input: range.is_some(),
        })?;
        if let Some((low, high)) = range {
            let (low, high) = (*low, *high);
            if low <= high {
                let range = Interval::new(low, high);
                inputs.push(InputInfo {
                    object: number,
                    range,
                })?;
            }
        }
        number = number.saturating_add(1);
    }
    Ok(Program {
        functions: List::new(alloc),
        objects,
        sites: List::new(alloc),
        loops: List::new(alloc),
        instances: List::new(alloc),
        inputs,
        constants: List::new(alloc),
        init: None,
        frame: 0,
    })
}

/// The numbers of each frame, or the fault, as text.
fn told(alloc: Global, rows: &[Row], bytes: &[u8]) -> Result<String, Fail> {
    let program = program_of(alloc, rows)?;
    if program.inputs.items().len() >= 9 {
        return Ok(String::from_str(alloc, "too many inputs for this table")?);
    }
    let fault = match frames(alloc, bytes, &program) {
        Ok(frames) => {
            let mut text = String::new(alloc);
            for frame in &frames {
                text.push_str(format!(in alloc; "{:?}", frame.values.items())?.as_str())?;
            }
            return Ok(text);
        }
        Err(fault) => fault,
    };
    Ok(match fault {
        SampleFault::Rest { bytes } => format!(in alloc; "Rest {bytes}")?,
        SampleFault::OutOfRange {
            frame,
            input,
            cell,
            value,
        } => format!(in alloc; "frame {frame} input {input} cell {cell} value {value}")?,
        SampleFault::NoMemory => String::from_str(alloc, "NoMemory")?,
    })
}

const FULL: Option<(i64, i64)> = Some((-32768, 32767));

#[test]
fn reads_sample_files(rt: HostRuntime) -> Result<(), Fail> {
    let one = [(Width::W16, 1, Some((-32768, 32766)))].as_slice();
    let three = [(Width::W16, 3, Some((0, 9)))].as_slice();
    let wide = [(Width::W32, 1, Some((-2147483648, 2147483646)))].as_slice();
    let mixed = [
        (Width::W16, 1, FULL),
        (Width::W16, 4, None),
        (Width::W32, 1, Some((-1, 70000))),
    ]
    .as_slice();
    let call = [(Width::W16, 1, Some((1, 2)))].as_slice();
    let none = [(Width::W16, 5, None)].as_slice();
    let files = [
        (one, b"".as_slice(), ""),
        (one, b"\x01\x00\x02", "Rest 1"),
        (one, b"\xff\x7f", "frame 0 input 0 cell 0 value 32767"),
        (one, b"\xfe\x7f\x00\x80\xff\xff", "[32766][-32768][-1]"),
        (one, b"\xff\x7f\x01", "Rest 1"),
        (three, b"\x00\x00\x09\x00\x01\x00", "[0, 9, 1]"),
        (three, b"\x00\x00\x09\x00\x01\x00\x02\x00", "Rest 2"),
        (
            three,
            b"\x00\x00\x09\x00\x01\x00\x02\x00\x03\x00\x0a\x00",
            "frame 1 input 0 cell 2 value 10",
        ),
        (
            three,
            b"\x00\x00\xff\xff\x0a\x00",
            "frame 0 input 0 cell 1 value -1",
        ),
        (
            wide,
            b"\xfe\xff\xff\x7f\x00\x00\x00\x80",
            "[2147483646][-2147483648]",
        ),
        (
            wide,
            b"\xff\xff\xff\x7f",
            "frame 0 input 0 cell 0 value 2147483647",
        ),
        (wide, b"\x00\x00\x01", "Rest 3"),
        (mixed, b"\x02\x01\x70\x11\x01\x00", "[258, 70000]"),
        (
            mixed,
            b"\x02\x01\x71\x11\x01\x00",
            "frame 0 input 1 cell 0 value 70001",
        ),
        (call, b"\x02\x00\x01\x00", "[2][1]"),
        (call, b"\x03\x00", "frame 0 input 0 cell 0 value 3"),
        (none, b"", ""),
        (none, b"\x00\x00\x00", "Rest 3"),
    ];
    for (rows, bytes, want) in files {
        let got = told(rt.alloc(), rows, bytes)?;
        assert_eq!(rt; got.as_str(), want);
    }
    Ok(())
}

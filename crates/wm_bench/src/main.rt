//! The calls that other programs are set beside, on boxes, octagons and sources of a fixed generator. With the word `checksums` it
//! prints a line `NAME CHECKSUM` for each call, with `speed` a line `NAME CALLS_PER_SECOND CHECKSUM`; for the
//! tokens of a source the bytes are counted in place of calls.
#![tactic(auto)]

ghost use Rattle.std.specs.Prelude.{◌<◌, ◌≤◌};

mod boxes;
mod calls;
mod draws;
mod octagons;
mod sources;
mod timing;

use boxes::boxes_of;
use calls::Call;
use octagons::Drawn;
use std::alloc::Global;
use std::rt::{Clock, Env};
use std::{env, io};
use timing::{Pace, checksum_of, pace_of};
use wm_ops::{OPERATORS, Op, name, op_at};

/// What is printed of each call.
#[derive(Clone, Copy)]
enum Mode {
    Checksums,
    Speed,
}

// The mode that the first word names.
fn asked_mode<R: Env + Alloc<A = Global>>(rt: &R) -> io::Result<Mode> {
    let word = env::args(rt)?.nth(1).unwrap_or(String::new(rt.alloc()));
    match word.as_str() {
        "checksums" => Ok(Mode::Checksums),
        "speed" => Ok(Mode::Speed),
        _ => Err(io::Error::from(io::ErrorKind::InvalidInput)),
    }
}

fn print_call<R: Print + Clock + Alloc<A = Global>>(
    rt: &R,
    mode: Mode,
    name: &str,
    call: Call,
) -> io::Result<()> {
    match mode {
        Mode::Checksums => {
            let checksum = checksum_of(rt.alloc(), call)?;
            println!(rt; "{name} {checksum}")
        }
        Mode::Speed => {
            let Pace {
                calls_per_second,
                checksum,
            } = pace_of(rt, call)?;
            println!(rt; "{name} {calls_per_second:.0} {checksum}")
        }
    }
}

fn print_operator<R: Print + Clock + Alloc<A = Global>>(
    rt: &R,
    mode: Mode,
    op: Op,
) -> io::Result<()> {
    let operator = str::from_utf8(name(op)).unwrap_or("");
    let boxes = boxes_of(rt.alloc(), op)?;
    let hull = format!(in rt.alloc(); "hull {operator}")?;
    print_call(rt, mode, hull.as_str(), Call::Hull(boxes.as_slice()))?;
    let worst = format!(in rt.alloc(); "worst {operator}")?;
    print_call(rt, mode, worst.as_str(), Call::Worst(boxes.as_slice()))
}

fn print_octagon<R: Print + Clock + Alloc<A = Global>>(
    rt: &R,
    mode: Mode,
    variables: usize,
) -> io::Result<()>
    requires many { 1 < variables }
    requires few { variables ≤ 32 }
{
    let drawn = match Drawn::new(rt.alloc(), variables) {
        Ok(drawn) => drawn,
        Err(_) => return Err(io::Error::from(io::ErrorKind::OutOfMemory)),
    };
    let add = format!(in rt.alloc(); "octagon {variables} add_bound")?;
    print_call(rt, mode, add.as_str(), Call::AddBound(&drawn))?;
    let join = format!(in rt.alloc(); "octagon {variables} copy+join_with")?;
    print_call(rt, mode, join.as_str(), Call::CopyAndJoin(&drawn))?;
    let within = format!(in rt.alloc(); "octagon {variables} within itself")?;
    print_call(rt, mode, within.as_str(), Call::WithinItself(&drawn))
}

fn print_sources<R: Print + Clock + Alloc<A = Global>>(rt: &R, mode: Mode) -> io::Result<()> {
    let large = sources::large(rt.alloc())?;
    print_call(rt, mode, "lex large", Call::Lex(&large))?;
    let chain = sources::chain(rt.alloc())?;
    print_call(rt, mode, "lex chain", Call::Lex(&chain))
}

fn main(rt: HostRuntime) -> io::Result<()> {
    let mode = asked_mode(&rt)?;
    for number in 0..OPERATORS {
        if let Some(op) = op_at(number) {
            print_operator(&rt, mode, op)?;
        }
    }
    print_octagon(&rt, mode, 8)?;
    print_octagon(&rt, mode, 16)?;
    print_octagon(&rt, mode, 28)?;
    print_octagon(&rt, mode, 32)?;
    print_sources(&rt, mode)
}

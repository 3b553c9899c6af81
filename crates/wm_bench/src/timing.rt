//! How many calls are made in a second.

use crate::calls::Call;
use std::alloc::Global;
use std::io;
use std::rt::Clock;
use std::time::Instant;

// For how many milliseconds passes are begun, and the most passes.
const MILLISECONDS: u128 = 100;

const MOST_PASSES: u32 = 1000000;

/// What a call came to: how many were made in a second, and the checksum of a pass.
#[derive(Clone, Copy)]
pub(crate) struct Pace {
    pub(crate) calls_per_second: f64,
    pub(crate) checksum: i64,
}

/// Passes for a tenth of a second.
pub(crate) fn pace_of<R: Clock + Alloc<A = Global>>(rt: &R, call: Call) -> io::Result<Pace> {
    let start = Instant::now(rt)?;
    let mut sum: i64 = 0;
    let mut passes: u32 = 0;
    for pass in 0..MOST_PASSES {
        sum = sum.wrapping_add(checksum_of(rt.alloc(), call)?);
        passes = pass + 1;
        if start.elapsed(rt)?.as_millis() >= MILLISECONDS {
            break;
        }
    }
    let seconds = start.elapsed(rt)?.as_secs_f64();
    Ok(Pace {
        calls_per_second: f64::from(passes) * f64::from(call.times()) / seconds,
        checksum: of_one(sum, passes),
    })
}

/// The checksum of one pass.
pub(crate) fn checksum_of(alloc: Global, call: Call) -> io::Result<i64> {
    match call.pass(alloc) {
        Ok(checksum) => Ok(checksum),
        Err(_) => Err(io::Error::from(io::ErrorKind::OutOfMemory)),
    }
}

// The checksum of one of several equal passes, whose sum this is.
fn of_one(sum: i64, passes: u32) -> i64 {
    if passes == 0 {
        return 0;
    }
    sum / i64::from(passes)
}

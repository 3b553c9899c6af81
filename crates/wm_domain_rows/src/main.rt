//! Compares every call of both domains with plain enumeration of points, on small states of up to four variables and two
//! arrays from a fixed generator. For each domain it prints how many cases there were, and how many of them differ.
#![tactic(auto)]

mod cases;
mod draws;
mod forms;
mod picks;
mod points;
mod rounds;
mod shapes;
mod spreading;
mod telling;
mod worked;

use rounds::{Tally, all_rounds};
use std::io;
use wm_boxes::Boxes;
use wm_groups::Groups;

fn main(rt: HostRuntime) -> io::Result<()> {
    match all_rounds::<Boxes>(rt.alloc()) {
        Ok(Tally { cases, different }) => println!(rt;
            "boxes: cases {cases} different {different}"
        )?,
        Err(_) => return Err(io::Error::from(io::ErrorKind::OutOfMemory)),
    }
    match all_rounds::<Groups>(rt.alloc()) {
        Ok(Tally { cases, different }) => println!(rt;
            "groups: cases {cases} different {different}"
        ),
        Err(_) => Err(io::Error::from(io::ErrorKind::OutOfMemory)),
    }
}

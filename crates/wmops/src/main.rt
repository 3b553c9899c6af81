//! The command `wmops`: it hands its words to the top call, over the files and the standard output of the system, and ends
//! with the status that the call gives.
#![tactic(auto)]

mod beside;

use beside::Beside;
use std::alloc::Global;
use std::process::ExitCode;
use std::rt::Env;
use std::{env, io};
use wm_files::{RealFiles, RealOut, Sink};

/// The words after the program's name.
fn words_of<R: Env + Alloc<A = Global>>(rt: &R) -> io::Result<Vec<String>> {
    let mut words = Vec::new(rt.alloc());
    for word in env::args(rt)?.skip(1) {
        words.push(word)?;
    }
    Ok(words)
}

fn main(rt: HostRuntime) -> ExitCode {
    let alloc = rt.alloc();
    let mut out = RealOut::new(&rt);
    let words = match words_of(&rt) {
        Ok(words) => words,
        // A word that is not text is none of the command's, so it answers as to no words.
        Err(error) if error.kind() == io::ErrorKind::InvalidData => Vec::new(alloc),
        Err(_) => {
            let _ = out.put(b"fault 7 memory\n");
            return ExitCode::from(7);
        }
    };
    let mut files = Beside::new(alloc, RealFiles::new(&rt), &words);
    ExitCode::from(wm_run::run(alloc, &words, &mut files, &mut out))
}

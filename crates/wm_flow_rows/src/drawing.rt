// The graph of a source, as text.
use crate::printer::graph_text;
use std::alloc::Global;
use std::process::Abort;
use std::test::Fail;
use wm_files::MemoryFiles;
use wm_flow::Sum;
use wm_load::{Loaded, load};
use wm_lower::lower;
use wm_ops::NoMemory;
use wm_report::{RunFault, fault_text};

/// One source and no input.
pub(crate) const ALONE: &str = "source = \"a.c\"\n";

/// The program of a specification and a source.
fn loaded_of(
    alloc: Global,
    specification: &str,
    source: &str,
) -> Result<Result<Loaded, RunFault>, NoMemory> {
    let mut files = MemoryFiles::new(alloc, Vec::new(alloc));
    files.hold(b"s.toml", specification.as_bytes())?;
    files.hold(b"a.c", source.as_bytes())?;
    Ok(load(alloc, b"s.toml", &mut files))
}

/// The lines of the graph of a source for these sum counters, or the line of the fault.
pub(crate) fn drawing_of(
    alloc: Global,
    specification: &str,
    source: &str,
    sums: &[Sum],
) -> Result<Vec<u8>, Fail> {
    match loaded_of(alloc, specification, source)? {
        Ok(loaded) => {
            let graph = lower(alloc, &loaded.program, sums)?;
            Ok(graph_text(alloc, &graph)?.into_bytes())
        }
        Err(fault) => Ok(fault_text(alloc, &fault)?),
    }
}

/// Compares what was drawn with the lines that are wanted.
pub(crate) fn expect(rt: &impl Abort, drawn: &[u8], wanted: &str) {
    assert_eq!(rt; str::from_utf8(drawn), str::from_utf8(wanted.as_bytes()));
}

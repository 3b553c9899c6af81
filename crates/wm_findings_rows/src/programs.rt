// Small programs with just what a text looks at: sites, loops, objects and instances.
use std::alloc::Global;
use std::test::Fail;
use wm_lang::{Name, Place};
use wm_ops::{List, Width};
use wm_program::{InstanceInfo, LoopInfo, ObjectInfo, Program, SiteInfo, SiteKind, Spec};

pub fn place(line: u32, column: u32) -> Place {
    Place {
        file: 0,
        line,
        column,
    }
}

pub fn empty(alloc: Global) -> Program {
    Program {
        functions: List::new(alloc),
        objects: List::new(alloc),
        sites: List::new(alloc),
        loops: List::new(alloc),
        instances: List::new(alloc),
        inputs: List::new(alloc),
        constants: List::new(alloc),
        init: None,
        frame: 0,
    }
}

pub fn add_site(program: &mut Program, kind: SiteKind, line: u32, column: u32) -> Result<(), Fail> {
    program.sites.push(SiteInfo {
        kind,
        token: 0,
        place: place(line, column),
    })?;
    Ok(())
}

pub fn add_loop(program: &mut Program, line: u32, column: u32) -> Result<(), Fail> {
    program.loops.push(LoopInfo {
        function: 0,
        token: 0,
        place: place(line, column),
        step: 1,
        depth: 0,
    })?;
    Ok(())
}

pub fn add_object(alloc: Global, program: &mut Program, name: &[u8]) -> Result<(), Fail> {
    program.objects.push(ObjectInfo {
        name: Name::new(alloc, name)?,
        width: Width::W16,
        length: 1,
        scalar: true,
        constant: false,
        addressed: false,
        initial: List::new(alloc),
        input: false,
    })?;
    Ok(())
}

/// An instance that this one calls at this place, or a root.
pub fn add_instance(
    alloc: Global,
    program: &mut Program,
    caller: Option<u32>,
    call: Option<Place>,
) -> Result<(), Fail> {
    program.instances.push(InstanceInfo {
        function: 0,
        caller,
        call,
        roots: List::new(alloc),
    })?;
    Ok(())
}

/// A specification of the source `a.c` with these frame functions.
pub fn specification(alloc: Global, names: &[&[u8]], frame_us: Option<u32>) -> Result<Spec, Fail> {
    let mut sources = List::new(alloc);
    sources.push(Name::new(alloc, b"a.c")?)?;
    let mut frames = List::new(alloc);
    for name in names {
        frames.push(Name::new(alloc, name)?)?;
    }
    Ok(Spec {
        sources,
        weights: None,
        certificate: None,
        init: None,
        frames,
        frame_us,
        pack: None,
        steps: 1000000,
        ranges: List::new(alloc),
    })
}

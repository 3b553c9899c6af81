// The specification, and its source from the first line to the last.
ghost use Rattle.std.specs.Prelude.{◌≡◌, IfOk};
ghost use Rattle.wm_gen.specs.Example.{spec_text, source_text};

use crate::files::Example;
use crate::lines::{push_calls, push_functions, push_variables};
use crate::text::push_bytes;
use std::alloc::Global;
use wm_ops::{List, NoMemory};

/// The example of this many stages, each of which halves what it is given, adds half of what it kept, and keeps the sum.
/// The stages are numbered from 1.
pub fn example(alloc: Global, stages: u32) -> Result<Example, NoMemory>
    ensures spec { IfOk result (λ e. e.spec ≡ spec_text) }
    ensures source { IfOk result (λ e. e.source ≡ source_text stages) }
{
    let spec = spec_of(alloc)?;
    let source = source_of(alloc, stages)?;
    Ok(Example { spec, source })
}

#[tactic(auto, unfolding(crate::specs::Example::spec_text))]
fn spec_of(alloc: Global) -> Result<List<u8>, NoMemory>
    ensures { IfOk result (λ text. text ≡ spec_text) }
{
    let mut text = List::new(alloc);
    push_bytes(
        &mut text,
        b"source = \"demo.c\"\n[range]\nx = [-32768, 32767]\n",
    )?;
    Ok(text)
}

#[tactic(auto, unfolding(crate::specs::Example::source_text))]
fn source_of(alloc: Global, stages: u32) -> Result<List<u8>, NoMemory>
    ensures { IfOk result (λ text. text ≡ source_text stages) }
{
    let mut text = List::new(alloc);
    push_bytes(&mut text, b"Word16 x[8];\n")?;
    push_variables(&mut text, stages)?;
    push_functions(&mut text, stages)?;
    push_bytes(
        &mut text,
        b"void frame(void) {\n  Word16 i, v;\n  for (i = 0; i < 8; i++) {\n    v = x[i];\n",
    )?;
    push_calls(&mut text, stages)?;
    push_bytes(&mut text, b"  }\n}\n")?;
    Ok(text)
}

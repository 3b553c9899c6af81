// The three lines of a stage: its variable, its function and its call.
ghost use Rattle.std.specs.Prelude.{◌≡◌, ◌++◌, ◌+◌, OnOk};
ghost use Rattle.wm_gen.specs.Example.{variable_line, function_line, call_line, lines_to};

use crate::text::{push_bytes, push_number};
use wm_ops::{List, NoMemory};

#[tactic(auto, unfolding(crate::specs::Example::variable_line))]
fn push_variable(text: &mut List<u8>, stage: u32) -> Result<(), NoMemory>
    ensures { OnOk result (text.new ≡ text.old ++ variable_line stage) }
{
    push_bytes(text, b"static Word16 s")?;
    push_number(text, stage)?;
    push_bytes(text, b";\n")?;
    Ok(())
}

#[tactic(auto, unfolding(crate::specs::Example::function_line))]
fn push_function(text: &mut List<u8>, stage: u32) -> Result<(), NoMemory>
    ensures { OnOk result (text.new ≡ text.old ++ function_line stage) }
{
    push_bytes(text, b"static Word16 stage")?;
    push_number(text, stage)?;
    push_bytes(text, b"(Word16 v) { s")?;
    push_number(text, stage)?;
    push_bytes(text, b" = add(mult(s")?;
    push_number(text, stage)?;
    push_bytes(text, b", 16384), shr(v, 1)); return s")?;
    push_number(text, stage)?;
    push_bytes(text, b"; }\n")?;
    Ok(())
}

#[tactic(auto, unfolding(crate::specs::Example::call_line))]
fn push_call(text: &mut List<u8>, stage: u32) -> Result<(), NoMemory>
    ensures { OnOk result (text.new ≡ text.old ++ call_line stage) }
{
    push_bytes(text, b"    v = stage")?;
    push_number(text, stage)?;
    push_bytes(text, b"(v);\n")?;
    Ok(())
}

/// The variables of the stages from 1 on.
pub fn push_variables(text: &mut List<u8>, stages: u32) -> Result<(), NoMemory>
    ensures { OnOk result (text.new ≡ text.old ++ lines_to variable_line stages) }
{
    for before in 0..stages {
        push_variable(text, before + 1)?;
    }
    Ok(())
}

/// The functions of the stages from 1 on.
pub fn push_functions(text: &mut List<u8>, stages: u32) -> Result<(), NoMemory>
    ensures { OnOk result (text.new ≡ text.old ++ lines_to function_line stages) }
{
    for before in 0..stages {
        push_function(text, before + 1)?;
    }
    Ok(())
}

/// The calls of the stages from 1 on.
pub fn push_calls(text: &mut List<u8>, stages: u32) -> Result<(), NoMemory>
    ensures { OnOk result (text.new ≡ text.old ++ lines_to call_line stages) }
{
    for before in 0..stages {
        push_call(text, before + 1)?;
    }
    Ok(())
}

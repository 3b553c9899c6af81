// The functions with which a program begins.
ghost use Rattle.std.specs.Prelude.{◌≡◌, ◌==◌, if◌then◌else◌, OnOk, IfOk};
ghost use Rattle.std.specs.Option.{option_copied};
ghost use Rattle.wm_inputs.specs.Entries.{is_named, entry_of, missing_entry, with_number, entries_of};

use std::alloc::Global;
use wm_lang::Name;
use wm_ops::{List, NoMemory};
use wm_program::FunctionInfo;

/// Whether a name has these bytes.
pub(crate) fn is_named(name: &Name, word: &[u8]) -> bool
    ensures { result ≡ is_named name.now word.now }
{
    name.bytes() == word
}

fn without_parameters(function: &FunctionInfo, k: usize) -> Option<usize>
    ensures { result ≡ (if function.now.parameters == 0 then Some k else None) }
{
    if function.parameters == 0 {
        return Some(k);
    }
    None
}

/// The number of the function of this name, where it has no parameters.
#[tactic(auto, unfolding(crate::specs::Entries::entry_of))]
pub fn entry(functions: &[FunctionInfo], word: &[u8]) -> Option<usize>
    ensures entry { result ≡ entry_of functions.now word.now }
{
    for (k, function) in functions.iter().enumerate() {
        if is_named(&function.name, word) {
            return without_parameters(function, k);
        }
    }
    None
}

/// The first of the names that is no function without parameters.
pub fn missing_entry<'a>(functions: &[FunctionInfo], names: &'a [Name]) -> Option<&'a Name>
    ensures missing { option_copied result ≡ missing_entry functions.now names.now }
{
    for name in names {
        if entry(functions, name.bytes()).is_none() {
            return Some(name);
        }
    }
    None
}

/// Puts a number at the end, where there is one. One past 32 bits counts as want of memory.
fn push_number(numbers: &mut List<u32>, number: Option<usize>) -> Result<(), NoMemory>
    ensures { OnOk result (numbers.new ≡ with_number number numbers.old) }
{
    match number {
        None => Ok(()),
        Some(number) => match u32::try_from(number) {
            Ok(number) => numbers.push(number),
            Err(_) => Err(NoMemory),
        },
    }
}

/// The numbers of the functions of these names, in the order of the names.
#[tactic(auto, unfolding(crate::specs::Entries::entries_of))]
pub fn entries(
    alloc: Global,
    functions: &[FunctionInfo],
    names: &[Name],
) -> Result<List<u32>, NoMemory>
    ensures entries { IfOk result (λ numbers. numbers ≡ entries_of functions.now names.now) }
{
    let mut numbers = List::new(alloc);
    for name in names {
        push_number(&mut numbers, entry(functions, name.bytes()))?;
    }
    Ok(numbers)
}

// Counted words in programs.
ghost use Rattle.std.specs.Prelude.{◌≡◌, slice_get};
ghost use Rattle.wm_program.specs.Used.{in_function, in_instances, uses};

use crate::program::{FunctionInfo, InstanceInfo, Program};
use crate::words_in_bodies::in_statements;
use wm_ops::{Counted, counted_number};

fn in_function(functions: &[FunctionInfo], number: u32, word: usize, found: bool) -> bool
    ensures { result ≡ in_function word (slice_get functions.now number) found }
{
    match functions.get(number as usize) {
        Some(function) => in_statements(&function.body.statements, word, found),
        None => found,
    }
}

fn in_instances(
    functions: &[FunctionInfo],
    instances: &[InstanceInfo],
    word: usize,
    found: bool,
) -> bool
    ensures { result ≡ in_instances word functions.now instances.now found }
{
    let mut found = found;
    for instance in instances {
        found = in_function(functions, instance.function, word, found);
    }
    found
}

impl Program {
    /// Whether the word stands in the body of a function that has an instance. It takes no memory.
    #[tactic(auto, unfolding(crate::specs::Used::uses))]
    pub fn uses(&self, word: Counted) -> bool
        ensures uses { result ≡ uses self.now word }
    {
        in_instances(
            self.functions.items(),
            self.instances.items(),
            counted_number(word),
            false,
        )
    }
}

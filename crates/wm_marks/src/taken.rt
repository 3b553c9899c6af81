// The variables whose address is taken. A hash table finds them.
ghost use Rattle.std.specs.Prelude.{◌≡◌, [], OnOk};
ghost use Rattle.wm_marks.specs.Marking.{has, with_number};

use indexmap::IndexSet;
use std::alloc::Global;
use std::marker::Model;
use wm_ops::NoMemory;

/// Numbers of variables, each once, which contracts see as their list in the order in which they came.
#[derive(Drop)]
pub struct Taken {
    numbers: IndexSet<u32>,
}

impl Model for Taken {
    ghost use Rattle.std.specs.Prelude.{ℕ, List};

    ghost Value = { List ℕ };

    ghost view = { λ taken. taken.numbers.keys };
}

impl Taken {
    /// No numbers, without memory.
    pub fn new(alloc: Global) -> Taken
        ensures nothing { result ≡ [] }
    {
        Taken {
            numbers: IndexSet::new(alloc),
        }
    }

    /// Whether a number is one of these.
    pub fn has(&self, number: u32) -> bool
        ensures among { result ≡ has number self.now }
    {
        self.numbers.contains(&number)
    }

    /// Puts a number at the end, unless it is there.
    pub fn add(&mut self, number: u32) -> Result<(), NoMemory>
        ensures added { OnOk result (self.new ≡ with_number number self.old) }
    {
        self.numbers.insert(number)?;
        Ok(())
    }
}

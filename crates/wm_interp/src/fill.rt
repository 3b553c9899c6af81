// The fill list: numbers that automatic scalars without a value take.
ghost use Rattle.std.specs.Prelude.{◌≡◌, drop};
ghost use Rattle.wm_program.specs.Execution.{take_fill, rest_of};

use std::marker::Model;

/// The fill list, which contracts see as the numbers that are left.
#[derive(Drop)]
pub(crate) struct Fill {
    numbers: Vec<i64>,
    taken: usize,
}

impl Model for Fill {
    ghost use Rattle.std.specs.Prelude.{ℤ, List, drop};

    ghost Value = { List ℤ };

    ghost view = { λ fill. drop fill.taken fill.numbers.items };
}

impl Fill {
    /// A list of which none is taken.
    pub(crate) fn new(numbers: Vec<i64>) -> Fill
        ensures { result ≡ numbers.items }
    {
        Fill { numbers, taken: 0 }
    }

    /// Takes the next number; 0 where the list has ended.
    pub(crate) fn take(&mut self) -> i64
        ensures number { result ≡ take_fill self.old }
        ensures rest { self.new ≡ rest_of self.old }
    {
        match self.numbers.get(self.taken) {
            Some(number) => {
                let number = *number;
                self.taken += 1;
                number
            }
            None => 0,
        }
    }
}

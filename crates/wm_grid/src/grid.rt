// The grid as a sorted list of its numbers.
ghost use Rattle.std.specs.Prelude.{◌≡◌, ◌↔◌, ℤ, [], IfOk, MatchOption};
ghost use Rattle.std.specs.List.{Contains};
ghost use Rattle.wm_numbers.specs.Extremes.{LeastOf, GreatestOf};
ghost use Rattle.wm_grid.specs.Grid.{grid_numbers, IsAtOrAbove, IsAtOrBelow, Ascends};

use crate::beside::push_powers;
use crate::given::{push_functions, push_numbers, push_objects, push_ranges};
use crate::nearest::{first_at_or_above, last_at_or_below};
use crate::steps::steps_of;
use std::alloc::{AllocError, Global};
use std::marker::Model;
use wm_ops::NoMemory;
use wm_program::Program;

/// The numbers at which bounds are looked for.
#[derive(Drop)]
pub struct Grid {
    numbers: Vec<i64>,
}

impl Model for Grid {
    ghost use Rattle.std.specs.Prelude.{List, ℤ};
    ghost use Rattle.wm_grid.specs.Grid.{Ascends};

    ghost Value = { List ℤ };

    ghost view = { λ grid. grid.numbers.items };

    ghost invariant = { λ grid. Ascends grid.numbers.items };
}

/// The numbers of the grid of a program, in the order in which its parts give them.
fn numbers_of(alloc: Global, program: &Program) -> Result<Vec<i64>, AllocError>
    ensures { IfOk result (λ numbers. numbers.items ≡ grid_numbers program.now) }
{
    let steps = steps_of(alloc, program.loops.items())?;
    let mut numbers = Vec::new(alloc);
    push_powers(&mut numbers)?;
    push_numbers(&mut numbers, &steps, program.constants.items())?;
    push_ranges(&mut numbers, &steps, program.inputs.items())?;
    push_objects(&mut numbers, &steps, program.objects.items())?;
    push_functions(&mut numbers, &steps, program.functions.items())?;
    Ok(numbers)
}

/// The numbers in order.
fn sorted(mut numbers: Vec<i64>) -> Result<Vec<i64>, AllocError>
    ensures same { IfOk result (λ list. (y : ℤ) → Contains list.items y ↔ Contains numbers.items y) }
    ensures ascends { IfOk result (λ list. Ascends list.items) }
{
    numbers.sort()?;
    Ok(numbers)
}

impl Grid {
    /// The grid of a program. It has 0, each `2^k` for k from 0 to 31, and for each number `c` of the function bodies, end
    /// of an input's range, array's length, and least or greatest initial number of an object that is not const: `c`, and
    /// `c + s` for each loop step `s`. With each of these it has the number below, with each `2^k` and `c` the number
    /// above, and with each number its negative.
    pub fn of(alloc: Global, program: &Program) -> Result<Grid, NoMemory>
        ensures numbers { IfOk result (λ grid. (y : ℤ) → Contains grid y ↔ Contains (grid_numbers program.now) y) }
    {
        let numbers = sorted(numbers_of(alloc, program)?)?;
        Ok(Grid { numbers })
    }

    /// The least number of the grid at or above `z`; None exactly where there is none. No memory.
    pub fn up(&self, z: i64) -> Option<i64>
        ensures nearest { MatchOption result ((y : ℤ) → IsAtOrAbove self.now z y → ⊥) (λ y. LeastOf (IsAtOrAbove self.now z) y) }
    {
        first_at_or_above(self.numbers.as_slice(), z)
    }

    /// The greatest number of the grid at or below `z`; None exactly where there is none. No memory.
    pub fn down(&self, z: i64) -> Option<i64>
        ensures nearest { MatchOption result ((y : ℤ) → IsAtOrBelow self.now z y → ⊥) (λ y. GreatestOf (IsAtOrBelow self.now z) y) }
    {
        last_at_or_below(self.numbers.as_slice(), z)
    }
}

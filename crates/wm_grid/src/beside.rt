// The numbers that a grid has beside a given one, with their negatives.
ghost use Rattle.std.specs.Prelude.{◌≡◌, ◌≤◌, ◌^◌, ◌++◌, ◌+ℤ◌, neg_ℤ, ℤ, pos, OnOk};
ghost use Rattle.wm_grid.specs.Beside.{kept, both, next_to, stepped_by, stepped, near, powers_to};

use std::alloc::AllocError;

/// Puts a number of 64 bits at the end, and no other.
#[tactic(auto, unfolding(crate::specs::Beside::kept))]
fn push_kept(numbers: &mut Vec<i64>, z: i128) -> Result<(), AllocError>
    ensures { OnOk result (numbers.new.items ≡ numbers.old.items ++ kept z) }
{
    if z < -9223372036854775808 {
        return Ok(());
    }
    if z > 9223372036854775807 {
        return Ok(());
    }
    numbers.push(z as i64)?;
    Ok(())
}

/// The sum of two numbers.
fn sum_of(c: i64, more: i64) -> i128
    ensures { result ≡ c +ℤ more }
{
    i128::from(c) + i128::from(more)
}

/// The negative of the sum of two numbers.
fn negated_sum_of(c: i64, more: i64) -> i128
    ensures { result ≡ neg_ℤ (c +ℤ more) }
{
    -(i128::from(c) + i128::from(more))
}

/// The sum of two numbers, and its negative.
#[tactic(auto, unfolding(crate::specs::Beside::both))]
fn push_both(numbers: &mut Vec<i64>, c: i64, more: i64) -> Result<(), AllocError>
    ensures { OnOk result (numbers.new.items ≡ numbers.old.items ++ both (c +ℤ more)) }
{
    push_kept(numbers, sum_of(c, more))?;
    push_kept(numbers, negated_sum_of(c, more))
}

/// The number, that below and that above it.
#[tactic(auto, unfolding(crate::specs::Beside::next_to))]
fn push_next_to(numbers: &mut Vec<i64>, c: i64) -> Result<(), AllocError>
    ensures { OnOk result (numbers.new.items ≡ numbers.old.items ++ next_to c) }
{
    push_both(numbers, c, -1)?;
    push_both(numbers, c, 0)?;
    push_both(numbers, c, 1)
}

/// What a step makes of the number, and the one below.
#[tactic(auto, unfolding(crate::specs::Beside::stepped_by))]
fn push_step(numbers: &mut Vec<i64>, c: i64, step: u32) -> Result<(), AllocError>
    ensures { OnOk result (numbers.new.items ≡ numbers.old.items ++ stepped_by c step) }
{
    push_both(numbers, c, i64::from(step) - 1)?;
    push_both(numbers, c, i64::from(step))
}

/// What each step makes of the number, and the one below.
fn push_stepped(numbers: &mut Vec<i64>, steps: &[u32], c: i64) -> Result<(), AllocError>
    ensures { OnOk result (numbers.new.items ≡ numbers.old.items ++ stepped c steps.now) }
{
    for step in steps {
        push_step(numbers, c, *step)?;
    }
    Ok(())
}

/// All numbers beside one that the program gives.
#[tactic(auto, unfolding(crate::specs::Beside::near))]
pub fn push_near(numbers: &mut Vec<i64>, steps: &[u32], c: i64) -> Result<(), AllocError>
    ensures { OnOk result (numbers.new.items ≡ numbers.old.items ++ near steps.now c) }
{
    push_next_to(numbers, c)?;
    push_stepped(numbers, steps, c)
}

/// 2 to the power `k`.
fn power_of_two(k: u32) -> i64
    requires { k ≤ 32 }
    ensures { result ≡ pos (2 ^ k) }
{
    (1_u64 << k) as i64
}

/// The first 32 powers of two, and the numbers next to them.
pub fn push_powers(numbers: &mut Vec<i64>) -> Result<(), AllocError>
    ensures { OnOk result (numbers.new.items ≡ numbers.old.items ++ powers_to 32) }
{
    for k in 0..32u32 {
        push_next_to(numbers, power_of_two(k))?;
    }
    Ok(())
}

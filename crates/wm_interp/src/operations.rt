// Single operations: counts, tests at a site, operators, and cells that are read.
ghost use Rattle.std.specs.Prelude.{◌≡◌, [], ◌∷◌, neg_ℤ, OnOk, IfOk};
ghost use Rattle.wm_program.specs.Numbers as numbers;
ghost use Rattle.wm_interp.specs.declared.halt.Halt as halts;
ghost use Rattle.wm_interp.specs.Held.{Goes, Gets, tested_on, flagged_on, failed_if_on};
ghost use Rattle.wm_interp.specs.Going.{counted_on, counting_on, converted_on, computed_on, operate_on, read_on, reach_on, element_on, view_on};
ghost use Rattle.wm_interp.specs.Seen.{held_of, setting_of, numbers_in};

use crate::access::{length_of, number_at, offset, root_of};
use crate::halt::{Halt, Location, Refusal};
use crate::memory::Memory;
use crate::numbers::{args_fit, is_outside, leaves16, leaves32, natural, plain};
use crate::scene::Scene;
use wm_ops::{ControlWord, Counted, Op, Outcome, apply};
use wm_program::{Array, Cause, End, PlainMark};

/// Counts a word.
#[tactic(auto, unfolding(crate::specs::Seen::setting_of))]
pub(crate) fn count(memory: &mut Memory, at: &Scene, word: Counted) -> Result<(), Refusal>
    ensures { OnOk result (held_of memory.new ≡ counted_on (setting_of at.now) word (held_of memory.old)) }
{
    let weight = match at.weights.weight(word) {
        Some(weight) => weight,
        None => 0,
    };
    memory.add_weight(weight)
}

/// Counts a control word where it is written in capitals.
pub(crate) fn count_if(
    memory: &mut Memory,
    at: &Scene,
    is_counted: bool,
    word: ControlWord,
) -> Result<(), Refusal>
    ensures { OnOk result (held_of memory.new ≡ counting_on (setting_of at.now) is_counted word (held_of memory.old)) }
{
    if is_counted {
        return count(memory, at, Counted::Word(word));
    }
    Ok(())
}

/// A number whose site fails or not.
pub(crate) fn tested(
    memory: &mut Memory,
    site: u32,
    cause: Cause,
    fails: bool,
    z: i64,
) -> Result<i64, Halt>
    ensures { Goes result (held_of memory.new) (tested_on site cause fails z (held_of memory.old)) }
{
    if fails {
        memory.fail(site, cause)?;
        return Err(Halt::Over(End::Stopped { site, cause }));
    }
    Ok(z)
}

/// A conversion to 16 bits, where it is a site.
pub(crate) fn converted(memory: &mut Memory, narrowing: Option<u32>, z: i64) -> Result<i64, Halt>
    ensures { Goes result (held_of memory.new) (converted_on narrowing z (held_of memory.old)) }
{
    match narrowing {
        Some(site) => tested(memory, site, Cause::Narrowing, leaves16(z), z),
        None => Ok(z),
    }
}

/// A plain operator of two numbers.
pub(crate) fn computed(
    memory: &mut Memory,
    site: u32,
    mark: PlainMark,
    a: i64,
    b: i64,
) -> Result<i64, Halt>
    ensures { Goes result (held_of memory.new) (computed_on site (numbers.plain_of mark a b) (held_of memory.old)) }
{
    match plain(mark, a, b) {
        Some(z) => tested(memory, site, Cause::Arithmetic, leaves32(z), z),
        None => Err(Halt::Refused(Refusal::Unfit)),
    }
}

/// The minus before a number.
pub(crate) fn negated(memory: &mut Memory, site: u32, z: i64) -> Result<i64, Halt>
    ensures { Goes result (held_of memory.new) (computed_on site (neg_ℤ z) (held_of memory.old)) }
{
    match z.checked_neg() {
        Some(z) => tested(memory, site, Cause::Arithmetic, leaves32(z), z),
        None => Err(Halt::Refused(Refusal::Unfit)),
    }
}

/// The numbers that an operator takes; those that it does not take are 0.
#[derive(Clone, Copy)]
pub(crate) struct Operands {
    pub(crate) a: i64,
    pub(crate) b: i64,
    pub(crate) c: i64,
}

impl Operands {
    pub(crate) fn of(a: i64, b: i64, c: i64) -> Operands
        ensures { numbers_in result ≡ a ∷ b ∷ c ∷ [] }
    {
        Operands { a, b, c }
    }
}

/// An operator at its numbers. It is counted before its value or its domain is looked at.
#[tactic(auto, unfolding(crate::specs::Going::operate_on))]
pub(crate) fn operate(
    memory: &mut Memory,
    at: &Scene,
    op: Op,
    site: u32,
    with: Operands,
) -> Result<i64, Halt>
    ensures { Goes result (held_of memory.new) (operate_on (setting_of at.now) op site (numbers_in with) (held_of memory.old)) }
{
    if !args_fit(op, with.a, with.b, with.c) {
        return Err(Halt::Refused(Refusal::Unfit));
    }
    count(memory, at, Counted::Operator(op))?;
    match apply(op, &[with.a, with.b, with.c]) {
        Outcome::Value {
            value,
            saturates,
            flag,
        } => {
            saturated(memory, site, saturates, flag)?;
            Ok(value)
        }
        Outcome::OutOfDomain => {
            memory.fail(site, Cause::Domain)?;
            Err(Halt::Over(End::Stopped {
                site,
                cause: Cause::Domain,
            }))
        }
    }
}

/// Notes that an operator saturated, and that it set the flag.
fn saturated(memory: &mut Memory, site: u32, saturates: bool, flag: bool) -> Result<(), Refusal>
    ensures { OnOk result (held_of memory.new ≡ flagged_on flag (failed_if_on saturates site Cause.Saturates (held_of memory.old))) }
{
    if saturates {
        memory.fail(site, Cause::Saturates)?;
    }
    if flag {
        memory.overflow = 1;
    }
    Ok(())
}

/// A cell that is read at a site.
#[tactic(auto, unfolding(crate::specs::Going::read_on))]
pub(crate) fn read(memory: &Memory, site: u32, location: Location) -> Result<i64, Halt>
    ensures { Goes result (held_of memory.now) (read_on site location (held_of memory.now)) }
{
    match number_at(memory, location) {
        Some(z) => Ok(z),
        None => Err(Halt::Over(End::Stopped {
            site,
            cause: Cause::Unset,
        })),
    }
}

/// Where an element stands, whose index is tested.
#[tactic(auto, unfolding(crate::specs::Going::reach_on, crate::specs::Going::offset_on, crate::specs::Seen::setting_of))]
pub(crate) fn reach(
    memory: &mut Memory,
    at: &Scene,
    array: Array,
    site: u32,
    i: i64,
) -> Result<Location, Halt>
    ensures { Goes result (held_of memory.new) (reach_on (setting_of at.now) array site i (held_of memory.old)) }
{
    let root = root_of(at, array);
    let Some(z) = offset(memory, at, array).checked_add(i) else {
        return Err(Halt::Refused(Refusal::Unfit));
    };
    let outside = is_outside(length_of(at.program, root), z);
    let z = tested(memory, site, Cause::Index, outside, z)?;
    Ok(Location::Cell {
        root,
        index: natural(z),
    })
}

/// An element.
#[tactic(auto, unfolding(crate::specs::Going::element_on))]
pub(crate) fn element(
    memory: &mut Memory,
    at: &Scene,
    array: Array,
    site: u32,
    i: i64,
) -> Result<i64, Halt>
    ensures { Goes result (held_of memory.new) (element_on (setting_of at.now) array site i (held_of memory.old)) }
{
    let location = reach(memory, at, array, site, i)?;
    read(memory, site, location)
}

/// The beginning of a view, which may be the end of its root.
#[tactic(auto, unfolding(crate::specs::Going::view_on, crate::specs::Going::offset_on, crate::specs::Seen::setting_of))]
pub(crate) fn view_from(
    memory: &mut Memory,
    at: &Scene,
    array: Array,
    site: u32,
    i: i64,
) -> Result<i64, Halt>
    ensures { Goes result (held_of memory.new) (view_on (setting_of at.now) array site i (held_of memory.old)) }
{
    let Some(z) = offset(memory, at, array).checked_add(i) else {
        return Err(Halt::Refused(Refusal::Unfit));
    };
    let Some(end) = length_of(at.program, root_of(at, array)).checked_add(1) else {
        return Err(Halt::Refused(Refusal::Unfit));
    };
    tested(memory, site, Cause::Index, is_outside(end, z), z)
}

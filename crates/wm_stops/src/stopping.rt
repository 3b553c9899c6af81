// Where a run may stop.
ghost use Rattle.std.specs.Prelude.{◌≡◌};
ghost use Rattle.wm_domain.specs.States.{count_of};

use wm_domain::{Domain, Form, Shape};
use wm_failing::{Trial, first_failing};
use wm_flow::Action;
use wm_interval::Interval;
use wm_ops::{NoMemory, Op};
use wm_program::PlainMark;
use wm_sight::{argument, form_stays, word};

/// Whether a plain operation on two operands of 32 bits may leave 32 bits.
fn computing_stops<D: Domain>(
    shape: &Shape,
    label: &D,
    mark: PlainMark,
    args: &[Form; 2],
) -> Result<bool, NoMemory>
    requires shape { D.shape_of label.now ≡ shape.now }
{
    match word(shape, label, &args[0])? {
        None => Ok(false),
        Some(x) => match word(shape, label, &args[1])? {
            None => Ok(false),
            Some(y) => {
                let boxes = [x, y, Interval { low: 0, high: 0 }];
                Ok(first_failing(Trial::Computes(mark), &boxes).is_some())
            }
        },
    }
}

/// Whether a quotient of 16 bits has arguments in the boxes outside 0 <= x <= y, 0 < y.
fn leaves_domain(x: Interval, y: Interval) -> bool {
    if x.low < 0 {
        return true;
    }
    if y.low <= 0 {
        return true;
    }
    y.low < x.high
}

fn dividing_stops<D: Domain>(
    shape: &Shape,
    label: &D,
    op: Op,
    args: &[Form; 3],
) -> Result<bool, NoMemory>
    requires shape { D.shape_of label.now ≡ shape.now }
{
    if op != Op::DivS {
        return Ok(false);
    }
    match argument(shape, label, op, 0, &args[0])? {
        None => Ok(false),
        Some(x) => match argument(shape, label, op, 1, &args[1])? {
            None => Ok(false),
            Some(y) => Ok(leaves_domain(x, y)),
        },
    }
}

/// Whether a form takes a value outside two numbers at some point.
fn testing_stops<D: Domain>(
    shape: &Shape,
    label: &D,
    form: &Form,
    low: i64,
    high: i64,
) -> Result<bool, NoMemory>
    requires shape { D.shape_of label.now ≡ shape.now }
{
    let stays = form_stays(shape, label, form, low, high)?;
    Ok(!stays)
}

/// Whether a run may stop at a node, by its label, which has the shape, and the action of an edge behind it: a test whose form
/// takes a value outside its limits, a plain operation whose result may leave 32 bits, a quotient of 16 bits that may leave its
/// domain, and a read of an automatic array, which are those behind the first `statics` arrays. A label without a point stops
/// nothing. What no graph of a program has is want of memory.
pub fn stops<D: Domain>(
    shape: &Shape,
    statics: u32,
    action: &Action,
    label: &D,
) -> Result<bool, NoMemory>
    requires shape { D.shape_of label.now ≡ shape.now }
{
    match action {
        Action::Plain { mark, args, .. } => computing_stops(shape, label, *mark, args),
        Action::Operate { op, args, .. } => dividing_stops(shape, label, *op, args),
        Action::Test {
            form,
            low,
            high,
            ..
        } => testing_stops(shape, label, form, *low, *high),
        Action::Read { array, .. } => Ok(statics <= *array),
        Action::AssignForm { .. } => Ok(false),
        Action::Cast { .. } => Ok(false),
        Action::AssignRange { .. } => Ok(false),
        Action::SetArray { .. } => Ok(false),
        Action::Write { .. } => Ok(false),
        Action::Clear { .. } => Ok(false),
        Action::Keep { .. } => Ok(false),
        Action::Count { .. } => Ok(false),
        Action::Enter { .. } => Ok(false),
        Action::Leave { .. } => Ok(false),
        Action::Reset { .. } => Ok(false),
        Action::Turn { .. } => Ok(false),
        Action::Tie { .. } => Ok(false),
        Action::Inputs { .. } => Ok(false),
    }
}

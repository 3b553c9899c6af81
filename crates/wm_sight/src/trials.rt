// What the edges of a site show.
ghost use Rattle.std.specs.Prelude.{◌≡◌, ◌≤ℤ◌, ◌<◌, ◌↔◌, IfOk, MatchOption, length, true, pos, negsuc, [], ◌∷◌, None};
ghost use Rattle.wm_numbers.specs.Within.{Within};
ghost use Rattle.wm_domain.specs.Points.{Point};
ghost use Rattle.wm_domain.specs.Forms.{form_value};
ghost use Rattle.wm_domain.specs.States.{count_of, array_count};
ghost use Rattle.wm_ops.specs.Arguments.{FitsAt};
ghost use Rattle.wm_hull.specs.Boxes.{zero_box};
ghost use Rattle.wm_hull.specs.Ranges.{IsBox32};
ghost use Rattle.wm_failing.specs.declared.trial.Trial.TheVariants.{Applies, Computes, Negates, Stays};
ghost use Rattle.wm_failing.specs.Trials.{TrialFits, box_at};
ghost use Rattle.wm_sight.specs.Operands.{Misses, Boxes};
ghost use Rattle.wm_sight.specs.Ranges as ranges;
ghost use Rattle.wm_sight.specs.Sums as sums;
ghost use Rattle.wm_sight.specs.Sights.{HasBox, IsOut, argument_of, tested_of, word_of, form_at, shown_of, AreBoxes, StaysIn, FitsByForm, IsShown, IsTried, IsOperated, IsTested, IsRead, IsSeen};

use crate::forms::is_form;
use crate::ranges::{cut_range, stays};
use crate::sums::sum_of;
use std::alloc::Global;
use wm_arrays::Summary;
use wm_domain::{Domain, Form, Shape};
use wm_failing::{Trial, first_failing};
use wm_flow::{Action, Combined};
use wm_interval::Interval;
use wm_ops::{NoMemory, Op, Width, arg_width, arity};
use wm_program::{PlainMark, SiteKind};
use wm_tally::{Failure, Seen};

/// How many variables a shape has.
fn variables(shape: &Shape) -> usize
    ensures { result ≡ count_of shape.now }
{
    shape.group.items().len() + shape.singles.items().len()
}

/// The range of an operand, cut to the numbers from `low` to `high`; None where nothing is left. What is no form of the
/// shape, which no graph of a program has, is refused.
fn operand<D: Domain>(
    shape: &Shape,
    label: &D,
    form: &Form,
    low: i64,
    high: i64,
) -> Result<Option<Interval>, NoMemory>
    requires shape { D.shape_of label.now ≡ shape.now }
    requires order { low ≤ℤ high }
    ensures cut { IfOk result (λ box. MatchOption box (Misses (D.holds label.now) form.now low high) (Boxes (D.holds label.now) form.now low high)) }
    ensures boxed { IfOk result (λ box. MatchOption box (ranges.HasNoBox (D.holds label.now) form.now low high) (ranges.IsBox (D.holds label.now) form.now low high)) }
{
    if is_form(variables(shape), form) {
        return Ok(cut_range(label, form, low, high));
    }
    Err(NoMemory)
}

/// The box of an operand of 32 bits.
pub fn word<D: Domain>(shape: &Shape, label: &D, form: &Form) -> Result<Option<Interval>, NoMemory>
    requires shape { D.shape_of label.now ≡ shape.now }
    ensures cut { IfOk result (λ box. MatchOption box (Misses (D.holds label.now) form.now (negsuc 2147483647) (pos 2147483647)) (Boxes (D.holds label.now) form.now (negsuc 2147483647) (pos 2147483647))) }
    ensures boxed { IfOk result (λ box. MatchOption box (IsOut (D.holds label.now) (word_of form.now)) (HasBox (D.holds label.now) (word_of form.now))) }
{
    operand(shape, label, form, -2_147_483_648, 2_147_483_647)
}

/// Whether a form stays from `low` to `high` at each point; what is no form of the shape is refused.
pub fn form_stays<D: Domain>(
    shape: &Shape,
    label: &D,
    form: &Form,
    low: i64,
    high: i64,
) -> Result<bool, NoMemory>
    requires shape { D.shape_of label.now ≡ shape.now }
    ensures stays { IfOk result (λ stays. stays ≡ true → (p : Point) → D.holds label.now p → Within low high (form_value p.values form.now)) }
    ensures exact { IfOk result (λ stays. (stays ≡ true) ↔ ranges.Stays (D.holds label.now) form.now low high) }
{
    if is_form(variables(shape), form) {
        return Ok(stays(label, form, low, high));
    }
    Err(NoMemory)
}

/// What the first failing values make of an edge: it is fine where there are none, or where a form stays in its limits.
fn shown(fits: bool, operands: u32, boxes: [Interval; 3], values: Option<[i64; 3]>) -> Seen
    ensures { result ≡ shown_of fits operands boxes values }
{
    match values {
        None => Seen::Fine,
        Some(values) => {
            if fits {
                return Seen::Fine;
            }
            Seen::Failing(Failure {
                operands,
                boxes,
                values,
            })
        }
    }
}

/// The box of an argument of an operator, in its type; 0 alone past its arguments.
#[tactic(auto, using(crate::proofs::Fitting::zero_fits_at, crate::proofs::Fitting::short_fits, crate::proofs::Fitting::long_fits))]
pub fn argument<D: Domain>(
    shape: &Shape,
    label: &D,
    op: Op,
    k: usize,
    form: &Form,
) -> Result<Option<Interval>, NoMemory>
    requires shape { D.shape_of label.now ≡ shape.now }
    requires place { k < 3 }
    ensures fits { IfOk result (λ box. MatchOption box (Unit {0}) (λ box. FitsAt op k box.low × FitsAt op k box.high)) }
    ensures boxed { IfOk result (λ box. MatchOption box (IsOut (D.holds label.now) (argument_of op k form.now)) (HasBox (D.holds label.now) (argument_of op k form.now))) }
{
    if k >= arity(op) {
        return Ok(Some(Interval { low: 0, high: 0 }));
    }
    match arg_width(op, k) {
        Width::W16 => operand(shape, label, form, -32_768, 32_767),
        Width::W32 => word(shape, label, form),
    }
}

/// Whether the sum or the difference that an operator is stays in its type by its form.
fn sum_stays<D: Domain>(
    alloc: Global,
    shape: &Shape,
    label: &D,
    args: &[Form; 3],
    turn: bool,
    low: i64,
    high: i64,
) -> Result<bool, NoMemory>
    requires shape { D.shape_of label.now ≡ shape.now }
    ensures { IfOk result (λ fits. (fits ≡ true) ↔ StaysIn (D.holds label.now) (sums.sum_of (form_at args.now 0) turn (form_at args.now 1)) low high) }
{
    match sum_of(alloc, &args[0], turn, &args[1])? {
        None => Ok(false),
        Some(form) => form_stays(shape, label, &form, low, high),
    }
}

/// Whether the operator cannot saturate by the form that it is.
fn stays_by_form<D: Domain>(
    alloc: Global,
    shape: &Shape,
    label: &D,
    op: Op,
    args: &[Form; 3],
) -> Result<bool, NoMemory>
    requires shape { D.shape_of label.now ≡ shape.now }
    ensures { IfOk result (λ fits. (fits ≡ true) ↔ FitsByForm op (D.holds label.now) args.now) }
{
    if op == Op::Add {
        return sum_stays(alloc, shape, label, args, false, -32_768, 32_767);
    }
    if op == Op::Sub {
        return sum_stays(alloc, shape, label, args, true, -32_768, 32_767);
    }
    if op == Op::LAdd {
        return sum_stays(
            alloc,
            shape,
            label,
            args,
            false,
            -2_147_483_648,
            2_147_483_647,
        );
    }
    if op == Op::LSub {
        return sum_stays(
            alloc,
            shape,
            label,
            args,
            true,
            -2_147_483_648,
            2_147_483_647,
        );
    }
    Ok(false)
}

/// The operator with its boxes.
fn applied(op: Op, x: Interval, y: Interval, z: Interval, fits: bool) -> Seen
    requires types { TrialFits (Applies op) (box_at (Applies op) (x ∷ y ∷ z ∷ []) 0) (box_at (Applies op) (x ∷ y ∷ z ∷ []) 1) (box_at (Applies op) (x ∷ y ∷ z ∷ []) 2) }
    requires first { box_at (Applies op) (x ∷ y ∷ z ∷ []) 0 ≡ x }
    requires second { box_at (Applies op) (x ∷ y ∷ z ∷ []) 1 ≡ y }
    requires third { box_at (Applies op) (x ∷ y ∷ z ∷ []) 2 ≡ z }
    ensures { IsShown (Applies op) (fits ≡ true) x y z result }
{
    let boxes = [x, y, z];
    let values = first_failing(Trial::Applies(op), &boxes);
    shown(fits, arity(op) as u32, boxes, values)
}

#[tactic(auto, using(crate::proofs::Fitting::boxes_fit))]
fn operated<D: Domain>(
    alloc: Global,
    shape: &Shape,
    label: &D,
    op: Op,
    args: &[Form; 3],
) -> Result<Seen, NoMemory>
    requires shape { D.shape_of label.now ≡ shape.now }
    ensures { IfOk result (λ seen. IsOperated (D.holds label.now) op args.now seen) }
{
    match argument(shape, label, op, 0, &args[0])? {
        None => Ok(Seen::Away),
        Some(x) => match argument(shape, label, op, 1, &args[1])? {
            None => Ok(Seen::Away),
            Some(y) => match argument(shape, label, op, 2, &args[2])? {
                None => Ok(Seen::Away),
                Some(z) => {
                    let fits = stays_by_form(alloc, shape, label, op, args)?;
                    Ok(applied(op, x, y, z, fits))
                }
            },
        },
    }
}

/// A plain operation on numbers of two boxes of 32 bits.
fn plain(mark: PlainMark, x: Interval, y: Interval, fits: bool) -> Seen
    requires first { IsBox32 x }
    requires second { IsBox32 y }
    ensures { IsShown (Computes mark) (fits ≡ true) x y zero_box result }
{
    let boxes = [x, y, Interval { low: 0, high: 0 }];
    let values = first_failing(Trial::Computes(mark), &boxes);
    shown(fits, 2, boxes, values)
}

/// A plain operation on two operands of 32 bits, which is fine where `fits`.
fn computed<D: Domain>(
    shape: &Shape,
    label: &D,
    mark: PlainMark,
    a: &Form,
    b: &Form,
    fits: bool,
) -> Result<Seen, NoMemory>
    requires shape { D.shape_of label.now ≡ shape.now }
    ensures { IfOk result (λ seen. IsTried (Computes mark) (fits ≡ true) (D.holds label.now) (word_of a.now) (word_of b.now) None seen) }
{
    match word(shape, label, a)? {
        None => Ok(Seen::Away),
        Some(x) => match word(shape, label, b)? {
            None => Ok(Seen::Away),
            Some(y) => Ok(plain(mark, x, y, fits)),
        },
    }
}

/// A plain operation, as an edge has it.
fn plain_edge<D: Domain>(
    shape: &Shape,
    label: &D,
    mark: PlainMark,
    args: &[Form; 2],
) -> Result<Seen, NoMemory>
    requires shape { D.shape_of label.now ≡ shape.now }
    ensures { IfOk result (λ seen. IsTried (Computes mark) ⊥ (D.holds label.now) (word_of (form_at args.now 0)) (word_of (form_at args.now 1)) None seen) }
{
    computed(shape, label, mark, &args[0], &args[1], false)
}

/// A number that has to stay from `low` to `high`.
fn ranged(x: Interval, low: i64, high: i64, fits: bool) -> Seen
    ensures { IsShown (Stays low high) (fits ≡ true) x zero_box zero_box result }
{
    let zero = Interval { low: 0, high: 0 };
    let boxes = [x, zero, zero];
    let values = first_failing(Trial::Stays { low, high }, &boxes);
    shown(fits, 1, boxes, values)
}

/// A number of 32 bits with the other sign.
fn negated(x: Interval, fits: bool) -> Seen
    requires { IsBox32 x }
    ensures { IsShown Negates (fits ≡ true) x zero_box zero_box result }
{
    let zero = Interval { low: 0, high: 0 };
    let boxes = [x, zero, zero];
    let values = first_failing(Trial::Negates, &boxes);
    shown(fits, 1, boxes, values)
}

/// The box of a number that is tested: an index and the beginning of a view may be any, other numbers have 32 bits.
fn tested_box<D: Domain>(
    kind: SiteKind,
    shape: &Shape,
    label: &D,
    form: &Form,
) -> Result<Option<Interval>, NoMemory>
    requires shape { D.shape_of label.now ≡ shape.now }
    ensures { IfOk result (λ box. MatchOption box (IsOut (D.holds label.now) (tested_of kind form.now)) (HasBox (D.holds label.now) (tested_of kind form.now))) }
{
    match kind {
        SiteKind::Operator(_op) => word(shape, label, form),
        SiteKind::Index => operand(shape, label, form, i64::MIN, i64::MAX),
        SiteKind::View => operand(shape, label, form, i64::MIN, i64::MAX),
        SiteKind::Arithmetic => word(shape, label, form),
        SiteKind::Narrowing => word(shape, label, form),
    }
}

/// A tested number that is the one operand itself.
fn tested_itself<D: Domain>(
    kind: SiteKind,
    shape: &Shape,
    label: &D,
    operand: &Form,
    low: i64,
    high: i64,
    fits: bool,
) -> Result<Seen, NoMemory>
    requires shape { D.shape_of label.now ≡ shape.now }
    ensures { IfOk result (λ seen. IsTried (Stays low high) (fits ≡ true) (D.holds label.now) (tested_of kind operand.now) None None seen) }
{
    match tested_box(kind, shape, label, operand)? {
        None => Ok(Seen::Away),
        Some(x) => Ok(ranged(x, low, high, fits)),
    }
}

fn tested_negative<D: Domain>(
    shape: &Shape,
    label: &D,
    operand: &Form,
    fits: bool,
) -> Result<Seen, NoMemory>
    requires shape { D.shape_of label.now ≡ shape.now }
    ensures { IfOk result (λ seen. IsTried Negates (fits ≡ true) (D.holds label.now) (word_of operand.now) None None seen) }
{
    match word(shape, label, operand)? {
        None => Ok(Seen::Away),
        Some(x) => Ok(negated(x, fits)),
    }
}

/// The operand at a place; a test without it, which no graph of a program has, is refused.
fn at(args: &[Form], k: usize) -> Result<&Form, NoMemory>
    ensures { IfOk result (λ form. form.now ≡ form_at args.now k) }
{
    match args.get(k) {
        Some(form) => Ok(form),
        None => Err(NoMemory),
    }
}

/// A test of a form at a site, which is fine where `fits`.
fn tested<D: Domain>(
    kind: SiteKind,
    shape: &Shape,
    label: &D,
    args: &[Form],
    low: i64,
    high: i64,
    how: Combined,
    fits: bool,
) -> Result<Seen, NoMemory>
    requires shape { D.shape_of label.now ≡ shape.now }
    ensures { IfOk result (λ seen. IsTested kind (fits ≡ true) (D.holds label.now) args.now low high how seen) }
{
    match how {
        Combined::Itself => tested_itself(kind, shape, label, at(args, 0)?, low, high, fits),
        Combined::Sum => computed(
            shape,
            label,
            PlainMark::Plus,
            at(args, 0)?,
            at(args, 1)?,
            fits,
        ),
        Combined::Difference => {
            computed(
                shape,
                label,
                PlainMark::Minus,
                at(args, 0)?,
                at(args, 1)?,
                fits,
            )
        }
        Combined::Negative => tested_negative(shape, label, at(args, 0)?, fits),
    }
}

/// A test, as an edge has it: it is fine where its form stays from `low` to `high`.
fn test_edge<D: Domain>(
    kind: SiteKind,
    shape: &Shape,
    label: &D,
    args: &[Form],
    form: &Form,
    low: i64,
    high: i64,
    how: Combined,
) -> Result<Seen, NoMemory>
    requires shape { D.shape_of label.now ≡ shape.now }
    ensures { IfOk result (λ seen. IsTested kind (ranges.Stays (D.holds label.now) form.now low high) (D.holds label.now) args.now low high how seen) }
{
    let fits = form_stays(shape, label, form, low, high)?;
    tested(kind, shape, label, args, low, high, how, fits)
}

/// A read of an array.
fn read<D: Domain>(shape: &Shape, label: &D, array: u32) -> Result<Seen, NoMemory>
    requires shape { D.shape_of label.now ≡ shape.now }
    ensures { IfOk result (λ seen. IsRead (D.holds label.now) array seen) }
{
    if array as usize >= shape.arrays.items().len() {
        return Err(NoMemory);
    }
    if label.is_empty() {
        return Ok(Seen::Away);
    }
    match label.array(array) {
        None => Ok(Seen::Away),
        Some(summary) => match summary {
            Summary::Empty => Ok(Seen::Unset),
            Summary::Range(_range) => Ok(Seen::Away),
        },
    }
}

/// What an edge of a site of this kind shows by the state before it, which has the shape: an operator, a plain operation or a
/// test fails, or does not, for the operands that the state allows; a read is told where the array has no set cell.
pub fn look<D: Domain>(
    alloc: Global,
    kind: SiteKind,
    shape: &Shape,
    action: &Action,
    label: &D,
) -> Result<Seen, NoMemory>
    requires shape { D.shape_of label.now ≡ shape.now }
    ensures seen { IfOk result (λ seen. IsSeen kind (D.holds label.now) action.now seen) }
{
    match action {
        Action::AssignForm { .. } => Ok(Seen::Away),
        Action::Plain { mark, args, .. } => plain_edge(shape, label, *mark, args),
        Action::Cast { .. } => Ok(Seen::Away),
        Action::AssignRange { .. } => Ok(Seen::Away),
        Action::SetArray { .. } => Ok(Seen::Away),
        Action::Operate { op, args, .. } => operated(alloc, shape, label, *op, args),
        Action::Read { array, .. } => read(shape, label, *array),
        Action::Write { .. } => Ok(Seen::Away),
        Action::Clear { .. } => Ok(Seen::Away),
        Action::Keep { .. } => Ok(Seen::Away),
        Action::Test {
            args,
            form,
            low,
            high,
            how,
        } => test_edge(kind, shape, label, args.items(), form, *low, *high, *how),
        Action::Count { .. } => Ok(Seen::Away),
        Action::Enter { .. } => Ok(Seen::Away),
        Action::Leave { .. } => Ok(Seen::Away),
        Action::Reset { .. } => Ok(Seen::Away),
        Action::Turn { .. } => Ok(Seen::Away),
        Action::Tie { .. } => Ok(Seen::Away),
        Action::Inputs { .. } => Ok(Seen::Away),
    }
}

// Forms, and how they stand at the next node.
ghost use Rattle.std.specs.Prelude.{◌≡◌, ◌∷◌, ◌<◌, ◌^◌, ◌-ℤ◌, true, unsigned_abs};
ghost use Rattle.wm_domain.specs.Forms.{IsForm, AreTerms};
ghost use Rattle.wm_domain.specs.States.{count_of, IsSized};
ghost use Rattle.wm_carry.specs.Following.{IsWay};
ghost use Rattle.wm_assign.specs.Giving.{IsSeen, AreSeen};

use wm_carry::{Way, origin};
use wm_domain::{Form, Term};
use wm_interval::Interval;

/// The least number above all sizes of numbers in forms, 2^50.
const LIMIT: i64 = 1_125_899_906_842_624;

// whether the number is below 2^50 in size
fn is_small(z: i64) -> bool
    ensures { result ≡ true → unsigned_abs z < 2 ^ 50 }
{
    if z <= -LIMIT {
        return false;
    }
    z < LIMIT
}

/// Whether two numbers and their difference are below 2^50 in size.
pub(crate) fn is_apart(a: i64, b: i64) -> bool
    ensures { result ≡ true → unsigned_abs (a -ℤ b) < 2 ^ 50 }
{
    if !is_small(a) {
        return false;
    }
    if !is_small(b) {
        return false;
    }
    is_small(a - b)
}

/// Whether both ends are below 2^50 in size.
pub(crate) fn is_sized(r: Interval) -> bool
    ensures { result ≡ true → IsSized r }
{
    if !is_small(r.low) {
        return false;
    }
    is_small(r.high)
}

// whether the second of two terms is of another variable, and the last
fn is_second(count: usize, t: Term, rest: &[Term]) -> bool
    ensures { result ≡ true → AreTerms count (t ∷ rest.now) }
{
    if t.variable as usize >= count {
        return false;
    }
    match rest.split_first() {
        None => true,
        Some((u, more)) => {
            if !more.is_empty() {
                return false;
            }
            if u.variable as usize >= count {
                return false;
            }
            t.variable != u.variable
        }
    }
}

fn are_terms(count: usize, terms: &[Term]) -> bool
    ensures { result ≡ true → AreTerms count terms.now }
{
    match terms.split_first() {
        None => true,
        Some((t, rest)) => is_second(count, *t, rest),
    }
}

/// Whether the form has at most two terms, of different variables of so many, and a constant below 2^50 in size.
pub(crate) fn is_form(count: usize, form: &Form) -> bool
    ensures { result ≡ true → IsForm count form.now }
{
    if !is_small(form.constant) {
        return false;
    }
    are_terms(count, form.terms.items())
}

// whether a variable has one number in both nodes where `v` is new
fn is_seen(way: &Way, count: usize, v: u32, w: u32) -> bool
    requires way { IsWay way.now.source.now way.now.target.now }
    requires count { count ≡ count_of way.now.target.now }
    ensures { result ≡ true → IsSeen way.now.source.now way.now.target.now v w }
{
    match origin(way, v as usize) {
        Some(_old) => true,
        None => match origin(way, w as usize) {
            None => false,
            Some(old) => {
                if old != w {
                    return false;
                }
                (w as usize) < count
            }
        },
    }
}

/// Whether each variable of the terms has one number in both nodes where `v` is new.
pub(crate) fn are_seen(way: &Way, count: usize, v: u32, terms: &[Term]) -> bool
    requires way { IsWay way.now.source.now way.now.target.now }
    requires count { count ≡ count_of way.now.target.now }
    ensures { result ≡ true → AreSeen way.now.source.now way.now.target.now v terms.now }
{
    match terms.split_first() {
        None => true,
        Some((t, rest)) => {
            if !is_seen(way, count, v, t.variable) {
                return false;
            }
            are_seen(way, count, v, rest)
        }
    }
}

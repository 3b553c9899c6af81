// The ends of pairs of variables.
ghost use Rattle.std.specs.Prelude.{◌≡◌, ◌≢◌, ◌+◌, ◌<◌, ◌≤◌, ◌^◌, ◌++◌, [], ◌∷◌, All, IfOk, OnOk, length};
ghost use Rattle.wm_domain.specs.Changes.{IsFormValue};
ghost use Rattle.wm_domain.specs.States.{count_of, IsBare};
ghost use Rattle.wm_cert_text.specs.declared.told.Kind.TheVariants.{Minus, Plus};
ghost use Rattle.wm_told.specs.Tells.{AreEnds, IsPairOf, ArePairs, pair_form, turns, named, names_of, pairs_with, pairs_from};

use std::alloc::Global;
use wm_cert_text::{Ends, Kind, Pair};
use wm_domain::{Domain, Form, Term};
use wm_interval::Interval;
use wm_ops::{List, NoMemory};

fn ends_of(range: Interval) -> Ends
    ensures { result ≡ record { low = range.low; high = range.high } }
{
    Ends {
        low: range.low,
        high: range.high,
    }
}

fn turns(kind: Kind) -> bool
    ensures { result ≡ turns kind }
{
    match kind {
        Kind::Minus => true,
        Kind::Plus => false,
    }
}

/// The difference or the sum of two variables.
fn pair_form(alloc: Global, kind: Kind, first: u32, second: u32) -> Result<Form, NoMemory>
    ensures form { IfOk result (λ form. form ≡ pair_form kind first second) }
{
    let mut terms = List::new(alloc);
    terms.push(Term {
        variable: first,
        negative: false,
    })?;
    terms.push(Term {
        variable: second,
        negative: turns(kind),
    })?;
    Ok(Form { terms, constant: 0 })
}

/// The ends of the difference or the sum of two variables of a state that has a point.
fn pair_ends<D: Domain>(
    alloc: Global,
    state: &D,
    kind: Kind,
    first: u32,
    second: u32,
) -> Result<Ends, NoMemory>
    requires order { first < second }
    requires inside { second < count_of (D.shape_of state.now) }
    requires point { IsBare (D.holds state.now) → ⊥ }
    ensures exact { IfOk result (λ ends. AreEnds (IsFormValue (D.holds state.now) (pair_form kind first second)) ends) }
{
    let form = pair_form(alloc, kind, first, second)?;
    match state.form(&form) {
        Some(range) => Ok(ends_of(range)),
        None => Err(NoMemory),
    }
}

#[tactic(auto, using(crate::proofs::Pushed::right_pushed, crate::proofs::Pushed::names_pushed))]
fn push_pair<D: Domain>(
    alloc: Global,
    state: &D,
    kind: Kind,
    first: u32,
    second: u32,
    pairs: &mut List<Pair>,
) -> Result<(), NoMemory>
    requires order { first < second }
    requires inside { second < count_of (D.shape_of state.now) }
    requires point { IsBare (D.holds state.now) → ⊥ }
    requires right { All (IsPairOf (D.holds state.now)) pairs.old }
    ensures names { OnOk result (names_of pairs.new ≡ names_of pairs.old ++ named kind first second ∷ []) }
    ensures right { OnOk result (All (IsPairOf (D.holds state.now)) pairs.new) }
{
    let ends = pair_ends(alloc, state, kind, first, second)?;
    pairs.push(Pair {
        kind,
        first,
        second,
        ends,
    })?;
    Ok(())
}

/// The difference and the sum of two variables.
fn push_both<D: Domain>(
    alloc: Global,
    state: &D,
    first: u32,
    second: u32,
    pairs: &mut List<Pair>,
) -> Result<(), NoMemory>
    requires order { first < second }
    requires inside { second < count_of (D.shape_of state.now) }
    requires point { IsBare (D.holds state.now) → ⊥ }
    requires right { All (IsPairOf (D.holds state.now)) pairs.old }
    ensures names { OnOk result (names_of pairs.new ≡ names_of pairs.old ++ named Minus first second ∷ named Plus first second ∷ []) }
    ensures right { OnOk result (All (IsPairOf (D.holds state.now)) pairs.new) }
{
    push_pair(alloc, state, Kind::Minus, first, second, pairs)?;
    push_pair(alloc, state, Kind::Plus, first, second, pairs)?;
    Ok(())
}

/// The pairs of a variable with as many behind it as there are ranges.
fn push_with<D: Domain>(
    alloc: Global,
    state: &D,
    first: u32,
    behind: &[Interval],
    pairs: &mut List<Pair>,
) -> Result<(), NoMemory>
    requires narrow { first + length behind.now < 2 ^ 32 }
    requires inside { first + length behind.now < count_of (D.shape_of state.now) }
    requires point { IsBare (D.holds state.now) → ⊥ }
    requires right { All (IsPairOf (D.holds state.now)) pairs.old }
    ensures names { OnOk result (names_of pairs.new ≡ names_of pairs.old ++ pairs_with first (first + 1) behind.now) }
    ensures right { OnOk result (All (IsPairOf (D.holds state.now)) pairs.new) }
{
    let mut second = first;
    for _range in behind {
        second += 1;
        push_both(alloc, state, first, second, pairs)?;
    }
    Ok(())
}

/// All pairs of the first variables, as many as there are ranges.
fn push_all<D: Domain>(
    alloc: Global,
    state: &D,
    group: &[Interval],
    pairs: &mut List<Pair>,
) -> Result<(), NoMemory>
    requires narrow { length group.now < 2 ^ 32 }
    requires inside { length group.now ≤ count_of (D.shape_of state.now) }
    requires point { IsBare (D.holds state.now) → ⊥ }
    requires right { All (IsPairOf (D.holds state.now)) pairs.old }
    ensures names { OnOk result (names_of pairs.new ≡ names_of pairs.old ++ pairs_from 0 group.now) }
    ensures right { OnOk result (All (IsPairOf (D.holds state.now)) pairs.new) }
{
    let mut first: u32 = 0;
    for _range in group {
        push_with(alloc, state, first, &group[first as usize + 1..], pairs)?;
        first += 1;
    }
    Ok(())
}

/// All pairs of the group of a state that has a point.
pub fn all_pairs<D: Domain>(
    alloc: Global,
    group: &[Interval],
    state: &D,
) -> Result<List<Pair>, NoMemory>
    requires narrow { length group.now < 2 ^ 32 }
    requires inside { length group.now ≤ count_of (D.shape_of state.now) }
    requires point { IsBare (D.holds state.now) → ⊥ }
    ensures exact { IfOk result (λ pairs. ArePairs (D.holds state.now) (pairs_from 0 group.now) pairs) }
{
    let mut pairs = List::new(alloc);
    push_all(alloc, state, group, &mut pairs)?;
    Ok(pairs)
}

// One more line of a head.
ghost use Rattle.std.specs.Prelude.{◌≡◌, ◌++◌, ◌∷◌, [], true, slice_get, length, IfOk};
ghost use Rattle.wm_cert_read.specs.Fits.{is_loop, is_bare, owes_sum, is_next_sum, may_sum, may_empty, may_bound, may_pair, may_array};
ghost use Rattle.wm_cert_read.specs.Steps.{with_sum, with_empty, with_bound, with_pair, with_array};

use crate::pairs::fits_pair;
use crate::reading::Reading;
use wm_cert_text::{Cells, Ends, HeadName, Pair, SumStep};
use wm_ops::NoMemory;

pub fn is_loop(name: HeadName) -> bool
    ensures { result ≡ is_loop name }
{
    match name {
        HeadName::Frame => false,
        HeadName::Loop { .. } => true,
    }
}

#[tactic(auto, unfolding(crate::specs::Fits::is_bare))]
fn is_bare(r: &Reading) -> bool
    ensures { result ≡ is_bare r.now }
{
    if r.empty {
        return false;
    }
    if r.bounds.items().len() == 0 {
        return r.arrays.items().len() == 0;
    }
    false
}

#[tactic(auto, unfolding(crate::specs::Fits::owes_sum))]
pub fn owes_sum(r: &Reading) -> bool
    ensures { result ≡ owes_sum r.now }
{
    if r.second {
        if r.has_sums {
            return false;
        }
        return r.heads.items().len() == r.last as usize;
    }
    false
}

#[tactic(auto, unfolding(crate::specs::Fits::is_next_sum))]
fn is_next_sum(sums: &[SumStep], sum: SumStep) -> bool
    ensures { result ≡ is_next_sum sums.now sum }
{
    if sums.len() < 4 {
        return match sums.get(sums.len().saturating_sub(1)) {
            None => true,
            Some(last) => last.variable < sum.variable,
        };
    }
    false
}

#[tactic(auto, unfolding(crate::specs::Fits::may_sum))]
fn may_sum(r: &Reading, sum: SumStep) -> bool
    ensures { result ≡ may_sum r.now sum }
{
    if !r.second {
        return false;
    }
    if !is_loop(r.name) {
        return false;
    }
    if !is_bare(r) {
        return false;
    }
    is_next_sum(r.sums.items(), sum)
}

#[tactic(auto, unfolding(crate::specs::Fits::may_empty))]
fn may_empty(r: &Reading) -> bool
    ensures { result ≡ may_empty r.now }
{
    if owes_sum(r) {
        return false;
    }
    is_bare(r)
}

#[tactic(auto, unfolding(crate::specs::Fits::may_bound))]
fn may_bound(r: &Reading, variable: u32) -> bool
    ensures { result ≡ may_bound r.now variable }
{
    if owes_sum(r) {
        return false;
    }
    if r.empty {
        return false;
    }
    if r.pairs.items().len() == 0 {
        if r.arrays.items().len() == 0 {
            return variable as usize == r.bounds.items().len();
        }
    }
    false
}

#[tactic(auto, unfolding(crate::specs::Fits::may_pair))]
fn may_pair(r: &Reading, pair: Pair) -> bool
    ensures { result ≡ may_pair r.now pair }
{
    if !r.pairs_allowed {
        return false;
    }
    if r.arrays.items().len() == 0 {
        return fits_pair(r.bounds.items(), r.pairs.items(), pair);
    }
    false
}

#[tactic(auto, unfolding(crate::specs::Fits::may_array))]
fn may_array(r: &Reading, array: u32) -> bool
    ensures { result ≡ may_array r.now array }
{
    if owes_sum(r) {
        return false;
    }
    if r.empty {
        return false;
    }
    array as usize == r.arrays.items().len()
}

fn push_sum(reading: Reading, sum: SumStep) -> Result<Reading, NoMemory>
    ensures { IfOk result (λ r. r ≡ record reading { has_sums = true; sums = reading.sums ++ sum ∷ [] }) }
{
    let mut reading = reading;
    reading.sums.push(sum)?;
    reading.has_sums = true;
    Ok(reading)
}

pub fn with_sum(reading: Reading, sum: SumStep) -> Result<Option<Reading>, NoMemory>
    ensures { IfOk result (λ r. r ≡ with_sum reading sum) }
{
    if may_sum(&reading, sum) {
        return Ok(Some(push_sum(reading, sum)?));
    }
    Ok(None)
}

fn set_empty(reading: Reading) -> Reading
    ensures { result ≡ record reading { empty = true } }
{
    let mut reading = reading;
    reading.empty = true;
    reading
}

pub fn with_empty(reading: Reading) -> Option<Reading>
    ensures { result ≡ with_empty reading }
{
    if may_empty(&reading) {
        return Some(set_empty(reading));
    }
    None
}

fn push_bound(reading: Reading, ends: Ends) -> Result<Reading, NoMemory>
    ensures { IfOk result (λ r. r ≡ record reading { bounds = reading.bounds ++ ends ∷ [] }) }
{
    let mut reading = reading;
    reading.bounds.push(ends)?;
    Ok(reading)
}

pub fn with_bound(reading: Reading, variable: u32, ends: Ends) -> Result<Option<Reading>, NoMemory>
    ensures { IfOk result (λ r. r ≡ with_bound reading variable ends) }
{
    if may_bound(&reading, variable) {
        return Ok(Some(push_bound(reading, ends)?));
    }
    Ok(None)
}

fn push_pair(reading: Reading, pair: Pair) -> Result<Reading, NoMemory>
    ensures { IfOk result (λ r. r ≡ record reading { pairs = reading.pairs ++ pair ∷ [] }) }
{
    let mut reading = reading;
    reading.pairs.push(pair)?;
    Ok(reading)
}

pub fn with_pair(reading: Reading, pair: Pair) -> Result<Option<Reading>, NoMemory>
    ensures { IfOk result (λ r. r ≡ with_pair reading pair) }
{
    if may_pair(&reading, pair) {
        return Ok(Some(push_pair(reading, pair)?));
    }
    Ok(None)
}

fn push_array(reading: Reading, held: Cells) -> Result<Reading, NoMemory>
    ensures { IfOk result (λ r. r ≡ record reading { arrays = reading.arrays ++ held ∷ [] }) }
{
    let mut reading = reading;
    reading.arrays.push(held)?;
    Ok(reading)
}

pub fn with_array(reading: Reading, array: u32, held: Cells) -> Result<Option<Reading>, NoMemory>
    ensures { IfOk result (λ r. r ≡ with_array reading array held) }
{
    if may_array(&reading, array) {
        return Ok(Some(push_array(reading, held)?));
    }
    Ok(None)
}

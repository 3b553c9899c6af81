// How often a choice counts a word, and the turns of a loop on it.
ghost use Rattle.std.specs.Prelude.{◌≡◌, ℕ, ◌+◌, ◌<◌, length, slice_get, slice_index_or};
ghost use Rattle.wm_ways.specs.Numbers.{cut};
ghost use Rattle.wm_worst_text.specs.Times.{once, word_in, times_on, times_of, turns_of};

use sqlite_items::Items;
use wm_cost::word_of;
use wm_flow::Edge;
use wm_ops::{Counted, counted_number};
use wm_path::{Body, Choice};
use wm_ways::numbers::{cut, turned};

fn once(word: Counted, counted: Option<Counted>) -> u64
    ensures { result ≡ once word counted }
{
    match counted {
        None => 0,
        Some(counted) => {
            if counted_number(counted) == counted_number(word) {
                1
            } else {
                0
            }
        }
    }
}

/// The word that the edge of a number counts.
fn word_in(edges: &[Edge], number: u32) -> Option<Counted>
    ensures { result ≡ word_in (slice_get edges.now number) }
{
    match edges.get(number as usize) {
        None => None,
        Some(edge) => word_of(&edge.action),
    }
}

/// Two numbers added, with those above 10^15 all alike.
fn added(a: u64, b: u64) -> u64
    ensures { result ≡ cut (a + b) }
{
    cut(u128::from(a) + u128::from(b))
}

fn number_at(numbers: &[u32], k: usize) -> u32
    requires { k < length numbers.now }
    ensures { (d : ℕ) → result ≡ slice_index_or numbers.now k d }
{
    numbers[k]
}

/// How often edges of these numbers count a word.
fn times_on(edges: &[Edge], word: Counted, numbers: &[u32]) -> u64
    ensures { result ≡ cut (times_on edges.now word numbers.now) }
{
    let mut times = 0;
    for k in 0..numbers.len() {
        let number = number_at(numbers, k);
        times = added(times, once(word, word_in(edges, number)));
    }
    times
}

/// How often a choice counts a word, with numbers above 10^15 all alike.
pub fn times_of(edges: &[Edge], word: Counted, choice: &Choice) -> u64
    ensures times { result ≡ cut (times_of edges.now word choice.now) }
{
    let mut times = times_on(edges, word, choice.edges.items());
    for body in choice.bodies.as_slice() {
        times = added(
            times,
            turned(body.turns, times_of(edges, word, &body.choice)),
        );
    }
    times
}

/// The turns of the loop of a head, where the choice, or a choice in it, has a choice for it.
pub fn turns_of(head: u32, choice: &Choice) -> Option<u64>
    ensures turns { result ≡ turns_of head choice.now }
{
    for body in choice.bodies.as_slice() {
        if body.head == head {
            return Some(body.turns);
        }
        if let Some(turns) = turns_of(head, &body.choice) {
            return Some(turns);
        }
    }
    None
}

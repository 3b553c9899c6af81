// States by node, of which no more than a given number are held at once.
ghost use Rattle.std.specs.Prelude.{◌≡◌, ◌<◌, ◌++◌, ◌∷◌, [], nat_le, length, None, Some, IfOk, MatchOption};
ghost use Rattle.wm_kept.specs.Pairs.{state_in, without};

use crate::places::{find, take_out};
use std::alloc::Global;
use std::marker::Model;
use wm_ops::NoMemory;

/// The states of some nodes, seen as a room and the pairs of a node and its state, in the order in which they were put.
#[derive(Drop)]
pub struct Kept<D> {
    room: u32,
    entries: Vec<(u32, D)>,
}

impl<D> Model for Kept<D> {
    ghost use Rattle.std.specs.Prelude.{◌≤◌, ℕ};
    ghost use Rattle.std.specs.Prelude as std;
    ghost use Rattle.std.specs.Coded.{coded_list, coded×, coded_ℕ};
    ghost use Rattle.std.specs.Vec.{vec_capacity};

    ghost Value = { ℕ × std.List (ℕ × D) };

    ghost coded = { coded× coded_ℕ (coded_list (coded× coded_ℕ D.code)) };

    ghost view = { λ kept. (kept.room, kept.entries.items) };

    ghost invariant = { λ kept. kept.room ≤ vec_capacity kept.entries };
}

impl<D: Drop> Kept<D> {
    /// No states, and room for so many. `NoMemory`: memory ran out.
    pub fn new(alloc: Global, room: u32) -> Result<Kept<D>, NoMemory>
        ensures empty { IfOk result (λ kept. kept ≡ (room, [])) }
    {
        let entries = Vec::with_capacity(alloc, room as usize)?;
        Ok(Kept { room, entries })
    }

    /// Whether there is no room left.
    pub fn is_full(&self) -> bool
        ensures full { result ≡ nat_le self.now.0 (length self.now.1) }
    {
        self.entries.len() >= self.room as usize
    }

    /// The state of a node that has none. There is room for it.
    pub fn put(&mut self, node: u32, state: D)
        requires room { length self.old.1 < self.old.0 }
        requires none { state_in node self.old.1 ≡ None }
        ensures put { self.new ≡ (self.old.0, self.old.1 ++ (node, state) ∷ []) }
    {
        self.entries.push_reserved((node, state));
    }

    /// The state of a node; None exactly where it has none.
    pub fn get(&self, node: u32) -> Option<&D>
        ensures state { MatchOption result (state_in node self.now.1 ≡ None) (λ state. state_in node self.now.1 ≡ Some state.now) }
    {
        find(self.entries.as_slice(), node)
    }

    /// Takes the state of a node out, if there is one.
    pub fn give_up(&mut self, node: u32)
        ensures given_up { self.new ≡ (self.old.0, without node self.old.1) }
    {
        take_out(&mut self.entries, node);
    }
}

// The numbers of variables and arrays in slim nodes.
use crate::lists::place_of;
use std::alloc::Global;
use wm_domain::{Form, Term};
use wm_ops::{List, NoMemory};

/// A node and the slim node that stands for it: how many variables the groups have, and what the slim node has of the others.
#[derive(Clone, Copy)]
pub(crate) struct Side<'s> {
    pub group: u32,
    pub slim_group: u32,
    pub singles: &'s [u32],
    pub arrays: &'s [u32],
}

impl<'s> Side<'s> {
    /// The number of a variable in the slim node; 2^32 - 1 where it is not there.
    pub fn variable(&self, v: u32) -> u32 {
        if v < self.group {
            return v;
        }
        match place_of(self.singles, v - self.group) {
            None => u32::MAX,
            Some(place) => self.slim_group.saturating_add(place),
        }
    }

    pub fn array(&self, a: u32) -> u32 {
        match place_of(self.arrays, a) {
            None => u32::MAX,
            Some(place) => place,
        }
    }

    pub fn picked(&self, pick: Option<u32>) -> Option<u32> {
        match pick {
            None => None,
            Some(v) => Some(self.variable(v)),
        }
    }

    pub fn picked_array(&self, pick: Option<u32>) -> Option<u32> {
        match pick {
            None => None,
            Some(a) => Some(self.array(a)),
        }
    }

    pub fn form(&self, alloc: Global, form: &Form) -> Result<Form, NoMemory> {
        let mut terms = List::new(alloc);
        for term in form.terms.items() {
            terms.push(Term {
                variable: self.variable(term.variable),
                negative: term.negative,
            })?;
        }
        Ok(Form {
            terms,
            constant: form.constant,
        })
    }

    pub fn variables(&self, alloc: Global, variables: &[u32]) -> Result<List<u32>, NoMemory> {
        let mut list = List::new(alloc);
        for variable in variables {
            list.push(self.variable(*variable))?;
        }
        Ok(list)
    }
}

/// Both ends of an edge.
#[derive(Clone, Copy)]
pub(crate) struct Renaming<'s> {
    pub alloc: Global,
    pub source: Side<'s>,
    pub target: Side<'s>,
}

// Bounds on the pairs of a group, a range for each other variable and a summary for each array.

use std::alloc::Global;
use wm_arrays::Summary;
use wm_domain::{Domain, Form, Relation, Shape, Term};
use wm_interval::Interval;
use wm_ops::NoMemory;
use wm_projected::{followed, projected};
use wm_tied::Tied;

/// A state that keeps bounds on the variables of the group and on the sums and the differences of any two of them, the range
/// of each other variable and the summary of each array.
#[derive(Drop)]
pub struct Groups {
    tied: Tied,
}

impl Domain for Groups {
    ghost use Rattle.std.specs.Prelude.{true};
    ghost use Rattle.wm_tied.specs.Pointed.{In};
    ghost use Rattle.wm_tied.specs.Pointed as pointed;
    ghost use Rattle.wm_groups.specs.Laws.{groups_inside, groups_alike, groups_told};
    ghost use Rattle.wm_groups.specs.Capped.{groups_cut, groups_closed};

    const PAIRS: bool = true;

    ghost PAIRS = { true };

    ghost holds = { λ g p. In g.tied p };

    ghost shape_of = { λ g. pointed.shape_of g.tied };

    fn full(alloc: Global, shape: &Shape) -> Result<Groups, NoMemory> {
        let tied = Tied::new(
            alloc,
            shape.group.items(),
            shape.singles.items(),
            shape.arrays.items(),
        )?;
        Ok(Groups { tied })
    }

    fn copy(&self, alloc: Global) -> Result<Groups, NoMemory> {
        let tied = self.tied.copy(alloc)?;
        Ok(Groups { tied })
    }

    fn project(
        &self,
        alloc: Global,
        shape: &Shape,
        picks: &[Option<u32>],
        arrays: &[Option<u32>],
    ) -> Result<Groups, NoMemory> {
        let tied = projected(
            &self.tied,
            alloc,
            shape.group.items(),
            shape.singles.items(),
            shape.arrays.items(),
            picks,
            arrays,
        )?;
        Ok(Groups { tied })
    }

    fn follow(&self, alloc: Global, shape: &Shape) -> Result<Groups, NoMemory> {
        let tied = followed(
            &self.tied,
            alloc,
            shape.group.items(),
            shape.singles.items(),
            shape.arrays.items(),
        )?;
        Ok(Groups { tied })
    }

    fn clear(&mut self) {
        self.tied.clear();
    }

    fn is_empty(&self) -> bool {
        self.tied.is_empty()
    }

    fn range(&self, v: u32) -> Option<Interval> {
        if self.tied.is_empty() {
            return None;
        }
        Some(self.tied.range(v as usize))
    }

    fn form(&self, f: &Form) -> Option<Interval> {
        if self.tied.is_empty() {
            return None;
        }
        Some(self.tied.form_range(f))
    }

    fn keep(&mut self, f: &Form, r: Relation) {
        self.tied.keep(f, r);
    }

    fn assign_form(&mut self, v: u32, f: &Form) {
        self.tied.set_form(v, f);
    }

    fn assign_near(&mut self, v: u32, w: u32, d: Interval, r: Interval) {
        let term = Term {
            variable: w,
            negative: false,
        };
        self.tied.set_near(v, term, d, r);
    }

    fn assign_range(&mut self, v: u32, r: Interval) {
        self.tied.free(v as usize, r);
    }

    fn array(&self, a: u32) -> Option<Summary> {
        if self.tied.is_empty() {
            return None;
        }
        Some(self.tied.array(a as usize))
    }

    fn set_array(&mut self, a: u32, s: Summary) {
        self.tied.set_array(a as usize, s);
    }

    fn write(&mut self, a: u32, r: Interval, length: u32) {
        self.tied.write(a as usize, r, length);
    }

    fn join_with(&mut self, other: &Groups) {
        self.tied.join_with(&other.tied);
    }

    fn within(&self, other: &Groups) -> bool {
        self.tied.within(&other.tied)
    }

    ghost inside = { λ g p h. groups_inside g.tied p h };

    ghost alike = { λ g p q a h. groups_alike g.tied p q a h };

    ghost told = { λ g p t. groups_told g.tied p t };

    ghost closed = { λ g p all. groups_closed g.tied p all };

    ghost cuts = { λ g p h c ok. let it = groups_cut g.tied p h c ok in record { state = record { tied = it.to }; same = it.same; points = it.points } };
}

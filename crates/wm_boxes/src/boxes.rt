// A range for each variable and a summary for each array.

use std::alloc::Global;
use wm_arrays::Summary;
use wm_domain::{Domain, Form, Relation, Shape, Term};
use wm_interval::Interval;
use wm_ops::NoMemory;
use wm_spans::Spans;

/// A state that keeps the range of each variable and the summary of each array, and no bound on two variables.
#[derive(Drop)]
pub struct Boxes {
    group: usize,
    spans: Spans,
}

impl Domain for Boxes {
    ghost use Rattle.std.specs.Prelude.{false};
    ghost use Rattle.wm_spans.specs.Spanned.{In};
    ghost use Rattle.wm_boxes.specs.Shapes.{shape_at};
    ghost use Rattle.wm_boxes.specs.Laws.{boxes_inside, boxes_alike, boxes_told};
    ghost use Rattle.wm_boxes.specs.Bounded.{boxes_capped, capped_shape, boxes_closed};
    ghost use Rattle.wm_domain.specs.Bounds.{Meets};

    const PAIRS: bool = false;

    ghost PAIRS = { false };

    ghost holds = { λ b p. In b.spans p };

    ghost shape_of = { λ b. shape_at b.group b.spans };

    fn full(alloc: Global, shape: &Shape) -> Result<Boxes, NoMemory> {
        let group = shape.group.items();
        let spans = Spans::new(alloc, group, shape.singles.items(), shape.arrays.items())?;
        Ok(Boxes {
            group: group.len(),
            spans,
        })
    }

    fn copy(&self, alloc: Global) -> Result<Boxes, NoMemory> {
        let spans = self.spans.copy(alloc)?;
        Ok(Boxes {
            group: self.group,
            spans,
        })
    }

    fn project(
        &self,
        alloc: Global,
        shape: &Shape,
        picks: &[Option<u32>],
        arrays: &[Option<u32>],
    ) -> Result<Boxes, NoMemory> {
        let group = shape.group.items();
        let spans = self.spans.project(
            alloc,
            group,
            shape.singles.items(),
            shape.arrays.items(),
            picks,
            arrays,
        )?;
        Ok(Boxes {
            group: group.len(),
            spans,
        })
    }

    fn follow(&self, alloc: Global, shape: &Shape) -> Result<Boxes, NoMemory> {
        let group = shape.group.items();
        let spans = self.spans.follow(
            alloc,
            self.group,
            group,
            shape.singles.items(),
            shape.arrays.items(),
        )?;
        Ok(Boxes {
            group: group.len(),
            spans,
        })
    }

    fn clear(&mut self) {
        self.spans.clear();
    }

    fn is_empty(&self) -> bool {
        self.spans.is_empty()
    }

    fn range(&self, v: u32) -> Option<Interval> {
        if self.spans.is_empty() {
            return None;
        }
        Some(self.spans.range(v as usize))
    }

    fn form(&self, f: &Form) -> Option<Interval> {
        if self.spans.is_empty() {
            return None;
        }
        Some(self.spans.form_range(f))
    }

    fn keep(&mut self, f: &Form, r: Relation) {
        self.spans.keep(f, r);
    }

    fn assign_form(&mut self, v: u32, f: &Form) {
        self.spans.set_form(v, f);
    }

    fn assign_near(&mut self, v: u32, w: u32, d: Interval, r: Interval) {
        let term = Term {
            variable: w,
            negative: false,
        };
        self.spans.set_near(v, term, d, r);
    }

    fn assign_range(&mut self, v: u32, r: Interval) {
        self.spans.free(v as usize, r);
    }

    fn array(&self, a: u32) -> Option<Summary> {
        if self.spans.is_empty() {
            return None;
        }
        Some(self.spans.array(a as usize))
    }

    fn set_array(&mut self, a: u32, s: Summary) {
        self.spans.set_array(a as usize, s);
    }

    fn write(&mut self, a: u32, r: Interval, length: u32) {
        self.spans.write(a as usize, r, length);
    }

    fn join_with(&mut self, other: &Boxes) {
        self.spans.join_with(&other.spans);
    }

    fn within(&self, other: &Boxes) -> bool {
        self.spans.within(&other.spans)
    }

    ghost inside = { λ b p h. boxes_inside b.group b.spans p h };

    ghost alike = { λ b p q a h. boxes_alike b.group b.spans p q a h };

    ghost told = { λ b p t. boxes_told b.group b.spans p t };

    ghost closed = { λ b p all. boxes_closed b.group b.spans p all };

    ghost cuts = { λ b p h c ok. let it = boxes_capped b.group b.spans p h c ok in record { state = record { group = b.group; spans = it.to }; same = capped_shape b.group b.spans (Meets c) it; points = it.points } };
}

// The laws, told by what the calls promise alone.

ghost use Rattle.std.specs.Prelude.{ℕ, List, Option};
ghost use Rattle.wm_interval.specs.declared.Interval.{Interval};
ghost use Rattle.wm_arrays.specs.declared.summary.Summary.{Summary};
ghost use Rattle.wm_domain.specs.declared.form.Form.{Form};
ghost use Rattle.wm_domain.specs.declared.form.Relation.{Relation};
ghost use Rattle.wm_domain.specs.Changes.{Projected, Kept, Freed, Assigned, Near, ArraySet, Written};
ghost use Rattle.wm_growing.specs.Growing.{Grows, JoinGrows};

use wm_domain::Domain;

/// For each call that makes a state of one: where each point of a state is one of another, each point of what the call makes
/// of the first is one of what it makes of the second.
pub fn smaller_image<D: Domain>(_any: &D)
    ensures project { (picks arrays : List (Option ℕ)) → Grows D.holds D.shape_of (λ Has. Projected Has picks arrays) }
    ensures keep { (f : Form) (r : Relation) → Grows D.holds D.shape_of (λ Has. Kept Has f r) }
    ensures assign_form { (v : ℕ) (f : Form) → Grows D.holds D.shape_of (λ Has. Assigned Has v f) }
    ensures assign_near { (v w : ℕ) (d r : Interval) → Grows D.holds D.shape_of (λ Has. Near Has v w d r) }
    ensures assign_range { (v : ℕ) (r : Interval) → Grows D.holds D.shape_of (λ Has. Freed Has v r) }
    ensures set_array { (a : ℕ) (s : Summary) → Grows D.holds D.shape_of (λ Has. ArraySet Has a s) }
    ensures write { (full : Interval) (a : ℕ) (r : Interval) (n : ℕ) → Grows D.holds D.shape_of (λ Has. Written Has full a r n) }
{}

/// The same for the join of two states, in both.
pub fn smaller_join<D: Domain>(_any: &D)
    ensures { JoinGrows D.holds D.shape_of }
{}

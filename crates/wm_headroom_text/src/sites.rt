// Operators that are not proved.
ghost use Rattle.std.specs.Prelude.{◌≡◌, slice_index_or};
ghost use Rattle.std.specs.Option.{option_copied};
ghost use Rattle.wm_hull.specs.Boxes.{zero_box};
ghost use Rattle.wm_headroom_text.specs.Open.{boxes_in, open_at, open_in, three};
ghost use Rattle.wm_headroom_text.specs.Opened.{opened};

use wm_findings::Verdict;
use wm_interval::Interval;
use wm_ops::Op;
use wm_program::{SiteInfo, SiteKind};

/// An operator, and the boxes in which it may fail.
#[derive(Clone, Copy)]
pub struct Open<'f> {
    pub op: Op,
    pub boxes: &'f [Interval],
}

fn boxes_in<'f>(op: Op, verdict: Option<&'f Verdict>) -> Option<Open<'f>>
    ensures { opened result ≡ boxes_in op (option_copied verdict.entry) }
{
    match verdict {
        None => None,
        Some(Verdict::Safe { .. }) => None,
        Some(Verdict::Never) => None,
        Some(Verdict::Unproved { boxes, .. }) => Some(Open {
            op,
            boxes: boxes.items(),
        }),
    }
}

/// What is open at a site.
pub fn open_in<'f>(kind: SiteKind, verdict: Option<&'f Verdict>) -> Option<Open<'f>>
    ensures { opened result ≡ open_in kind (option_copied verdict.entry) }
{
    match kind {
        SiteKind::Operator(op) => boxes_in(op, verdict),
        SiteKind::Index => None,
        SiteKind::View => None,
        SiteKind::Arithmetic => None,
        SiteKind::Narrowing => None,
    }
}

/// What is open at a site; nothing where it is none.
pub fn open_at<'f>(site: Option<&'f SiteInfo>, verdict: Option<&'f Verdict>) -> Option<Open<'f>>
    ensures { opened result ≡ open_at (option_copied site.entry) (option_copied verdict.entry) }
{
    match site {
        None => None,
        Some(site) => open_in(site.kind, verdict),
    }
}

fn box_at(boxes: &[Interval], k: usize) -> Interval
    ensures { result ≡ slice_index_or boxes.now k zero_box }
{
    if k < boxes.len() {
        return boxes[k];
    }
    Interval::new(0, 0)
}

/// The boxes of three operands.
pub fn three(boxes: &[Interval]) -> [Interval; 3]
    ensures { result ≡ three boxes.now }
{
    [box_at(boxes, 0), box_at(boxes, 1), box_at(boxes, 2)]
}

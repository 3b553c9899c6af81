// The check.
ghost use Rattle.std.specs.Prelude.{◌≡◌, All, IfOk};
ghost use Rattle.wm_domain.specs.States.{IsShape};
ghost use Rattle.wm_labels.specs.Accepted.{IsAccepted};
ghost use Rattle.wm_walk.specs.Graphs.{AreDrawn, AreStates};
ghost use Rattle.wm_check.specs.Found.{AreCounted, AreStateLines, AreFindings};

use crate::turning::{shape_at, turns_by_head};
use crate::watching::{Outcome, Told, watched};
use std::alloc::Global;
use wm_arrays::StateLine;
use wm_bounds::bounds_of;
use wm_cert::Gap;
use wm_certificate::Certificate;
use wm_domain::Domain;
use wm_findings::Findings;
use wm_flow::{Graph, Tables};
use wm_images::Images;
use wm_ops::{List, NoMemory};
use wm_program::Program;
use wm_seats::tables_of;
use wm_state_lines::state_lines;
use wm_turns::turns_by_loop;
use wm_weights::Weights;

/// Why a certificate has no findings.
#[derive(Clone, Copy, Debug, PartialEq, Eq)]
pub enum CheckFault {
    /// The first bound of the state of a head that an image along one of its edges passes.
    NotInductive { gap: Gap },
    NoMemory,
}

impl From<NoMemory> for CheckFault {
    ghost use Rattle.std.specs.Prelude.{◌≡◌};
    ghost use Rattle.wm_check.specs.declared.checking.CheckFault.TheVariants.{NoMemory as Refused};

    ghost from_gives = { λ _ fault. fault ≡ Refused };

    fn from(_refused: NoMemory) -> CheckFault {
        CheckFault::NoMemory
    }
}

/// The state lines, by the state of the frame head, which is the first.
fn lines_of<D: Domain>(
    alloc: Global,
    program: &Program,
    graph: &Graph,
    tables: &Tables,
    states: &[D],
) -> Result<List<StateLine>, NoMemory>
    requires states { AreStates D.shape_of graph.now states.now }
    ensures lines { IfOk result (λ lines. AreStateLines D.holds program.now.objects tables.now.objects states.now lines) }
{
    let Some(head) = graph.heads.items().get(0) else {
        return Err(NoMemory);
    };
    let Some(state) = states.get(0) else {
        return Err(NoMemory);
    };
    match shape_at(graph, head.node) {
        None => Err(NoMemory),
        Some(shape) => state_lines(
            alloc,
            program.objects.items(),
            tables.objects.items(),
            shape,
            state,
        ),
    }
}

/// The findings of an accepted certificate.
fn findings_of<D: Domain>(
    alloc: Global,
    program: &Program,
    graph: &Graph,
    tables: &Tables,
    weights: &Weights,
    states: &[D],
    turns: &[Option<u64>],
    told: Told,
) -> Result<Findings, NoMemory>
    requires states { AreStates D.shape_of graph.now states.now }
    ensures sites { IfOk result (λ findings. findings.sites ≡ told.verdicts) }
    ensures lines { IfOk result (λ findings. AreStateLines D.holds program.now.objects tables.now.objects states.now findings.states) }
    ensures counted { IfOk result (λ findings. AreCounted program.now graph.now weights.now turns.now told.live.items told.stops.items findings) }
{
    let live = told.live.as_slice();
    let loops = turns_by_loop(alloc, graph, program.loops.items().len(), turns, live)?;
    let lines = lines_of(alloc, program, graph, tables, states)?;
    let bounds = bounds_of(
        alloc,
        program,
        graph,
        weights,
        turns,
        live,
        told.stops.as_slice(),
    )?;
    Ok(Findings {
        sites: told.verdicts,
        loops,
        states: lines,
        bounds,
    })
}

/// The findings of a certificate for the graph of a program, which has a state for each head. `NotInductive` where it is not
/// accepted: the first gap in the order of the heads, entry before back edge, lines in the order of a certificate's text.
pub fn check<D: Domain, M: Images<D>>(
    alloc: Global,
    images: &M,
    program: &Program,
    graph: &Graph,
    weights: &Weights,
    certificate: &Certificate<D>,
) -> Result<Findings, CheckFault>
    requires drawn { AreDrawn M.drawn graph.now }
    requires shapes { All IsShape graph.now.shapes }
    requires states { AreStates D.shape_of graph.now certificate.now.heads }
    ensures accepted { IfOk result (λ findings. IsAccepted M.allowed M.started D.holds D.shape_of program.now graph.now certificate.now.heads) }
    ensures findings { IfOk result (λ findings. AreFindings M.allowed M.started D.holds D.shape_of program.now graph.now weights.now certificate.now.heads findings) }
{
    let tables = tables_of(alloc, program)?;
    let states = certificate.heads.items();
    match watched(alloc, images, program, graph, tables.counts.arrays, states)? {
        Outcome::Gap(gap) => Err(CheckFault::NotInductive { gap }),
        Outcome::Accepted(told) => {
            let turns = turns_by_head(alloc, graph, states)?;
            let findings = findings_of(
                alloc,
                program,
                graph,
                &tables,
                weights,
                states,
                turns.items(),
                told,
            )?;
            Ok(findings)
        }
    }
}

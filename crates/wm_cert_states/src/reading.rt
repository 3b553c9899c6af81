// A certificate of its text.
ghost use Rattle.std.specs.Prelude.{◌≡◌, true, All, IfOk, Ok};
ghost use Rattle.std.specs.Result.{MatchResult};
ghost use Rattle.wm_cert_heads.specs.Matching.{has_heads};
ghost use Rattle.wm_domain.specs.States.{IsShape};
ghost use Rattle.wm_cert_states.specs.Answers.{heads_in, Refuses, Accepts};
ghost use Rattle.wm_cert_states.specs.Shapes.{HaveShapes};
ghost use Rattle.wm_cert_states.specs.Told.{AreOfText};

use crate::heads::head_states;
use std::alloc::Global;
use wm_cert_fault::{CertFault, of_text};
use wm_cert_heads::has_heads;
use wm_cert_read::read;
use wm_cert_text::Head;
use wm_certificate::Certificate;
use wm_domain::Domain;
use wm_flow::Graph;
use wm_ops::List;

/// The heads of the bytes, which are those of the graph.
fn told_heads(
    alloc: Global,
    pairs: bool,
    bytes: &[u8],
    graph: &Graph,
) -> Result<List<Head>, CertFault>
    ensures read { MatchResult result (λ heads. (heads_in pairs bytes.now ≡ Ok heads) × (has_heads graph.now heads ≡ true)) (Refuses pairs graph.now bytes.now) }
{
    match read(alloc, pairs, bytes) {
        Err(fault) => Err(of_text(fault)),
        Ok(heads) => {
            if has_heads(graph, heads.items()) {
                return Ok(heads);
            }
            Err(CertFault::WrongHeads)
        }
    }
}

/// The certificate of a text: each head has the state that holds exactly the points that its lines allow. The shapes of the graph have full ranges of 32 bits.
///
/// BadText exactly where the bytes are no text for this domain, with the first line through which they begin none; WrongHeads
/// exactly where they are one, but not of this graph's heads.
pub fn read_text<D: Domain>(
    alloc: Global,
    bytes: &[u8],
    graph: &Graph,
) -> Result<Certificate<D>, CertFault>
    requires shapes { All IsShape graph.now.shapes }
    ensures answer { MatchResult result (λ certificate. Accepts D.PAIRS graph.now bytes.now) (Refuses D.PAIRS graph.now bytes.now) }
    ensures states { IfOk result (λ certificate. HaveShapes D.shape_of graph.now certificate.heads) }
    ensures told { IfOk result (λ certificate. AreOfText D.shape_of D.holds D.PAIRS bytes.now certificate.heads) }
{
    let told = told_heads(alloc, D::PAIRS, bytes, graph)?;
    let heads = head_states(alloc, graph, told.items())?;
    Ok(Certificate { heads })
}

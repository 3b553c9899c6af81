// The sum counters of a text.
ghost use Rattle.std.specs.Result.{MatchResult};
ghost use Rattle.wm_cert_sums.specs.Answers.{Asks, RefusesSums};

use crate::asked::sums_of;
use crate::fitting::heads_fit;
use std::alloc::Global;
use wm_cert_fault::{CertFault, of_text};
use wm_cert_read::read;
use wm_flow::{Graph, Sum};
use wm_ops::List;

/// The sum counters that a certificate's text asks for, with the numbers of their heads, in the order of the text. The graph is
/// that of the program without sum counters.
///
/// BadText exactly where the bytes are no text of a certificate, with the first line through which they begin none; WrongHeads
/// exactly where they are one, but the number of heads or a head's name is another than in the graph, or a sum counter is not
/// that of an innermost loop and of a state scalar or a local in its group.
pub fn read_sums(alloc: Global, bytes: &[u8], graph: &Graph) -> Result<List<Sum>, CertFault>
    ensures answer { MatchResult result (Asks graph.now bytes.now) (RefusesSums graph.now bytes.now) }
{
    match read(alloc, true, bytes) {
        Err(fault) => Err(of_text(fault)),
        Ok(heads) => {
            if heads_fit(graph, heads.items()) {
                let sums = sums_of(alloc, heads.items())?;
                return Ok(sums);
            }
            Err(CertFault::WrongHeads)
        }
    }
}

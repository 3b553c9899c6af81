// Facts about the definitions of graphs, by which a reader can check them.
ghost use Rattle.wm_flow.specs.Laws.{ReadsScalar, ReadsCells};
ghost use Rattle.wm_flow.specs.Examples.{QuotientGraph, ShiftingArcs, ShiftingHeads};

/// It does nothing: its contract tells what a node shows of a running program.
#[tactic(auto, using(crate::proofs::Shown::reads_scalar, crate::proofs::Shown::reads_cells))]
pub fn place_laws()
    ensures reads_scalar { ReadsScalar }
    ensures reads_cells { ReadsCells }
{}

/// It does nothing: its contract tells the graphs of small programs.
#[tactic(auto, using(crate::proofs::Drawn::quotient_graph, crate::proofs::Drawn::shifting_arcs, crate::proofs::Drawn::shifting_heads))]
pub fn graph_examples()
    ensures quotient_graph { QuotientGraph }
    ensures shifting_arcs { ShiftingArcs }
    ensures shifting_heads { ShiftingHeads }
{}

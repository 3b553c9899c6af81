// The structure of every graph.
ghost use Rattle.wm_graph_laws.specs.Laws.{GraphsAreOrderly, GraphsAreHeaded, FormedCallsStand};

/// It does nothing: its contract tells of the graph of each program whose calls enter later instances that the edges are
/// numbered by their sources and at one source by their targets, that no two have the same ends, and that each leads to a
/// higher node but for the back edges; and, where each head is begun once, that each has its one entry and its one back edge.
/// The calls of a well-formed program do so.
pub fn graph_laws()
    ensures orderly { GraphsAreOrderly }
    ensures headed { GraphsAreHeaded }
    ensures calls { FormedCallsStand }
{}

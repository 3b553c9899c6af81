// Facts about the definitions of statements.
ghost use Rattle.wm_trees.specs.Laws.{SizeStands, SeqDrawn, TreeRuled, IfDrawn, ElseDrawn, BodyDrawn};

/// It does nothing: its contract tells how statements stand together of their parts.
#[tactic(auto, using(crate::proofs::Sizes::same_size, crate::proofs::TreesDrawn::seq_drawn, crate::proofs::TreesDrawn::tree_ruled, crate::proofs::ArmsDrawn::if_drawn, crate::proofs::ArmsDrawn::else_drawn, crate::proofs::BodiesDrawn::body_drawn))]
pub fn statement_laws()
    ensures size_stands { SizeStands }
    ensures seq_drawn { SeqDrawn }
    ensures tree_ruled { TreeRuled }
    ensures if_drawn { IfDrawn }
    ensures else_drawn { ElseDrawn }
    ensures body_drawn { BodyDrawn }
{}

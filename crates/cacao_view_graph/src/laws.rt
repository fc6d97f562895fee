// The law of pictures. The function does nothing; its contract is the law.
ghost use Rattle.cacao_view_graph.specs.Laws.{PictureLaw};

/// Each step is one node and each link one edge, nothing else is drawn, and DOT reads each label as what it was made of.
#[tactic(auto, using(crate::proofs::LawLemmas::picture_law))]
pub fn picture_law()
    ensures { PictureLaw }
{}

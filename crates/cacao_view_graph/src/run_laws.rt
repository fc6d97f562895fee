// Laws of what is noted of a run.
ghost use Rattle.cacao_view_graph.specs.RunLaws.{IssuesHaveSteps};

/// Each issue of a run has the step from which it was sent, at which it is noted.
pub fn run_picture_law()
    ensures issues { IssuesHaveSteps }
{}

// What the bytes of an engine's file settle.
ghost use Rattle.flow_engine_history.specs.Laws.{NoRunWhereRefused, OneRefusal};

/// A file for which an opening is refused holds no such run, and it is refused in one way. The function does nothing; its
/// contract is the law.
pub fn opening_law()
    ensures no_run { NoRunWhereRefused }
    ensures one_refusal { OneRefusal }
{}

// What holds of every reply.
ghost use Rattle.slpf_rules.specs.Laws.{RepliesAreFinal};

/// Every reply to the bytes of a command is final: as it is written it reads back with a known status other than 102, and
/// has at most 1,048,576 bytes. The function does nothing; its contract is the law.
pub fn replies_are_final()
    ensures { RepliesAreFinal }
{}

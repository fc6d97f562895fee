// What holds of what is written.
ghost use Rattle.oc2_msg.specs.Laws.{HasCommand, CommandsReadBack, ResponsesReadBack};

/// Commands and responses that are written read back, each command and response in range. The function does nothing;
/// its contract is the law.
pub fn reads_back()
    ensures has_command { HasCommand }
    ensures commands { CommandsReadBack }
    ensures responses { ResponsesReadBack }
{}

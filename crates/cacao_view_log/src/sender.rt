// Tasks that sent commands or asked operators.

/// The task that sent a command, or asked an operator.
#[derive(Clone, Copy)]
pub(crate) struct Sender {
    /// The number of the task.
    pub task: u32,
    /// The number of the filter, from 1 to 16; 0 for an operator.
    pub agent: u8,
}

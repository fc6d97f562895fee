// The file of an agent that is audited.
use crate::numbers::Agent;

/// The name of a file that holds the acts of an agent.
#[derive(Drop)]
pub struct FilterFile<'w> {
    pub agent: Agent,
    pub name: &'w str,
}

// A step of playbooks, by numbers.

/// A step, by the number of its playbook, from 0, and its own there; steps stand in the order of their keys.
#[derive(Clone, Copy)]
pub struct Spot {
    pub book: u32,
    pub step: u32,
}

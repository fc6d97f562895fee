// How a call of `fleet` ends.
use cacao_cli_ends::End;

/// How a call of `fleet` ends: as a call of another command may, or with the number of a run.
#[derive(Drop)]
pub enum FleetEnd<'w> {
    Plain { end: End<'w> },
    /// All runs have ended, and this is the first that failed.
    Failed { run: u64 },
    /// Nothing but an operator's answer lets a run go on, for this issue of this run first.
    Asked { run: u64, issue: u32 },
    /// The journal of this run has other playbooks: the first that differs, or their number where only the bindings do.
    OtherBook { run: u64, index: u32 },
    /// The journal of this run is empty, and this is the least filter that has an act of it.
    RunUsed { run: u64, agent: u8 },
}

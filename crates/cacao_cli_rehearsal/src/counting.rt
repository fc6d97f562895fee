// What the files of a run hold. A disk that fails is answered as want of memory, since it is that of a site that is used up then.
ghost use Rattle.std.specs.Prelude.{◌≡◌, ◌≢◌, ◌≤◌, ◌+◌, ◌*◌, ◌/◌, ℕ, IsTrue, IfOk, length};
ghost use Rattle.flow_world.specs.Openings.{blocks_to};
ghost use Rattle.cacao_cli_rehearsal.specs.Counts.{Counts, CountsActs, CountsFilters, CountsRecords, HoldsFilter, HoldsFilters, HoldsRun, KeepsImages, OpensFew};

use crate::summary::Summary;
use cacao_site::Disk;
use run_journal::{Journal, JournalError};
use slpf_actuator::{ActError, Actuator};
use std::alloc::{AllocError, Global};

/// Acts and the rules after them.
#[derive(Clone, Copy, Drop)]
struct FilterCount {
    pub acts: u64,
    pub rules: u32,
}

/// How many records file 0 holds.
fn count_records<D: Disk>(alloc: Global, disk: &mut D) -> Result<u32, AllocError>
    requires told { IsTrue (D.view disk.old).disk.told }
    requires run { HoldsRun (D.view disk.old).disk }
    ensures records { IfOk result (CountsRecords (D.view disk.old).disk) }
    ensures keeps { KeepsImages (D.view disk.old).disk (D.view disk.new).disk }
    ensures calls { (D.view disk.new).disk.calls
        ≤ (D.view disk.old).disk.calls + 3 + length ((D.view disk.new).disk.reads 0) / 4096 }
    ensures says { (D.view disk.new).counts.says ≡ (D.view disk.old).counts.says }
{
    match Journal::open_on(alloc, disk, 0) {
        Ok(journal) => Ok(journal.count()),
        Err(JournalError::Disk) => Err(AllocError),
        Err(JournalError::Memory) => Err(AllocError),
        Err(JournalError::Damaged { .. }) => unreachable!(),
        Err(JournalError::Full { .. }) => unreachable!(),
        Err(JournalError::Broken) => unreachable!(),
    }
}

/// How many acts and rules the filter of an agent has.
fn count_filter<D: Disk>(alloc: Global, disk: &mut D, agent: u8) -> Result<FilterCount, AllocError>
    requires low { 1 ≤ agent }
    requires high { agent ≤ 16 }
    requires told { IsTrue (D.view disk.old).disk.told }
    requires filter { HoldsFilter agent (D.view disk.old) }
    ensures count { IfOk result (CountsActs agent (D.view disk.old)) }
    ensures keeps { KeepsImages (D.view disk.old).disk (D.view disk.new).disk }
    ensures calls { (D.view disk.new).disk.calls
        ≤ (D.view disk.old).disk.calls + 3 + length ((D.view disk.new).disk.reads agent) / 4096 }
    ensures others { (other : ℕ) → other ≢ agent → (D.view disk.new).disk.reads other ≡ (D.view disk.old).disk.reads other }
    ensures says { (D.view disk.new).counts.says ≡ (D.view disk.old).counts.says }
{
    match Actuator::open_on(alloc, disk, agent) {
        Ok(filter) => Ok(FilterCount {
            acts: filter.count() as u64,
            rules: filter.table().rules().len() as u32,
        }),
        Err(ActError::Disk) => Err(AllocError),
        Err(ActError::Memory) => Err(AllocError),
        Err(ActError::Damaged { .. }) => unreachable!(),
        Err(ActError::Full { .. }) => unreachable!(),
        Err(ActError::Broken) => unreachable!(),
    }
}

/// How many acts and rules the filters of agents 1 to 16 have.
fn count_filters<D: Disk>(alloc: Global, disk: &mut D) -> Result<FilterCount, AllocError>
    requires told { IsTrue (D.view disk.old).disk.told }
    requires filters { HoldsFilters (D.view disk.old) }
    ensures count { IfOk result (CountsFilters (D.view disk.old)) }
    ensures keeps { KeepsImages (D.view disk.old).disk (D.view disk.new).disk }
    ensures calls { (D.view disk.new).disk.calls ≤ (D.view disk.old).disk.calls + 3 * 16 + blocks_to 16 (D.view disk.new).disk }
    ensures first { (D.view disk.new).disk.reads 0 ≡ (D.view disk.old).disk.reads 0 }
    ensures says { (D.view disk.new).counts.says ≡ (D.view disk.old).counts.says }
{
    let mut all = FilterCount { acts: 0, rules: 0 };
    for agent in 1..17u8 {
        match count_filter(alloc, disk, agent) {
            Ok(one) => {
                all.acts += one.acts;
                all.rules += one.rules;
            }
            Err(error) => return Err(error),
        }
    }
    Ok(all)
}

/// Counts what the files of a run hold.
pub(crate) fn count<D: Disk>(alloc: Global, disk: &mut D) -> Result<Summary, AllocError>
    requires told { IsTrue (D.view disk.old).disk.told }
    requires run { HoldsRun (D.view disk.old).disk }
    requires filters { HoldsFilters (D.view disk.old) }
    ensures counts { IfOk result (Counts (D.view disk.old)) }
    ensures keeps { KeepsImages (D.view disk.old).disk (D.view disk.new).disk }
    ensures few { OpensFew (D.view disk.old).disk (D.view disk.new).disk }
    ensures says { (D.view disk.new).counts.says ≡ (D.view disk.old).counts.says }
{
    let records = match count_records(alloc, disk) {
        Ok(records) => records,
        Err(error) => return Err(error),
    };
    let filters = match count_filters(alloc, disk) {
        Ok(filters) => filters,
        Err(error) => return Err(error),
    };
    Ok(Summary {
        records,
        acts: filters.acts,
        rules: filters.rules,
    })
}

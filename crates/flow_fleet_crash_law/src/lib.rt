//! A crash of a site in memory leaves a site where a session may go on, and a rack where the runs of a fleet may.
#![tactic(auto)]

ghost use Rattle.std.specs.Prelude.{◌≡◌, ℕ, IfOk};
ghost use Rattle.cacao_site.specs.DiskCalls.{IsDurable};
ghost use Rattle.cacao_site.specs.View.{device_calls};
ghost use Rattle.cacao_site_memory.specs.MemorySite.{view_of};
ghost use Rattle.flow_fleet_laws.specs.Racks.{IsCrashedRack};
ghost use Rattle.flow_laws.specs.Sessions.{IsRestart};

use cacao_site_memory::{MemorySite, SitePlan};
use std::alloc::AllocError;

/// The site after a crash at this moment, where `choice` picks what each file then holds: `MemorySite::crash`. It is one where a
/// session may go on, or where it is a rack the runs of a fleet: each file holds one image, and no call of the device was made.
pub fn crash(site: MemorySite, choice: u64) -> Result<MemorySite, AllocError>
    ensures restart { IfOk result (λ left. IsRestart (view_of site) (view_of site).disk.beat (view_of left)) }
    ensures durable { IfOk result (λ left. (file : ℕ) → IsDurable file (view_of left).disk) }
    ensures calls { IfOk result (λ left. device_calls (view_of left) ≡ 0) }
    ensures rack { IfOk result (λ left. IsCrashedRack (view_of site) (view_of left)) }
{
    site.crash(choice)
}

/// The same under another plan: `MemorySite::crash_with`.
pub fn crash_with(site: MemorySite, choice: u64, plan: SitePlan) -> Result<MemorySite, AllocError>
    ensures restart { IfOk result (λ left. IsRestart (view_of site) (view_of site).disk.beat (view_of left)) }
    ensures durable { IfOk result (λ left. (file : ℕ) → IsDurable file (view_of left).disk) }
    ensures calls { IfOk result (λ left. device_calls (view_of left) ≡ 0) }
    ensures rack { IfOk result (λ left. IsCrashedRack (view_of site) (view_of left)) }
{
    site.crash_with(choice, plan)
}

//! The headline as one theorem: all agrees at each beat of a life, and so the next call may begin. A life is told in
//! `specs/Lives.antt`.
#![tactic(auto)]

ghost use Rattle.std.specs.Prelude.{IfOk};
ghost use Rattle.cacao_site_memory.specs.MemorySite.{view_of};
ghost use Rattle.cacao_cli_life.specs.Lives.{BeginsLife, EachBeatHasImages, EachCallMayBegin, EachLifeAgrees};

use cacao_site_memory::{MemorySite, SitePlan};
use std::alloc::{AllocError, Global};

/// From blank files on, through calls of the program, crashes at any beat of them, and journals that are taken away: all that a
/// crash may leave agrees at each beat of the last call, and each next call may begin where the site tells its files, and for
/// `run` its parcels besides, under a number that may be used. The function does nothing; its contract is the theorem.
pub fn life_law()
    ensures agrees { EachLifeAgrees }
    ensures may_begin { EachCallMayBegin }
    ensures has_images { EachBeatHasImages }
{}

/// A new site in memory, on which a life begins.
pub fn first_site(alloc: Global, plan: SitePlan) -> Result<MemorySite, AllocError>
    ensures begins { IfOk result (λ site. BeginsLife (view_of site)) }
{
    MemorySite::new(alloc, plan)
}

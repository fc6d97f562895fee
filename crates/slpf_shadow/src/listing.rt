// Which rules of a table are shadowed.
ghost use Rattle.std.specs.Prelude.{◌↔◌, IfOk, All, Contains};
ghost use Rattle.std.specs.List.Sorted.{IsStrictlyIncreasing};
ghost use Rattle.slpf_rules.specs.declared.rules.Rule.{Rule};
ghost use Rattle.slpf_shadow.specs.Listed.{shadowed_numbers, IsShadowed, IsLeastShadow};

use crate::searching::least_shadow;
use crate::shadow_lists::ShadowList;
use slpf_rules::Table;
use std::alloc::{AllocError, Global};

/// The rules that one earlier rule shadows by itself, in order of number, each once and with the least number of a
/// rule that does. Rules that only several others cover together are not listed.
pub fn shadowed(alloc: Global, table: &Table) -> Result<ShadowList, AllocError>
    ensures listed { IfOk result (λ list. (later : Rule) → Contains table.now later
        → (Contains (shadowed_numbers list) later.number ↔ IsShadowed table.now later)) }
    ensures least { IfOk result (λ list. All (IsLeastShadow table.now) list) }
    ensures rising { IfOk result (λ list. IsStrictlyIncreasing (shadowed_numbers list)) }
{
    let mut list = ShadowList::new(alloc);
    for later in table.rules().iter() {
        list.add(later.number, least_shadow(table, later))?;
    }
    Ok(list)
}

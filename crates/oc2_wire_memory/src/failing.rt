// Which calls fail by a plan.
ghost use Rattle.std.specs.Prelude.{◌≡◌};
ghost use Rattle.oc2_wire_memory.specs.Failing.{is_listed};

use cacao_site_memory::CallList;

/// Whether the call of this number, from 0, is in the list.
pub fn is_listed(failing: &CallList, call: u64) -> bool
    ensures { result ≡ is_listed failing.now call }
{
    call < 4_294_967_296 && failing.contains(call as u32)
}

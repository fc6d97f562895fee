// Bytes that go out whole.
ghost use Rattle.std.specs.Prelude.{◌≡◌, OnOk, OnErr};
ghost use Rattle.cacao_site.specs.Counts.{next_count};
ghost use Rattle.oc2_wire_link.specs.Links.{Sends};
ghost use Rattle.oc2_wire_site.specs.LineLinks.{SendsFront};

use cacao_site::Failed;
use oc2_wire_link::Link;

/// Hands all of the bytes to a link. Where a call fails, the front of them may have gone out.
pub(crate) fn send_all<K: Link>(link: &mut K, bytes: &[u8]) -> Result<(), Failed>
    ensures sends { OnOk result (Sends bytes.now (K.view link.old) (K.view link.new)) }
    ensures faultless { OnOk result ((K.view link.new).faults ≡ (K.view link.old).faults) }
    ensures front { OnErr result (SendsFront bytes.now (K.view link.old) (K.view link.new)) }
    ensures cause { OnErr result ((K.view link.new).faults ≡ next_count (K.view link.old).faults) }
{
    let mut from = 0usize;
    while from < bytes.len() {
        let count = link.send(&bytes[from..])?;
        from += count as usize;
    }
    Ok(())
}

// Commands that are measured.
ghost use Rattle.std.specs.Prelude.{IsTrue};
ghost use Rattle.oc2_msg_targets.specs.Ranges.{Each, FlowInRange, IsRuleNumber};
ghost use Rattle.oc2_msg_targets.specs.Targets.{has_part};
ghost use Rattle.oc2_msg.specs.Ranges.{InRange};

use oc2_msg::{Command, Direction, Drop3};
use oc2_nets::{Flow, Net4, Net6, Protocol};
use std::alloc::{AllocError, Global};

/// The first address of 10.0.0.0/8.
pub(crate) const TEN: u32 = 0x0a00_0000;

/// The net 10.X.Y.0/24 with the 16 bits of this number as X and Y.
pub(crate) fn net(number: u32) -> Net4 {
    Net4::new(TEN + number % 65_536 * 256, 24)
}

/// The net 10.0.0.0/8.
pub(crate) fn wide_net() -> Net4 {
    Net4::new(TEN, 8)
}

/// The first address of 2001:db8::/32.
pub(crate) const DOCUMENTATION: u128 = 0x2001_0db8_0000_0000_0000_0000_0000_0000;

/// The net 2001:db8:0:X::/64 with the 16 bits of this number as X.
pub(crate) fn net6(number: u32) -> Net6 {
    Net6::new(
        DOCUMENTATION + u128::from(number % 65_536) * 0x1_0000_0000_0000_0000,
        64,
    )
}

/// Tcp to a port of a net.
pub(crate) fn connection(net: Net4, port: u16) -> Flow
    ensures fits { FlowInRange result }
    ensures some_part { IsTrue (has_part result) }
{
    Flow::Conn4 {
        protocol: Some(Protocol::Tcp),
        src: None,
        src_port: None,
        dst: Some(net),
        dst_port: Some(port),
    }
}

/// A deny of a net, as the rule of this number, or of the next one.
pub(crate) fn deny(net: Net4, insert: Option<u32>) -> Command
    requires { Each IsRuleNumber insert }
    ensures { InRange result }
{
    deny_flow(Flow::Net4(net), insert)
}

/// A deny of a flow, as the rule of this number, or of the next one.
pub(crate) fn deny_flow(flow: Flow, insert: Option<u32>) -> Command
    requires fits { FlowInRange flow }
    requires some_part { IsTrue (has_part flow) }
    requires number { Each IsRuleNumber insert }
    ensures { InRange result }
{
    Command::Rule {
        deny: true,
        flow,
        direction: Direction::Both,
        drop: Drop3::Silent,
        insert,
        start: None,
        stop: None,
        duration: None,
    }
}

/// The text of a deny of the net of this number, as the rule of the next number.
pub(crate) fn deny_text(alloc: Global, number: u32) -> Result<String, AllocError> {
    let high = number / 256 % 256;
    let low = number % 256;
    format!(in alloc; r#"{{"action":"deny","target":{{"ipv4_net":"10.{high}.{low}.0/24"}}}}"#)
}

// Connections. No call here takes memory.
ghost use Rattle.std.specs.Prelude.{◌≡◌, IfSome, IsTrue};
ghost use Rattle.cacao_json.specs.Tree.{data_of};
ghost use Rattle.serde_json.specs.Find.{get};
ghost use Rattle.oc2_msg_targets.specs.Parts.{optional, has_only};
ghost use Rattle.oc2_msg_targets.specs.Targets.{connection, connection4, connection6, connection_parts, has_part, port};
ghost use Rattle.oc2_msg_targets.specs.Ranges.{FlowInRange};

use crate::parts::{has_only, optional_whole};
use crate::values::{optional_net4, optional_net6, optional_protocol};
use cacao_json::Tree;
use oc2_nets::Flow;

/// A port that a member is.
fn optional_port(tree: &Tree, name: &str) -> Option<Option<u16>>
    ensures value { result ≡ optional port (get name.now (data_of tree.now)) }
{
    match optional_whole(tree, name, 0, 65_535)? {
        None => Some(None),
        Some(port) => Some(Some(port as u16)),
    }
}

fn parts4(tree: &Tree) -> Option<Flow>
    ensures value { result ≡ connection4 (data_of tree.now) }
    ensures fits { IfSome result FlowInRange }
{
    let protocol = optional_protocol(tree, "protocol")?;
    let src = optional_net4(tree, "src_addr")?;
    let src_port = optional_port(tree, "src_port")?;
    let dst = optional_net4(tree, "dst_addr")?;
    let dst_port = optional_port(tree, "dst_port")?;
    Some(Flow::Conn4 {
        protocol,
        src,
        src_port,
        dst,
        dst_port,
    })
}

fn parts6(tree: &Tree) -> Option<Flow>
    ensures value { result ≡ connection6 (data_of tree.now) }
    ensures fits { IfSome result FlowInRange }
{
    let protocol = optional_protocol(tree, "protocol")?;
    let src = optional_net6(tree, "src_addr")?;
    let src_port = optional_port(tree, "src_port")?;
    let dst = optional_net6(tree, "dst_addr")?;
    let dst_port = optional_port(tree, "dst_port")?;
    Some(Flow::Conn6 {
        protocol,
        src,
        src_port,
        dst,
        dst_port,
    })
}

/// Whether a connection states some part.
fn has_part(flow: &Flow) -> bool
    ensures { result ≡ has_part flow.now }
{
    match *flow {
        Flow::Net4(_) | Flow::Net6(_) => true,
        Flow::Conn4 {
            protocol,
            src,
            src_port,
            dst,
            dst_port,
        } => {
            protocol.is_some()
                || src.is_some()
                || src_port.is_some()
                || dst.is_some()
                || dst_port.is_some()
        }
        Flow::Conn6 {
            protocol,
            src,
            src_port,
            dst,
            dst_port,
        } => {
            protocol.is_some()
                || src.is_some()
                || src_port.is_some()
                || dst.is_some()
                || dst_port.is_some()
        }
    }
}

/// Whether the tree is an object with no other members than those of a connection.
fn is_connection(tree: &Tree) -> bool
    ensures { result ≡ has_only connection_parts (data_of tree.now) }
{
    has_only(
        tree,
        &["dst_addr", "dst_port", "protocol", "src_addr", "src_port"],
    )
}

/// The connection of IPv4 that the tree is: one or more parts, and no other member.
pub fn read_connection4(tree: &Tree) -> Option<Flow>
    ensures value { result ≡ connection connection4 (data_of tree.now) }
    ensures fits { IfSome result FlowInRange }
    ensures some_part { IfSome result (λ f. IsTrue (has_part f)) }
{
    if !is_connection(tree) {
        return None;
    }
    let flow = parts4(tree)?;
    if has_part(&flow) { Some(flow) } else { None }
}

/// The connection of IPv6 that the tree is.
pub fn read_connection6(tree: &Tree) -> Option<Flow>
    ensures value { result ≡ connection connection6 (data_of tree.now) }
    ensures fits { IfSome result FlowInRange }
    ensures some_part { IfSome result (λ f. IsTrue (has_part f)) }
{
    if !is_connection(tree) {
        return None;
    }
    let flow = parts6(tree)?;
    if has_part(&flow) { Some(flow) } else { None }
}

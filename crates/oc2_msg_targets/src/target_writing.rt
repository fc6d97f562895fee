// From targets to trees.
ghost use Rattle.std.specs.Prelude.{◌≡◌, IfOk, option_map};
ghost use Rattle.serde_json.specs.Data.{string};
ghost use Rattle.cacao_json.specs.Tree.{data_of};
ghost use Rattle.oc2_nets.specs.Nets.{net4_text, net6_text};
ghost use Rattle.oc2_msg_targets.specs.Parts.{whole_data};
ghost use Rattle.oc2_msg_targets.specs.Least.{net4_data, net6_data, protocol_data, connection_data, flow_kind, flow_value, flow_data, features_data};

use crate::building::{one_member, push_text, put, text_tree, whole_tree};
use crate::features::Feature;
use crate::kinds::TargetKind;
use cacao_json::{Items, Pairs, Text, Tree};
use oc2_nets::{Flow, Net4, Net6, Protocol, print_net4, print_net6, protocol_word};
use std::alloc::{AllocError, Global};

fn net4_text(alloc: Global, net: Net4) -> Result<Text, AllocError>
    ensures { IfOk result (λ t. t ≡ net4_text net) }
{
    let text = print_net4(alloc, &net)?;
    Ok(Text::from_string(text.into_string()))
}

fn net6_text(alloc: Global, net: Net6) -> Result<Text, AllocError>
    ensures { IfOk result (λ t. t ≡ net6_text net) }
{
    let text = print_net6(alloc, &net)?;
    Ok(Text::from_string(text.into_string()))
}

fn net4_tree(alloc: Global, net: Net4) -> Result<Tree, AllocError>
    ensures { IfOk result (λ t. data_of t ≡ net4_data net) }
{
    let text = net4_text(alloc, net)?;
    Ok(Tree::Text(text))
}

fn net6_tree(alloc: Global, net: Net6) -> Result<Tree, AllocError>
    ensures { IfOk result (λ t. data_of t ≡ net6_data net) }
{
    let text = net6_text(alloc, net)?;
    Ok(Tree::Text(text))
}

fn net4_part(alloc: Global, net: Option<Net4>) -> Result<Option<Text>, AllocError>
    ensures { IfOk result (λ part. option_map string part ≡ option_map net4_data net) }
{
    match net {
        None => Ok(None),
        Some(net) => Ok(Some(net4_text(alloc, net)?)),
    }
}

fn net6_part(alloc: Global, net: Option<Net6>) -> Result<Option<Text>, AllocError>
    ensures { IfOk result (λ part. option_map string part ≡ option_map net6_data net) }
{
    match net {
        None => Ok(None),
        Some(net) => Ok(Some(net6_text(alloc, net)?)),
    }
}

fn text_part(text: Option<Text>) -> Option<Tree>
    ensures { option_map data_of result ≡ option_map string text }
{
    match text {
        None => None,
        Some(text) => Some(Tree::Text(text)),
    }
}

fn protocol_part(alloc: Global, protocol: Option<Protocol>) -> Result<Option<Tree>, AllocError>
    ensures { IfOk result (λ part. option_map data_of part ≡ option_map protocol_data protocol) }
{
    match protocol {
        None => Ok(None),
        Some(protocol) => Ok(Some(text_tree(alloc, protocol_word(protocol))?)),
    }
}

fn port_part(port: Option<u16>) -> Option<Tree>
    ensures { option_map data_of result ≡ option_map whole_data port }
{
    match port {
        None => None,
        Some(port) => Some(whole_tree(port as u64)),
    }
}

/// The object of a connection, whose nets are texts.
fn connection_tree(
    alloc: Global,
    protocol: Option<Protocol>,
    src: Option<Text>,
    src_port: Option<u16>,
    dst: Option<Text>,
    dst_port: Option<u16>,
) -> Result<Tree, AllocError>
    ensures { IfOk result (λ t. data_of t ≡ connection_data string protocol src src_port dst dst_port) }
{
    let mut pairs = Pairs::new(alloc);
    put(alloc, &mut pairs, "src_port", port_part(src_port))?;
    put(alloc, &mut pairs, "src_addr", text_part(src))?;
    let protocol = protocol_part(alloc, protocol)?;
    put(alloc, &mut pairs, "protocol", protocol)?;
    put(alloc, &mut pairs, "dst_port", port_part(dst_port))?;
    put(alloc, &mut pairs, "dst_addr", text_part(dst))?;
    Ok(Tree::Members(pairs))
}

/// The value of a flow's target.
fn flow_value(alloc: Global, flow: &Flow) -> Result<Tree, AllocError>
    ensures { IfOk result (λ t. data_of t ≡ flow_value flow.now) }
{
    match *flow {
        Flow::Net4(net) => net4_tree(alloc, net),
        Flow::Net6(net) => net6_tree(alloc, net),
        Flow::Conn4 {
            protocol,
            src,
            src_port,
            dst,
            dst_port,
        } => {
            let src = net4_part(alloc, src)?;
            let dst = net4_part(alloc, dst)?;
            connection_tree(alloc, protocol, src, src_port, dst, dst_port)
        }
        Flow::Conn6 {
            protocol,
            src,
            src_port,
            dst,
            dst_port,
        } => {
            let src = net6_part(alloc, src)?;
            let dst = net6_part(alloc, dst)?;
            connection_tree(alloc, protocol, src, src_port, dst, dst_port)
        }
    }
}

fn flow_kind(flow: &Flow) -> TargetKind
    ensures { result ≡ flow_kind flow.now }
{
    match flow {
        Flow::Net4(_) => TargetKind::Ipv4Net,
        Flow::Net6(_) => TargetKind::Ipv6Net,
        Flow::Conn4 { .. } => TargetKind::Ipv4Connection,
        Flow::Conn6 { .. } => TargetKind::Ipv6Connection,
    }
}

/// The target of a flow.
pub fn flow_tree(alloc: Global, flow: &Flow) -> Result<Tree, AllocError>
    ensures { IfOk result (λ t. data_of t ≡ flow_data flow.now) }
{
    let value = flow_value(alloc, flow)?;
    one_member(alloc, flow_kind(flow).word(), value)
}

/// The names of the features, in their order.
pub fn features_tree(alloc: Global, features: &[Feature]) -> Result<Tree, AllocError>
    ensures { IfOk result (λ t. data_of t ≡ features_data features.now) }
{
    let mut items = Items::new(alloc);
    for feature in features {
        push_text(alloc, &mut items, feature.word())?;
    }
    Ok(Tree::List(items))
}

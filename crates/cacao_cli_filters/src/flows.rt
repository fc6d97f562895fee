// The text of a flow.
ghost use Rattle.std.specs.Prelude.{◌≡◌, IfOk, decimal};
ghost use Rattle.std.specs.String.{string_bytes};
ghost use Rattle.oc2_nets.specs.Nets.{net4_text, net6_text};
ghost use Rattle.oc2_nets.specs.Packets.{protocol_word};
ghost use Rattle.cacao_cli_filters.specs.Lines.{flow_text, or_hyphen};

use oc2_nets::{Flow, Net4, Net6, Protocol, print_net4, print_net6, protocol_word};
use std::alloc::{AllocError, Global};

/// The kind of the flow and its parts, a hyphen for each part that it does not state.
pub(crate) fn flow_text(alloc: Global, flow: &Flow) -> Result<String, AllocError>
    ensures { IfOk result (λ text. string_bytes text ≡ flow_text flow.now) }
{
    match flow {
        Flow::Net4(net) => net4_flow(alloc, net),
        Flow::Net6(net) => net6_flow(alloc, net),
        Flow::Conn4 {
            protocol,
            src,
            src_port,
            dst,
            dst_port,
        } => {
            let protocol = protocol_text(*protocol);
            let src = maybe_net4(alloc, *src)?;
            let src_port = maybe_port(alloc, *src_port)?;
            let dst = maybe_net4(alloc, *dst)?;
            let dst_port = maybe_port(alloc, *dst_port)?;
            format!(in alloc; "conn4 {protocol} {src} {src_port} {dst} {dst_port}")
        }
        Flow::Conn6 {
            protocol,
            src,
            src_port,
            dst,
            dst_port,
        } => {
            let protocol = protocol_text(*protocol);
            let src = maybe_net6(alloc, *src)?;
            let src_port = maybe_port(alloc, *src_port)?;
            let dst = maybe_net6(alloc, *dst)?;
            let dst_port = maybe_port(alloc, *dst_port)?;
            format!(in alloc; "conn6 {protocol} {src} {src_port} {dst} {dst_port}")
        }
    }
}

fn net4_flow(alloc: Global, net: &Net4) -> Result<String, AllocError>
    ensures { IfOk result (λ text. string_bytes text ≡ flow_text (Flow.Net4 net.now)) }
{
    let net = print_net4(alloc, net)?;
    let net = net.text();
    format!(in alloc; "net4 {net}")
}

fn net6_flow(alloc: Global, net: &Net6) -> Result<String, AllocError>
    ensures { IfOk result (λ text. string_bytes text ≡ flow_text (Flow.Net6 net.now)) }
{
    let net = print_net6(alloc, net)?;
    let net = net.text();
    format!(in alloc; "net6 {net}")
}

fn protocol_text(protocol: Option<Protocol>) -> &'static str
    ensures { result.now ≡ or_hyphen protocol_word protocol }
{
    match protocol {
        Some(protocol) => protocol_word(protocol),
        None => "-",
    }
}

fn maybe_net4(alloc: Global, net: Option<Net4>) -> Result<String, AllocError>
    ensures { IfOk result (λ text. string_bytes text ≡ or_hyphen net4_text net) }
{
    match net {
        Some(net) => {
            let text = print_net4(alloc, &net)?;
            Ok(text.into_string())
        }
        None => String::from_str(alloc, "-"),
    }
}

fn maybe_net6(alloc: Global, net: Option<Net6>) -> Result<String, AllocError>
    ensures { IfOk result (λ text. string_bytes text ≡ or_hyphen net6_text net) }
{
    match net {
        Some(net) => {
            let text = print_net6(alloc, &net)?;
            Ok(text.into_string())
        }
        None => String::from_str(alloc, "-"),
    }
}

fn maybe_port(alloc: Global, port: Option<u16>) -> Result<String, AllocError>
    ensures { IfOk result (λ text. string_bytes text ≡ or_hyphen decimal port) }
{
    match port {
        Some(port) => format!(in alloc; "{port}"),
        None => String::from_str(alloc, "-"),
    }
}

/// A moment in milliseconds, or a hyphen where there is none.
pub(crate) fn maybe_moment(alloc: Global, moment: Option<u64>) -> Result<String, AllocError>
    ensures { IfOk result (λ text. string_bytes text ≡ or_hyphen decimal moment) }
{
    match moment {
        Some(moment) => format!(in alloc; "{moment}"),
        None => String::from_str(alloc, "-"),
    }
}

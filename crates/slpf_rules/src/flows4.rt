// Flows of IPv4 addresses, in few bytes.
ghost use Rattle.std.specs.Prelude.{◌≡◌, IfSome};
ghost use Rattle.slpf_rules.specs.Briefs.{flow_of};

use oc2_nets::{Flow, Net4, Protocol};

/// An IPv4 flow, in fewer bytes than a flow of either family has.
#[derive(Clone, Copy)]
pub(crate) enum Flow4 {
    Net(Net4),
    Conn {
        protocol: Option<Protocol>,
        src: Option<Net4>,
        src_port: Option<u16>,
        dst: Option<Net4>,
        dst_port: Option<u16>,
    },
}

impl Flow4 {
    /// The same flow, if it is one of IPv4 addresses.
    pub(crate) fn of(flow: &Flow) -> Option<Flow4>
        ensures { IfSome result (λ short. flow_of short ≡ flow.now) }
    {
        match *flow {
            Flow::Net4(net) => Some(Flow4::Net(net)),
            Flow::Conn4 {
                protocol,
                src,
                src_port,
                dst,
                dst_port,
            } => Some(Flow4::Conn {
                protocol,
                src,
                src_port,
                dst,
                dst_port,
            }),
            Flow::Net6(_) | Flow::Conn6 { .. } => None,
        }
    }

    /// The same flow.
    pub(crate) fn flow(&self) -> Flow
        ensures { result ≡ flow_of self.now }
    {
        match *self {
            Flow4::Net(net) => Flow::Net4(net),
            Flow4::Conn {
                protocol,
                src,
                src_port,
                dst,
                dst_port,
            } => Flow::Conn4 {
                protocol,
                src,
                src_port,
                dst,
                dst_port,
            },
        }
    }
}

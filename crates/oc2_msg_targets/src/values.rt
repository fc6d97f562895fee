// Values of members: nets and protocols. No call here takes memory.
ghost use Rattle.std.specs.Prelude.{◌≡◌, IfSome};
ghost use Rattle.serde_json.specs.Find.{get};
ghost use Rattle.cacao_json.specs.Tree.{data_of};
ghost use Rattle.oc2_msg_targets.specs.Parts.{optional};
ghost use Rattle.oc2_msg_targets.specs.Targets.{net4_in, net6_in, protocol_in};
ghost use Rattle.oc2_msg_targets.specs.Ranges.{IsNet4, IsNet6, Each};

use crate::parts::str_of;
use cacao_json::{Tree, member};
use oc2_nets::{Net4, Net6, Protocol, read_net4, read_net6, read_protocol};

pub fn net4_in(tree: &Tree) -> Option<Net4>
    ensures value { result ≡ net4_in (data_of tree.now) }
    ensures fits { IfSome result IsNet4 }
{
    read_net4(str_of(tree)?)
}

pub fn net6_in(tree: &Tree) -> Option<Net6>
    ensures value { result ≡ net6_in (data_of tree.now) }
    ensures fits { IfSome result IsNet6 }
{
    read_net6(str_of(tree)?)
}

fn protocol_in(tree: &Tree) -> Option<Protocol>
    ensures { result ≡ protocol_in (data_of tree.now) }
{
    read_protocol(str_of(tree)?)
}

pub fn optional_net4(tree: &Tree, name: &str) -> Option<Option<Net4>>
    ensures value { result ≡ optional net4_in (get name.now (data_of tree.now)) }
    ensures fits { IfSome result (Each IsNet4) }
{
    match member(tree, name) {
        None => Some(None),
        Some(part) => Some(Some(net4_in(part)?)),
    }
}

pub fn optional_net6(tree: &Tree, name: &str) -> Option<Option<Net6>>
    ensures value { result ≡ optional net6_in (get name.now (data_of tree.now)) }
    ensures fits { IfSome result (Each IsNet6) }
{
    match member(tree, name) {
        None => Some(None),
        Some(part) => Some(Some(net6_in(part)?)),
    }
}

pub fn optional_protocol(tree: &Tree, name: &str) -> Option<Option<Protocol>>
    ensures { result ≡ optional protocol_in (get name.now (data_of tree.now)) }
{
    match member(tree, name) {
        None => Some(None),
        Some(part) => Some(Some(protocol_in(part)?)),
    }
}

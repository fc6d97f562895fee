// Tables that are measured.
ghost use Rattle.std.specs.Prelude.{IsTrue};
ghost use Rattle.oc2_msg_targets.specs.Ranges.{FlowInRange};
ghost use Rattle.oc2_msg_targets.specs.Targets.{has_part};
ghost use Rattle.oc2_msg.specs.Ranges.{InRange};

use crate::commands::{connection, deny, deny_flow, net, net6, wide_net};
use oc2_msg::Command;
use oc2_nets::Flow;
use slpf_rules::Table;
use std::alloc::{AllocError, Global};

/// How many rules a table holds at the most.
pub(crate) const MOST: u32 = 65_536;

/// Which rules a table has.
#[derive(Clone, Copy)]
pub(crate) enum Kind {
    /// One IPv4 net a rule.
    Nets,
    /// One IPv6 net a rule.
    Nets6,
    /// Tcp to port 443 of a net, one net a rule.
    Connections,
    /// Tcp to one of 64 ports of a net, 64 rules a net.
    Shared,
}

/// The port of the rule of this number, of those that share nets.
pub(crate) fn shared_port(number: u32) -> u16 {
    1_000 + (number % 64) as u16
}

/// Gives a table a command. The command and its response are dropped by name, which is one call each.
fn tell(table: &mut Table, command: Command) -> Result<(), AllocError>
    requires { InRange command }
{
    let response = table.answer(&command, 0);
    drop(command);
    drop(response?);
    Ok(())
}

impl Kind {
    /// What the rule of this number, from 0 on, speaks of.
    fn flow(self, number: u32) -> Flow
        ensures fits { FlowInRange result }
        ensures some_part { IsTrue (has_part result) }
    {
        match self {
            Kind::Nets => Flow::Net4(net(number)),
            Kind::Nets6 => Flow::Net6(net6(number)),
            Kind::Connections => connection(net(number), 443),
            Kind::Shared => connection(net(number / 64), shared_port(number)),
        }
    }

    /// Adds so many denies to a table, as the next numbers.
    fn add(self, table: &mut Table, rules: u32) -> Result<(), AllocError> {
        for number in 0..rules {
            tell(table, deny_flow(self.flow(number), None))?;
        }
        Ok(())
    }

    /// A table of so many denies, whose numbers rise.
    pub(crate) fn table(self, alloc: Global, rules: u32) -> Result<Table, AllocError> {
        let mut table = Table::new(alloc);
        self.add(&mut table, rules)?;
        Ok(table)
    }
}

/// A table of so many rules, at least one: a deny of 10.0.0.0/8, and behind it denies of nets in that.
pub(crate) fn one_shadows_all(alloc: Global, rules: u32) -> Result<Table, AllocError> {
    let mut table = Table::new(alloc);
    tell(&mut table, deny(wide_net(), None))?;
    Kind::Nets.add(&mut table, rules.saturating_sub(1))?;
    Ok(table)
}

/// A table of denies of so many nets, put in from the greatest number down to 1.
pub(crate) fn falling(alloc: Global, rules: u32) -> Result<Table, AllocError> {
    let mut table = Table::new(alloc);
    for number in 0..rules {
        tell(&mut table, deny(net(number), Some(rules - number)))?;
    }
    Ok(table)
}

/// Takes so many rules out of a table, from the greatest number down to 1.
pub(crate) fn delete_falling(table: &mut Table, rules: u32) -> Result<(), AllocError> {
    for gone in 0..rules {
        let number = rules - gone;
        tell(table, Command::Delete { number })?;
    }
    Ok(())
}

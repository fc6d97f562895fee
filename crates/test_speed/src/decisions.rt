// How fast packets are decided.
use crate::packets::Traffic;
use crate::report::{Measurement, say_ratio, since, used};
use crate::tables::{Kind, MOST};
use oc2_nets::{Packet, covers};
use slpf_rules::Table;
use std::io;
use std::time::CpuClock;

/// How many of these packets the table denies.
fn denied(table: &Table, traffic: Traffic, packets: u32) -> usize {
    let mut count: usize = 0;
    for number in 0..packets {
        if table.decide(&traffic.packet(number), 0).deny {
            count = count.saturating_add(1);
        }
    }
    count
}

/// Whether the first rule that covers a packet denies it, by a look at one rule after another.
fn scan(table: &Table, packet: &Packet) -> bool {
    for rule in table.rules().iter() {
        if covers(&rule.flow, packet) {
            return rule.deny;
        }
    }
    false
}

/// How many of these packets the rules deny, by a look at one rule after another.
fn denied_by_scan(table: &Table, traffic: Traffic, packets: u32) -> usize {
    let mut count: usize = 0;
    for number in 0..packets {
        if scan(table, &traffic.packet(number)) {
            count = count.saturating_add(1);
        }
    }
    count
}

/// The processor time of the decisions of these packets, in microseconds, and how many of them the table denies.
fn time_table(
    rt: &impl CpuClock,
    table: &Table,
    traffic: Traffic,
    packets: u32,
) -> io::Result<(u64, usize)> {
    let start = used(rt)?;
    let found = denied(table, traffic, packets);
    Ok((since(rt, start)?, found))
}

/// Measures the decisions of a table of so many rules: the least time of five rounds, in microseconds.
fn measure_table(
    rt: &(impl Print + CpuClock),
    table: &Table,
    rules: u32,
    traffic: Traffic,
) -> io::Result<u64> {
    let count = 1_000_000;
    let (mut time, found) = time_table(rt, table, traffic, count)?;
    for _ in 0..4 {
        let (again, _) = time_table(rt, table, traffic, count)?;
        time = time.min(again);
    }
    Measurement {
        what: traffic.word(),
        rules,
        count,
        time,
        found,
        so: "denied by the table",
    }
    .say(rt)?;
    Ok(time)
}

/// Measures a plain scan of the same rules.
fn measure_scan(
    rt: &(impl Print + CpuClock),
    table: &Table,
    rules: u32,
    traffic: Traffic,
) -> io::Result<()> {
    let count = 20_000_000 / rules.max(1);
    let start = used(rt)?;
    let found = denied_by_scan(table, traffic, count);
    let time = since(rt, start)?;
    Measurement {
        what: traffic.word(),
        rules,
        count,
        time,
        found,
        so: "denied by a scan",
    }
    .say(rt)
}

/// Measures packets that no rule covers, and packets that one rule covers. The times of the table, in microseconds.
fn measure_rules<R: Print + CpuClock + AllocGlobal>(rt: &R, rules: u32) -> io::Result<(u64, u64)> {
    let kind = Kind::Nets;
    let table = kind.table(rt.alloc(), rules)?;
    let outside = measure_table(rt, &table, rules, Traffic::Outside)?;
    measure_scan(rt, &table, rules, Traffic::Outside)?;
    let inside = measure_table(rt, &table, rules, Traffic::Inside { kind, rules })?;
    measure_scan(rt, &table, rules, Traffic::Inside { kind, rules })?;
    Ok((outside, inside))
}

/// Measures packets that one rule covers, over tables of one kind of rules.
fn measure_kind<R: Print + CpuClock + AllocGlobal>(rt: &R, kind: Kind) -> io::Result<()> {
    for rules in [256, MOST] {
        let table = kind.table(rt.alloc(), rules)?;
        measure_table(rt, &table, rules, Traffic::Inside { kind, rules })?;
    }
    Ok(())
}

/// Measures decisions over 256 and over 65,536 rules.
pub(crate) fn measure<R: Print + CpuClock + AllocGlobal>(rt: &R) -> io::Result<()> {
    let few = measure_rules(rt, 256)?;
    let many = measure_rules(rt, MOST)?;
    say_ratio(
        rt,
        "65536 : 256 rules, packets that no rule covers",
        many.0,
        few.0,
    )?;
    say_ratio(
        rt,
        "65536 : 256 rules, packets that one rule covers",
        many.1,
        few.1,
    )?;
    for kind in [Kind::Nets6, Kind::Connections, Kind::Shared] {
        measure_kind(rt, kind)?;
    }
    Ok(())
}

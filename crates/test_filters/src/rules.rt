// Rows of a table of rules, each on what the rows before left: `new`, `ask MOMENT COMMAND`, `decide LINE`, `size`, `filed`, `fill` and
// `decide_many COUNT`.
use crate::answers::{none, number_of, place_of, said, unknown};
use crate::filters::{Filter, Said};
use oc2_nets::{Address, Packet, Protocol};
use slpf_rules::Verdict;
use std::alloc::{AllocError, Global};
use test_rows::Row;

fn response(alloc: Global, response: Option<Said>) -> Result<String, AllocError> {
    match response {
        Some(response) => said(alloc, response.status, response.rule, response.text.text()),
        None => unknown(alloc),
    }
}

fn verdict(alloc: Global, verdict: Option<Verdict>) -> Result<String, AllocError> {
    let Some(verdict) = verdict else {
        return none(alloc);
    };
    let word = if verdict.deny { "deny" } else { "allow" };
    let rule = verdict.rule;
    format!(in alloc; "{word} {rule}")
}

fn size(alloc: Global, filter: &Filter) -> Result<String, AllocError> {
    let (count, greatest) = filter.size();
    format!(in alloc; "{count} rules to {greatest}")
}

fn filed(alloc: Global, filter: &Filter) -> Result<String, AllocError> {
    let (sources, destinations, others) = filter.filed();
    format!(in alloc; "{sources} sources {destinations} destinations {others} others")
}

/// Asks for a deny of the net `10.X.Y.0/24` with this number as X and Y; true where it is added.
fn is_added(alloc: Global, filter: &mut Filter, number: u32) -> Result<bool, AllocError> {
    let high = number / 256 % 256;
    let low = number % 256;
    let text = format!(in alloc;
        r#"{{"action":"deny","target":{{"ipv4_net":"10.{high}.{low}.0/24"}}}}"#
    )?;
    filter.adds(alloc, text.as_bytes())
}

/// How many of 65,536 denies of nets `10.X.Y.0/24` are added.
fn fill(alloc: Global, filter: &mut Filter) -> Result<String, AllocError> {
    let mut added: u32 = 0;
    for number in 0..65_536 {
        if is_added(alloc, filter, number)? {
            added = added.saturating_add(1);
        }
    }
    format!(in alloc; "{added} added")
}

/// How many of the packets from 192.0.2.1 to 172.16.0.0 and so many more addresses a rule decides.
fn decide_many(alloc: Global, filter: &Filter, count: u32) -> Result<String, AllocError> {
    let mut decided: u32 = 0;
    for number in 0..count {
        let packet = Packet {
            outward: false,
            protocol: Protocol::Tcp,
            from: Address::V4(0xc000_0201),
            from_port: 1,
            to: Address::V4(0xac10_0000_u32.wrapping_add(number)),
            to_port: 443,
        };
        let verdict = filter.decide(&packet, 0);
        if verdict.deny || verdict.rule != 0 {
            decided = decided.saturating_add(1);
        }
    }
    format!(in alloc; "{decided} decided")
}

/// What a row answers.
pub(crate) fn answer(alloc: Global, filter: &mut Filter, row: &Row) -> Result<String, AllocError> {
    match row.text(0) {
        "new" => {
            *filter = Filter::new(alloc);
            size(alloc, filter)
        }
        "ask" => {
            let came = filter.ask(alloc, row.bytes(2), number_of(row.text(1)))?;
            response(alloc, came)
        }
        "decide" => verdict(alloc, filter.decide_line(row.text(1))),
        "size" => size(alloc, filter),
        "filed" => filed(alloc, filter),
        "fill" => fill(alloc, filter),
        "decide_many" => decide_many(alloc, filter, place_of(row.text(1))),
        _ => unknown(alloc),
    }
}

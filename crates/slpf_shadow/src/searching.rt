// The least number of a rule that shadows another.
ghost use Rattle.std.specs.Prelude.{◌≡◌, Option, option_map, unwrap_or, [], find};
ghost use Rattle.std.specs.BTreeMap.{get};
ghost use Rattle.oc2_nets.specs.declared.flows.Flow.{Flow};
ghost use Rattle.slpf_rules.specs.declared.any_nets.AnyNet.{AnyNet};
ghost use Rattle.slpf_rules.specs.AnyNets.{net_cmp};
ghost use Rattle.slpf_rules.specs.Order.{IsRising};
ghost use Rattle.slpf_rules.specs.Filing.{IsIndexOf};
ghost use Rattle.slpf_rules.specs.Deciding.{sooner, smallest};
ghost use Rattle.slpf_shadow.specs.Ranges.{IsRule};
ghost use Rattle.slpf_shadow.specs.Tests.{shadows};
ghost use Rattle.slpf_shadow.specs.Searches.{number_shadows, shadows_round, least_shadow};

use crate::nets::{first_address, net_at, width};
use crate::shadowing::{never_decides, shadows};
use crate::shapes::Shape;
use slpf_rules::{AnyNet, Numbers, Rule, Rules, Table};
use std::collections::BTreeMap;

/// What is asked: which of the rules shadow this one.
#[derive(Clone, Copy)]
pub(crate) struct Query<'a> {
    pub(crate) rules: &'a Rules,
    pub(crate) later: &'a Rule,
}

fn number_shadows(query: &Query, number: u32) -> bool
    ensures { result ≡ number_shadows query.now.rules.now query.now.later.now number }
{
    match query.rules.find(number) {
        Some(earlier) => shadows(earlier, query.later),
        None => false,
    }
}

/// The first number of a list whose rule shadows.
fn first_of(numbers: &Numbers, query: &Query) -> Option<u32>
    ensures { result ≡ find (number_shadows query.now.rules.now query.now.later.now) numbers.now }
{
    numbers
        .iter()
        .copied()
        .find(|number| number_shadows(query, *number))
}

/// The lesser of a number and the first one of a list whose rule shadows.
fn lesser_of(best: Option<u32>, numbers: &Numbers, query: &Query) -> Option<u32>
    ensures { result ≡ sooner best (find (number_shadows query.now.rules.now query.now.later.now) numbers.now) }
{
    match (best, first_of(numbers, query)) {
        (None, found) => found,
        (Some(best), None) => Some(best),
        (Some(best), Some(found)) => Some(best.min(found)),
    }
}

/// The lesser of a number and the least one that shadows, of the rules under the net of this width round a net.
fn lesser_under(
    best: Option<u32>,
    nets: &BTreeMap<AnyNet, Numbers>,
    net: &AnyNet,
    query: &Query,
) -> Option<u32>
    ensures { result ≡ sooner best (find (number_shadows query.now.rules.now query.now.later.now)
        (unwrap_or (get net_cmp nets.now net.now) [])) }
{
    match nets.get(net) {
        Some(numbers) => lesser_of(best, numbers, query),
        None => best,
    }
}

/// The lesser of a number and the least one that shadows, of the rules under the nets round a net.
fn lesser_round(
    best: Option<u32>,
    nets: &BTreeMap<AnyNet, Numbers>,
    net: &AnyNet,
    query: &Query,
) -> Option<u32>
    ensures { (net_of : Flow → Option AnyNet) → IsIndexOf net_of query.now.rules.now nets.now.entries
        → IsRising query.now.rules.now
        → result ≡ sooner best (smallest (shadows_round net_of net.now query.now.later.now) query.now.rules.now) }
{
    let address = first_address(*net);
    let mut least = best;
    for bits in 0..width(net) + 1 {
        least = lesser_under(least, nets, &net_at(address, bits), query);
    }
    least
}

/// The first rule that shadows, of all of them.
fn first_rule(query: &Query) -> Option<u32>
    ensures { result ≡ option_map (λ rule. rule.number)
        (find (λ earlier. shadows earlier query.now.later.now) query.now.rules.now) }
{
    query
        .rules
        .iter()
        .find(|earlier| shadows(earlier, query.later))
        .map(|earlier| earlier.number)
}

/// The least number of a rule that shadows this one. The rules that can are filed under nets round this rule's, or
/// under none.
pub(crate) fn least_shadow(table: &Table, later: &Rule) -> Option<u32>
    ensures value { result ≡ least_shadow table.now later.now }
    ensures fits { IsRule later.now }
{
    let query = Query {
        rules: table.rules(),
        later,
    };
    if never_decides(later) {
        return first_rule(&query);
    }
    let shape = Shape::of(later.flow);
    let unfiled = lesser_of(None, table.unfiled(), &query);
    let source = lesser_round(unfiled, table.by_source(), &shape.source(), &query);
    lesser_round(source, table.by_destination(), &shape.destination(), &query)
}

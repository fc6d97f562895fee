// From responses to texts.
ghost use Rattle.std.specs.Prelude.{◌≡◌, ◌<◌, ◌^◌, IfOk, OnOk, Some, codes, option_map};
ghost use Rattle.serde_json.specs.Data.{put};
ghost use Rattle.cacao_json.specs.Tree.{data_of};
ghost use Rattle.oc2_msg_targets.specs.Parts.{one_text, whole_data};
ghost use Rattle.oc2_msg_targets.specs.Puts.{put_part};
ghost use Rattle.oc2_msg_targets.specs.Words.{feature_word};
ghost use Rattle.oc2_msg.specs.Reasons.{reason_text};
ghost use Rattle.oc2_msg.specs.Ranges.{IsStatus};
ghost use Rattle.oc2_msg.specs.Responses.{flow_kinds, feature_value, pairs_value, value_part, rule_part, results_part, text_part, response_object, response_text, answer};

use crate::reasons::Reason;
use crate::responses::Response;
use cacao_json::{Items, Pairs, Tree};
use cacao_text::{Bytes2, canonical};
use oc2_msg_targets::{
    Feature, FeatureList, one_member, one_text, push_text, put, text_tree, unless_empty, whole_tree,
};
use std::alloc::{AllocError, Global};

/// The canonical text (RFC 8785) of the response (OpenC2 Language 1.0, section 3.2): `results` with the values of the
/// features and the rule's number, if there are any, `status`, and `status_text`, if it is not empty.
pub fn write_response(alloc: Global, response: &Response) -> Result<Bytes2, AllocError>
    requires { IsStatus response.now.status }
    ensures text { IfOk result (λ text. text ≡ response_text response.now) }
    ensures back { IfOk result (λ text. answer text ≡ Some (record {
      status = response.now.status;
      rule = response.now.rule;
      text = reason_text response.now.text;
    })) }
{
    let results = results_part(alloc, response.rule, &response.features)?;
    let tree = response_tree(alloc, results, response.status, response.text)?;
    canonical(alloc, &tree)
}

/// The targets of rules.
fn flow_kinds(alloc: Global) -> Result<Tree, AllocError>
    ensures { IfOk result (λ t. data_of t ≡ flow_kinds) }
{
    let mut items = Items::new(alloc);
    push_text(alloc, &mut items, "ipv4_connection")?;
    push_text(alloc, &mut items, "ipv4_net")?;
    push_text(alloc, &mut items, "ipv6_connection")?;
    push_text(alloc, &mut items, "ipv6_net")?;
    Ok(Tree::List(items))
}

/// Puts a member that is a list of one text.
fn put_one_text(alloc: Global, pairs: &mut Pairs, name: &str, text: &str) -> Result<(), AllocError>
    ensures { OnOk result (pairs.new ≡ put name.now (one_text text.now) pairs.old) }
{
    let value = one_text(alloc, text)?;
    put(alloc, pairs, name, Some(value))?;
    Ok(())
}

/// Puts the targets of rules.
fn put_flow_kinds(alloc: Global, pairs: &mut Pairs, name: &str) -> Result<(), AllocError>
    ensures { OnOk result (pairs.new ≡ put name.now flow_kinds pairs.old) }
{
    let value = flow_kinds(alloc)?;
    put(alloc, pairs, name, Some(value))?;
    Ok(())
}

/// The targets that each action takes.
fn pairs_value(alloc: Global) -> Result<Tree, AllocError>
    ensures { IfOk result (λ t. data_of t ≡ pairs_value) }
{
    let mut pairs = Pairs::new(alloc);
    put_one_text(alloc, &mut pairs, "update", "file")?;
    put_one_text(alloc, &mut pairs, "query", "features")?;
    put_flow_kinds(alloc, &mut pairs, "deny")?;
    put_one_text(alloc, &mut pairs, "delete", "slpf:rule_number")?;
    put_flow_kinds(alloc, &mut pairs, "allow")?;
    Ok(Tree::Members(pairs))
}

fn feature_value(alloc: Global, feature: Feature) -> Result<Tree, AllocError>
    ensures { IfOk result (λ t. data_of t ≡ feature_value feature) }
{
    match feature {
        Feature::Versions => one_text(alloc, "1.0"),
        Feature::Profiles => one_text(alloc, "slpf"),
        Feature::Pairs => pairs_value(alloc),
        Feature::RateLimit => Ok(whole_tree(60_000)),
    }
}

/// The value of a feature, if it is asked for.
fn value_part(
    alloc: Global,
    features: &FeatureList,
    feature: Feature,
) -> Result<Option<Tree>, AllocError>
    ensures { IfOk result (λ part. option_map data_of part ≡ value_part features.now feature) }
{
    if features.has(feature) {
        Ok(Some(feature_value(alloc, feature)?))
    } else {
        Ok(None)
    }
}

/// Puts the value of a feature under its name, if it is asked for.
fn put_value(
    alloc: Global,
    results: &mut Pairs,
    features: &FeatureList,
    feature: Feature,
) -> Result<(), AllocError>
    ensures { OnOk result (results.new ≡ put_part (feature_word feature) (value_part features.now feature) results.old) }
{
    let value = value_part(alloc, features, feature)?;
    put(alloc, results, feature.word(), value)?;
    Ok(())
}

fn rule_part(alloc: Global, rule: u32) -> Result<Option<Tree>, AllocError>
    ensures { IfOk result (λ part. option_map data_of part ≡ rule_part rule) }
{
    if rule == 0 {
        return Ok(None);
    }
    let number = one_member(alloc, "rule_number", whole_tree(rule as u64))?;
    Ok(Some(number))
}

fn results_part(
    alloc: Global,
    rule: u32,
    features: &FeatureList,
) -> Result<Option<Tree>, AllocError>
    ensures value { IfOk result (λ part. option_map data_of part ≡ results_part rule features.now) }
    ensures small { OnOk result (rule < 2 ^ 32) }
{
    let mut results = Pairs::new(alloc);
    put_value(alloc, &mut results, features, Feature::Versions)?;
    let slpf = rule_part(alloc, rule)?;
    put(alloc, &mut results, "slpf", slpf)?;
    put_value(alloc, &mut results, features, Feature::RateLimit)?;
    put_value(alloc, &mut results, features, Feature::Profiles)?;
    put_value(alloc, &mut results, features, Feature::Pairs)?;
    Ok(unless_empty(results))
}

fn text_part(alloc: Global, text: Reason) -> Result<Option<Tree>, AllocError>
    ensures { IfOk result (λ part. option_map data_of part ≡ text_part (reason_text text)) }
{
    let text = text.text();
    if text.is_empty() {
        return Ok(None);
    }
    Ok(Some(text_tree(alloc, text)?))
}

/// Puts the text, if it is not empty, and the status.
fn put_status(alloc: Global, pairs: &mut Pairs, status: u16, text: Reason) -> Result<(), AllocError>
    ensures { OnOk result (pairs.new
        ≡ put (codes "status") (whole_data status) (put_part (codes "status_text") (text_part (reason_text text)) pairs.old)) }
{
    let text = text_part(alloc, text)?;
    put(alloc, pairs, "status_text", text)?;
    put(alloc, pairs, "status", Some(whole_tree(status as u64)))?;
    Ok(())
}

fn response_tree(
    alloc: Global,
    results: Option<Tree>,
    status: u16,
    text: Reason,
) -> Result<Tree, AllocError>
    ensures { IfOk result (λ t. data_of t ≡ response_object (option_map data_of results) status text) }
{
    let mut pairs = Pairs::new(alloc);
    put_status(alloc, &mut pairs, status, text)?;
    put(alloc, &mut pairs, "results", results)?;
    Ok(Tree::Members(pairs))
}

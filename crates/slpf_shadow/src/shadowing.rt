// Whether a rule shadows another.
ghost use Rattle.std.specs.Prelude.{◌≡◌, ◌<◌};
ghost use Rattle.slpf_shadow.specs.Ranges.{IsMoment, IsRule};
ghost use Rattle.slpf_shadow.specs.Tests.{is_over, never_decides, stop_within, moments_within, direction_within, rule_within, shadows};

use crate::shapes::Shape;
use oc2_msg::Direction;
use slpf_rules::Rule;

fn is_over(start: u64, stop: Option<u64>) -> bool
    ensures value { result ≡ is_over start stop }
    ensures fits { IsMoment stop }
{
    match stop {
        None => false,
        Some(stop) => stop <= start,
    }
}

/// Whether a rule is in force at no moment, or covers no packet.
pub(crate) fn never_decides(rule: &Rule) -> bool
    ensures value { result ≡ never_decides rule.now }
    ensures fits { IsRule rule.now }
{
    let is_over = is_over(rule.start, rule.stop);
    let shape = Shape::of(rule.flow);
    is_over || shape.has_no_packet()
}

fn stop_within(inner: Option<u64>, outer: Option<u64>) -> bool
    ensures { result ≡ stop_within inner outer }
{
    match (inner, outer) {
        (_, None) => true,
        (None, Some(_)) => false,
        (Some(inner), Some(outer)) => inner <= outer,
    }
}

fn moments_within(inner: &Rule, outer: &Rule) -> bool
    ensures { result ≡ moments_within inner.now outer.now }
{
    outer.start <= inner.start && stop_within(inner.stop, outer.stop)
}

fn direction_within(inner: Direction, outer: Direction) -> bool
    ensures { result ≡ direction_within inner outer }
{
    outer == Direction::Both || inner == outer
}

fn rule_within(inner: &Rule, outer: &Rule) -> bool
    ensures { result ≡ rule_within inner.now outer.now }
{
    moments_within(inner, outer)
        && direction_within(inner.direction, outer.direction)
        && Shape::of(inner.flow).is_within(&Shape::of(outer.flow))
}

/// Whether the earlier rule shadows the later one: it has the smaller number, and decides wherever the later one
/// would.
pub(crate) fn shadows(earlier: &Rule, later: &Rule) -> bool
    ensures { result ≡ shadows earlier.now later.now }
{
    earlier.number < later.number && (never_decides(later) || rule_within(later, earlier))
}

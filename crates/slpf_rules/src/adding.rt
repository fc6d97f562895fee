// What a rule that is added gets: its number and its times.
ghost use Rattle.std.specs.Prelude.{◌≡◌, ◌+◌, ◌<◌, ◌≤◌, false, length, IsTrue, IfOk, OnOk};
ghost use Rattle.oc2_msg.specs.Args.{are_times};
ghost use Rattle.oc2_msg_targets.specs.Ranges.{Each};
ghost use Rattle.oc2_msg.specs.Ranges.{IsTime};
ghost use Rattle.slpf_rules.specs.Rules.{is_held};
ghost use Rattle.slpf_rules.specs.Replies.{is_full, number_for, start_of, stop_of};

use crate::rules::Rules;
use oc2_msg::Reason;

fn is_full(rules: &Rules) -> bool
    ensures { result ≡ is_full rules.now }
{
    65_536 <= rules.len()
}

/// The number of a rule that is added: the one asked for, or one more than the greatest held.
pub(crate) fn number_for(insert: Option<u32>, rules: &Rules) -> Result<u32, Reason>
    ensures value { result ≡ number_for insert rules.now }
    ensures free { IfOk result (λ number. is_held number rules.now ≡ false) }
    ensures room { OnOk result (length rules.now < 65_536) }
{
    match insert {
        Some(number) => {
            if rules.holds(number) {
                return Err(Reason::RuleNumberHeld);
            }
            if is_full(rules) {
                return Err(Reason::TableFull);
            }
            Ok(number)
        }
        None => {
            if is_full(rules) {
                return Err(Reason::TableFull);
            }
            let greatest = rules.greatest();
            if greatest == u32::MAX {
                return Err(Reason::NoNumberLeft);
            }
            Ok(greatest + 1)
        }
    }
}

/// The first moment of force: the start that is stated, or the stop less the duration, or the moment.
pub(crate) fn start_of(
    start: Option<u64>,
    stop: Option<u64>,
    duration: Option<u64>,
    moment: u64,
) -> u64
    requires times { IsTrue (are_times start stop duration) }
    requires start { Each IsTime start }
    requires stop { Each IsTime stop }
    requires moment { moment ≤ 9_007_199_254_740_991 }
    ensures value { result ≡ start_of start stop duration moment }
    ensures fits { IsTime result }
{
    match (start, stop, duration) {
        (Some(start), _, _) => start,
        (None, Some(stop), Some(duration)) => stop - duration,
        (None, Some(_), None) | (None, None, _) => moment,
    }
}

/// The end of force: the stop that is stated, or the duration after the start, or none.
pub(crate) fn stop_of(stop: Option<u64>, duration: Option<u64>, start: u64) -> Option<u64>
    requires start { IsTime start }
    requires duration { Each IsTime duration }
    ensures { result ≡ stop_of stop duration start }
{
    match (stop, duration) {
        (Some(stop), _) => Some(stop),
        (None, Some(duration)) => Some(start + duration),
        (None, None) => None,
    }
}

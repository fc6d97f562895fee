// Arguments of commands. No call here takes memory.
ghost use Rattle.std.specs.Prelude.{◌≡◌, IfSome, Some, codes};
ghost use Rattle.serde_json.specs.Find.{get};
ghost use Rattle.cacao_json.specs.Tree.{data_of};
ghost use Rattle.oc2_msg_targets.specs.Parts.{optional, has_only};
ghost use Rattle.oc2_msg.specs.Args.{time, rule_number, no_filter_args, filter_values, filter_args_in, arg_parts, is_at_most, are_times, no_args, arg_values, args_in, has_filter_arg, has_time, is_unserved};
ghost use Rattle.oc2_msg_targets.specs.Ranges.{Each, IsRuleNumber};
ghost use Rattle.oc2_msg.specs.Ranges.{IsTime, FilterArgsInRange, ArgsInRange, HasTimes};

use crate::directions::Direction;
use crate::drops::Drop3;
use crate::values::{optional_direction, optional_drop, optional_flag, optional_request};
use base_decimals::MOST_EXACT;
use cacao_json::{Tree, member};
use oc2_msg_targets::{has_only, optional_whole};

/// The arguments of the profile (OpenC2 SLPF 1.0, section 2.1.3), each where it stands.
#[derive(Clone, Copy)]
pub struct FilterArgs {
    pub drop_process: Option<Drop3>,
    pub persistent: Option<bool>,
    pub direction: Option<Direction>,
    pub insert_rule: Option<u32>,
}

/// The arguments of a command (OpenC2 Language 1.0, section 3.3.1.4), each where it stands. Times are milliseconds.
#[derive(Clone, Copy)]
pub struct Args {
    pub start_time: Option<u64>,
    pub stop_time: Option<u64>,
    pub duration: Option<u64>,
    pub slpf: FilterArgs,
}

impl FilterArgs {
    fn none() -> FilterArgs
        ensures value { result ≡ no_filter_args }
    {
        FilterArgs {
            drop_process: None,
            persistent: None,
            direction: None,
            insert_rule: None,
        }
    }

    fn insert_rule(tree: &Tree) -> Option<Option<u32>>
        ensures value { result ≡ optional rule_number (get (codes "insert_rule") (data_of tree.now)) }
        ensures fits { IfSome result (Each IsRuleNumber) }
    {
        match optional_whole(tree, "insert_rule", 1, 4_294_967_295)? {
            None => Some(None),
            Some(number) => Some(Some(number as u32)),
        }
    }

    fn values(tree: &Tree, denies: bool) -> Option<FilterArgs>
        ensures value { result ≡ filter_values denies (data_of tree.now) }
        ensures fits { IfSome result (FilterArgsInRange denies) }
    {
        let drop_process = optional_drop(tree, "drop_process", denies)?;
        let persistent = optional_flag(tree, "persistent")?;
        let direction = optional_direction(tree, "direction")?;
        let insert_rule = FilterArgs::insert_rule(tree)?;
        Some(FilterArgs {
            drop_process,
            persistent,
            direction,
            insert_rule,
        })
    }

    /// The arguments of the profile in a tree.
    fn read(tree: &Tree, denies: bool) -> Option<FilterArgs>
        ensures value { result ≡ filter_args_in denies (Some (data_of tree.now)) }
        ensures fits { IfSome result (FilterArgsInRange denies) }
    {
        let names = ["direction", "drop_process", "insert_rule", "persistent"];
        if has_only(tree, &names) {
            FilterArgs::values(tree, denies)
        } else {
            None
        }
    }

    /// Whether some argument stands.
    fn has_some(&self) -> bool
        ensures { result ≡ has_filter_arg self.now }
    {
        self.drop_process.is_some()
            || self.persistent.is_some()
            || self.direction.is_some()
            || self.insert_rule.is_some()
    }
}

/// The arguments of the profile that a member is; none where it is absent.
fn filter_args(tree: &Tree, denies: bool) -> Option<FilterArgs>
    ensures value { result ≡ filter_args_in denies (get (codes "slpf") (data_of tree.now)) }
    ensures fits { IfSome result (FilterArgsInRange denies) }
{
    match member(tree, "slpf") {
        None => Some(FilterArgs::none()),
        Some(part) => FilterArgs::read(part, denies),
    }
}

fn optional_time(tree: &Tree, name: &str) -> Option<Option<u64>>
    ensures value { result ≡ optional time (get name.now (data_of tree.now)) }
    ensures fits { IfSome result (Each IsTime) }
{
    optional_whole(tree, name, 0, MOST_EXACT)
}

/// Whether the tree is an object with no other members than those of arguments.
fn is_args(tree: &Tree) -> bool
    ensures { result ≡ has_only arg_parts (data_of tree.now) }
{
    let names = [
        "duration",
        "response_requested",
        "slpf",
        "start_time",
        "stop_time",
    ];
    has_only(tree, &names)
}

/// Whether the first is at most the second, where both stand.
fn is_at_most(first: Option<u64>, second: Option<u64>) -> bool
    ensures { result ≡ is_at_most first second }
{
    match (first, second) {
        (Some(first), Some(second)) => first <= second,
        _ => true,
    }
}

/// Whether these times may stand together.
fn are_times(start: Option<u64>, stop: Option<u64>, duration: Option<u64>) -> bool
    ensures { result ≡ are_times start stop duration }
{
    !(start.is_some() && stop.is_some() && duration.is_some())
        && is_at_most(start, stop)
        && is_at_most(duration, stop)
}

impl Args {
    /// No arguments.
    pub fn none() -> Args
        ensures value { result ≡ no_args }
    {
        Args {
            start_time: None,
            stop_time: None,
            duration: None,
            slpf: FilterArgs::none(),
        }
    }

    fn values(tree: &Tree, denies: bool) -> Option<Args>
        ensures value { result ≡ arg_values denies (data_of tree.now) }
        ensures fits { IfSome result (ArgsInRange denies) }
    {
        let start_time = optional_time(tree, "start_time")?;
        let stop_time = optional_time(tree, "stop_time")?;
        let duration = optional_time(tree, "duration")?;
        let _request = optional_request(tree, "response_requested")?;
        let slpf = filter_args(tree, denies)?;
        Some(Args {
            start_time,
            stop_time,
            duration,
            slpf,
        })
    }

    /// The arguments in a tree.
    pub fn read(tree: &Tree, denies: bool) -> Option<Args>
        ensures value { result ≡ args_in denies (Some (data_of tree.now)) }
        ensures fits { IfSome result (ArgsInRange denies) }
        ensures times { IfSome result HasTimes }
    {
        if !is_args(tree) {
            return None;
        }
        let args = Args::values(tree, denies)?;
        if are_times(args.start_time, args.stop_time, args.duration) {
            Some(args)
        } else {
            None
        }
    }

    fn has_time(&self) -> bool
        ensures { result ≡ has_time self.now }
    {
        self.start_time.is_some() || self.stop_time.is_some() || self.duration.is_some()
    }

    /// Whether this profile does not serve them beside an action that adds a rule, or adds none.
    pub fn is_unserved(&self, adds_rule: bool) -> bool
        ensures { result ≡ is_unserved adds_rule self.now }
    {
        self.slpf.persistent == Some(false)
            || (!adds_rule && (self.has_time() || self.slpf.has_some()))
    }
}

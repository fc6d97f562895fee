// The members of steps that CACAO 2.0 names.
ghost use Rattle.std.specs.Prelude.{◌≡◌, map};
ghost use Rattle.std.specs.List.{list_any};
ghost use Rattle.std.specs.Str.{bytes_eq};
ghost use Rattle.cacao_view_preflight.specs.Warnings.{is_listed, is_step_member, members_named};

/// Those of every step (section 4.1).
pub(crate) const STEP: &[&str] = &[
    "type",
    "name",
    "description",
    "external_references",
    "delay",
    "timeout",
    "step_variables",
    "owner",
    "on_completion",
    "on_success",
    "on_failure",
    "step_extensions",
];

/// Those of an action (section 4.5).
pub(crate) const ACTION: &[&str] = &["commands", "agent", "targets", "in_args", "out_args"];

/// Those of a playbook-action (section 4.6).
pub(crate) const PLAYBOOK_ACTION: &[&str] = &[
    "playbook_id",
    "playbook_version",
    "in_args",
    "out_args",
];

/// Those of a parallel step (section 4.7).
pub(crate) const PARALLEL: &[&str] = &["next_steps"];

/// Those of an if-condition (section 4.8).
pub(crate) const IF_CONDITION: &[&str] = &["condition", "on_true", "on_false"];

/// Those of a while-condition (section 4.9).
pub(crate) const WHILE_CONDITION: &[&str] = &["condition", "on_true"];

/// Those of a switch-condition (section 4.10).
pub(crate) const SWITCH_CONDITION: &[&str] = &["switch", "cases"];

fn is_among(words: &[&str], name: &str) -> bool
    ensures { result ≡ list_any (λ word. bytes_eq name.now word.now) words.now }
{
    words.iter().any(|word| name == *word)
}

fn is_listed(words: &[&str], name: &str) -> bool
    ensures { result ≡ is_listed (map (λ word. word.now) words.now) name.now }
{
    is_among(words, name)
}

/// The members that CACAO names for steps of this type alone.
fn members_named(kind: &str) -> &'static [&'static str]
    ensures { map (λ word. word.now) result.now ≡ members_named kind.now }
{
    if kind == "action" {
        return ACTION;
    }
    if kind == "playbook-action" {
        return PLAYBOOK_ACTION;
    }
    if kind == "parallel" {
        return PARALLEL;
    }
    if kind == "if-condition" {
        return IF_CONDITION;
    }
    if kind == "while-condition" {
        return WHILE_CONDITION;
    }
    if kind == "switch-condition" {
        return SWITCH_CONDITION;
    }
    &[]
}

/// Whether CACAO names a member for steps of this type.
pub(crate) fn is_step_member(kind: &str, name: &str) -> bool
    ensures { result ≡ is_step_member kind.now name.now }
{
    if is_listed(STEP, name) {
        return true;
    }
    is_listed(members_named(kind), name)
}

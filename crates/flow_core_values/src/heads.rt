// The branches that control steps take (CACAO 2.0, sections 4.8 to 4.10).
ghost use Rattle.std.specs.Prelude.{◌≡◌, ◌<◌, Some, length};
ghost use Rattle.std.specs.Option.{option_copied, option_to_list};
ghost use Rattle.cacao_vars.specs.Names.{is_name_character};
ghost use Rattle.cacao_vars.specs.References.{name_run};
ghost use Rattle.flow_core_rules.specs.Givens.{step_at};
ghost use Rattle.flow_core_rules.specs.State.{value_shown};
ghost use Rattle.flow_core_rules.specs.Conditions.{case_with, chosen_case, heads};
ghost use Rattle.flow_core_values.specs.Heads.{HasOneHead};
ghost use Rattle.flow_core_values.specs.RunFacts.{IsWell};
ghost use Rattle.flow_core_values.specs.Sights.{lists_seen, scope_seen};

use crate::run::{Run, Sight, Stand};
use cacao_book::{Case, StepKind};
use cacao_json::Text;

// A letter, a digit, `_` or `-`.
fn is_name_byte(byte: u8) -> bool
    ensures { result ≡ is_name_character byte }
{
    byte.is_ascii_alphanumeric() || byte == b'_' || byte == b'-'
}

// The name characters that a text begins with.
#[tactic(auto, using(crate::proofs::RunLemmas::run_more, crate::proofs::RunLemmas::run_ends))]
fn run_of(text: &[u8]) -> &[u8]
    ensures { result.now ≡ name_run text.now }
{
    for (place, byte) in text.iter().enumerate() {
        if !is_name_byte(*byte) {
            return &text[..place];
        }
    }
    text
}

// The step of the case with this value.
fn case_with<'a>(cases: &'a [Case], value: &str) -> Option<&'a Text>
    ensures { option_copied result ≡ case_with cases.now value.now }
{
    match cases.iter().find(|case| case.value.text() == value) {
        Some(case) => Some(&case.step),
        None => None,
    }
}

// The step of the case of the value, else of the case `default`.
fn chosen_case<'a>(cases: &'a [Case], value: Option<&str>) -> Option<&'a Text>
    ensures { option_copied result ≡ chosen_case cases.now (option_copied value.entry) }
{
    let Some(value) = value else {
        return case_with(cases, "default");
    };
    match case_with(cases, value) {
        Some(step) => Some(step),
        None => case_with(cases, "default"),
    }
}

impl Run {
    // The text of a switch's subject, which is a name and `:value`.
    fn subject_text<'a>(&'a self, sight: Sight<'a>, subject: &Text) -> Option<&'a str>
        requires well { IsWell self.now }
        requires scope { sight.scope < length self.now.tables.opened.scopes }
        ensures { option_copied result ≡ value_shown (lists_seen self.now sight.entry) (scope_seen self.now sight.entry) (name_run subject.now) }
    {
        let name = run_of(subject.text().as_bytes());
        match self.value_of_bytes(sight, name) {
            Some(word) => Some(word.text()),
            None => None,
        }
    }

    /// The key at which the branch begins that the step takes, seen from inside the step; None where it takes none. It
    /// takes no memory.
    pub fn head<'a>(&'a self, stand: Stand<'a>, sight: Sight<'a>) -> Option<&'a Text>
        requires well { IsWell self.now }
        requires scope { sight.scope < length self.now.tables.opened.scopes }
        requires stands { step_at self.now.setup stand.task.book stand.task.step ≡ Some stand.step.now }
        requires one { HasOneHead stand.step.now.kind }
        ensures { option_to_list (option_copied result) ≡ heads (lists_seen self.now sight.entry) (scope_seen self.now sight.entry) stand.entry.step.now.kind }
    {
        match &stand.step.kind {
            StepKind::If {
                on_true,
                on_false,
                ..
            } => {
                if self.is_true(stand, sight) {
                    Some(on_true)
                } else {
                    on_false.as_ref()
                }
            }
            StepKind::While { on_true, .. } => {
                if self.is_true(stand, sight) {
                    Some(on_true)
                } else {
                    None
                }
            }
            StepKind::Switch { subject, cases } => {
                chosen_case(cases.as_slice(), self.subject_text(sight, subject))
            }
            _ => None,
        }
    }
}

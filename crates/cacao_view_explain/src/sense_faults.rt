// What breaks a rule of sense, K14 to K21. K13 and K18 ask nothing of playbooks that are read.
use crate::at_fault::{AtFault, Said};
use crate::call_faults::called_by;
use crate::part::Part;
use crate::wants::{items_of, members_of};
use cacao_book::{Book, Step, StepKind, find_place};
use cacao_check::value_fits;
use cacao_check_steps::{subject_of, version_of};
use cacao_json::{Tree, member, text_of};
use cacao_vars::{Var, Vars};

/// A playbook among others.
#[derive(Clone, Copy)]
pub(crate) struct Suspect<'a> {
    pub(crate) books: &'a [Book],
    pub(crate) book: &'a Book,
}

/// What is said of a link that leads to no step.
const NO_STEP: &str = "no step of the workflow has this key";

/// What is said of links where none is found that leads to no step.
const NO_LINK: &str = "a link leads to no step";

/// What is said of an agent or a target that is not defined.
const UNDEFINED: &str = "neither agent_definitions nor target_definitions defines it";

/// The members of a step of any type that are links.
const NEXT_LINKS: &[&str] = &["on_completion", "on_success", "on_failure"];

const IF_LINKS: &[&str] = &[
    "on_completion",
    "on_success",
    "on_failure",
    "on_true",
    "on_false",
];

const WHILE_LINKS: &[&str] = &["on_completion", "on_success", "on_failure", "on_true"];

/// The members of a step of this type that are links, but for next_steps of a parallel and cases of a switch.
fn links_of(kind: &StepKind) -> &'static [&'static str] {
    match kind {
        StepKind::If { .. } => IF_LINKS,
        StepKind::While { .. } => WHILE_LINKS,
        _ => NEXT_LINKS,
    }
}

/// Whether the value of a variable, if it has one, is of its kind.
fn has_fitting_value(var: &Var) -> bool {
    match &var.worth {
        Some(worth) => value_fits(&var.kind, worth.text()),
        None => true,
    }
}

impl<'a> Suspect<'a> {
    fn names_step(self, key: &str) -> bool {
        find_place(self.book.steps.as_slice(), key).is_some()
    }

    /// What breaks a rule of a whole playbook.
    pub(crate) fn book_fault(self, rule: u8) -> AtFault<'a> {
        if rule == 14 {
            return AtFault::of(
                "id",
                "a playbook that is given before has this identifier too",
            );
        }
        if rule == 20 {
            return value_fault("playbook_variables", &self.book.variables);
        }
        if !self.names_step(self.book.start.text()) {
            return AtFault::of("workflow_start", NO_STEP);
        }
        if let Some(key) = &self.book.exception {
            if !self.names_step(key.text()) {
                return AtFault::of("workflow_exception", NO_STEP);
            }
        }
        AtFault::of("workflow_start", "the step of this key is no start step")
    }

    /// What breaks a rule of a step, which this object is.
    pub(crate) fn step_fault(self, object: &'a Tree, step: &'a Step, rule: u8) -> AtFault<'a> {
        match rule {
            16 => self.link_fault(object, step),
            17 => self.agent_fault(object),
            19 => self.version_fault(step),
            20 => value_fault("step_variables", &step.variables),
            21 => condition_fault(step),
            _ => AtFault::whole("a rule is broken here"),
        }
    }

    /// A link that leads to no step. Members that are no links of a step of this type are not looked at.
    fn link_fault(self, object: &'a Tree, step: &Step) -> AtFault<'a> {
        for link in links_of(&step.kind) {
            if let Some(key) = member(object, *link) {
                if text_of(key).is_some() && !self.item_names_step(key) {
                    return AtFault::of(*link, NO_STEP);
                }
            }
        }
        match &step.kind {
            StepKind::Parallel { .. } => self.branch_fault(object),
            StepKind::Switch { .. } => self.case_fault(object),
            _ => AtFault::whole(NO_LINK),
        }
    }

    /// A branch of a parallel that leads to no step.
    fn branch_fault(self, object: &Tree) -> AtFault<'a> {
        if let Some(list) = member(object, "next_steps") {
            for (number, item) in items_of(list).iter().enumerate() {
                if !self.item_names_step(item) {
                    return AtFault {
                        part: Part::item("next_steps", number, None),
                        said: Said::Plain(NO_STEP),
                    };
                }
            }
        }
        AtFault::of("next_steps", NO_LINK)
    }

    fn item_names_step(self, item: &Tree) -> bool {
        match text_of(item) {
            Some(key) => self.names_step(key.text()),
            None => false,
        }
    }

    /// A case of a switch that leads to no step.
    fn case_fault(self, object: &'a Tree) -> AtFault<'a> {
        if let Some(cases) = member(object, "cases") {
            for pair in members_of(cases) {
                if !self.item_names_step(&pair.tree) {
                    return AtFault {
                        part: Part::below("cases", pair.name.text(), None),
                        said: Said::Plain(NO_STEP),
                    };
                }
            }
        }
        AtFault::of("cases", NO_LINK)
    }

    /// Whether the value is a text that names no agent and no target of the playbook.
    fn is_undefined(self, tree: &Tree) -> bool {
        let Some(name) = text_of(tree) else {
            return false;
        };
        for agent in self.book.agents.as_slice() {
            if agent.text() == name.text() {
                return false;
            }
        }
        true
    }

    /// An agent or a target that is not defined.
    fn agent_fault(self, object: &Tree) -> AtFault<'a> {
        if let Some(agent) = member(object, "agent") {
            if self.is_undefined(agent) {
                return AtFault::of("agent", UNDEFINED);
            }
        }
        if let Some(targets) = member(object, "targets") {
            for (number, target) in items_of(targets).iter().enumerate() {
                if self.is_undefined(target) {
                    return AtFault {
                        part: Part::item("targets", number, None),
                        said: Said::Plain(UNDEFINED),
                    };
                }
            }
        }
        AtFault::of("targets", "an agent or a target is not defined")
    }

    fn version_fault(self, step: &Step) -> AtFault<'a> {
        if let Some(version) = version_of(&step.kind) {
            if let Some(book) = called_by(self.books, step) {
                if book.modified.text() != version.text() {
                    return AtFault {
                        part: Part::of("playbook_version"),
                        said: Said::Version(book.modified.text()),
                    };
                }
            }
        }
        AtFault::of(
            "playbook_id",
            "the calls of this playbook lead back to the one that calls it",
        )
    }
}

/// A variable of this dictionary whose value is not of its kind.
fn value_fault<'a>(dictionary: &'static str, vars: &'a Vars) -> AtFault<'a> {
    for var in vars.as_slice() {
        if !has_fitting_value(var) {
            return AtFault {
                part: Part::below(dictionary, var.name.text(), Some("value")),
                said: Said::Plain("the value is not a text of the variable's type"),
            };
        }
    }
    AtFault::of(dictionary, "a value is not a text of its variable's type")
}

fn condition_fault<'a>(step: &Step) -> AtFault<'a> {
    match subject_of(&step.kind) {
        None => AtFault::of(
            "condition",
            "this is no condition: it compares references with values, as in `__name__:value >= 7`, with AND, OR, IN and parentheses",
        ),
        Some(_) => AtFault::of(
            "switch",
            "this is not exactly one reference to a variable, as `__name__:value`",
        ),
    }
}

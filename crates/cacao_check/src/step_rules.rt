// The rules of a step that look at no other step's variables, one function each. No call here takes memory.
ghost use Rattle.std.specs.Prelude.{◌≡◌, ◌↔◌, ◌≤◌, IsTrue, IsSomeAnd, IfSome, map, Some, length, option_map, option_and_then, option_to_list, is_some};
ghost use Rattle.std.specs.List.{list_all, list_any};
ghost use Rattle.std.specs.Str.{bytes_eq};
ghost use Rattle.cacao_json.specs.Tree.{data_of};
ghost use Rattle.cacao_book_shape.specs.Members.{IsObject};
ghost use Rattle.cacao_book.specs.Steps.{KeepsLimits, place_of};
ghost use Rattle.cacao_check_steps.specs.Links.{next_keys, head_keys, places_of};
ghost use Rattle.cacao_check_steps.specs.Uses.{content_tree, commands_of as commands_in, version_of as version_in};
ghost use Rattle.cacao_check.specs.Rules.{CanBeSent, K13, K16, K17, K18, K19, ConditionIsRead, SubjectIsRead, K21};
ghost use Rattle.cacao_check_steps.specs.Parts.{ReadsStep};
ghost use Rattle.cacao_check_regions.specs.Surveys.{AreLeads};

use crate::breaks::Mode;
use base_graphs::Bits;
use cacao_book::{Book, Step, StepCommand, StepKind};
use cacao_check_steps::{
    Parts, call_of, commands_of, condition_of, is_manual, subject_of, version_of,
};
use cacao_json::{Text, Tree};

fn is_object(tree: &Option<Tree>) -> bool
    ensures { IsTrue result ↔ IsSomeAnd (option_map data_of tree.now) IsObject }
{
    match tree {
        Some(tree) => matches!(tree, Tree::Members(_)),
        None => false,
    }
}

// Whether a command, whose content has this tree, can be sent.
fn can_be_sent(command: &StepCommand, tree: &Option<Tree>) -> bool
    requires { option_map data_of tree.now ≡ content_tree command.now }
    ensures { IsTrue result ↔ CanBeSent command.now }
{
    let Some(text) = &command.content else {
        return false;
    };
    if is_manual(command) {
        return text.text().len() <= 4096;
    }
    command.kind.text() == "openc2-http" && text.text().len() <= 65_536 && is_object(tree)
}

/// Whether each command can be sent, which mode `Run` asks.
pub(crate) fn keeps_k13(mode: Mode, step: &Step, parts: &Parts) -> bool
    requires { map (option_map data_of) parts.now.contents.items ≡ map content_tree (commands_in step.now.kind) }
    ensures { IsTrue result ↔ K13 mode step.now }
{
    if mode == Mode::Read {
        return true;
    }
    let commands = commands_of(&step.kind);
    for (at, command) in commands.iter().enumerate() {
        if !can_be_sent(command, &parts.contents[at]) {
            return false;
        }
    }
    true
}

// Whether a link, which leads to this place, names a step, if there is a link.
fn names_a_step(book: &Book, link: &Option<Text>, place: Option<u32>) -> bool
    requires { place ≡ option_and_then (place_of book.now.steps) link.now }
    ensures { result ≡ list_all (λ key. is_some (place_of book.now.steps key)) (option_to_list link.now) }
{
    let _ = book;
    match link {
        Some(_) => place.is_some(),
        None => true,
    }
}

fn next_name_steps(book: &Book, step: &Step, parts: &Parts) -> bool
    requires completion { parts.now.completion ≡ option_and_then (place_of book.now.steps) step.now.completion }
    requires success { parts.now.success ≡ option_and_then (place_of book.now.steps) step.now.success }
    requires failure { parts.now.failure ≡ option_and_then (place_of book.now.steps) step.now.failure }
    ensures { result ≡ list_all (λ key. is_some (place_of book.now.steps key)) (next_keys step.now) }
{
    if !names_a_step(book, &step.completion, parts.completion) {
        return false;
    }
    if !names_a_step(book, &step.success, parts.success) {
        return false;
    }
    names_a_step(book, &step.failure, parts.failure)
}

fn link_count(link: &Option<Text>) -> usize
    ensures count { result ≡ length (option_to_list link.now) }
    ensures few { result ≤ 1 }
{
    match link {
        Some(_) => 1,
        None => 0,
    }
}

// How many links begin the branches of a step.
fn head_count(kind: &StepKind) -> usize
    ensures { result ≡ length (head_keys kind.now) }
{
    match kind {
        StepKind::Parallel { next } => next.as_slice().len(),
        StepKind::If { on_false, .. } => 1 + link_count(on_false),
        StepKind::While { .. } => 1,
        StepKind::Switch { cases, .. } => cases.as_slice().len(),
        _ => 0,
    }
}

// (a link that names no step has no place)
fn heads_name_steps(book: &Book, step: &Step, parts: &Parts) -> bool
    requires { parts.now.heads ≡ places_of book.now (head_keys step.now.kind) }
    ensures { result ≡ list_all (λ key. is_some (place_of book.now.steps key)) (head_keys step.now.kind) }
{
    let _ = book;
    parts.heads.as_slice().len() == head_count(&step.kind)
}

/// Whether each link names a step.
pub(crate) fn keeps_k16(books: &[Book], book: &Book, step: &Step, parts: &Parts) -> bool
    requires { ReadsStep books.now book.now step.now parts.now }
    ensures { IsTrue result ↔ K16 book.now step.now }
{
    let _ = books;
    next_name_steps(book, step, parts) && heads_name_steps(book, step, parts)
}

fn is_listed(agents: &[Text], name: &Text) -> bool
    ensures { result ≡ list_any (λ agent. bytes_eq agent name.now) agents.now }
{
    agents.iter().any(|agent| agent.text() == name.text())
}

fn are_listed(agents: &[Text], names: &[Text]) -> bool
    ensures { result ≡ list_all (λ name. list_any (λ agent. bytes_eq agent name) agents.now) names.now }
{
    names.iter().all(|name| is_listed(agents, name))
}

/// Whether the agent and the targets of an action are defined.
pub(crate) fn keeps_k17(book: &Book, step: &Step) -> bool
    ensures { IsTrue result ↔ K17 book.now step.now }
{
    let agents = book.agents.as_slice();
    match &step.kind {
        StepKind::Action { agent, targets, .. } => {
            is_listed(agents, agent) && are_listed(agents, targets.as_slice())
        }
        _ => true,
    }
}

/// Whether a playbook-action calls a given book, which mode `Run` asks.
pub(crate) fn keeps_k18(books: &[Book], book: &Book, mode: Mode, step: &Step, parts: &Parts) -> bool
    requires { ReadsStep books.now book.now step.now parts.now }
    ensures { IsTrue result ↔ K18 books.now mode step.now }
{
    let _ = books;
    let _ = book;
    mode == Mode::Read || call_of(&step.kind).is_none() || parts.called.is_some()
}

// Whether the called book is of the version that is asked for.
fn has_version(step: &Step, theirs: &Book) -> bool
    ensures { IsTrue result ↔ IfSome (version_in step.now.kind) (λ wanted. theirs.now.modified ≡ wanted) }
{
    match version_of(&step.kind) {
        Some(wanted) => theirs.modified.text() == wanted.text(),
        None => true,
    }
}

/// Whether the called book is of the version that is asked for, and does not lead back.
pub(crate) fn keeps_k19(
    books: &[Book],
    book: &Book,
    number: u32,
    step: &Step,
    parts: &Parts,
    leads: &[Bits],
) -> bool
    requires reads { ReadsStep books.now book.now step.now parts.now }
    requires leads { AreLeads books.now leads.now }
    ensures { IsTrue result ↔ K19 books.now number step.now }
{
    let _ = book;
    let Some(called) = parts.called else {
        return true;
    };
    let at = called as usize;
    if at >= books.len() {
        return true;
    }
    let theirs = &books[at];
    if !has_version(step, theirs) {
        return false;
    }
    !leads[at].has(number)
}

fn condition_is_read(books: &[Book], book: &Book, step: &Step, parts: &Parts) -> bool
    requires reads { ReadsStep books.now book.now step.now parts.now }
    requires limits { KeepsLimits step.now }
    ensures { IsTrue result ↔ ConditionIsRead step.now }
{
    let _ = books;
    let _ = book;
    if parts.condition.is_some() {
        return true;
    }
    condition_of(&step.kind).is_none()
}

fn subject_is_read(books: &[Book], book: &Book, step: &Step, parts: &Parts) -> bool
    requires { ReadsStep books.now book.now step.now parts.now }
    ensures { IsTrue result ↔ SubjectIsRead step.now }
{
    let _ = books;
    let _ = book;
    if parts.subject.is_some() {
        return true;
    }
    subject_of(&step.kind).is_none()
}

/// Whether the condition is of the grammar, and the switch is one reference.
pub(crate) fn keeps_k21(books: &[Book], book: &Book, step: &Step, parts: &Parts) -> bool
    requires reads { ReadsStep books.now book.now step.now parts.now }
    requires limits { KeepsLimits step.now }
    ensures { IsTrue result ↔ K21 step.now }
{
    condition_is_read(books, book, step, parts) && subject_is_read(books, book, step, parts)
}

// Where a name that a step uses stands in it. What is found is tested before it is told.
ghost use Rattle.std.specs.Prelude.{◌≡◌, IfOk, string_bytes};
ghost use Rattle.cacao_view_explain.specs.Lines.{named_words};

use crate::part::{Part, member_place};
use crate::spot::Finding;
use cacao_book::{Step, StepCommand, StepKind};
use cacao_check_steps::{commands_of, in_args_of, is_manual, out_args_of};
use cacao_vars::{Name, find_reference};
use cacao_view_faults::scan::{byte_at, item_at, member_at, skip_space, stands_at, value_end};
use cacao_view_faults::word_stands;
use std::alloc::{AllocError, Global};

/// A name that a step uses, in the text of its playbook, in which the step begins at this place.
#[derive(Clone, Copy)]
pub(crate) struct Sought<'a> {
    pub(crate) bytes: &'a [u8],
    pub(crate) object: usize,
    pub(crate) step: &'a Step,
    pub(crate) name: &'a Name,
}

/// What is said of the name of the argument or the result of this number, in the list that is the member of this name of the step that begins
/// at a place.
pub(crate) fn argument_finding(
    alloc: Global,
    bytes: &[u8],
    object: usize,
    member: &'static str,
    number: usize,
    name: &str,
    says: &str,
) -> Result<Finding, AllocError>
    ensures { IfOk result (λ finding. string_bytes finding.what ≡ named_words name.now says.now) }
{
    let spot = Part::item(member, number, None).spot(alloc, bytes, object)?;
    let at = spot.at.saturating_add(1);
    Finding::of_name(alloc, spot, at, name, says)
}

/// The number of the name in this list.
fn number_of(names: &[Name], name: &Name) -> Option<usize> {
    for (number, other) in names.iter().enumerate() {
        if other.text() == name.text() {
            return Some(number);
        }
    }
    None
}

/// The text in which a control step of this kind uses names.
fn text_of_control(kind: &StepKind) -> Option<&'static str> {
    match kind {
        StepKind::If { .. } | StepKind::While { .. } => Some("condition"),
        StepKind::Switch { .. } => Some("switch"),
        _ => None,
    }
}

/// The place behind the quotation mark that ends the string of a content around a place: it is written with one backslash before it, one
/// that stands in such a string with three.
fn inner_end(bytes: &[u8], from: usize, end: usize) -> usize {
    let mut backslashes = 0u8;
    for at in from..end {
        let byte = byte_at(bytes, at);
        if byte == b'"' && backslashes == 1 {
            return at.saturating_add(1);
        }
        backslashes = if byte == b'\\' {
            (backslashes % 4).saturating_add(1)
        } else {
            0
        };
    }
    end
}

/// Whether a text has a reference to the variable of this name.
fn refers_to(text: &str, name: &Name) -> bool {
    let mut rest = text;
    for _ in 0..text.len() {
        let Some(found) = find_reference(rest) else {
            return false;
        };
        if found.name == name.text() {
            return true;
        }
        rest = found.rest;
    }
    false
}

impl<'a> Sought<'a> {
    /// The first reference to the name from a place on, in the value that begins at another and ends before a third.
    fn reference_from(self, from: usize, value: usize, end: usize) -> Option<usize> {
        let name = self.name.text().as_bytes();
        for at in from..end {
            if word_stands(self.bytes, value, end, at, name) {
                if stands_at(self.bytes, at.saturating_add(name.len()), b":value") {
                    return Some(at);
                }
            }
        }
        None
    }

    /// The first reference to the name in a text.
    fn reference_in(self, value: usize) -> Option<usize> {
        self.reference_from(value, value, value_end(self.bytes, value))
    }

    /// The first reference to the name in the strings of a content, but for the names of its members.
    fn reference_in_content(self, value: usize) -> Option<usize> {
        let end = value_end(self.bytes, value);
        let mut from = value;
        for _ in value..end {
            let at = self.reference_from(from, value, end)?;
            from = inner_end(self.bytes, at, end);
            if byte_at(self.bytes, skip_space(self.bytes, from)) != b':' {
                return Some(at);
            }
        }
        None
    }

    /// The member that says what a command sends, or what it asks an operator, of the command that begins at a place.
    fn sent(
        self,
        alloc: Global,
        command: &StepCommand,
        at: usize,
    ) -> Result<&'static str, AllocError> {
        if is_manual(command) {
            return Ok("command");
        }
        match member_at(alloc, self.bytes, at, "content")? {
            Some(_) => Ok("content"),
            None => Ok("content_b64"),
        }
    }

    /// Where the name stands in what a command sends, which begins at a place: as it is written, or else the place itself, if the name is there
    /// once escapes and base64 are read.
    fn found_in(self, command: &StepCommand, value: usize, as_written: bool) -> Option<usize> {
        if as_written {
            if is_manual(command) {
                return self.reference_in(value);
            }
            return self.reference_in_content(value);
        }
        match &command.content {
            Some(text) if refers_to(text.text(), self.name) => Some(value),
            _ => None,
        }
    }

    /// The command in which the name stands, and where: as it is written, or else as it is read.
    fn in_commands(
        self,
        alloc: Global,
        as_written: bool,
    ) -> Result<Option<(Part<'a>, usize)>, AllocError> {
        let list = member_place(alloc, self.bytes, self.object, "commands")?;
        for (number, command) in commands_of(&self.step.kind).iter().enumerate() {
            let at = item_at(self.bytes, list, number).unwrap_or(list);
            let sent = self.sent(alloc, command, at)?;
            let value = member_place(alloc, self.bytes, at, sent)?;
            if let Some(found) = self.found_in(command, value, as_written) {
                return Ok(Some((Part::item("commands", number, Some(sent)), found)));
            }
        }
        Ok(None)
    }

    /// The argument or the result that is the name.
    fn in_arguments(self) -> Option<Part<'a>> {
        if let Some(number) = number_of(in_args_of(&self.step.kind), self.name) {
            return Some(Part::item("in_args", number, None));
        }
        let number = number_of(out_args_of(&self.step.kind), self.name)?;
        Some(Part::item("out_args", number, None))
    }

    /// The part of the step in which the name stands, and where: its condition or its switch, one of its arguments and results, or a command. The
    /// place is that of the part where the name is not written there as it is.
    pub(crate) fn place(self, alloc: Global) -> Result<(Part<'a>, usize), AllocError> {
        if let Some(member) = text_of_control(&self.step.kind) {
            let value = member_place(alloc, self.bytes, self.object, member)?;
            return Ok((Part::of(member), self.reference_in(value).unwrap_or(value)));
        }
        if let Some(part) = self.in_arguments() {
            let value = part.place(alloc, self.bytes, self.object)?;
            return Ok((part, value.saturating_add(1)));
        }
        if let Some(found) = self.in_commands(alloc, true)? {
            return Ok(found);
        }
        if let Some(found) = self.in_commands(alloc, false)? {
            return Ok(found);
        }
        Ok((Part::whole(), self.object))
    }
}

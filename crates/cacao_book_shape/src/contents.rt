// Commands of actions, and their contents.
ghost use Rattle.std.specs.Prelude.{◌≡◌, ◌↔◌, IsTrue, IsSome, All, IfOk, IfSome, Some, codes, map};
ghost use Rattle.base64.specs.Engines.{standard};
ghost use Rattle.base64.specs.GeneralPurpose.{decoded_of};
ghost use Rattle.cacao_json.specs.Tree.{data_of};
ghost use Rattle.cacao_book_shape.specs.Members.{Has, MayHave, ListOf, IsText, TextFits};
ghost use Rattle.cacao_book_shape.specs.Shape.{IsEncodedText, HasContent, OnType};

use crate::lists::list;
use crate::members::{has_member, has_some_text, has_type, items_of, may_have_text};
use base64::DecodeAllocError;
use base64::engine::general_purpose::STANDARD;
use cacao_json::{Text, Tree, member, text_of};
use std::alloc::{AllocError, Global};

/// The text of which this is the base64, strict and padded (RFC 4648, section 4); None where there is none.
pub fn decoded(alloc: Global, text: &str) -> Result<Option<Text>, AllocError>
    ensures fits { IfOk result (λ found. IsSome found ↔ IsEncodedText text.now) }
    ensures value { IfOk result (λ found. IfSome found (λ content. decoded_of standard text.now ≡ Some content)) }
{
    let bytes = match STANDARD.decode(alloc, text.as_bytes()) {
        Ok(bytes) => bytes,
        Err(DecodeAllocError::OutOfMemory) => return Err(AllocError),
        Err(DecodeAllocError::DecodeError(_)) => return Ok(None),
    };
    match String::from_utf8(bytes) {
        Ok(content) => Ok(Some(Text::from_string(content))),
        Err(_) => Ok(None),
    }
}

// Whether a member is absent or the base64 of a text.
fn may_have_encoded_text(alloc: Global, tree: &Tree, name: &str) -> Result<bool, AllocError>
    ensures { IfOk result (λ fits. IsTrue fits ↔ MayHave name.now (TextFits IsEncodedText) (data_of tree.now)) }
{
    let Some(value) = member(tree, name) else {
        return Ok(true);
    };
    let Some(text) = text_of(value) else {
        return Ok(false);
    };
    let content = decoded(alloc, text.text())?;
    Ok(content.is_some())
}

// Whether a command has at most one content, as it is to be.
fn has_content(alloc: Global, command: &Tree) -> Result<bool, AllocError>
    ensures { IfOk result (λ fits. IsTrue fits ↔ HasContent (data_of command.now)) }
{
    if has_member(command, "content") && has_member(command, "content_b64") {
        return Ok(false);
    }
    if !may_have_text(command, "content") {
        return Ok(false);
    }
    let fits = may_have_encoded_text(alloc, command, "content_b64")?;
    Ok(fits)
}

// The same, if the command is one of OpenC2.
fn keeps_content(alloc: Global, command: &Tree) -> Result<bool, AllocError>
    ensures { IfOk result (λ fits. IsTrue fits ↔ OnType (codes "openc2-http") (HasContent (data_of command.now)) (data_of command.now)) }
{
    if !has_type(command, "openc2-http") {
        return Ok(true);
    }
    let fits = has_content(alloc, command)?;
    Ok(fits)
}

/// Whether each OpenC2 command of a list has its content as it is to be.
pub(crate) fn keep_contents(alloc: Global, commands: &[Tree]) -> Result<bool, AllocError>
    ensures { IfOk result (λ fits. IsTrue fits ↔ All (λ c. OnType (codes "openc2-http") (HasContent c) c) (map data_of commands.now)) }
{
    for command in commands {
        if !keeps_content(alloc, command)? {
            return Ok(false);
        }
    }
    Ok(true)
}

// Whether each item has a type.
fn have_types(items: &[Tree]) -> bool
    ensures { IsTrue result ↔ All (Has (codes "type") IsText) (map data_of items.now) }
{
    for item in items {
        if !has_some_text(item, "type") {
            return false;
        }
    }
    true
}

/// Whether a value is a list of 1 to 64 commands.
pub(crate) fn is_command_list(value: &Tree) -> bool
    ensures { IsTrue result ↔ ListOf 1 64 (Has (codes "type") IsText) (data_of value.now) }
{
    let Some(items) = items_of(value) else {
        return false;
    };
    let items = list(items);
    1 <= items.len() && items.len() <= 64 && have_types(items)
}

// The members of the objects.
ghost use Rattle.std.specs.Prelude.{◌≡◌, codes, IfOk, OnOk};
ghost use Rattle.serde_json.specs.Data.{put, string};
ghost use Rattle.cacao_json.specs.Tree.{data_of, members_of};
ghost use Rattle.oc2_msg_targets.specs.Parts.{whole_data};
ghost use Rattle.cacao_view_log.specs.Objects.{bytes_data, head, number_data, text_data, texts_data};
ghost use Rattle.cacao_view_log.specs.Telling.{agent_put, sender_put};

use crate::sender::Sender;
use base_decimals::MOST_EXACT;
use cacao_json::{Items, Pairs, Tree};
use cacao_site::Bytes;
use itoa::Buffer;
use oc2_msg_targets::{put, text_tree, whole_tree};
use std::alloc::{AllocError, Global};
use std::str::from_utf8;

/// A number, or the text of its digits where it is greater than that.
fn number_tree(alloc: Global, number: u64) -> Result<Tree, AllocError>
    ensures { IfOk result (λ tree. data_of tree ≡ number_data number) }
{
    if number <= MOST_EXACT {
        Ok(whole_tree(number))
    } else {
        let mut buffer = Buffer::new();
        text_tree(alloc, buffer.format(number))
    }
}

/// Bytes as the list of their numbers.
fn bytes_tree(alloc: Global, bytes: &[u8]) -> Result<Tree, AllocError>
    ensures { IfOk result (λ tree. data_of tree ≡ bytes_data bytes.now) }
{
    let mut trees = Vec::new(alloc);
    for byte in bytes {
        trees.push(whole_tree(*byte as u64))?;
    }
    Ok(Tree::List(Items::from_vec(trees)))
}

/// A text, or the list of its bytes where they are no UTF-8.
fn bytes_or_text(alloc: Global, bytes: &[u8]) -> Result<Tree, AllocError>
    ensures { IfOk result (λ tree. data_of tree ≡ text_data bytes.now) }
{
    match from_utf8(bytes) {
        Ok(text) => text_tree(alloc, text),
        Err(_) => bytes_tree(alloc, bytes),
    }
}

/// The list of texts.
pub(crate) fn texts_tree(alloc: Global, texts: &[Bytes]) -> Result<Tree, AllocError>
    ensures { IfOk result (λ tree. data_of tree ≡ texts_data texts.now) }
{
    let mut trees = Vec::new(alloc);
    for text in texts {
        trees.push(bytes_or_text(alloc, text.as_slice())?)?;
    }
    Ok(Tree::List(Items::from_vec(trees)))
}

/// Puts a member whose value is a number that each reader keeps whole.
pub(crate) fn put_whole(
    alloc: Global,
    pairs: &mut Pairs,
    name: &str,
    number: u32,
) -> Result<(), AllocError>
    ensures { OnOk result (pairs.new ≡ put name.now (whole_data number) pairs.old) }
{
    put(alloc, pairs, name, Some(whole_tree(number as u64)))
}

/// Puts a member whose value is a text.
pub(crate) fn put_text(
    alloc: Global,
    pairs: &mut Pairs,
    name: &str,
    text: &str,
) -> Result<(), AllocError>
    ensures { OnOk result (pairs.new ≡ put name.now (string text.now) pairs.old) }
{
    let tree = text_tree(alloc, text)?;
    put(alloc, pairs, name, Some(tree))
}

/// Puts a member whose value is a text, as bytes.
pub(crate) fn put_bytes(
    alloc: Global,
    pairs: &mut Pairs,
    name: &str,
    bytes: &Bytes,
) -> Result<(), AllocError>
    ensures { OnOk result (pairs.new ≡ put name.now (text_data bytes.now) pairs.old) }
{
    let tree = bytes_or_text(alloc, bytes.as_slice())?;
    put(alloc, pairs, name, Some(tree))
}

/// Puts the filter of who sent or asked, if that is known.
pub(crate) fn put_agent(
    alloc: Global,
    pairs: &mut Pairs,
    sender: Option<Sender>,
) -> Result<(), AllocError>
    ensures { OnOk result (pairs.new ≡ agent_put sender pairs.old) }
{
    match sender {
        Some(sender) => put_whole(alloc, pairs, "agent", sender.agent as u32),
        None => Ok(()),
    }
}

/// Puts the task of who sent or asked, if that is known, with the key of the step at which it stands.
pub(crate) fn put_sender(
    alloc: Global,
    pairs: &mut Pairs,
    sender: Option<Sender>,
    step: &str,
) -> Result<(), AllocError>
    ensures { OnOk result (pairs.new ≡ sender_put sender step.now pairs.old) }
{
    match sender {
        Some(sender) => put_task(alloc, pairs, sender.task, step),
        None => Ok(()),
    }
}

/// Puts a task, and the key of the step at which it stands.
fn put_task(alloc: Global, pairs: &mut Pairs, task: u32, step: &str) -> Result<(), AllocError>
    ensures { OnOk result (pairs.new ≡ put (codes "task") (whole_data task) (put (codes "step") (string step.now) pairs.old)) }
{
    put_text(alloc, pairs, "step", step)?;
    put_whole(alloc, pairs, "task", task)?;
    Ok(())
}

/// The members that each object has: the kind of the record, its moment, its number and that of the run.
pub(crate) fn head(
    alloc: Global,
    kind: &str,
    run: u64,
    n: u32,
    moment: u64,
) -> Result<Pairs, AllocError>
    ensures { IfOk result (λ pairs. pairs ≡ members_of (head kind.now run n moment)) }
{
    let run = number_tree(alloc, run)?;
    let moment = number_tree(alloc, moment)?;
    let mut pairs = Pairs::new(alloc);
    put(alloc, &mut pairs, "run", Some(run))?;
    put_whole(alloc, &mut pairs, "number", n)?;
    put(alloc, &mut pairs, "moment", Some(moment))?;
    put_text(alloc, &mut pairs, "kind", kind)?;
    Ok(pairs)
}

// Records and acts as bytes.
ghost use Rattle.std.specs.Prelude.{◌≡◌, ◌++◌, ◌∷◌, ◌<◌, ◌≤◌, ◌^◌, length, IfOk, OnOk, Some};
ghost use Rattle.run_records.specs.declared.record.Record.TheVariants as kind;
ghost use Rattle.std.specs.List.{AllByRecursion};
ghost use Rattle.run_records.specs.Layout.{four_bytes, eight_bytes, string, strings, layout, act_layout};
ghost use Rattle.run_records.specs.Ranges.{InRange, ActInRange, BeginsInRange, SendsInRange, RepliesInRange, AsksInRange, TellsInRange, IsShort};
ghost use Rattle.run_records.specs.Reading.{record_of, act_of};

use crate::act::Act;
use crate::bytes_list::BytesList;
use crate::record::Record;
use cacao_site::Bytes;
use std::alloc::{AllocError, Global};

/// Adds a text behind its length.
fn put_string(out: &mut Vec<u8>, text: &[u8]) -> Result<(), AllocError>
    requires { length text.now < 2 ^ 32 }
    ensures { OnOk result (out.new.items ≡ out.old.items ++ string text.now) }
{
    out.extend_from_slice(&(text.len() as u32).to_be_bytes())?;
    out.extend_from_slice(text)?;
    Ok(())
}

/// Adds texts behind their number.
fn put_strings(out: &mut Vec<u8>, texts: &[Bytes]) -> Result<(), AllocError>
    requires few { length texts.now ≤ 16 }
    requires short { AllByRecursion IsShort texts.now }
    ensures { OnOk result (out.new.items ≡ out.old.items ++ strings texts.now) }
{
    out.push(texts.len() as u8)?;
    for text in texts {
        put_string(out, text.as_slice())?;
    }
    Ok(())
}

#[tactic(auto, unfolding(crate::specs::Layout::layout))]
fn put_begin(
    out: &mut Vec<u8>,
    run: u64,
    moment: u64,
    books: &BytesList,
    bind: &Bytes,
) -> Result<(), AllocError>
    requires { BeginsInRange run moment books.now bind.now }
    ensures { OnOk result (out.new.items
        ≡ out.old.items ++ layout (kind.Begin run moment books.now bind.now)) }
{
    out.push(1)?;
    out.extend_from_slice(&run.to_be_bytes())?;
    out.extend_from_slice(&moment.to_be_bytes())?;
    put_strings(out, books.as_slice())?;
    put_string(out, bind.as_slice())?;
    Ok(())
}

#[tactic(auto, unfolding(crate::specs::Layout::layout))]
fn put_send(
    out: &mut Vec<u8>,
    task: u32,
    issue: u32,
    agent: u8,
    moment: u64,
    bytes: &Bytes,
) -> Result<(), AllocError>
    requires { SendsInRange task issue agent moment bytes.now }
    ensures { OnOk result (out.new.items
        ≡ out.old.items ++ layout (kind.Send task issue agent moment bytes.now)) }
{
    out.push(3)?;
    out.extend_from_slice(&task.to_be_bytes())?;
    out.extend_from_slice(&issue.to_be_bytes())?;
    out.push(agent)?;
    out.extend_from_slice(&moment.to_be_bytes())?;
    put_string(out, bytes.as_slice())?;
    Ok(())
}

#[tactic(auto, unfolding(crate::specs::Layout::layout))]
fn put_reply(
    out: &mut Vec<u8>,
    issue: u32,
    moment: u64,
    status: u16,
    rule: u32,
    text: &Bytes,
) -> Result<(), AllocError>
    requires { RepliesInRange issue moment status rule text.now }
    ensures { OnOk result (out.new.items
        ≡ out.old.items ++ layout (kind.Reply issue moment status rule text.now)) }
{
    out.push(4)?;
    out.extend_from_slice(&issue.to_be_bytes())?;
    out.extend_from_slice(&moment.to_be_bytes())?;
    out.extend_from_slice(&status.to_be_bytes())?;
    out.extend_from_slice(&rule.to_be_bytes())?;
    put_string(out, text.as_slice())?;
    Ok(())
}

#[tactic(auto, unfolding(crate::specs::Layout::layout))]
fn put_upgrade(out: &mut Vec<u8>, version: u8, moment: u64) -> Result<(), AllocError>
    ensures { OnOk result (out.new.items ≡ out.old.items ++ layout (kind.Upgrade version moment)) }
{
    out.push(6)?;
    out.push(version)?;
    out.extend_from_slice(&moment.to_be_bytes())?;
    Ok(())
}

#[tactic(auto, unfolding(crate::specs::Layout::layout))]
fn put_ask(
    out: &mut Vec<u8>,
    task: u32,
    issue: u32,
    moment: u64,
    bytes: &Bytes,
) -> Result<(), AllocError>
    requires { AsksInRange task issue moment bytes.now }
    ensures { OnOk result (out.new.items
        ≡ out.old.items ++ layout (kind.Ask task issue moment bytes.now)) }
{
    out.push(7)?;
    out.extend_from_slice(&task.to_be_bytes())?;
    out.extend_from_slice(&issue.to_be_bytes())?;
    out.extend_from_slice(&moment.to_be_bytes())?;
    put_string(out, bytes.as_slice())?;
    Ok(())
}

#[tactic(auto, unfolding(crate::specs::Layout::layout))]
fn put_told(
    out: &mut Vec<u8>,
    issue: u32,
    moment: u64,
    status: u16,
    text: &Bytes,
) -> Result<(), AllocError>
    requires { TellsInRange issue moment status text.now }
    ensures { OnOk result (out.new.items
        ≡ out.old.items ++ layout (kind.Told issue moment status text.now)) }
{
    out.push(8)?;
    out.extend_from_slice(&issue.to_be_bytes())?;
    out.extend_from_slice(&moment.to_be_bytes())?;
    out.extend_from_slice(&status.to_be_bytes())?;
    put_string(out, text.as_slice())?;
    Ok(())
}

/// Adds a tag, a number and a moment.
fn put_moment(out: &mut Vec<u8>, tag: u8, number: u32, moment: u64) -> Result<(), AllocError>
    ensures { OnOk result (out.new.items
        ≡ out.old.items ++ tag ∷ (four_bytes number ++ eight_bytes moment)) }
{
    out.push(tag)?;
    out.extend_from_slice(&number.to_be_bytes())?;
    out.extend_from_slice(&moment.to_be_bytes())?;
    Ok(())
}

#[tactic(auto, unfolding(crate::specs::Layout::layout))]
fn put_record(out: &mut Vec<u8>, item: &Record) -> Result<(), AllocError>
    requires { InRange item.now }
    ensures { OnOk result (out.new.items ≡ out.old.items ++ layout item.now) }
{
    match item {
        Record::Begin {
            run,
            moment,
            books,
            bind,
        } => put_begin(out, *run, *moment, books, bind),
        Record::Walk { task, moment } => put_moment(out, 2, *task, *moment),
        Record::Send {
            task,
            issue,
            agent,
            moment,
            bytes,
        } => put_send(out, *task, *issue, *agent, *moment, bytes),
        Record::Reply {
            issue,
            moment,
            status,
            rule,
            text,
        } => put_reply(out, *issue, *moment, *status, *rule, text),
        Record::Expire { issue, moment } => put_moment(out, 5, *issue, *moment),
        Record::Upgrade { version, moment } => put_upgrade(out, *version, *moment),
        Record::Ask {
            task,
            issue,
            moment,
            bytes,
        } => put_ask(out, *task, *issue, *moment, bytes),
        Record::Told {
            issue,
            moment,
            status,
            text,
        } => put_told(out, *issue, *moment, *status, text),
    }
}

/// The bytes of a record, from which it is read again.
pub fn write_record(alloc: Global, item: &Record) -> Result<Bytes, AllocError>
    requires { InRange item.now }
    ensures layout { IfOk result (λ bytes. bytes ≡ layout item.now) }
    ensures back { IfOk result (λ bytes. record_of bytes ≡ Some item.now) }
{
    let mut out = Vec::new(alloc);
    put_record(&mut out, item)?;
    Ok(Bytes::from_vec(out))
}

#[tactic(auto, unfolding(crate::specs::Layout::act_layout))]
fn put_act(out: &mut Vec<u8>, act: &Act) -> Result<(), AllocError>
    requires { ActInRange act.now }
    ensures { OnOk result (out.new.items ≡ out.old.items ++ act_layout act.now) }
{
    out.push(16)?;
    out.extend_from_slice(&act.run.to_be_bytes())?;
    out.extend_from_slice(&act.issue.to_be_bytes())?;
    out.extend_from_slice(&act.moment.to_be_bytes())?;
    put_string(out, act.command.as_slice())?;
    put_string(out, act.reply.as_slice())?;
    Ok(())
}

/// The bytes of an act, from which it is read again.
pub fn write_act(alloc: Global, act: &Act) -> Result<Bytes, AllocError>
    requires { ActInRange act.now }
    ensures layout { IfOk result (λ bytes. bytes ≡ act_layout act.now) }
    ensures back { IfOk result (λ bytes. act_of bytes ≡ Some act.now) }
{
    let mut out = Vec::new(alloc);
    put_act(&mut out, act)?;
    Ok(Bytes::from_vec(out))
}

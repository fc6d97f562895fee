// Records and acts from their bytes.
ghost use Rattle.std.specs.Prelude.{◌≡◌, ◌≢◌, IfOk, IfSome, IfNone, option_map};
ghost use Rattle.run_records.specs.declared.record.Record.{Record};
ghost use Rattle.run_records.specs.declared.act.Act.{Act};
ghost use Rattle.run_records.specs.Layout.{layout, act_layout};
ghost use Rattle.run_records.specs.Ranges.{InRange, ActInRange};
ghost use Rattle.run_records.specs.Reading.{begin_at, walk_at, send_at, reply_at, expire_at, upgrade_at, ask_at, told_at, record_of, act_at, act_of, sent, replied, asked, told, acted};

use crate::act::Act;
use crate::bytes_list::BytesList;
use crate::fields::{
    MOST_STATUS_TEXT, MOST_TEXT, small_at, string_at, strings_at, text_at, u16_at, u32_at, u64_at,
};
use crate::record::Record;
use cacao_site::Bytes;
use std::alloc::{AllocError, Global};

/// The last moment of a record and of an act, in milliseconds.
pub const LAST_MOMENT: u64 = 9_000_000_000_000_000;

#[tactic(auto, unfolding(crate::specs::Reading::begin_at))]
fn read_begin(alloc: Global, bytes: &[u8]) -> Result<Option<Record>, AllocError>
    ensures { IfOk result (λ found. found ≡ begin_at bytes.now) }
{
    let Some((run, rest)) = u64_at(bytes) else {
        return Ok(None);
    };
    let Some((moment, rest)) = u64_at(rest) else {
        return Ok(None);
    };
    let Some((count, rest)) = small_at(rest) else {
        return Ok(None);
    };
    let Some((books, rest)) = strings_at(alloc, count, rest)? else {
        return Ok(None);
    };
    let Some((bind, rest)) = string_at(MOST_TEXT, rest) else {
        return Ok(None);
    };
    if !rest.is_empty() {
        return Ok(None);
    }
    Ok(Some(Record::Begin {
        run,
        moment,
        books: BytesList::from_vec(books),
        bind: Bytes::from_slice(alloc, bind)?,
    }))
}

#[tactic(auto, unfolding(crate::specs::Reading::walk_at))]
fn read_walk(bytes: &[u8]) -> Option<Record>
    ensures { result ≡ walk_at bytes.now }
{
    let (task, rest) = u32_at(bytes)?;
    let (moment, rest) = u64_at(rest)?;
    rest.is_empty().then_some(Record::Walk { task, moment })
}

#[tactic(auto, unfolding(crate::specs::Reading::send_at))]
fn sent_fields(bytes: &[u8]) -> Option<(u32, u32, u8, u64, &[u8])>
    ensures { option_map sent result ≡ send_at bytes.now }
{
    let (task, rest) = u32_at(bytes)?;
    let (issue, rest) = u32_at(rest)?;
    let (agent, rest) = small_at(rest)?;
    let (moment, rest) = u64_at(rest)?;
    let (bytes, rest) = string_at(MOST_TEXT, rest)?;
    if rest.is_empty() {
        Some((task, issue, agent, moment, bytes))
    } else {
        None
    }
}

fn read_send(alloc: Global, bytes: &[u8]) -> Result<Option<Record>, AllocError>
    ensures { IfOk result (λ found. found ≡ send_at bytes.now) }
{
    let Some((task, issue, agent, moment, bytes)) = sent_fields(bytes) else {
        return Ok(None);
    };
    Ok(Some(Record::Send {
        task,
        issue,
        agent,
        moment,
        bytes: Bytes::from_slice(alloc, bytes)?,
    }))
}

#[tactic(auto, unfolding(crate::specs::Reading::reply_at))]
fn replied_fields(bytes: &[u8]) -> Option<(u32, u64, u16, u32, &[u8])>
    ensures { option_map replied result ≡ reply_at bytes.now }
{
    let (issue, rest) = u32_at(bytes)?;
    let (moment, rest) = u64_at(rest)?;
    let (status, rest) = u16_at(rest)?;
    let (rule, rest) = u32_at(rest)?;
    let (text, rest) = text_at(MOST_STATUS_TEXT, rest)?;
    if rest.is_empty() {
        Some((issue, moment, status, rule, text))
    } else {
        None
    }
}

fn read_reply(alloc: Global, bytes: &[u8]) -> Result<Option<Record>, AllocError>
    ensures { IfOk result (λ found. found ≡ reply_at bytes.now) }
{
    let Some((issue, moment, status, rule, text)) = replied_fields(bytes) else {
        return Ok(None);
    };
    Ok(Some(Record::Reply {
        issue,
        moment,
        status,
        rule,
        text: Bytes::from_slice(alloc, text)?,
    }))
}

#[tactic(auto, unfolding(crate::specs::Reading::expire_at))]
fn read_expire(bytes: &[u8]) -> Option<Record>
    ensures { result ≡ expire_at bytes.now }
{
    let (issue, rest) = u32_at(bytes)?;
    let (moment, rest) = u64_at(rest)?;
    rest.is_empty().then_some(Record::Expire { issue, moment })
}

#[tactic(auto, unfolding(crate::specs::Reading::upgrade_at))]
fn read_upgrade(bytes: &[u8]) -> Option<Record>
    ensures { result ≡ upgrade_at bytes.now }
{
    let [2, rest @ ..] = bytes else {
        return None;
    };
    let (moment, rest) = u64_at(rest)?;
    rest.is_empty()
        .then_some(Record::Upgrade { version: 2, moment })
}

#[tactic(auto, unfolding(crate::specs::Reading::ask_at))]
fn asked_fields(bytes: &[u8]) -> Option<(u32, u32, u64, &[u8])>
    ensures { option_map asked result ≡ ask_at bytes.now }
{
    let (task, rest) = u32_at(bytes)?;
    let (issue, rest) = u32_at(rest)?;
    let (moment, rest) = u64_at(rest)?;
    let (text, rest) = text_at(MOST_TEXT, rest)?;
    if rest.is_empty() {
        Some((task, issue, moment, text))
    } else {
        None
    }
}

fn read_ask(alloc: Global, bytes: &[u8]) -> Result<Option<Record>, AllocError>
    ensures { IfOk result (λ found. found ≡ ask_at bytes.now) }
{
    let Some((task, issue, moment, text)) = asked_fields(bytes) else {
        return Ok(None);
    };
    Ok(Some(Record::Ask {
        task,
        issue,
        moment,
        bytes: Bytes::from_slice(alloc, text)?,
    }))
}

#[tactic(auto, unfolding(crate::specs::Reading::told_at))]
fn told_fields(bytes: &[u8]) -> Option<(u32, u64, u16, &[u8])>
    ensures { option_map told result ≡ told_at bytes.now }
{
    let (issue, rest) = u32_at(bytes)?;
    let (moment, rest) = u64_at(rest)?;
    let (status, rest) = u16_at(rest)?;
    let (text, rest) = text_at(MOST_STATUS_TEXT, rest)?;
    if rest.is_empty() {
        Some((issue, moment, status, text))
    } else {
        None
    }
}

fn read_told(alloc: Global, bytes: &[u8]) -> Result<Option<Record>, AllocError>
    ensures { IfOk result (λ found. found ≡ told_at bytes.now) }
{
    let Some((issue, moment, status, text)) = told_fields(bytes) else {
        return Ok(None);
    };
    Ok(Some(Record::Told {
        issue,
        moment,
        status,
        text: Bytes::from_slice(alloc, text)?,
    }))
}

#[tactic(auto, unfolding(crate::specs::Reading::act_at))]
fn act_fields(bytes: &[u8]) -> Option<(u64, u32, u64, &[u8], &[u8])>
    ensures { option_map acted result ≡ act_at bytes.now }
{
    let (run, rest) = u64_at(bytes)?;
    let (issue, rest) = u32_at(rest)?;
    let (moment, rest) = u64_at(rest)?;
    let (command, rest) = string_at(MOST_TEXT, rest)?;
    let (reply, rest) = string_at(MOST_TEXT, rest)?;
    if moment > LAST_MOMENT {
        return None;
    }
    if rest.is_empty() {
        Some((run, issue, moment, command, reply))
    } else {
        None
    }
}

#[tactic(auto, unfolding(crate::specs::Reading::record_of))]
fn record_in(alloc: Global, bytes: &[u8]) -> Result<Option<Record>, AllocError>
    ensures { IfOk result (λ found. found ≡ record_of bytes.now) }
{
    match bytes {
        [1, rest @ ..] => read_begin(alloc, rest),
        [2, rest @ ..] => Ok(read_walk(rest)),
        [3, rest @ ..] => read_send(alloc, rest),
        [4, rest @ ..] => read_reply(alloc, rest),
        [5, rest @ ..] => Ok(read_expire(rest)),
        [6, rest @ ..] => Ok(read_upgrade(rest)),
        [7, rest @ ..] => read_ask(alloc, rest),
        [8, rest @ ..] => read_told(alloc, rest),
        _ => Ok(None),
    }
}

/// The record whose layout the bytes are, with fields in their ranges. None exactly outside the layout.
pub fn read_record(alloc: Global, bytes: &[u8]) -> Result<Option<Record>, AllocError>
    ensures value { IfOk result (λ found. found ≡ record_of bytes.now) }
    // What is read was laid out so.
    ensures found { IfOk result (λ found. IfSome found
        (λ r. InRange r × (bytes.now ≡ layout r))) }
    // Nothing is read only where the bytes are the layout of no record.
    ensures none { IfOk result (λ found. IfNone found
        ((r : Record) → InRange r → bytes.now ≢ layout r)) }
{
    record_in(alloc, bytes)
}

#[tactic(auto, unfolding(crate::specs::Reading::act_of))]
fn act_in(alloc: Global, bytes: &[u8]) -> Result<Option<Act>, AllocError>
    ensures { IfOk result (λ found. found ≡ act_of bytes.now) }
{
    let [16, rest @ ..] = bytes else {
        return Ok(None);
    };
    let Some((run, issue, moment, command, reply)) = act_fields(rest) else {
        return Ok(None);
    };
    Ok(Some(Act {
        run,
        issue,
        moment,
        command: Bytes::from_slice(alloc, command)?,
        reply: Bytes::from_slice(alloc, reply)?,
    }))
}

/// The act whose layout the bytes are, with fields in their ranges. None exactly outside the layout.
pub fn read_act(alloc: Global, bytes: &[u8]) -> Result<Option<Act>, AllocError>
    ensures value { IfOk result (λ found. found ≡ act_of bytes.now) }
    // What is read was laid out so.
    ensures found { IfOk result (λ found. IfSome found
        (λ a. ActInRange a × (bytes.now ≡ act_layout a))) }
    // Nothing is read only where the bytes are the layout of no act.
    ensures none { IfOk result (λ found. IfNone found
        ((a : Act) → ActInRange a → bytes.now ≢ act_layout a)) }
{
    act_in(alloc, bytes)
}

// The objects that tell of records.
ghost use Rattle.std.specs.Prelude.{◌≡◌, ℕ, IfOk, List, None};
ghost use Rattle.serde_json.specs.Data.{object};
ghost use Rattle.cacao_json.specs.Tree.{data_of, members_of};
ghost use Rattle.run_records.specs.declared.record.Record.TheVariants as entry;
ghost use Rattle.flow_core_rules.specs.Lines.{key_of};
ghost use Rattle.flow_core_rules.specs.State.{Shown};
ghost use Rattle.cacao_view_log.specs.Objects.{expire_members, object_line, record_object, reply_members, told_members};
ghost use Rattle.cacao_view_log.specs.Senders.{sender_for, step_key};
ghost use Rattle.cacao_view_log.specs.Telling.{IsStepBy};
ghost use Rattle.cacao_view_log.specs.declared.sender.Sender.{Sender as ASender};

use crate::members::{head, put_agent, put_bytes, put_sender, put_text, put_whole, texts_tree};
use crate::sender::Sender;
use cacao_json::{Pairs, Tree};
use cacao_site::Bytes;
use cacao_text::canonical;
use oc2_msg_targets::put;
use run_records::{BytesList, Record};
use std::alloc::{AllocError, Global};

fn begin_object(
    alloc: Global,
    run: u64,
    moment: u64,
    books: &BytesList,
    bind: &Bytes,
    n: u32,
) -> Result<Tree, AllocError>
    ensures { (number : ℕ) (before : Shown) (sent : List ASender) → IfOk result (λ tree. data_of tree
        ≡ record_object number before sent n (entry.Begin run moment books.now bind.now)) }
{
    let books = texts_tree(alloc, books.as_slice())?;
    let mut pairs = head(alloc, "begin", run, n, moment)?;
    put(alloc, &mut pairs, "books", Some(books))?;
    put_bytes(alloc, &mut pairs, "bind", bind)?;
    Ok(Tree::Members(pairs))
}

fn walk_object(
    alloc: Global,
    task: u32,
    moment: u64,
    step: &str,
    run: u64,
    n: u32,
) -> Result<Tree, AllocError>
    ensures { (before : Shown) (sent : List ASender) → step.now ≡ key_of before task → IfOk result (λ tree. data_of tree
        ≡ record_object run before sent n (entry.Walk task moment)) }
{
    let mut pairs = head(alloc, "walk", run, n, moment)?;
    put_whole(alloc, &mut pairs, "task", task)?;
    put_text(alloc, &mut pairs, "step", step)?;
    Ok(Tree::Members(pairs))
}

fn send_object(
    alloc: Global,
    task: u32,
    issue: u32,
    agent: u8,
    moment: u64,
    command: &Bytes,
    step: &str,
    run: u64,
    n: u32,
) -> Result<Tree, AllocError>
    ensures { (before : Shown) (sent : List ASender) → step.now ≡ key_of before task → IfOk result (λ tree. data_of tree
        ≡ record_object run before sent n (entry.Send task issue agent moment command.now)) }
{
    let mut pairs = head(alloc, "send", run, n, moment)?;
    put_whole(alloc, &mut pairs, "task", task)?;
    put_text(alloc, &mut pairs, "step", step)?;
    put_whole(alloc, &mut pairs, "issue", issue)?;
    put_bytes(alloc, &mut pairs, "command", command)?;
    put_whole(alloc, &mut pairs, "agent", agent as u32)?;
    Ok(Tree::Members(pairs))
}

/// The members of a reply but those of who sent the command.
fn reply_pairs(
    alloc: Global,
    issue: u32,
    moment: u64,
    status: u16,
    rule: u32,
    text: &Bytes,
    run: u64,
    n: u32,
) -> Result<Pairs, AllocError>
    ensures { (before : Shown) → IfOk result (λ pairs. pairs ≡ members_of (reply_members run before n None issue moment status rule text.now)) }
{
    let mut pairs = head(alloc, "reply", run, n, moment)?;
    put_bytes(alloc, &mut pairs, "text", text)?;
    put_whole(alloc, &mut pairs, "status", status as u32)?;
    put_whole(alloc, &mut pairs, "rule", rule)?;
    put_whole(alloc, &mut pairs, "issue", issue)?;
    Ok(pairs)
}

fn reply_object(
    alloc: Global,
    issue: u32,
    moment: u64,
    status: u16,
    rule: u32,
    text: &Bytes,
    sender: Option<Sender>,
    step: &str,
    run: u64,
    n: u32,
) -> Result<Tree, AllocError>
    ensures { (before : Shown) → IsStepBy before sender step.now → IfOk result (λ tree. data_of tree
        ≡ object (members_of (reply_members run before n sender issue moment status rule text.now))) }
{
    let mut pairs = reply_pairs(alloc, issue, moment, status, rule, text, run, n)?;
    put_agent(alloc, &mut pairs, sender)?;
    put_sender(alloc, &mut pairs, sender, step)?;
    Ok(Tree::Members(pairs))
}

/// The members of a deadline but those of who sent the command.
fn expire_pairs(
    alloc: Global,
    issue: u32,
    moment: u64,
    run: u64,
    n: u32,
) -> Result<Pairs, AllocError>
    ensures { (before : Shown) → IfOk result (λ pairs. pairs ≡ members_of (expire_members run before n None issue moment)) }
{
    let mut pairs = head(alloc, "expire", run, n, moment)?;
    put_whole(alloc, &mut pairs, "issue", issue)?;
    Ok(pairs)
}

fn expire_object(
    alloc: Global,
    issue: u32,
    moment: u64,
    sender: Option<Sender>,
    step: &str,
    run: u64,
    n: u32,
) -> Result<Tree, AllocError>
    ensures { (before : Shown) → IsStepBy before sender step.now → IfOk result (λ tree. data_of tree
        ≡ object (members_of (expire_members run before n sender issue moment))) }
{
    let mut pairs = expire_pairs(alloc, issue, moment, run, n)?;
    put_agent(alloc, &mut pairs, sender)?;
    put_sender(alloc, &mut pairs, sender, step)?;
    Ok(Tree::Members(pairs))
}

fn upgrade_object(
    alloc: Global,
    version: u8,
    moment: u64,
    run: u64,
    n: u32,
) -> Result<Tree, AllocError>
    ensures { (before : Shown) (sent : List ASender) → IfOk result (λ tree. data_of tree
        ≡ record_object run before sent n (entry.Upgrade version moment)) }
{
    let mut pairs = head(alloc, "upgrade", run, n, moment)?;
    put_whole(alloc, &mut pairs, "version", version as u32)?;
    Ok(Tree::Members(pairs))
}

fn ask_object(
    alloc: Global,
    task: u32,
    issue: u32,
    moment: u64,
    question: &Bytes,
    step: &str,
    run: u64,
    n: u32,
) -> Result<Tree, AllocError>
    ensures { (before : Shown) (sent : List ASender) → step.now ≡ key_of before task → IfOk result (λ tree. data_of tree
        ≡ record_object run before sent n (entry.Ask task issue moment question.now)) }
{
    let mut pairs = head(alloc, "ask", run, n, moment)?;
    put_whole(alloc, &mut pairs, "task", task)?;
    put_text(alloc, &mut pairs, "step", step)?;
    put_bytes(alloc, &mut pairs, "question", question)?;
    put_whole(alloc, &mut pairs, "issue", issue)?;
    Ok(Tree::Members(pairs))
}

/// The members of an operator's answer but those of who asked.
fn told_pairs(
    alloc: Global,
    issue: u32,
    moment: u64,
    status: u16,
    answer: &Bytes,
    run: u64,
    n: u32,
) -> Result<Pairs, AllocError>
    ensures { (before : Shown) → IfOk result (λ pairs. pairs ≡ members_of (told_members run before n None issue moment status answer.now)) }
{
    let mut pairs = head(alloc, "told", run, n, moment)?;
    put_whole(alloc, &mut pairs, "status", status as u32)?;
    put_whole(alloc, &mut pairs, "issue", issue)?;
    put_bytes(alloc, &mut pairs, "answer", answer)?;
    Ok(pairs)
}

fn told_object(
    alloc: Global,
    issue: u32,
    moment: u64,
    status: u16,
    answer: &Bytes,
    sender: Option<Sender>,
    step: &str,
    run: u64,
    n: u32,
) -> Result<Tree, AllocError>
    ensures { (before : Shown) → IsStepBy before sender step.now → IfOk result (λ tree. data_of tree
        ≡ object (members_of (told_members run before n sender issue moment status answer.now))) }
{
    let mut pairs = told_pairs(alloc, issue, moment, status, answer, run, n)?;
    put_sender(alloc, &mut pairs, sender, step)?;
    Ok(Tree::Members(pairs))
}

/// The object of the record with this number in the run of this number. `sender` is who sent or asked what it answers, tells or ends, and
/// `step` the key of the step at which its task stands.
fn record_object(
    alloc: Global,
    run: u64,
    n: u32,
    sender: Option<Sender>,
    step: &str,
    item: &Record,
) -> Result<Tree, AllocError>
    ensures { (before : Shown) (sent : List ASender) → sender ≡ sender_for sent item.now → step.now ≡ step_key before sent item.now
        → IfOk result (λ tree. data_of tree ≡ record_object run before sent n item.now) }
{
    match item {
        Record::Begin {
            run: held,
            moment,
            books,
            bind,
        } => begin_object(alloc, *held, *moment, books, bind, n),
        Record::Walk { task, moment } => walk_object(alloc, *task, *moment, step, run, n),
        Record::Send {
            task,
            issue,
            agent,
            moment,
            bytes,
        } => send_object(alloc, *task, *issue, *agent, *moment, bytes, step, run, n),
        Record::Reply {
            issue,
            moment,
            status,
            rule,
            text,
        } => reply_object(
            alloc, *issue, *moment, *status, *rule, text, sender, step, run, n,
        ),
        Record::Expire { issue, moment } => {
            expire_object(alloc, *issue, *moment, sender, step, run, n)
        }
        Record::Upgrade { version, moment } => upgrade_object(alloc, *version, *moment, run, n),
        Record::Ask {
            task,
            issue,
            moment,
            bytes,
        } => ask_object(alloc, *task, *issue, *moment, bytes, step, run, n),
        Record::Told {
            issue,
            moment,
            status,
            text,
        } => told_object(alloc, *issue, *moment, *status, text, sender, step, run, n),
    }
}

/// The canonical text of that object (RFC 8785), on a line of its own.
pub(crate) fn object_line(
    alloc: Global,
    run: u64,
    n: u32,
    sender: Option<Sender>,
    step: &str,
    item: &Record,
) -> Result<Bytes, AllocError>
    ensures { (before : Shown) (sent : List ASender) → sender ≡ sender_for sent item.now → step.now ≡ step_key before sent item.now
        → IfOk result (λ bytes. bytes ≡ object_line run before sent n item.now) }
{
    let tree = record_object(alloc, run, n, sender, step, item)?;
    let mut line = canonical(alloc, &tree)?.into_vec();
    line.push(b'\n')?;
    Ok(Bytes::from_vec(line))
}

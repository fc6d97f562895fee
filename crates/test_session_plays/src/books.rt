// Playbooks.
ghost use Rattle.std.specs.Prelude.{IfOk};
ghost use Rattle.flow_core.specs.Setups.{IsReadable};

use cacao_site::Bytes;
use flow_core::{Setup, SetupError};
use std::alloc::{AllocError, Global};

/// A playbook.
#[derive(Clone, Copy)]
pub enum Book {
    /// A host is blocked where the severity is high.
    Block,
    /// An operator is asked in place of a filter.
    Ask,
    /// An action has three seconds, and nothing follows where it fails.
    One,
    /// An action has three seconds; ten milliseconds after it failed another one follows.
    Second,
    /// A loop that does not end.
    Loop,
    /// A net is denied by one filter, within three seconds.
    Net,
    /// Nothing is done between the start and the end.
    Bare,
}

impl Book {
    /// The playbook of a name; nothing where there is none.
    pub fn named(name: &str) -> Option<Book> {
        match name {
            "block" => Some(Book::Block),
            "ask" => Some(Book::Ask),
            "one" => Some(Book::One),
            "second" => Some(Book::Second),
            "loop" => Some(Book::Loop),
            "net" => Some(Book::Net),
            "bare" => Some(Book::Bare),
            _ => None,
        }
    }
}

/// What stands between an identifier's type and its last two digits.
const MIDDLE: &str = "--00000000-0000-4000-8000-0000000000";

/// The members of a playbook that are alike in all, for which its text has `HEAD`.
const HEAD: &str = r#""type":"playbook","spec_version":"cacao-2.0","id":"playbook--01",
"name":"Block a host","created_by":"identity--02",
"created":"2024-01-02T03:04:05.000Z","modified":"2024-01-02T03:04:05.000Z",
"workflow_start":"start--10",
"agent_definitions":{"net-address--20":{"type":"net-address",
"name":"Edge filter","address":{"ipv4":["192.0.2.1"]}}}"#;

/// The variables that are alike in most, for which a text has `VARIABLES`.
const VARIABLES: &str = r#""playbook_variables":{
"__host__":{"type":"ipv4-addr","value":"198.51.100.7","external":true},
"__severity__":{"type":"integer","value":"8"},
"__rule__":{"type":"integer"},"__status__":{"type":"integer"}}"#;

/// The steps around the action that are alike in some, for which a text has `STEPS`.
const STEPS: &str = r#""start--10":{"type":"start","on_completion":"if-condition--11"},
"if-condition--11":{"type":"if-condition",
"condition":"__severity__:value >= 7","on_true":"action--12",
"on_false":"end--13","on_completion":"end--13"},
"end--13":{"type":"end"}"#;

/// The members of an action that denies the host, for which a text has `DENY`.
const DENY: &str = r#""type":"action","agent":"net-address--20",
"commands":[{"type":"openc2-http","command":"POST /openc2 HTTP/1.1",
"content":"{\"action\":\"deny\",\"target\":{\"ipv4_connection\":{\"dst_addr\":\"__host__:value\"}},\"args\":{\"slpf\":{\"drop_process\":\"none\"}}}"}],
"out_args":["__status__","__rule__"]"#;

const BLOCK: &str = r#"{HEAD,VARIABLES,"workflow":{STEPS,
"action--12":{DENY,"on_completion":"end--13"}}}"#;

const ASK: &str = r#"{HEAD,VARIABLES,"workflow":{STEPS,
"action--12":{"type":"action","agent":"net-address--20",
"commands":[{"type":"manual","command":"Unplug __host__:value"}],
"out_args":["__status__","__rule__"],"on_completion":"end--13"}}}"#;

const ONE: &str = r#"{HEAD,VARIABLES,"workflow":{
"start--10":{"type":"start","on_completion":"action--12"},
"action--12":{DENY,"timeout":3000,"on_success":"end--13"},
"end--13":{"type":"end"}}}"#;

const SECOND: &str = r#"{HEAD,VARIABLES,"workflow":{
"start--10":{"type":"start","on_completion":"action--12"},
"action--12":{DENY,"timeout":3000,"on_success":"end--13","on_failure":"action--14"},
"action--14":{DENY,"delay":10,"on_completion":"end--13"},
"end--13":{"type":"end"}}}"#;

const LOOP: &str =
    r#"{HEAD,"playbook_variables":{"__n__":{"type":"integer","value":"0"}},"workflow":{
"start--10":{"type":"start","on_completion":"while-condition--11"},
"while-condition--11":{"type":"while-condition","condition":"__n__:value < 2",
"on_true":"end--13","on_completion":"end--13"},
"end--13":{"type":"end"}}}"#;

const NET: &str = r#"{"type":"playbook","spec_version":"cacao-2.0","id":"playbook--01",
"name":"a case","created_by":"identity--02",
"created":"2024-01-02T03:04:05Z","modified":"2024-01-02T03:04:05Z","workflow_start":"start--10",
"agent_definitions":{"net-address--20":{}},"workflow":{
"start--10":{"type":"start","on_completion":"action--12"},
"action--12":{"type":"action","agent":"net-address--20","timeout":3000,"commands":[{"type":"openc2-http",
"content":"{\"action\":\"deny\",\"target\":{\"ipv4_net\":\"10.0.0.0/8\"}}"}],"on_completion":"end--13"},
"end--13":{"type":"end"}}}"#;

const BARE: &str = r#"{"type":"playbook","spec_version":"cacao-2.0","id":"playbook--03",
"name":"a case","created_by":"identity--02",
"created":"2024-01-02T03:04:05Z","modified":"2024-01-02T03:04:05Z","workflow_start":"start--10",
"agent_definitions":{"net-address--20":{}},"workflow":{
"start--10":{"type":"start","on_completion":"end--13"},"end--13":{"type":"end"}}}"#;

/// A playbook's text, with its identifiers cut and its members named.
fn text_of(book: Book) -> &'static str {
    match book {
        Book::Block => BLOCK,
        Book::Ask => ASK,
        Book::One => ONE,
        Book::Second => SECOND,
        Book::Loop => LOOP,
        Book::Net => NET,
        Book::Bare => BARE,
    }
}

/// The text with each identifier cut to its type and its last two digits.
pub fn cut(alloc: Global, text: &str) -> Result<String, AllocError> {
    text.replace(alloc, MIDDLE, "--")
}

/// The text with its members and its identifiers whole.
pub fn spelled_out(alloc: Global, text: &str) -> Result<String, AllocError> {
    let text = text.replace(alloc, "HEAD", HEAD)?;
    let text = text.as_str().replace(alloc, "VARIABLES", VARIABLES)?;
    let text = text.as_str().replace(alloc, "STEPS", STEPS)?;
    let text = text.as_str().replace(alloc, "DENY", DENY)?;
    text.as_str().replace(alloc, "--", MIDDLE)
}

/// A playbook's text.
pub fn text(alloc: Global, book: Book) -> Result<String, AllocError> {
    spelled_out(alloc, text_of(book))
}

/// The bytes of a text; none where it is too long to be read.
fn bytes_of(alloc: Global, text: &str) -> Result<Bytes, AllocError>
    ensures { IfOk result (λ bytes. IsReadable bytes) }
{
    if text.len() > 1_048_576 {
        return Bytes::from_slice(alloc, b"");
    }
    Bytes::from_slice(alloc, text.as_bytes())
}

/// The setup of a playbook, without bindings.
pub(crate) fn setup(alloc: Global, book: Book) -> Result<Setup, SetupError> {
    let bind = Bytes::from_slice(alloc, b"")?;
    let text = text(alloc, book)?;
    let texts = [bytes_of(alloc, text.as_str())?];
    Setup::read(alloc, &texts, &bind)
}

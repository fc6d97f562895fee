// The engine's end of a wire.
use crate::around::{Around, link, site};
use crate::kept::Kept;
use crate::setups::setup;
use cacao_site::Site;
use cacao_site_memory::MemorySite;
use flow_core::Setup;
use flow_engine_answers::Answers;
use oc2_wire::{WireClose, WireError, serve_engine};
use oc2_wire_link::Link;
use oc2_wire_site::{LinkState, WireSite};
use std::alloc::{AllocError, Global};
use std::str::from_utf8;
use test_session_plays::{answers, cut};

/// What is asked of a session.
#[derive(Clone, Copy)]
pub struct Asked<'a> {
    /// The playbook's text.
    pub book: &'a str,
    /// The text of the operators' answers.
    pub answers: &'a str,
    pub run: u64,
    /// How many records may be appended; 0 stands for 1.
    pub most: u64,
}

/// What came of the engine's end.
#[derive(Clone, Copy)]
pub enum Came {
    /// The playbook is not accepted.
    NoSetup,
    /// The answers can't be read.
    NoAnswers,
    /// There was no memory for a wire.
    NoWire,
    Closed(WireClose),
    Refused(WireError),
}

/// What came of the engine's end, and what it left.
#[derive(Drop)]
pub struct Asking {
    pub came: Came,
    /// What broke its link, and how many lines it passed over.
    pub state: LinkState,
    pub passed: u64,
    /// The bytes that went out.
    pub sent: Vec<u8>,
    /// The lines that it said, with their identifiers cut.
    pub said: String,
    pub kept: Kept,
}

/// What came of an end, what broke its link, how many lines it passed over, and the link.
#[derive(Drop)]
struct Ended<K: Link> {
    came: Came,
    state: LinkState,
    passed: u64,
    link: K,
}

/// Holds a session over a wire of this link.
fn hold<S: Site + Drop, K: Link>(
    alloc: Global,
    site: S,
    link: K,
    setup: Setup,
    answers: &Answers,
    asked: Asked<'_>,
) -> Ended<K> {
    let mut wire = match WireSite::asking(alloc, site, link) {
        Ok(wire) => wire,
        Err(link) => {
            return Ended {
                came: Came::NoWire,
                state: LinkState::NoMemory,
                passed: 0,
                link,
            };
        }
    };
    let most = asked.most.max(1);
    let came = match serve_engine(alloc, &mut wire, setup, answers, asked.run, most) {
        Ok(close) => Came::Closed(close),
        Err(error) => Came::Refused(error),
    };
    let state = wire.state();
    let passed = wire.passed();
    Ended {
        came,
        state,
        passed,
        link: wire.into_link(),
    }
}

/// The bytes of a line that was said; none where there is no line of that number.
fn line(site: &MemorySite, n: usize) -> &[u8] {
    if n >= site.line_count() {
        return b"";
    }
    site.line(n)
}

/// All lines that were said, with their identifiers cut.
fn said(alloc: Global, site: &MemorySite) -> Result<String, AllocError> {
    let mut said = String::new(alloc);
    for n in 0..site.line_count() {
        if let Ok(text) = from_utf8(line(site, n)) {
            said.push_str(cut(alloc, text)?.as_str())?;
        }
    }
    Ok(said)
}

/// What was left where no session was held.
fn not_held(alloc: Global, site: MemorySite, came: Came) -> Result<Asking, AllocError> {
    Ok(Asking {
        came,
        state: LinkState::Whole,
        passed: 0,
        sent: Vec::new(alloc),
        said: String::new(alloc),
        kept: Kept::left(alloc, site, 0)?,
    })
}

/// Plays the engine's end on these files, over a link over which these bytes come.
pub fn ask(
    alloc: Global,
    around: Around,
    kept: &Kept,
    asked: Asked<'_>,
    bytes: &[u8],
) -> Result<Asking, AllocError> {
    let mut site = site(alloc, around, kept)?;
    let Ok(setup) = setup(alloc, asked.book) else {
        return not_held(alloc, site, Came::NoSetup);
    };
    let Ok(answers) = answers(alloc, asked.answers, asked.run) else {
        return not_held(alloc, site, Came::NoAnswers);
    };
    let link = link(alloc, around, bytes)?;
    let ended = hold(alloc, &mut site, link, setup, &answers, asked);
    Ok(Asking {
        came: ended.came,
        state: ended.state,
        passed: ended.passed,
        sent: ended.link.sent().to_vec(alloc)?,
        said: said(alloc, &site)?,
        kept: Kept::left(alloc, site, around.choice)?,
    })
}

// A site on which sessions are played.
use crate::books::{Book, cut, setup};
use crate::outside::{Outside, plan};
use cacao_site::{Bytes, Disk, Parcel};
use cacao_site_memory::MemorySite;
use flow_core::Setup;
use flow_engine_answers::{AnswerError, Answers, read_answers};
use flow_world::{Close, WorldError, session};
use slpf_actuator::Actuator;
use std::alloc::{AllocError, Global};
use std::str::from_utf8;

/// What is asked of a session.
#[derive(Clone, Copy)]
pub struct Asked<'a> {
    pub book: Book,
    /// The text of the operators' answers.
    pub answers: &'a str,
    pub run: u64,
    /// How many records may be appended; 0 stands for 1.
    pub most: u64,
}

/// Run 7 of a playbook to its end, without answers.
pub fn whole(book: Book) -> Asked<'static> {
    Asked {
        book,
        answers: "",
        run: 7,
        most: 1_000_000_000,
    }
}

/// What came of a session.
#[derive(Clone, Copy)]
pub enum Came {
    /// The playbook is not accepted.
    NoSetup,
    /// The answers can't be read.
    NoAnswers,
    Closed(Close),
    Refused(WorldError),
}

/// The acts of all filters, and the rules that these hold.
#[derive(Clone, Copy)]
pub struct Held {
    pub acts: u32,
    pub rules: usize,
}

/// The bytes of file 0 and file 1.
#[derive(Drop)]
pub struct Files {
    pub journal: Bytes,
    pub filter: Bytes,
}

/// A site on which sessions are played.
pub struct Play {
    pub(crate) alloc: Global,
    pub(crate) site: MemorySite,
}

impl Drop for Play {
    fn drop(self) {
        let Self { alloc: _, site: _ } = self;
    }
}

/// Plays a session of this setup, with these answers.
fn go_on(
    site: &mut MemorySite,
    alloc: Global,
    setup: Setup,
    answers: &Answers,
    asked: Asked<'_>,
) -> Came {
    match session(alloc, site, setup, answers, asked.run, asked.most.max(1)) {
        Ok(close) => Came::Closed(close),
        Err(error) => Came::Refused(error),
    }
}

/// The operators' answers for a run in a text. One that is too long to be read is answered as want of memory.
pub fn answers(alloc: Global, text: &str, run: u64) -> Result<Answers, AnswerError> {
    if text.len() > 1_048_576 {
        return Err(AnswerError::Memory);
    }
    read_answers(alloc, text.as_bytes(), run)
}

/// The acts and the rules of a filter of an agent 1 to 16; nothing where its file can't be opened.
fn held_by(site: &mut MemorySite, alloc: Global, agent: u8) -> Option<Held> {
    if agent == 0 || agent > 16 {
        return None;
    }
    match Actuator::open_on(alloc, site, agent) {
        Ok(filter) => Some(Held {
            acts: filter.count(),
            rules: filter.table().rules().len(),
        }),
        Err(_) => None,
    }
}

impl Play {
    /// A new site.
    pub fn new(alloc: Global, outside: Outside) -> Result<Play, AllocError> {
        let plan = plan(alloc, outside)?;
        let site = MemorySite::new(alloc, plan)?;
        Ok(Play { alloc, site })
    }

    /// The site after a crash that is picked so: 0 leaves what a read gives, 1 what was synced, and others something between.
    pub fn crash(self, choice: u64, outside: Outside) -> Result<Play, AllocError> {
        let plan = plan(self.alloc, outside)?;
        let Self { alloc, site } = self;
        let site = site.crash_with(choice, plan)?;
        Ok(Play { alloc, site })
    }

    /// Plays a session.
    pub fn play(&mut self, asked: Asked<'_>) -> Came {
        let Ok(setup) = setup(self.alloc, asked.book) else {
            return Came::NoSetup;
        };
        match answers(self.alloc, asked.answers, asked.run) {
            Ok(answers) => go_on(&mut self.site, self.alloc, setup, &answers, asked),
            Err(_) => Came::NoAnswers,
        }
    }

    /// How many lines were said.
    pub fn line_count(&self) -> usize {
        self.site.line_count()
    }

    /// The bytes of a line said; none where there is no line of that number.
    fn line_bytes(&self, n: usize) -> &[u8] {
        if n >= self.site.line_count() {
            return b"";
        }
        self.site.line(n)
    }

    /// A line said, by its number from 0, with its identifiers cut; empty where there is none, or it is no text.
    pub fn line(&self, n: usize) -> Result<String, AllocError> {
        match from_utf8(self.line_bytes(n)) {
            Ok(text) => cut(self.alloc, text),
            Err(_) => Ok(String::new(self.alloc)),
        }
    }

    /// How many parcels were put.
    pub fn put_count(&self) -> usize {
        self.site.put_count()
    }

    /// A parcel that was put, by its number from 0.
    pub fn parcel(&self, n: usize) -> Option<&Parcel> {
        if n >= self.site.put_count() {
            return None;
        }
        Some(self.site.parcel_put(n))
    }

    /// The acts and the rules of all filters; nothing where a file can't be opened.
    pub fn held(&mut self) -> Option<Held> {
        let mut acts = 0u32;
        let mut rules = 0usize;
        for agent in 1..17u8 {
            match held_by(&mut self.site, self.alloc, agent) {
                Some(held) => {
                    acts = acts.saturating_add(held.acts);
                    rules = rules.saturating_add(held.rules);
                }
                None => return None,
            }
        }
        Some(Held { acts, rules })
    }

    /// The bytes of a file; nothing where there is no such file, it can't be read, or it has more than 4,096.
    pub fn file(&mut self, number: u8) -> Option<Bytes> {
        if number > 16 {
            return None;
        }
        let mut buffer = [0u8; 4096];
        let Ok(read) = self.site.read(number, 0, &mut buffer) else {
            return None;
        };
        match Bytes::from_slice(self.alloc, &buffer[..read as usize]) {
            Ok(bytes) => Some(bytes),
            Err(_) => None,
        }
    }

    /// The bytes of file 0 and file 1; nothing where they can't be read.
    pub fn files(&mut self) -> Option<Files> {
        let journal = self.file(0)?;
        let filter = self.file(1)?;
        Some(Files { journal, filter })
    }

    /// Whether all files but file 0 and file 1 have no byte.
    pub fn are_others_blank(&mut self) -> bool {
        for number in 2..17u8 {
            if self.site.length(number) != Ok(0) {
                return false;
            }
        }
        true
    }

    /// Writes a file from its front on; false where that failed.
    pub fn fill(&mut self, number: u8, bytes: &[u8]) -> bool {
        if number > 16 || bytes.len() > 4096 {
            return false;
        }
        self.site.write(number, 0, bytes).is_ok() && self.site.sync(number).is_ok()
    }
}

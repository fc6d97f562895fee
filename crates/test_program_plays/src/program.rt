// The program with the shelf and the site that it is called on.
use cacao_cli::top;
use cacao_site::{Bytes, Disk, Parcel, Rack};
use cacao_site_memory::{CallList, MemoryShelf, MemorySite, SitePlan, WeatherList};
use oc2_wire_memory::{MemoryLink, MemoryLinks, MemoryPeers, Pieces};
use std::alloc::{AllocError, Global};
use std::mem;
use std::str::from_utf8;
use test_session_plays::Outside;

/// What the program answered.
#[derive(Drop)]
pub struct Answer {
    /// The exit status.
    pub status: u8,
    said: Vec<u8>,
}

impl Answer {
    /// All that it said.
    pub fn text(&self) -> &str {
        match from_utf8(self.said.as_slice()) {
            Ok(text) => text,
            Err(_) => "no text\n",
        }
    }
}

/// The program, and what it is called on.
#[derive(Drop)]
pub struct Program {
    alloc: Global,
    shelf: MemoryShelf,
    site: MemorySite,
    /// The links that the peers of the next call hand out, and the calls of these that fail.
    links: Vec<MemoryLink>,
    failing_peers: Vec<u32>,
    /// What went out over the link that the last call closed.
    sent: Vec<u8>,
}

/// The device calls that fail.
fn failing(alloc: Global, call: Option<u32>) -> Result<Vec<u32>, AllocError> {
    let mut calls = Vec::new(alloc);
    if let Some(call) = call {
        calls.push(call)?;
    }
    Ok(calls)
}

/// The plan of a site.
fn plan(alloc: Global, outside: Outside) -> Result<SitePlan, AllocError> {
    let failing = failing(alloc, outside.failing)?;
    let weather = Vec::from_array(alloc, outside.weather)?;
    Ok(SitePlan {
        room: outside.room,
        calls: outside.calls,
        start: 0,
        stop_clock: outside.stop_clock,
        failing: CallList::from_vec(failing),
        weather: WeatherList::from_vec(weather),
    })
}

/// The words of a line, with a space between each two; an empty line has none.
fn words(alloc: Global, line: &str) -> Result<Vec<String>, AllocError> {
    let mut words = Vec::new(alloc);
    if line.is_empty() {
        return Ok(words);
    }
    for word in line.split(' ') {
        words.push(String::from_str(alloc, word)?)?;
    }
    Ok(words)
}

impl Program {
    /// The program with no file on its shelf, and a blank site.
    pub fn new(alloc: Global, outside: Outside) -> Result<Program, AllocError> {
        let plan = plan(alloc, outside)?;
        let site = MemorySite::new(alloc, plan)?;
        Ok(Program {
            alloc,
            shelf: MemoryShelf::new(alloc),
            site,
            links: Vec::new(alloc),
            failing_peers: Vec::new(alloc),
            sent: Vec::new(alloc),
        })
    }

    /// The program with its shelf, on its site after a crash that is picked so: 0 leaves what a read gives, 1 what was synced, and others
    /// something between.
    pub fn crash(self, choice: u64, outside: Outside) -> Result<Program, AllocError> {
        let Program {
            alloc,
            shelf,
            site,
            links,
            failing_peers,
            sent,
        } = self;
        let plan = plan(alloc, outside)?;
        let site = site.crash_with(choice, plan)?;
        Ok(Program {
            alloc,
            shelf,
            site,
            links,
            failing_peers,
            sent,
        })
    }

    /// Puts a file on the shelf.
    pub fn add(&mut self, name: &str, text: &[u8]) -> Result<(), AllocError> {
        self.shelf.add(name, text)
    }

    /// Lets the read of this number fail, from 0.
    pub fn fail_read(&mut self, number: u32) {
        self.shelf.fail_at(number);
    }

    /// Lets the peers of the next call hand out a link over which these bytes come, with room for so many bytes to be sent.
    pub fn add_link(
        &mut self,
        bytes: &[u8],
        room: u64,
        fails: Option<u32>,
    ) -> Result<(), AllocError> {
        let mut pieces = Vec::new(self.alloc);
        if !bytes.is_empty() {
            pieces.push(Bytes::from_slice(self.alloc, bytes)?)?;
        }
        let failing = CallList::from_vec(failing(self.alloc, fails)?);
        if let Ok(link) = MemoryLink::new(self.alloc, Pieces::from_vec(pieces), failing, room) {
            self.links.push(link)?;
        }
        Ok(())
    }

    /// Lets the call of this number of the peers of the next call fail, from 0.
    pub fn fail_peers(&mut self, number: u32) -> Result<(), AllocError> {
        self.failing_peers.push(number)?;
        Ok(())
    }

    /// Writes a file of the disk from its front on; false where there is no such file, or that failed.
    pub fn fill(&mut self, number: u8, bytes: &[u8]) -> bool {
        if number > 31 || bytes.len() > 67_108_864 {
            return false;
        }
        if number > 16 {
            let file = number - 16;
            return self.site.run_write(file, 0, bytes).is_ok() && self.site.run_sync(file).is_ok();
        }
        self.site.write(number, 0, bytes).is_ok() && self.site.sync(number).is_ok()
    }

    /// The bytes of a file of the disk, as far as 4,096 of them go; none where there is no such file, or it can't be read.
    pub fn file(&mut self, number: u8) -> Result<Vec<u8>, AllocError> {
        if number > 16 {
            return Ok(Vec::new(self.alloc));
        }
        let mut buffer = [0u8; 4096];
        match self.site.read(number, 0, &mut buffer) {
            Ok(read) => buffer[..read as usize].to_vec(self.alloc),
            Err(_) => Ok(Vec::new(self.alloc)),
        }
    }

    /// The bytes of a line said; none where there is no line of that number.
    fn line(&self, n: usize) -> &[u8] {
        if n >= self.site.line_count() {
            return b"";
        }
        self.site.line(n)
    }

    /// All that was said from the line of this number on.
    fn said_from(&self, first: usize) -> Result<Vec<u8>, AllocError> {
        let mut said = Vec::new(self.alloc);
        for n in first..self.site.line_count() {
            said.extend_from_slice(self.line(n))?;
        }
        Ok(said)
    }

    /// Calls the program with the words of a line.
    pub fn call(&mut self, line: &str) -> Result<Answer, AllocError> {
        let words = words(self.alloc, line)?;
        let first = self.site.line_count();
        let links = mem::replace(&mut self.links, Vec::new(self.alloc));
        let failing = mem::replace(&mut self.failing_peers, Vec::new(self.alloc));
        let mut peers = MemoryPeers::new(MemoryLinks::from_vec(links), CallList::from_vec(failing));
        let status = top(
            self.alloc,
            words.as_slice(),
            &mut self.shelf,
            &mut self.site,
            &mut peers,
        );
        self.sent = match peers.closed() {
            Some(link) => link.sent().to_vec(self.alloc)?,
            None => Vec::new(self.alloc),
        };
        let said = self.said_from(first)?;
        Ok(Answer { status, said })
    }

    /// The bytes that went out over the link that the last call closed.
    pub fn sent(&self) -> &[u8] {
        self.sent.as_slice()
    }

    /// How many lines were said.
    pub fn line_count(&self) -> usize {
        self.site.line_count()
    }

    /// How many parcels were put.
    pub fn put_count(&self) -> usize {
        self.site.put_count()
    }

    /// A parcel that was put, by its number from 0.
    pub fn parcel(&self, n: usize) -> Option<&Parcel> {
        if n >= self.site.put_count() {
            return None;
        }
        Some(self.site.parcel_put(n))
    }
}

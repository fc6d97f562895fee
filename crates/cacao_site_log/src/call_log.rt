// The record of device calls and lines of a site in memory, in memory that was taken before.
ghost use Rattle.std.specs.Prelude.{◌≡◌, ◌+◌, ◌^◌, ◌<◌, ◌≤◌, IfOk, OnOk, IsTrue, Some, [], ◌∷◌, ◌++◌, length, slice_get, option_map};
ghost use Rattle.cacao_site_log.specs.LogView.{LogView};
ghost use Rattle.cacao_site_log.specs.Replay.{looked, wrote, tried, flushed, at_rest, after_all, is_image};
ghost use Rattle.cacao_site_log.specs.Entries.{IsReadAt};

use crate::entry::Entry;
use crate::line::Line;
use crate::replay::fill;
use crate::room::extend_in_room;
use crate::tear::crash_image;
use std::alloc::{AllocError, Global};
use std::marker::Model;

/// Device calls and lines said, each in order, with the bytes of both in one place, and the room for more.
pub struct CallLog {
    bytes: Vec<u8>,
    entries: Vec<Entry>,
    lines: Vec<Line>,
    room: usize,
    most: usize,
    most_lines: usize,
}

// (by hand, and not by derive: so a drop is one call in the proofs of all who own one)
impl Drop for CallLog {
    fn drop(self) {
        let Self {
            bytes: _,
            entries: _,
            lines: _,
            room: _,
            most: _,
            most_lines: _,
        } = self;
    }
}

impl Model for CallLog {
    ghost use Rattle.cacao_site_log.specs.LogView.{LogView};

    ghost Value = { LogView };

    ghost use Rattle.cacao_site_log.specs.CallLog.{log_view, IsKept};

    ghost view = { log_view };

    ghost invariant = { IsKept };
}

impl CallLog {
    /// No call and no line, with room for `most` calls and `most_lines` lines of `room` bytes together.
    pub fn new(
        alloc: Global,
        room: usize,
        most: usize,
        most_lines: usize,
    ) -> Result<CallLog, AllocError>
        ensures { IfOk result (λ log. log ≡ record { calls = []; lines = []; used = 0; room = room; most = most; most_lines = most_lines }) }
    {
        Ok(CallLog {
            bytes: Vec::with_capacity(alloc, room)?,
            entries: Vec::with_capacity(alloc, most)?,
            lines: Vec::with_capacity(alloc, most_lines)?,
            room,
            most,
            most_lines,
        })
    }

    /// The same lines and no call, with room for `most` calls, and for `most_lines` lines and `room` bytes more.
    pub fn restart(
        &self,
        alloc: Global,
        room: usize,
        most: usize,
        most_lines: usize,
    ) -> Result<CallLog, AllocError>
        ensures calls { IfOk result (λ log. log.calls ≡ []) }
        ensures lines { IfOk result (λ log. log.lines ≡ self.now.lines) }
        ensures room { IfOk result (λ log. log.used + room ≤ log.room) }
        ensures most { IfOk result (λ log. log.most ≡ most) }
        ensures most_lines { IfOk result (λ log. length log.lines + most_lines ≤ log.most_lines) }
    {
        let mut log = CallLog::new(alloc, 0, most, 0)?;
        for number in 0..self.len() {
            let said = self.line(number);
            log.make_room(said.len(), 1)?;
            log.say(self.beat(number), said);
        }
        log.make_room(room, most_lines)?;
        Ok(log)
    }

    /// Makes room for `most_lines` lines and `room` bytes more.
    #[tactic(auto, using(crate::proofs::LineLemmas::line_count))]
    fn make_room(&mut self, room: usize, most_lines: usize) -> Result<(), AllocError>
        ensures calls { self.new.calls ≡ self.old.calls }
        ensures lines { self.new.lines ≡ self.old.lines }
        ensures used { self.new.used ≡ self.old.used }
        ensures most { self.new.most ≡ self.old.most }
        ensures room { OnOk result (self.new.used + room ≤ self.new.room) }
        ensures most_lines { OnOk result (length self.new.lines + most_lines ≤ self.new.most_lines) }
    {
        self.bytes.reserve(room)?;
        self.lines.reserve(most_lines)?;
        self.room = self.bytes.capacity();
        self.most_lines = self.lines.capacity();
        Ok(())
    }

    /// How many lines there are.
    #[tactic(auto, using(crate::proofs::LineLemmas::line_count))]
    pub fn len(&self) -> usize
        ensures { result ≡ length self.now.lines }
    {
        self.lines.len()
    }

    /// The bytes of a line, by its number from 0.
    #[tactic(auto, using(crate::proofs::LineLemmas::line_count))]
    pub fn line(&self, number: usize) -> &[u8]
        requires { number < length self.now.lines }
        ensures { option_map (λ line. line.1) (slice_get self.now.lines number) ≡ Some result.now }
    {
        let line = self.lines[number];
        &self.bytes[line.start..line.end]
    }

    /// The beat of a line, by its number from 0.
    #[tactic(auto, using(crate::proofs::LineLemmas::line_count))]
    fn beat(&self, number: usize) -> u64
        requires { number < length self.now.lines }
        ensures { option_map (λ line. line.0) (slice_get self.now.lines number) ≡ Some result }
    {
        self.lines[number].beat
    }

    /// Adds a line, for which there is room.
    #[tactic(auto, using(crate::proofs::LineLemmas::line_count))]
    pub fn say(&mut self, beat: u64, bytes: &[u8])
        requires line { length self.old.lines < self.old.most_lines }
        requires bytes { self.old.used + length bytes.now ≤ self.old.room }
        ensures lines { self.new.lines ≡ self.old.lines ++ (beat, bytes.now) ∷ [] }
        ensures count { length self.new.lines ≡ length self.old.lines + 1 }
        ensures calls { self.new.calls ≡ self.old.calls }
        ensures used { self.new.used ≡ self.old.used + length bytes.now }
        ensures room { self.new.room ≡ self.old.room }
        ensures most { self.new.most ≡ self.old.most }
        ensures most_lines { self.new.most_lines ≡ self.old.most_lines }
    {
        let start = self.bytes.len();
        extend_in_room(&mut self.bytes, bytes);
        let end = self.bytes.len();
        self.lines.push_reserved(Line { beat, start, end });
    }

    /// Adds a call that changed no file.
    #[tactic(auto, using(crate::proofs::EntryLemmas::entry_count))]
    pub fn look(&mut self)
        requires { length self.old.calls < self.old.most }
        ensures calls { self.new.calls ≡ self.old.calls ++ looked ∷ [] }
        ensures count { length self.new.calls ≡ length self.old.calls + 1 }
        ensures used { self.new.used ≡ self.old.used }
        ensures room { self.new.room ≡ self.old.room }
        ensures most { self.new.most ≡ self.old.most }
        ensures lines { self.new.lines ≡ self.old.lines }
        ensures most_lines { self.new.most_lines ≡ self.old.most_lines }
    {
        self.entries.push_reserved(Entry::Looked);
    }

    /// Adds a write that was done.
    #[tactic(auto, using(crate::proofs::EntryLemmas::entry_count))]
    pub fn write(&mut self, file: u8, at: u64, bytes: &[u8])
        requires call { length self.old.calls < self.old.most }
        requires bytes { self.old.used + length bytes.now ≤ self.old.room }
        requires fits { at + length bytes.now ≤ 67_108_864 }
        ensures calls { self.new.calls ≡ self.old.calls ++ wrote file at bytes.now ∷ [] }
        ensures count { length self.new.calls ≡ length self.old.calls + 1 }
        ensures used { self.new.used ≡ self.old.used + length bytes.now }
        ensures room { self.new.room ≡ self.old.room }
        ensures most { self.new.most ≡ self.old.most }
        ensures lines { self.new.lines ≡ self.old.lines }
        ensures most_lines { self.new.most_lines ≡ self.old.most_lines }
    {
        let start = self.bytes.len();
        extend_in_room(&mut self.bytes, bytes);
        let end = self.bytes.len();
        let entry = Entry::Wrote {
            file,
            at,
            start,
            end,
        };
        self.entries.push_reserved(entry);
    }

    /// Adds a write that failed.
    #[tactic(auto, using(crate::proofs::EntryLemmas::entry_count))]
    pub fn try_write(&mut self, file: u8, at: u64, size: usize)
        requires call { length self.old.calls < self.old.most }
        requires fits { at + size ≤ 67_108_864 }
        ensures calls { self.new.calls ≡ self.old.calls ++ tried file at size ∷ [] }
        ensures count { length self.new.calls ≡ length self.old.calls + 1 }
        ensures used { self.new.used ≡ self.old.used }
        ensures room { self.new.room ≡ self.old.room }
        ensures most { self.new.most ≡ self.old.most }
        ensures lines { self.new.lines ≡ self.old.lines }
        ensures most_lines { self.new.most_lines ≡ self.old.most_lines }
    {
        self.entries.push_reserved(Entry::Tried { file, at, size });
    }

    /// Adds a sync that was done.
    #[tactic(auto, using(crate::proofs::EntryLemmas::entry_count))]
    pub fn sync(&mut self, file: u8)
        requires { length self.old.calls < self.old.most }
        ensures calls { self.new.calls ≡ self.old.calls ++ flushed file ∷ [] }
        ensures count { length self.new.calls ≡ length self.old.calls + 1 }
        ensures used { self.new.used ≡ self.old.used }
        ensures room { self.new.room ≡ self.old.room }
        ensures most { self.new.most ≡ self.old.most }
        ensures lines { self.new.lines ≡ self.old.lines }
        ensures most_lines { self.new.most_lines ≡ self.old.most_lines }
    {
        self.entries.push_reserved(Entry::Synced { file });
    }

    /// Fills the buffer with what a file has from place `at` on after the calls, and with zeros past its end.
    pub fn fill(&self, file: u8, start: &[u8], at: u64, into: &mut [u8])
        requires { at + length into.old < 2 ^ 64 }
        ensures { IsReadAt (after_all file (at_rest start.now) self.now.calls).reads at into.new }
    {
        fill(&self.bytes, &self.entries, file, start, at, into)
    }

    /// One image of a file that a crash after the calls may leave, picked by `choice`.
    pub fn crash_image(
        &self,
        alloc: Global,
        file: u8,
        start: &[u8],
        choice: u64,
    ) -> Result<Vec<u8>, AllocError>
        ensures left { IfOk result (λ v. IsTrue (is_image (after_all file (at_rest start.now) self.now.calls) v.items)) }
        ensures reads { IfOk result (λ v. choice ≡ 0 → v.items ≡ (after_all file (at_rest start.now) self.now.calls).reads) }
        ensures synced { IfOk result (λ v. choice ≡ 1 → v.items ≡ (after_all file (at_rest start.now) self.now.calls).synced) }
    {
        crash_image(alloc, &self.bytes, &self.entries, file, start, choice)
    }
}

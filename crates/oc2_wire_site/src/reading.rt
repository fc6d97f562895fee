// Lines that are read.
ghost use Rattle.std.specs.Prelude.{◌≡◌, ◌+◌, ◌<◌, take, drop, None, false, IfOk, IfErr, IfSome, OnOk, OnErr};
ghost use Rattle.oc2_wire_lines.specs.Lines.{Reads, nothing_line};
ghost use Rattle.oc2_wire_site.specs.LineLinks.{BreaksFirst, FailsToSend, ReadsOn, ReadsOne, SendsAll, passed_after, taken_of};
ghost use Rattle.oc2_wire_site.specs.LineSteps.{BreaksSoon, Fills, IsFirstLine, IsStop, StepsOn};
ghost use Rattle.oc2_wire_site.specs.LinesOf.{lines_of};

use crate::line_link::LineLink;
use crate::link_state::LinkState;
use crate::receiving::await_line;
use crate::sending::send_all;
use cacao_site::Parcel;
use oc2_wire_lines::{nothing_line, read_line};
use oc2_wire_link::Link;
use std::alloc::Global;

// The most lines that one take passes over.
const MOST_PASSED: u32 = 1_000_000;

// How many lines were passed over, after one was read as this. None is want of a number.
fn count_passed(passed: u64, taken: &Option<Parcel>) -> Option<u64>
    ensures { IfSome result (λ n. n ≡ passed_after taken.now passed) }
{
    match taken {
        Some(_) => Some(passed),
        None => passed.checked_add(1),
    }
}

impl<K: Link> LineLink<K> {
    /// Sends all of the bytes; a call that fails breaks the link.
    pub fn send(&mut self, bytes: &[u8]) -> Result<(), LinkState>
        requires { self.old.state ≡ LinkState.Whole }
        ensures sends { OnOk result (SendsAll bytes.now (lines_of K.view self.old) (lines_of K.view self.new)) }
        ensures fails { OnErr result (FailsToSend bytes.now (lines_of K.view self.old) (lines_of K.view self.new)) }
        ensures state { IfErr result (λ state. state ≡ LinkState.Failed) }
    {
        match send_all(&mut self.link, bytes) {
            Ok(()) => Ok(()),
            Err(_) => {
                self.state = LinkState::Failed;
                Err(LinkState::Failed)
            }
        }
    }

    // Reads the line that stands first, and ends there, as what goes this way. Where memory is wanted, it stands as before.
    fn read_first(
        &mut self,
        alloc: Global,
        back: bool,
        end: usize,
    ) -> Result<Option<Parcel>, LinkState>
        requires whole { self.old.state ≡ LinkState.Whole }
        requires first { IsFirstLine end self.old.unread.items }
        ensures reads { IfOk result (Reads back (take end self.old.unread.items)) }
        ensures cut { OnOk result (self.new.unread.items ≡ drop (end + 1) self.old.unread.items) }
        ensures passed { IfOk result (λ taken. self.new.passed ≡ passed_after taken self.old.passed) }
        ensures link { self.new.link ≡ self.old.link }
        ensures state { self.new.state ≡ LinkState.Whole }
        ensures want { IfErr result (λ state. state ≡ LinkState.NoMemory) }
        ensures unread { OnErr result (self.new.unread.items ≡ self.old.unread.items) }
        ensures unpassed { OnErr result (self.new.passed ≡ self.old.passed) }
    {
        let Ok(taken) = read_line(alloc, back, &self.unread[..end]) else {
            return Err(LinkState::NoMemory);
        };
        let Some(passed) = count_passed(self.passed, &taken) else {
            return Err(LinkState::NoMemory);
        };
        self.passed = passed;
        self.unread.drain(..end + 1);
        Ok(taken)
    }

    // Waits for a line and reads it. Where there is none, it answers what breaks the link.
    fn read_next(&mut self, alloc: Global, back: bool) -> Result<Option<Parcel>, LinkState>
        requires whole { self.old.state ≡ LinkState.Whole }
        ensures one { IfOk result (λ taken. ReadsOne back taken (lines_of K.view self.old) (lines_of K.view self.new)) }
        ensures stop { IfErr result
            (λ state. IsStop state (K.view self.old.link).faults (K.view self.new.link) self.new.unread.items) }
        ensures fills { OnErr result
            (Fills (K.view self.old.link) (K.view self.new.link) self.old.unread.items self.new.unread.items) }
        ensures passed { OnErr result (self.new.passed ≡ self.old.passed) }
        ensures state { self.new.state ≡ LinkState.Whole }
    {
        match await_line(&mut self.link, &mut self.unread) {
            Ok(end) => self.read_first(alloc, back, end),
            Err(state) => Err(state),
        }
    }

    /// Reads the next line as what goes this way: a parcel, or None of a line that is passed over. Where there is none, it
    /// answers what broke the link.
    pub fn read(&mut self, alloc: Global, back: bool) -> Result<Option<Parcel>, LinkState>
        requires { self.old.state ≡ LinkState.Whole }
        ensures one { IfOk result (λ taken. ReadsOne back taken (lines_of K.view self.old) (lines_of K.view self.new)) }
        ensures broken { OnErr result (BreaksFirst (lines_of K.view self.old) (lines_of K.view self.new)) }
        ensures state { IfErr result (λ state. self.new.state ≡ state) }
    {
        match self.read_next(alloc, back) {
            Ok(taken) => Ok(taken),
            Err(state) => {
                self.state = state;
                Err(state)
            }
        }
    }

    // Reads the next line as a command. One that carries none is passed over, and answered by the line for nothing.
    fn read_or_answer(&mut self, alloc: Global) -> Result<Option<Parcel>, LinkState>
        requires { self.old.state ≡ LinkState.Whole }
        ensures steps { IfOk result (λ taken. StepsOn taken (lines_of K.view self.old) (lines_of K.view self.new)) }
        ensures broken { OnErr result (BreaksSoon (lines_of K.view self.old) (lines_of K.view self.new)) }
        ensures state { IfErr result (λ state. self.new.state ≡ state) }
    {
        match self.read(alloc, false) {
            Ok(Some(parcel)) => Ok(Some(parcel)),
            Ok(None) => match self.send(nothing_line()) {
                Ok(()) => Ok(None),
                Err(state) => Err(state),
            },
            Err(state) => Err(state),
        }
    }

    /// Reads up to the next command, past at most 1,000,000 lines that carry none. Where there is none, it answers what broke
    /// the link.
    pub fn read_command(&mut self, alloc: Global) -> Result<Option<Parcel>, LinkState>
        requires { self.old.state ≡ LinkState.Whole }
        ensures reads { ReadsOn (taken_of result) (lines_of K.view self.old) (lines_of K.view self.new) }
        ensures whole { OnOk result (self.new.state ≡ LinkState.Whole) }
        ensures state { IfErr result (λ state. self.new.state ≡ state) }
    {
        for _count in 0..MOST_PASSED {
            match self.read_or_answer(alloc) {
                Ok(Some(parcel)) => return Ok(Some(parcel)),
                Ok(None) => {}
                Err(state) => return Err(state),
            }
        }
        self.state = LinkState::PassedOver;
        Err(LinkState::PassedOver)
    }
}

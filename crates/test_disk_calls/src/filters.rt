// Rows about filters.
ghost use Rattle.std.specs.Prelude.{◌≡◌, ◌≤◌, length, false, IfOk, IfSome};
ghost use Rattle.slpf_actuator.specs.ActuatorView.{IsReady};

use crate::bounds::bounded;
use crate::commands::Command;
use crate::disks::{Disks, small_site};
use crate::plans::{failing_plan, small_plan};
use cacao_site::{Bytes, Disk, Parcel, Site};
use cacao_site_memory::MemorySite;
use slpf_actuator::{ActError, Actuator};
use std::alloc::{AllocError, Global};
use std::mem;
use test_rows::Row;
use test_site_calls::answers::{text, whole};
use test_site_calls::{number, parcel_answer, small};

/// What a filter refuses with.
fn refused(alloc: Global, error: ActError) -> Result<Vec<u8>, AllocError> {
    Ok(format!(in alloc; "{error}")?.into_bytes())
}

/// The parcel of a command of run 7 to filter 1; none where its bytes are more than 1,000.
fn parcel_of(alloc: Global, command: &Command) -> Result<Option<Parcel>, AllocError>
    ensures { IfOk result (λ found. IfSome found (λ parcel.
        (parcel.agent ≡ 1) × (parcel.back ≡ false) × (length parcel.bytes ≤ 1_000))) }
{
    if command.bytes.len() > 1_000 {
        return Ok(None);
    }
    let bytes = command.bytes.copy(alloc)?;
    Ok(Some(Parcel {
        agent: 1,
        back: false,
        run: 7,
        issue: command.issue,
        bytes,
    }))
}

/// Hands a command to filter 1, at the moment 1,000 at the latest.
fn hand<S: Site>(
    alloc: Global,
    filter: &mut Actuator,
    site: &mut S,
    command: &Command,
) -> Result<bool, ActError>
    requires agent { filter.old.agent ≡ 1 }
    requires ready { IsReady filter.old (S.view site.old) }
    ensures ready { IsReady filter.new (S.view site.new) }
    ensures agent { filter.new.agent ≡ 1 }
{
    match parcel_of(alloc, command) {
        Ok(Some(parcel)) => filter.handle(site, &parcel, command.moment.min(1_000)),
        _ => Err(ActError::Memory),
    }
}

/// Hands commands to filter 1 in order, and adds `acted` or `answered` for each.
fn hand_all<S: Site>(
    alloc: Global,
    answer: &mut String,
    filter: &mut Actuator,
    site: &mut S,
    commands: &[Command],
) -> Result<(), ActError>
    requires agent { filter.old.agent ≡ 1 }
    requires ready { IsReady filter.old (S.view site.old) }
{
    for command in commands {
        let acted = hand(alloc, filter, site, command)?;
        answer.push_str(if acted { "acted " } else { "answered " })?;
    }
    Ok(())
}

/// The command in the fields of a row: the issue, the moment and the bytes.
fn command(alloc: Global, row: &Row) -> Result<Command, AllocError> {
    Ok(Command {
        issue: number(row, 1).min(u32::MAX as u64) as u32,
        moment: number(row, 2),
        bytes: Bytes::from_slice(alloc, row.bytes(3))?,
    })
}

/// Adds whether a filter has acts of these runs.
fn put_runs(
    answer: &mut String,
    filter: &Actuator,
    run: u64,
    other: u64,
) -> Result<(), AllocError> {
    let has_run = filter.has_run(run);
    let has_other = filter.has_run(other);
    write!(answer, "; run {run} {has_run}, run {other} {has_other}")
}

/// Hands filter 1 these commands; then how many acts and rules it has, and whether it has acts of these runs.
fn play_open<S: Site>(
    alloc: Global,
    answer: &mut String,
    filter: &mut Actuator,
    site: &mut S,
    commands: &[Command],
    runs: (u64, u64),
) -> Result<(), ActError>
    requires agent { filter.old.agent ≡ 1 }
    requires ready { IsReady filter.old (S.view site.old) }
{
    hand_all(alloc, answer, filter, site, commands)?;
    put_held(answer, filter)?;
    Ok(put_runs(answer, filter, runs.0, runs.1)?)
}

/// Opens the file of filter 1 and hands it these commands; then how many acts and rules it has, and whether it has acts of these runs.
fn play<S: Site>(
    alloc: Global,
    answer: &mut String,
    site: &mut S,
    commands: &[Command],
    runs: (u64, u64),
) -> Result<(), ActError> {
    let mut filter = Actuator::open_on(alloc, site, 1)?;
    play_open(alloc, answer, &mut filter, site, commands, runs)
}

/// Adds how many acts and rules a filter has.
fn put_held(answer: &mut String, filter: &Actuator) -> Result<(), AllocError> {
    let acts = filter.count();
    let rules = filter.table().rules().len();
    write!(answer, "acts {acts}, rules {rules}")
}

/// What the file of filter 1 opens with.
fn open_held(alloc: Global, site: &mut MemorySite) -> Result<Vec<u8>, ActError> {
    let mut held = String::new(alloc);
    let filter = Actuator::open_on(alloc, site, 1)?;
    match put_held(&mut held, &filter) {
        Ok(()) => Ok(held.into_bytes()),
        Err(_) => Err(ActError::Memory),
    }
}

/// What the file of filter 1 opens with once these bytes, at most 10,000, are written to it.
fn write_and_open(alloc: Global, site: &mut MemorySite, bytes: &[u8]) -> Result<Vec<u8>, ActError> {
    if bytes.len() > 10_000 || site.write(1, 0, bytes).is_err() {
        return Err(ActError::Disk);
    }
    open_held(alloc, site)
}

/// What a file of filter 1 with these bytes, at most 10,000, opens with.
fn open_bytes(alloc: Global, bytes: &[u8]) -> Result<Vec<u8>, ActError> {
    let mut site = small_site(alloc)?;
    write_and_open(alloc, &mut site, bytes)
}

/// Hands filter 1 a command. `Broken` is answered, too, where a refusal does not break it.
fn hand_open<S: Site>(
    alloc: Global,
    filter: &mut Actuator,
    site: &mut S,
    command: &Command,
) -> Result<bool, ActError>
    requires agent { filter.old.agent ≡ 1 }
    requires ready { IsReady filter.old (S.view site.old) }
{
    let acted = hand(alloc, filter, site, command);
    if acted.is_err() && hand(alloc, filter, site, command) != Err(ActError::Broken) {
        return Err(ActError::Broken);
    }
    acted
}

/// Opens the file of filter 1 and hands it a command. `Broken` is answered, too, where a refusal does not break it.
fn open_and_hand<S: Site>(
    alloc: Global,
    site: &mut S,
    command: &Command,
) -> Result<bool, ActError> {
    let mut filter = Actuator::open_on(alloc, site, 1)?;
    hand_open(alloc, &mut filter, site, command)
}

/// How many acts the file of filter 1 opens with.
fn count<D: Disk>(alloc: Global, disk: &mut D) -> Result<u32, ActError> {
    Ok(Actuator::open_on(alloc, disk, 1)?.count())
}

/// What a filter answered to a command.
fn word(acted: Result<bool, ActError>) -> &'static str {
    match acted {
        Ok(true) => "acted",
        Ok(false) => "answered",
        Err(ActError::Disk) => "the disk failed",
        Err(_) => "refused otherwise",
    }
}

/// The parcel that is taken next.
fn taken<S: Site>(alloc: Global, site: &mut S) -> Result<Vec<u8>, AllocError> {
    match site.take()? {
        Some(parcel) => parcel_answer(alloc, &parcel),
        None => text(alloc, "none"),
    }
}

/// Adds the parcel that is taken next.
fn put_taken<S: Site>(alloc: Global, answer: &mut Vec<u8>, site: &mut S) -> Result<(), AllocError> {
    answer.extend_from_slice(b"; ")?;
    let taken = taken(alloc, site)?;
    answer.extend_from_slice(taken.as_slice())
}

/// A command that is handed to filter 1 again behind a crash, and between which bounds the count of acts is to lie there.
#[derive(Clone, Copy)]
struct Crash<'a> {
    command: &'a Command,
    least: u64,
    most: u64,
}

impl Crash<'_> {
    /// Adds what the filter answers before the crash, and the parcel that is then taken.
    fn put_before(
        &self,
        alloc: Global,
        answer: &mut Vec<u8>,
        site: &mut MemorySite,
    ) -> Result<(), AllocError> {
        let word = word(open_and_hand(alloc, site, self.command));
        answer.extend_from_slice(word.as_bytes())?;
        put_taken(alloc, answer, site)
    }

    /// Adds how many acts the filter opens with behind the crash, and whether the same command acts there exactly where there is no act.
    fn put_acts(
        &self,
        alloc: Global,
        answer: &mut Vec<u8>,
        acts: u32,
        once: bool,
    ) -> Result<(), AllocError> {
        answer.extend_from_slice(b"; acts ")?;
        let bounded = bounded(alloc, acts, acts, self.least, self.most)?;
        answer.extend_from_slice(bounded.as_slice())?;
        let once = if once { "; once" } else { "; not once" };
        answer.extend_from_slice(once.as_bytes())
    }

    /// Adds what comes of the command behind the crash, and the two parcels that are then taken.
    fn put_behind(
        &self,
        alloc: Global,
        answer: &mut Vec<u8>,
        site: &mut MemorySite,
    ) -> Result<(), ActError> {
        let acts = count(alloc, site)?;
        let once = open_and_hand(alloc, site, self.command) == Ok(acts == 0);
        self.put_acts(alloc, answer, acts, once)?;
        put_taken(alloc, answer, site)?;
        Ok(put_taken(alloc, answer, site)?)
    }

    /// Lets this device call fail, and then the site crash, and hands the command again to the filter that is opened after it; adds what
    /// came of that.
    fn play(
        &self,
        alloc: Global,
        answer: &mut Vec<u8>,
        call: u32,
        choice: u64,
    ) -> Result<(), ActError> {
        let mut site = MemorySite::new(alloc, failing_plan(alloc, call)?)?;
        self.put_before(alloc, answer, &mut site)?;
        let mut site = site.crash_with(choice, small_plan(alloc, Vec::new(alloc)))?;
        self.put_behind(alloc, answer, &mut site)
    }

    /// Whether the same comes of it where the choice is one of these.
    fn is_alike(
        &self,
        alloc: Global,
        one: &[u8],
        call: u32,
        choices: &str,
    ) -> Result<bool, ActError> {
        for choice in choices.split(',') {
            let choice = choice.parse::<u64>().unwrap_or(0);
            let mut came = Vec::new(alloc);
            self.play(alloc, &mut came, call, choice)?;
            if came.as_slice() != one {
                return Ok(false);
            }
        }
        Ok(true)
    }

    /// What comes of it, alike behind each crash of a list of choices.
    fn played(&self, alloc: Global, call: u32, choices: &str) -> Result<Vec<u8>, ActError> {
        let mut one = Vec::new(alloc);
        self.play(alloc, &mut one, call, 0)?;
        if self.is_alike(alloc, one.as_slice(), call, choices)? {
            Ok(one)
        } else {
            Ok(text(alloc, "not all alike")?)
        }
    }
}

/// The answer to a row `crashes_filter`.
fn crashes_answer(alloc: Global, row: &Row) -> Result<Vec<u8>, AllocError> {
    let command = Command {
        issue: 0,
        moment: 5,
        bytes: Bytes::from_slice(alloc, row.bytes(3))?,
    };
    let crash = Crash {
        command: &command,
        least: number(row, 4),
        most: number(row, 5),
    };
    let call = number(row, 1).min(100) as u32;
    answered(alloc, crash.played(alloc, call, row.text(2)))
}

/// What a filter answered, or what it refused with.
fn answered(alloc: Global, came: Result<Vec<u8>, ActError>) -> Result<Vec<u8>, AllocError> {
    match came {
        Ok(answer) => Ok(answer),
        Err(error) => refused(alloc, error),
    }
}

impl Disks {
    /// The answer to a row about filter 1 of the site, or else of the site or the shelf.
    ///
    /// `command ISSUE MOMENT BYTES` lets a command of run 7 wait, and tells how many wait; `hand RUN RUN` hands them to the filter, and tells
    /// whether each acted or was answered, what the filter then holds, and whether it has acts of these runs. `changed AT BYTE` is what
    /// the bytes open with where this one is another. `crashes_filter CALL CHOICES BYTES LEAST MOST` hands a command to a filter where this call
    /// fails, and again behind each crash that is picked so, where the count of acts is to lie between the two.
    pub(crate) fn filter_answer(&mut self, row: &Row) -> Result<Vec<u8>, AllocError> {
        match row.text(0) {
            "command" => self.add_command(row),
            "hand" => self.hand((number(row, 1), number(row, 2))),
            "changed" => self.changed(number(row, 1), small(row, 2)),
            "crashes_filter" => crashes_answer(self.alloc, row),
            _ => self.site_answer(row),
        }
    }

    fn add_command(&mut self, row: &Row) -> Result<Vec<u8>, AllocError> {
        self.commands.push(command(self.alloc, row)?)?;
        whole(self.alloc, self.commands.len() as u64)
    }

    /// Hands the commands that wait to the filter.
    fn hand(&mut self, runs: (u64, u64)) -> Result<Vec<u8>, AllocError> {
        let mut answer = String::new(self.alloc);
        let commands = mem::replace(&mut self.commands, Vec::new(self.alloc));
        match play(
            self.alloc,
            &mut answer,
            &mut self.site,
            commands.as_slice(),
            runs,
        ) {
            Ok(()) => Ok(answer.into_bytes()),
            Err(error) => refused(self.alloc, error),
        }
    }

    /// What the bytes open with where one is another.
    fn changed(&self, at: u64, byte: u8) -> Result<Vec<u8>, AllocError> {
        let mut bytes = self.bytes.clone()?;
        if at < bytes.len() as u64 {
            bytes[at as usize] = byte;
        }
        answered(self.alloc, open_bytes(self.alloc, bytes.as_slice()))
    }
}

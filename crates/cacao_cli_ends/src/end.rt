// How a call of the program ends.
ghost use Rattle.std.specs.Prelude.{◌≡◌, is_some};
ghost use Rattle.cacao_cli_ends.specs.Told.{end_of};
ghost use Rattle.cacao_cli_ends.specs.Ends.{status_of, text_of};

use crate::fault_line::FaultLine;
use crate::limit::Limit;
use crate::reason::Reason;
use cacao_check::Break;
use std::fmt;

/// How a call of the program ends. Each end has an exit status, and each but three a last line.
#[derive(Drop)]
pub enum End<'w> {
    /// All was said before.
    Done,
    /// No rule of the playbooks is broken.
    Accepted,
    /// A rule of a playbook is broken: this is the first break.
    Refused {
        broken: Break,
    },
    /// A rule of bindings is broken: this is the least.
    BindRefused {
        rule: u8,
    },
    /// The run has ended, well or not.
    EndedOk,
    EndedFailed,
    /// As many records were appended as may be, and the run goes on.
    Paused,
    /// The clock was asked for this moment, in milliseconds, and answered an earlier one.
    Waiting {
        moment: u64,
    },
    /// Too many parcels changed nothing.
    Flooded,
    /// Nothing but an operator's answer for this issue can let the run go on.
    Asked {
        issue: u32,
    },
    /// The engine's file holds the run with the first number, and the other one was asked for.
    OtherRun {
        held: u64,
        asked: u64,
    },
    /// It holds a run of other playbooks: the first that differs, or their number where only the bindings do.
    OtherBook {
        index: u32,
    },
    /// It is empty, and this is the least filter that has an act of the run.
    RunUsed {
        agent: u8,
    },
    /// The words have no reading.
    NotUnderstood,
    /// A quantity passes its limit.
    Past {
        limit: Limit,
    },
    /// The shelf failed at a file.
    ShelfFailed {
        line: FaultLine<'w>,
    },
    /// There is no file of this name.
    NoSuchFile {
        name: &'w str,
    },
    /// The file of this name has no reading.
    NotReadable {
        name: &'w str,
        reason: Reason,
    },
    /// The files of a run agree, and hold so many records and acts.
    Agrees {
        records: u32,
        acts: u32,
    },
    /// They do not: the file of this number is the first that breaks the agreement, at this place.
    Disagrees {
        file: u8,
        place: u64,
    },
    /// A rehearsal with so many positions has ended well, and this was counted.
    Rehearsed {
        positions: u32,
        records: u32,
        acts: u64,
        rules: u32,
    },
    /// The file of this number on the disk holds nothing that the program wrote, from this place on.
    Damaged {
        file: u8,
        place: u64,
    },
    /// A call of the peers failed.
    PeersFailed,
    /// The disk failed.
    DiskFailed,
    /// A line could not be said.
    Unsaid,
    /// Memory was wanted.
    NoMemory,
}

impl<'w> End<'w> {
    /// The exit status.
    pub fn status(&self) -> u8
        ensures { result ≡ status_of (end_of self.now) }
    {
        match self {
            End::Done | End::Accepted | End::EndedOk => 0,
            End::Agrees { .. } | End::Rehearsed { .. } => 0,
            End::Refused { .. } | End::BindRefused { .. } => 1,
            End::NotUnderstood => 2,
            End::ShelfFailed { .. } => 3,
            End::NoSuchFile { .. } => 4,
            End::NotReadable { .. } => 5,
            End::EndedFailed => 6,
            End::Paused => 7,
            End::DiskFailed => 8,
            End::Unsaid => 9,
            End::NoMemory => 10,
            End::Past { .. } => 11,
            End::OtherRun { .. } | End::OtherBook { .. } | End::RunUsed { .. } => 12,
            End::Damaged { .. } => 13,
            End::Waiting { .. } => 14,
            End::Flooded => 15,
            End::Asked { .. } => 16,
            End::PeersFailed => 17,
            End::Disagrees { .. } => 18,
        }
    }

    /// Whether it has a last line.
    pub fn has_line(&self) -> bool
        ensures { result ≡ is_some (text_of (end_of self.now)) }
    {
        !matches!(self, End::Done | End::Unsaid | End::NoMemory)
    }
}

impl<'w> fmt::Display for End<'w> {
    ghost use Rattle.std.specs.Prelude.{Some, unwrap_or, []};
    ghost use Rattle.cacao_cli_ends.specs.Told.{end_of};
    ghost use Rattle.cacao_cli_ends.specs.Ends.{text_of};

    ghost output = { λ end. Some (unwrap_or (text_of (end_of end)) []) };

    fn fmt<W: fmt::Write>(&self, f: &mut fmt::Formatter<W>) -> fmt::Result {
        match self {
            End::Done | End::Unsaid | End::NoMemory => f.write_str(""),
            End::Accepted => f.write_str("accepted"),
            End::Refused { broken } => match &broken.step {
                None => write!(f, "refused: book {} rule K{}", broken.book, broken.rule),
                Some(step) => {
                    let step = step.text();
                    write!(
                        f,
                        "refused: book {} step {step} rule K{}",
                        broken.book, broken.rule
                    )
                }
            },
            End::BindRefused { rule } => write!(f, "refused: bind rule B{rule}"),
            End::EndedOk => f.write_str("ended ok"),
            End::EndedFailed => f.write_str("ended failed"),
            End::Paused => f.write_str("paused"),
            End::Waiting { moment } => write!(f, "waiting {moment}"),
            End::Flooded => f.write_str("flooded"),
            End::Asked { issue } => write!(f, "asked {issue}"),
            End::OtherRun { held, asked } => write!(f, "other run {held} {asked}"),
            End::OtherBook { index } => write!(f, "other playbook {index}"),
            End::RunUsed { agent } => write!(f, "run used {agent}"),
            End::NotUnderstood => f.write_str("words not understood"),
            End::Past { limit } => write!(f, "limit: {limit}"),
            End::ShelfFailed { line } => write!(f, "shelf failed: {}", line.name),
            End::NoSuchFile { name } => write!(f, "no such file: {name}"),
            End::NotReadable { name, reason } => write!(f, "not readable: {name} {reason}"),
            End::Agrees { records, acts } => write!(f, "audit ok {records} {acts}"),
            End::Disagrees { file, place } => write!(f, "audit no file {file} place {place}"),
            End::Rehearsed {
                positions,
                records,
                acts,
                rules,
            } => write!(
                f,
                "rehearsed {positions}: {records} records, {acts} acts, {rules} rules, ended ok"
            ),
            End::Damaged { file, place } => write!(f, "damaged: file {file} place {place}"),
            End::PeersFailed => f.write_str("peers failed"),
            End::DiskFailed => f.write_str("disk failed"),
        }
    }
}

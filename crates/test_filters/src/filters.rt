// A filter with a table of rules. No function promises more than that it is safe and ends.
use crate::messages::MOST;
use oc2_msg::{CommandError, Reason, Response, read_command};
use oc2_nets::{Packet, read_packet};
use slpf_rules::{Table, Verdict};
use slpf_shadow::{ShadowList, shadowed};
use std::alloc::{AllocError, Global};

/// The last moment of a command, in milliseconds.
const LAST: u64 = 9_000_000_000_000_000;

/// What a filter says: a status, the number of a rule, and a text.
#[derive(Clone, Copy)]
pub(crate) struct Said {
    pub(crate) status: u16,
    pub(crate) rule: u32,
    pub(crate) text: Reason,
}

impl Said {
    fn of(response: &Response) -> Said {
        Said {
            status: response.status,
            rule: response.rule,
            text: response.text,
        }
    }
}

/// A filter.
#[derive(Drop)]
pub(crate) struct Filter {
    table: Table,
}

impl Filter {
    /// A filter without rules.
    pub(crate) fn new(alloc: Global) -> Filter {
        Filter {
            table: Table::new(alloc),
        }
    }

    /// What is said to a command at a moment, in milliseconds; nothing where the text is no command.
    pub(crate) fn ask(
        &mut self,
        alloc: Global,
        text: &[u8],
        moment: u64,
    ) -> Result<Option<Said>, AllocError> {
        if text.len() > MOST || moment > LAST {
            return Ok(None);
        }
        match read_command(alloc, text) {
            Ok(command) => {
                let answered = self.table.answer(&command, moment);
                drop(command);
                let response = answered?;
                let said = Said::of(&response);
                drop(response);
                Ok(Some(said))
            }
            Err(CommandError::Refused(_)) => Ok(None),
            Err(CommandError::Memory) => Err(AllocError),
        }
    }

    /// Whether a command adds a rule.
    pub(crate) fn adds(&mut self, alloc: Global, text: &[u8]) -> Result<bool, AllocError> {
        match self.ask(alloc, text, 0)? {
            Some(said) => Ok(said.status == 200),
            None => Ok(false),
        }
    }

    /// What comes of a packet at a moment, in milliseconds.
    pub(crate) fn decide(&self, packet: &Packet, moment: u64) -> Verdict {
        self.table.decide(packet, moment)
    }

    /// What comes of the packet of a line at its moment; nothing where the line is none.
    pub(crate) fn decide_line(&self, line: &str) -> Option<Verdict> {
        let (moment, packet) = read_packet(line)?;
        Some(self.table.decide(&packet, moment))
    }

    /// How many rules there are, and the greatest number of one.
    pub(crate) fn size(&self) -> (usize, u32) {
        let rules = self.table.rules();
        (rules.len(), rules.greatest())
    }

    /// How many nets the rules are filed under by source and by destination, and how many rules under neither.
    pub(crate) fn filed(&self) -> (usize, usize, usize) {
        (
            self.table.by_source().len(),
            self.table.by_destination().len(),
            self.table.unfiled().len(),
        )
    }

    /// The rules that are shadowed.
    pub(crate) fn shadowed(&self, alloc: Global) -> Result<ShadowList, AllocError> {
        let list = shadowed(alloc, &self.table)?;
        Ok(list)
    }
}

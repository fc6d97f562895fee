// The packets of the file that `decide` reads.
ghost use Rattle.cacao_cli_looks.specs.Command.{ArePacketsOrMemory, text_of};

use crate::file_text::FileText;
use cacao_cli_ends::{End, Reason};
use cacao_cli_filters::{PacketsError, read_packets};
use oc2_nets::Packet;
use std::alloc::Global;

/// The moments and the packets of the bytes of a file.
pub fn packets_of<'w>(alloc: Global, text: &FileText<'w>) -> Result<Vec<(u64, Packet)>, End<'w>>
    ensures { ArePacketsOrMemory (text_of text.entry.now) result }
{
    let name = text.name;
    match read_packets(alloc, text.bytes.as_slice()) {
        Ok(packets) => Ok(packets),
        Err(PacketsError::Line { number }) => Err(End::NotReadable {
            name,
            reason: Reason::Line { number },
        }),
        Err(PacketsError::Memory) => Err(End::NoMemory),
    }
}

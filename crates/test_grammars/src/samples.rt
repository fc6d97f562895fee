// Playbooks that rows change and ask about.
use std::fs::read_to_string;
use std::io;
use std::rt::Files;

/// The texts of the playbooks.
#[derive(Drop)]
pub(crate) struct Samples {
    host: String,
    block: String,
    call: String,
    regions: String,
}

impl Samples {
    /// Reads them from their files.
    pub(crate) fn read(rt: &(impl Files + AllocGlobal)) -> io::Result<Samples> {
        Ok(Samples {
            host: read_to_string(rt, "host.json")?,
            block: read_to_string(rt, "block.json")?,
            call: read_to_string(rt, "call.json")?,
            regions: read_to_string(rt, "regions.json")?,
        })
    }

    /// The one that blocks a host where its severity is high.
    pub(crate) fn host(&self) -> &str {
        self.host.as_str()
    }

    /// The one of this name whose identifiers are short; empty where there is none.
    pub(crate) fn short(&self, name: &str) -> &str {
        match name {
            "block" => self.block.as_str(),
            "call" => self.call.as_str(),
            "regions" => self.regions.as_str(),
            _ => "",
        }
    }
}

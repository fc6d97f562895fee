// Playbooks, and what their agents are bound to.
ghost use Rattle.std.specs.Prelude.{IfOk};
ghost use Rattle.flow_core.specs.Setups.{IsReadable};

use cacao_site::Bytes;
use flow_core::{Setup, SetupError};
use std::alloc::{AllocError, Global};
use test_session_plays::spelled_out;

/// The members that playbooks have alike, for which a text has `FRONT`.
const FRONT: &str =
    r#""type":"playbook","spec_version":"cacao-2.0","id":"playbook--01","name":"n","created_by":"identity--02",
"created":"2024-01-02T03:04:05Z","modified":"2024-01-02T03:04:05Z","workflow_start":"start--01",
"agent_definitions":{"net-address--01":{"type":"net-address"},"net-address--02":{"type":"net-address"}}"#;

/// Two agents are bound to filter 1, and two to filter 2.
const BIND: &str = r#"{"agents":{
"net-address--00000000-0000-4000-8000-000000000001":1,"net-address--00000000-0000-4000-8000-000000000002":2,
"net-address--00000000-0000-4000-8000-000000000003":1,"net-address--00000000-0000-4000-8000-000000000004":2}}"#;

/// Texts of playbooks, by number from 0.
#[derive(Drop)]
pub struct Books {
    alloc: Global,
    texts: Vec<String>,
}

/// The bytes of a text; none where it is too long to be read.
fn bytes_of(alloc: Global, text: &str) -> Result<Bytes, AllocError>
    ensures { IfOk result (λ bytes. IsReadable bytes) }
{
    if text.len() > 1_048_576 {
        return Bytes::from_slice(alloc, b"");
    }
    Bytes::from_slice(alloc, text.as_bytes())
}

/// The setup of a playbook.
fn read(alloc: Global, text: &str) -> Result<Setup, SetupError> {
    let bind = bytes_of(alloc, BIND)?;
    let texts = [bytes_of(alloc, text)?];
    Setup::read(alloc, &texts, &bind)
}

impl Books {
    /// No playbook.
    pub fn new(alloc: Global) -> Books {
        Books {
            alloc,
            texts: Vec::new(alloc),
        }
    }

    /// Adds a playbook, in whose text an identifier is cut to its type and its last two digits.
    pub fn push(&mut self, text: &str) -> Result<(), AllocError> {
        let text = text.replace(self.alloc, "FRONT", FRONT)?;
        let text = spelled_out(self.alloc, text.as_str())?;
        self.texts.push(text)?;
        Ok(())
    }

    /// How many playbooks there are.
    pub fn count(&self) -> usize {
        self.texts.len()
    }

    /// The setup of a playbook with both filters bound; nothing where there is no such playbook, or it is not accepted.
    pub(crate) fn setup(&self, number: usize) -> Result<Option<Setup>, AllocError> {
        let Some(text) = self.texts.get(number) else {
            return Ok(None);
        };
        match read(self.alloc, text.as_str()) {
            Ok(setup) => Ok(Some(setup)),
            Err(SetupError::Memory) => Err(AllocError),
            Err(_) => Ok(None),
        }
    }
}

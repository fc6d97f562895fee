// Kinds of variables.
ghost use Rattle.std.specs.Prelude.{◌≡◌, IfOk};

use crate::words::Word;
use std::alloc::{AllocError, Global};

/// The type of a variable (CACAO 2.0, section 10.18.1). Other types than these ten are kept by name.
#[derive(Clone, Drop, PartialEq, Eq)]
pub enum Kind {
    String,
    Bool,
    Integer,
    Long,
    Ipv4Addr,
    Ipv6Addr,
    MacAddr,
    Uri,
    Uuid,
    Hexstring,
    Other(Word),
}

impl Kind {
    ghost use Rattle.cacao_vars.specs.Kinds.{kind_of};

    /// The kind that a type's name stands for.
    pub fn read(alloc: Global, name: &str) -> Result<Kind, AllocError>
        ensures { IfOk result (λ kind. kind ≡ kind_of name.now) }
    {
        Ok(match name {
            "string" => Kind::String,
            "bool" => Kind::Bool,
            "integer" => Kind::Integer,
            "long" => Kind::Long,
            "ipv4-addr" => Kind::Ipv4Addr,
            "ipv6-addr" => Kind::Ipv6Addr,
            "mac-addr" => Kind::MacAddr,
            "uri" => Kind::Uri,
            "uuid" => Kind::Uuid,
            "hexstring" => Kind::Hexstring,
            _ => Kind::Other(Word::new(alloc, name)?),
        })
    }
}

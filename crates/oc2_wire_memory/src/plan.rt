// What a link and peers in memory are made from.
ghost use Rattle.std.specs.Prelude.{◌≡◌};

use crate::link::MemoryLink;
use cacao_site::Bytes;
use std::marker::Model;

/// The bytes that come in over a link, piece by piece.
#[derive(Drop)]
pub struct Pieces {
    pieces: Vec<Bytes>,
}

impl Model for Pieces {
    ghost use Rattle.std.specs.Prelude.{List, ℕ};

    ghost Value = { List (List ℕ) };

    ghost view = { λ p. p.pieces.items };
}

impl Pieces {
    pub fn from_vec(pieces: Vec<Bytes>) -> Pieces
        ensures { result ≡ pieces.items }
    {
        Pieces { pieces }
    }

    /// The vector of the pieces. Takes no memory.
    pub fn into_vec(self) -> Vec<Bytes>
        ensures { result.items ≡ self }
    {
        let Pieces { pieces } = self;
        pieces
    }
}

/// Links in the order in which they are handed out.
#[derive(Drop)]
pub struct MemoryLinks {
    links: Vec<MemoryLink>,
}

impl Model for MemoryLinks {
    ghost use Rattle.std.specs.Prelude.{List};
    ghost use Rattle.oc2_wire_memory.specs.declared.link.MemoryLink.{MemoryLink};

    ghost Value = { List MemoryLink };

    ghost view = { λ l. l.links.items };
}

impl MemoryLinks {
    pub fn from_vec(links: Vec<MemoryLink>) -> MemoryLinks
        ensures { result ≡ links.items }
    {
        MemoryLinks { links }
    }

    /// The vector of the links. Takes no memory.
    pub fn into_vec(self) -> Vec<MemoryLink>
        ensures { result.items ≡ self }
    {
        let MemoryLinks { links } = self;
        links
    }
}

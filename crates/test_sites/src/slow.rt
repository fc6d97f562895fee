// A link that sends a few bytes a call.
use cacao_site::Failed;
use oc2_wire_link::Link;

/// A link that hands on at most so many bytes a call of `send`; 0 stands for 1.
#[derive(Drop)]
pub(crate) struct Slow<K: Link> {
    link: K,
    most: usize,
}

impl<K: Link> Slow<K> {
    /// A link of which at most so many bytes go out a call.
    pub(crate) fn new(link: K, most: usize) -> Slow<K> {
        Slow { link, most }
    }

    /// The link beneath.
    pub(crate) fn into_link(self) -> K {
        let Slow { link, most: _ } = self;
        link
    }
}

impl<K: Link> Link for Slow<K> {
    ghost view = { λ slow. K.view slow.link };

    fn send(&mut self, bytes: &[u8]) -> Result<u32, Failed> {
        let most = self.most.max(1).min(bytes.len());
        self.link.send(&bytes[..most])
    }

    fn receive(&mut self, into: &mut [u8]) -> Result<u32, Failed> {
        self.link.receive(into)
    }
}

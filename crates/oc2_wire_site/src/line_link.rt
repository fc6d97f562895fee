// A link over which lines come and go.
ghost use Rattle.oc2_wire_site.specs.LineLinks.{IsLineLink, lines_view};

use crate::line_room::LineRoom;
use crate::link_state::LinkState;
use oc2_wire_link::Link;

/// A link, what came over it and is not read as lines yet, and what broke it first.
#[derive(Drop)]
pub struct LineLink<K: Link> {
    pub(crate) link: K,
    /// The bytes that were received and are not read as lines yet.
    pub(crate) unread: Vec<u8>,
    /// How many lines were passed over.
    pub(crate) passed: u64,
    pub(crate) state: LinkState,
    ghost holds: { IsLineLink (lines_view (K.view link) unread.items passed state) },
}

impl<K: Link> LineLink<K> {
    ghost use Rattle.std.specs.Prelude.{◌≡◌, ◌≢◌, [], true, false};
    ghost use Rattle.oc2_wire_site.specs.LinesOf.{lines_of};

    /// A link over which nothing was read yet, with room for what comes.
    pub fn new(room: LineRoom, link: K) -> LineLink<K>
        ensures link { result.link ≡ link }
        ensures view { lines_of K.view result ≡ lines_view (K.view link) [] 0 LinkState.Whole }
    {
        LineLink {
            link,
            unread: room.into_bytes(),
            passed: 0,
            state: LinkState::Whole,
        }
    }

    /// Whether nothing broke the link yet.
    pub fn is_whole(&self) -> bool
        ensures whole { result ≡ true → self.now.state ≡ LinkState.Whole }
        ensures broken { result ≡ false → self.now.state ≢ LinkState.Whole }
    {
        self.state == LinkState::Whole
    }

    /// Breaks the link for want of memory, if nothing broke it before.
    pub fn want_memory(&mut self)
        ensures link { self.new.link ≡ self.old.link }
        ensures unread { self.new.unread.items ≡ self.old.unread.items }
        ensures passed { self.new.passed ≡ self.old.passed }
        ensures first { self.old.state ≢ LinkState.Whole → self.new.state ≡ self.old.state }
        ensures now { self.old.state ≡ LinkState.Whole → self.new.state ≡ LinkState.NoMemory }
    {
        if self.state == LinkState::Whole {
            self.state = LinkState::NoMemory;
        }
    }

    /// The link, which is given up as one of lines.
    pub fn into_link(self) -> K
        ensures { result ≡ self.link }
    {
        let LineLink {
            link,
            unread: _,
            passed: _,
            state: _,
        } = self;
        link
    }
}

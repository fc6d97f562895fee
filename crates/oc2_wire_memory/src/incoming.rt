// The bytes that come in over a link in memory.
ghost use Rattle.std.specs.Prelude.{◌≡◌, ◌+◌, ◌<◌, ◌≤◌, length, take, drop, min};
ghost use Rattle.oc2_wire_memory.specs.Pieces.{count_before, front_for, piece_at, piece_left};

use crate::plan::Pieces;
use cacao_site::Bytes;

/// Pieces of bytes, and how far they were received.
#[derive(Drop)]
pub struct Incoming {
    pub pieces: Vec<Bytes>,
    /// The number of the piece that comes next, or how many there are.
    pub number: usize,
    /// How many bytes of that piece were received.
    pub place: usize,
    pub ghost counted: { number ≤ length pieces.items },
    pub ghost reached: { place ≤ length (piece_at pieces.items number) },
}

/// The first place from this one on at which a byte stands, or the end.
fn next_place(pieces: &[Bytes], number: usize, place: usize) -> (usize, usize)
    requires number { number ≤ length pieces.now }
    requires place { place ≤ length (piece_at pieces.now number) }
    ensures number { result.0 ≤ length pieces.now }
    ensures place { result.1 ≤ length (piece_at pieces.now result.0) }
    ensures byte { result.0 < length pieces.now → result.1 < length (piece_at pieces.now result.0) }
    ensures count { count_before pieces.now result.0 result.1 ≡ count_before pieces.now number place }
{
    let mut at = number;
    let mut from = place;
    while at < pieces.len() && from >= pieces[at].len() {
        at += 1;
        from = 0;
    }
    (at, from)
}

/// Copies the front of the bytes, as far as they go into the slice, and answers how many that are.
fn copy_front(bytes: &[u8], into: &mut [u8]) -> usize
    ensures count { result ≡ length (front_for (length into.old) bytes.now) }
    ensures bytes { take result into.new ≡ front_for (length into.old) bytes.now }
    ensures behind { drop result into.new ≡ drop result into.old }
{
    let count = bytes.len().min(into.len().min(4_294_967_295));
    into[..count].copy_from_slice(&bytes[..count]);
    count
}

impl Incoming {
    /// No byte was received.
    pub fn new(pieces: Pieces) -> Incoming
        ensures pieces { result.pieces.items ≡ pieces }
        ensures count { count_before result.pieces.items result.number result.place ≡ 0 }
    {
        Incoming {
            pieces: pieces.into_vec(),
            number: 0,
            place: 0,
        }
    }

    /// Fills the front of the slice with bytes of the first piece that has some left, and answers their number.
    pub fn receive(&mut self, into: &mut [u8]) -> u32
        ensures count { result ≡ length (front_for (length into.old) (piece_left (count_before self.old.pieces.items self.old.number self.old.place) self.old.pieces.items)) }
        ensures bytes { take result into.new
            ≡ front_for (length into.old) (piece_left (count_before self.old.pieces.items self.old.number self.old.place) self.old.pieces.items) }
        ensures behind { drop result into.new ≡ drop result into.old }
        ensures pieces { self.new.pieces.items ≡ self.old.pieces.items }
        ensures goes_on { count_before self.new.pieces.items self.new.number self.new.place
            ≡ count_before self.old.pieces.items self.old.number self.old.place + result }
    {
        let (number, place) = next_place(self.pieces.as_slice(), self.number, self.place);
        self.number = number;
        self.place = place;
        if number == self.pieces.as_slice().len() {
            return 0;
        }
        let count = copy_front(&self.pieces[number].as_slice()[place..], into);
        self.place = place + count;
        count as u32
    }
}

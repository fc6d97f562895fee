// The line by which a program that listens says its port.
ghost use Rattle.std.specs.Prelude.{◌≡◌, ◌≢◌, ◌++◌, codes, MatchOption};
ghost use Rattle.oc2_wire_process.specs.PortLine.{SaysPort};

use base_decimals::read_number;
use std::io;
use std::io::Read;

// The most bytes of the line, with its line feed.
const MOST_LINE: usize = 11;

/// Reads a line `port P` with its line feed, and no byte behind it.
pub fn read_port<T: Read>(output: &mut T) -> io::Result<u16> {
    let mut line = [0u8; MOST_LINE];
    for place in 0..MOST_LINE {
        if output.read(&mut line[place..place + 1])? != 1 {
            break;
        }
        if line[place] == b'\n' {
            return port_of(&line[..place]).ok_or(io::Error::from(io::ErrorKind::InvalidData));
        }
    }
    Err(io::Error::from(io::ErrorKind::InvalidData))
}

// What stands behind `port ` in a line that begins so.
fn behind_word(line: &[u8]) -> Option<&[u8]>
    ensures { MatchOption result ((rest : _) → line.now ≢ codes "port " ++ rest) (λ rest. line.now ≡ codes "port " ++ rest.now) }
{
    line.strip_prefix(b"port ")
}

// The port that a line says, without its line feed; None exactly where it says none.
fn port_of(line: &[u8]) -> Option<u16>
    ensures { MatchOption result ((port : _) → SaysPort line.now port → ⊥) (SaysPort line.now) }
{
    let Some(digits) = behind_word(line) else {
        return None;
    };
    let Some(port) = read_number(digits, 65_535) else {
        return None;
    };
    if port == 0 {
        return None;
    }
    Some(port as u16)
}

// The line and the column of a place of a text.
ghost use Rattle.std.specs.Prelude.{◌≡◌, ◌≤◌, ◌<◌, ◌+◌, ◌^◌};
ghost use Rattle.cacao_view_faults.specs.Places.{behind, place_behind};
ghost use Rattle.cacao_view_faults.specs.PlaceBy.{place_by};

/// A line, counted from 1, and a column of it, counted in characters from 1.
#[derive(Clone, Copy)]
pub struct Place {
    pub line: u32,
    pub column: u32,
}

/// The place behind one more byte.
fn behind(place: Place, byte: u8) -> Place
    requires line { place.line + 1 < 2 ^ 32 }
    requires column { place.column + 1 < 2 ^ 32 }
    ensures { place_by result ≡ behind (place_by place) byte }
{
    if byte == b'\n' {
        return Place {
            line: place.line + 1,
            column: 1,
        };
    }
    if byte >= 128 && byte < 192 {
        return place;
    }
    Place {
        line: place.line,
        column: place.column + 1,
    }
}

/// The place behind so many bytes of a text, at most 1,048,576.
pub fn place_behind(text: &[u8], at: usize) -> Place
    requires { at ≤ 1048576 }
    ensures { place_by result ≡ place_behind text.now at }
{
    let mut place = Place { line: 1, column: 1 };
    for n in 0..at.min(text.len()) {
        place = behind(place, text[n]);
    }
    place
}

// The lines of a report.
ghost use Rattle.std.specs.Prelude.{◌≡◌, ◌<◌, ◌==◌, ◌∷◌, [], length, IfSome, MatchOption};
ghost use Rattle.std.specs.List.{position};
ghost use Rattle.flow_engine_reports.specs.RunLines.{line_feed, lines_of};

/// The first line, with its line feed, and what stands behind it. What no line feed ends is no line.
pub fn next_line(text: &[u8]) -> Option<(&[u8], &[u8])>
    ensures lines { MatchOption result (lines_of text.now ≡ []) (λ found. lines_of text.now ≡ found.0.now ∷ lines_of found.1.now) }
    ensures shorter { IfSome result (λ found. length found.1.now < length text.now) }
{
    match feed_in(text) {
        Some(place) => Some((&text[..place + 1], &text[place + 1..])),
        None => None,
    }
}

/// The place of the first line feed.
fn feed_in(text: &[u8]) -> Option<usize>
    ensures { result ≡ position (λ c. c == line_feed) text.now }
{
    text.iter().position(|c| *c == b'\n')
}

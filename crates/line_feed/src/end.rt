ghost use Rattle.std.specs.Prelude.{◌↔◌, ◌≤◌, ◌<◌, length, take, IsTrue, MatchOption};
ghost use Rattle.line_feed.specs.Texts.{EndsText, IsFirstText, HasNoText, IsNextEnd};

use memchr::memchr;

// Whether the last line is EINDE.
fn ends_text(text: &[u8]) -> bool
    ensures { IsTrue result ↔ EndsText text.now }
{
    text == b"EINDE\n".as_slice() || text.ends_with(b"\nEINDE\n".as_slice())
}

// Where the next line ends, its line feed included.
fn line_end(left: &[u8], start: usize) -> Option<usize>
    requires within { start ≤ length left.now }
    requires none { HasNoText left.now start }
    ensures { MatchOption result (HasNoText left.now (length left.now)) (IsNextEnd left.now start) }
{
    let (_, behind) = left.split_at(start);
    let Some(place) = memchr(b'\n', behind) else {
        return None;
    };
    Some(start + place + 1)
}

/// The length of the first text, where no text ends within the first `looked` bytes.
/// Looks once at each byte after those, and at a line feed also at the bytes of `EINDE` before it.
pub fn first_end(left: &[u8], looked: usize) -> Option<usize>
    requires within { looked ≤ length left.now }
    requires none { HasNoText left.now looked }
    ensures { MatchOption result (HasNoText left.now (length left.now)) (IsFirstText left.now) }
{
    let mut seen = looked;
    while let Some(end) = line_end(left, seen) {
        if ends_text(&left[..end]) {
            return Some(end);
        }
        seen = end;
    }
    None
}

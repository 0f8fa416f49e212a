//! Lines, found by the search of the kit, which looks at many bytes at once.

ghost use Rattle.std.specs.Prelude.{◌<◌, length, IfSome};
ghost use Rattle.ring_judge.specs.Judging.{IsFrontLine};

use memchr::memchr;

/// The first line, its line feed with it, and what is behind it. `None` exactly where there is no line feed.
pub(crate) fn front_line(bytes: &[u8]) -> Option<(&[u8], &[u8])>
    ensures cut { IsFrontLine bytes.now result }
    ensures shorter { IfSome result (λ r. length r.1.now < length bytes.now) }
{
    let Some(place) = memchr(b'\n', bytes) else {
        return None;
    };
    let (line, behind) = bytes.split_at(place + 1);
    Some((line, behind))
}

//! The holder, the day, the moments and the code that the messages have.

ghost use Rattle.std.specs.Prelude.{◌≡◌, ◌<◌, codes};
ghost use Rattle.map_maker.specs.Made as made;

use field_text::{Day, Field, Moment, read_day, read_moment};
use imgeo_types::{Code, Holder};

/// Whose messages these are.
pub(crate) fn holder() -> Holder
    ensures { result ≡ made.holder }
{
    let Some(holder) = Holder::read(b"G0001") else {
        unreachable!();
    };
    holder
}

/// What all cells look like.
pub(crate) fn greenery() -> Code
    ensures { result ≡ codes "groenvoorziening" }
{
    let Some(code) = Code::read(b"groenvoorziening") else {
        unreachable!();
    };
    code
}

/// 1 January 2024.
pub(crate) fn day() -> Day
    ensures { result ≡ made.day }
{
    let Ok(day) = read_day(b"2024-01-01") else {
        unreachable!();
    };
    day
}

/// So many seconds after that day began, within its first hour.
pub(crate) fn moment(seconds: u32) -> Moment
    requires { seconds < 3600 }
    ensures { result ≡ made.moment seconds }
{
    let mut field = Field::new();
    field.push_bytes(b"2024-01-01T00:");
    field.push_two(seconds / 60);
    field.push(b':');
    field.push_two(seconds % 60);
    let Ok(moment) = read_moment(field.bytes()) else {
        unreachable!();
    };
    moment
}

ghost use Rattle.std.specs.Prelude.{◌≡◌, ◌<◌, ◌≤◌, List, ℕ, IsTrue, MatchOption, slice_get, map};
ghost use Rattle.code_tables.specs.Codes.{is_before, rises, place_of};

use std::marker::Model;

/// What a table lists: a text.
pub trait HasText: Copy {
    ghost bytes: { Self → List ℕ };

    /// The text itself.
    fn text(&self) -> &str
        ensures { result.now ≡ bytes self.now };
}

impl HasText for &'static str {
    ghost bytes = { λ text. text.now };

    fn text(&self) -> &str {
        *self
    }
}

/// A table of `N` texts that rise strictly by bytes, so that each stands in it once. Contracts see the texts.
// It is over any type of texts, since no proof covers an array of `&str` whose length is a parameter.
#[derive(Debug, Drop)]
pub struct TextTable<T: HasText, const N: usize> {
    texts: [T; N],
}

/// A table of `N` codes.
pub type Codes<const N: usize> = TextTable<&'static str, N>;

impl<T: HasText, const N: usize> Model for TextTable<T, N> {
    ghost use Rattle.std.specs.Prelude.{List, ℕ, IsTrue, map};
    ghost use Rattle.code_tables.specs.Codes.{rises};

    ghost Value = { List (List ℕ) };

    ghost view = { λ c. map T.bytes c.texts };

    ghost invariant = { λ c. IsTrue (rises (map T.bytes c.texts)) };
}

// Whether the text stands before the next: the first byte that differs decides.
fn stands_before(text: &str, next: &str) -> bool
    ensures { result ≡ is_before text.now next.now }
{
    text < next
}

// Whether each text stands before the next.
fn are_rising<T: HasText>(texts: &[T]) -> bool
    ensures { result ≡ rises (map T.bytes texts.now) }
{
    for place in 1..texts.len() {
        if !stands_before(texts[place - 1].text(), texts[place].text()) {
            return false;
        }
    }
    true
}

// The place of the text among these.
fn place_among<T: HasText>(texts: &[T], text: &[u8]) -> Option<usize>
    ensures { result ≡ place_of (map T.bytes texts.now) text.now }
{
    for (place, code) in texts.iter().enumerate() {
        if code.text().as_bytes() == text {
            return Some(place);
        }
    }
    None
}

impl<T: HasText, const N: usize> TextTable<T, N> {
    /// The table of these texts. `None` exactly where they do not rise strictly by bytes.
    pub fn new(texts: [T; N]) -> Option<TextTable<T, N>>
        ensures { MatchOption result (¬ IsTrue (rises (map T.bytes texts))) (λ codes. codes ≡ map T.bytes texts) }
    {
        if !are_rising(texts.as_slice()) {
            return None;
        }
        Some(TextTable { texts })
    }

    /// The place of the text, from 0. `None` exactly where it is not listed.
    pub fn place(&self, text: &[u8]) -> Option<usize>
        ensures { result ≡ place_of self.now text.now }
    {
        place_among(self.texts.as_slice(), text)
    }

    /// The text at the place. `None` exactly at `N` and above.
    pub fn name(&self, place: usize) -> Option<&str>
        ensures { MatchOption result (N ≤ place) (λ text. (place < N) × (slice_get self.now place ≡ Some text.now)) }
    {
        match self.texts.get(place) {
            Some(code) => Some(code.text()),
            None => None,
        }
    }
}

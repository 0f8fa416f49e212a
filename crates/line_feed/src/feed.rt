ghost use Rattle.std.specs.Prelude.{◌≡◌, ◌≤◌, ◌+◌, ◌++◌, ℕ, [], length, take, drop, IfOk, OnOk, OnErr};
ghost use Rattle.line_feed.specs.Texts.{Hands, IsFirstText};

use crate::end::first_end;
use rd_plane::{NoMemory, Text};
use std::alloc::Global;
use std::marker::Model;
use std::mem::replace;

/// A text of the stream.
#[derive(Debug, Drop)]
pub enum Framed {
    /// Its bytes, with those of its last line.
    Text(Text),
    /// It has more bytes than the limit. It is not handed out, and no longer left.
    TooLong,
}

/// A stream that comes in pieces. Contracts see the limit on the bytes of a text and what is left: the bytes after the
/// last text that was handed out, all of which it keeps.
#[derive(Drop)]
pub struct Feed {
    limit: u64,
    bytes: Vec<u8>,
    // What is left begins here.
    start: usize,
    // No text ends within so many bytes of what is left, so the next search begins after them.
    looked: usize,
}

impl Model for Feed {
    ghost use Rattle.std.specs.Prelude.{drop, ◌+◌, ◌≤◌, length};
    ghost use Rattle.line_feed.specs.Texts.{FeedView, HasNoText};

    ghost Value = { FeedView };

    ghost view = { λ f. record { limit = f.limit; left = drop f.start f.bytes.items } };

    ghost invariant = { λ f. (f.start + f.looked ≤ length f.bytes.items) × HasNoText (drop f.start f.bytes.items) f.looked };
}

// Leaves the n bytes from `start` on, and lets go of the others.
fn cut_out(bytes: &mut Vec<u8>, start: usize, n: usize)
    requires { start + n ≤ length bytes.old.items }
    ensures { bytes.new.items ≡ take n (drop start bytes.old.items) }
{
    if start > 0 {
        bytes.copy_within(start..start + n, 0);
    }
    bytes.truncate(n);
}

impl Feed {
    /// A stream of which nothing came yet. Takes no memory.
    pub fn new(alloc: Global, limit: u64) -> Feed
        ensures limit { result.limit ≡ limit }
        ensures left { result.left ≡ [] }
    {
        Feed {
            limit,
            bytes: Vec::new(alloc),
            start: 0,
            looked: 0,
        }
    }

    /// The number of bytes after the last text that was handed out.
    pub fn rest(&self) -> u64
        ensures { result ≡ length self.now.left }
    {
        (self.bytes.len() - self.start) as u64
    }

    // Lets go of what was handed out, where that is no less than what is left. So in all no more bytes are moved here
    // than are handed out.
    fn compact(&mut self)
        ensures limit { self.new.limit ≡ self.old.limit }
        ensures left { self.new.left ≡ self.old.left }
    {
        let left = self.bytes.len() - self.start;
        if self.start < left {
            return;
        }
        self.bytes.copy_within(self.start.., 0);
        self.bytes.truncate(left);
        self.start = 0;
    }

    /// Adds a piece to what is left. An `Err`, for lack of memory, leaves all as before.
    pub fn feed(&mut self, piece: &[u8]) -> Result<(), NoMemory>
        ensures limit { self.new.limit ≡ self.old.limit }
        ensures ok { OnOk result (self.new.left ≡ self.old.left ++ piece.now) }
        ensures err { OnErr result (self.new.left ≡ self.old.left) }
    {
        self.compact();
        self.bytes.extend_from_slice(piece)?;
        Ok(())
    }

    // Hands out the first n bytes of what is left. A text that is no shorter than what follows it goes out with the memory
    // that it stands in, and what follows it is copied; a shorter one is copied. So at most two bytes are moved for each
    // that is handed out, and a long text does not stand in memory twice.
    fn hand_out(&mut self, alloc: Global, n: usize) -> Result<Text, NoMemory>
        requires { n ≤ length self.old.left }
        ensures limit { self.new.limit ≡ self.old.limit }
        ensures ok { IfOk result (λ text. (text ≡ take n self.old.left) × (self.new.left ≡ drop n self.old.left)) }
        ensures err { OnErr result (self.new.left ≡ self.old.left) }
    {
        let end = self.start + n;
        if n < self.bytes.len() - end {
            let text = Text::from_slice(alloc, &self.bytes[self.start..end])?;
            self.start = end;
            self.looked = 0;
            return Ok(text);
        }
        let behind = Vec::from_slice(alloc, &self.bytes[end..])?;
        let mut bytes = replace(&mut self.bytes, behind);
        cut_out(&mut bytes, self.start, n);
        self.start = 0;
        self.looked = 0;
        Ok(Text::from_vec(bytes))
    }

    /// The next text, or `None` where none ends in what is left. Bytes in which no text was found are not searched again,
    /// and what is left after the text is not moved. An `Err`, for lack of memory, leaves all as before: the next call finds
    /// the same text.
    pub fn next_text(&mut self, alloc: Global) -> Result<Option<Framed>, NoMemory>
        ensures limit { self.new.limit ≡ self.old.limit }
        ensures ok { IfOk result (Hands self.old self.new) }
        ensures err { OnErr result (self.new.left ≡ self.old.left) }
        ensures only_for_a_text { OnErr result ((n : ℕ) × IsFirstText self.old.left n × (n ≤ self.old.limit)) }
    {
        let left = &self.bytes[self.start..];
        let Some(n) = first_end(left, self.looked) else {
            self.looked = left.len();
            return Ok(None);
        };
        if n as u64 > self.limit {
            self.start += n;
            self.looked = 0;
            return Ok(Some(Framed::TooLong));
        }
        Ok(Some(Framed::Text(self.hand_out(alloc, n)?)))
    }
}

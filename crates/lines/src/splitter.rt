//! The splitter: it takes an input chunk by chunk, and gives line after line.

ghost use Rattle.std.specs.Prelude.{◌≡◌, ℕ, ◌+◌, ◌<◌, ◌≤◌, ◌==◌, ◌||◌, [], ◌∷◌, ◌++◌, List, length, take, IfSome, IsTrue, MatchOption, if◌then◌else◌, option_map};
ghost use Rattle.lines.specs.Examples.{LinesAsWorked, LimitsHold};
ghost use Rattle.lines.specs.Lines.{HasRead, after, at_end, beginning, counted, has_last, line_end, lines_ahead, lines_of};

use crate::buffer::{keep, line_feed};
use std::marker::Model;

// How many bytes of a line are kept.
const KEPT: usize = 201;

// How many lines are given.
const MAX_LINES: usize = 999_999;

// After how many bytes an input counts as ended.
const MAX_BYTES: usize = 1_000_000_000;

/// The lines of an input that comes in chunks, each cut to its first 201 bytes.
#[derive(Drop)]
pub struct Splitter {
    buffer: [u8; KEPT],
    // how many bytes of the buffer are the line that the last call gave
    given: usize,
    // how many are of a line that is not at its end
    held: usize,
    lines_left: usize,
    bytes_left: usize,
}

impl Model for Splitter {
    ghost use Rattle.std.specs.Prelude.{◌≤◌, take};
    ghost use Rattle.lines.specs.Lines.{HasNoFeed, Reading};

    ghost Value = { Reading };

    ghost view = { λ s. record {
      line = take s.given s.buffer;
      held = take s.held s.buffer;
      lines_left = s.lines_left;
      bytes_left = s.bytes_left;
    } };

    ghost invariant = { λ s. (s.given ≤ 201) × (s.held ≤ 201) × HasNoFeed (take s.held s.buffer) };
}

impl Splitter {
    /// A splitter at the beginning of an input.
    #[tactic(auto, using(crate::proofs::Examples::lines_as_worked, crate::proofs::Examples::limits_hold))]
    pub fn new() -> Splitter
        ensures state { result ≡ beginning }
        ensures lines { HasRead result [] [] }
        ensures lines_as_worked { LinesAsWorked }
        ensures limits_hold { LimitsHold }
    {
        Splitter {
            buffer: [0; KEPT],
            given: 0,
            held: 0,
            lines_left: MAX_LINES,
            bytes_left: MAX_BYTES,
        }
    }

    /// Takes the bytes of a chunk up to the end of a line, and answers how many it took, the line feed with them: `line`
    /// then gives that line, and the next call is for the rest of the chunk. `None` where no line is at its end in the
    /// chunk: then all of the chunk is taken.
    pub fn next_line(&mut self, chunk: &[u8]) -> Option<usize>
        ensures taken { result ≡ option_map (λ i. i + 1) (line_end self.old chunk.now) }
        ensures within { IfSome result (λ n. (0 < n) × (n ≤ length chunk.now)) }
        ensures state { self.new ≡ after self.old chunk.now (line_end self.old chunk.now) }
        ensures lines { (fed : List ℕ) (given : List (List ℕ)) → HasRead self.old fed given →
            MatchOption result (HasRead self.new (fed ++ chunk.now) given)
            (λ n. HasRead self.new (fed ++ take n chunk.now) (given ++ self.new.line ∷ [])) }
    {
        let counted = self.counted_part(chunk);
        match line_feed(counted) {
            None => {
                self.held = keep(&mut self.buffer, self.held, counted);
                self.given = 0;
                self.bytes_left = self.bytes_left.saturating_sub(chunk.len());
                None
            }
            Some(i) => {
                self.given = keep(&mut self.buffer, self.held, &counted[..i]);
                self.held = 0;
                self.lines_left -= 1;
                self.bytes_left -= i + 1;
                Some(i + 1)
            }
        }
    }

    /// The end of the input: whether a last line is left, which `line` then gives. No line is given after that.
    pub fn finish(&mut self) -> bool
        ensures left { result ≡ has_last self.old }
        ensures state { self.new ≡ at_end self.old }
        ensures lines { (fed : List ℕ) (given : List (List ℕ)) → HasRead self.old fed given →
            given ++ (if result then self.new.line ∷ [] else []) ≡ lines_of fed }
        ensures over { (xs : List ℕ) → lines_ahead self.new xs ≡ [] }
    {
        let left = self.held > 0 && self.lines_left > 0;
        self.given = if left { self.held } else { 0 };
        self.held = 0;
        self.lines_left = 0;
        self.bytes_left = 0;
        left
    }

    /// The line that the last call gave; nothing if it gave none.
    pub fn line(&self) -> &[u8]
        ensures line { result.now ≡ self.now.line }
        ensures within { length result.now ≤ 201 }
    {
        &self.buffer[..self.given]
    }

    /// Whether no further bytes count, so that reading may stop here: only `finish` may still give a line.
    pub fn is_full(&self) -> bool
        ensures full { result ≡ (self.now.lines_left == 0 || self.now.bytes_left == 0) }
        ensures stays { IsTrue result → (xs : List ℕ) → lines_ahead self.now xs ≡ lines_ahead self.now [] }
    {
        self.lines_left == 0 || self.bytes_left == 0
    }

    // The bytes of a chunk that count.
    fn counted_part<'a>(&self, chunk: &'a [u8]) -> &'a [u8]
        ensures { result.now ≡ counted self.now chunk.now }
    {
        if self.lines_left == 0 {
            return &[];
        }
        &chunk[..chunk.len().min(self.bytes_left)]
    }
}

// The lines of a derivation and its trailer, written one after another.
ghost use Rattle.std.specs.Prelude.{◌≡◌, [], ◌∷◌, ◌+◌, ◌/◌, ◌^◌, ◌≤◌, ◌<◌, length};
ghost use Rattle.limits.specs.Limits.{max_bytes, max_lines};
ghost use Rattle.buffer.specs.Text.{Put};
ghost use Rattle.words.specs.Bytes.{bytes_of};
ghost use Rattle.written_derivation.specs.Writing.{write};
ghost use Rattle.written_derivation.specs.File.{line_words};
ghost use Rattle.derivation_writer.specs.Line.{line_of, IsInWords};
ghost use Rattle.derivation_writer.specs.Writer.{has_room, Started, Continues};

use crate::line::{Annotated, Line};
use limits::{DERIVATION_TRAILER, MAX_LINES};
use words::put::put_word;

// The clause that stands for a node, with its reference.
#[derive(Clone, Copy)]
pub(crate) struct Written {
    pub(crate) reference: usize,
    pub(crate) clause: Annotated,
}

// The lines at the start of `out`: so many bytes, so many lines. The trailer is to fit in it after them.
#[derive(Drop)]
pub(crate) struct Lines<'a> {
    pub(crate) out: &'a mut [u8],
    pub(crate) bytes: usize,
    pub(crate) count: usize,
}

impl Lines<'_> {
    // Whether the line passes no limit.
    fn fits(&self, line: Line) -> bool
        requires { self.now.bytes ≤ max_bytes }
        ensures { result ≡ has_room self.now (length (line_words (line_of line))) }
    {
        self.bytes + 4 * line.words() + DERIVATION_TRAILER <= self.out.len()
            && self.count < MAX_LINES
    }

    // Writes the line, unless it would pass a limit: its clause, by its reference.
    pub(crate) fn write(&mut self, line: Line) -> Option<Written>
        requires started { Started self.old }
        requires in_words { IsInWords line }
        ensures { Continues self.old self.new result (λ ls. write ls (line_of line)) }
    {
        if !self.fits(line) {
            return None;
        }
        let reference = 2 * self.count + 1;
        self.bytes = line.put(self.out, self.bytes);
        self.count += 1;
        Some(Written {
            reference,
            clause: line.clause(),
        })
    }

    // The trailer after the lines: their count, the reference of what closes them, and the count of all words.
    #[tactic(auto, using(crate::proofs::LineLaws::put_steps))]
    pub(crate) fn put_trailer(&mut self, reference: usize) -> usize
        requires bytes_in_bounds { self.old.bytes + 12 ≤ length self.old.out.now }
        requires bytes_le_max_bytes { self.old.bytes ≤ max_bytes }
        requires lines_le_max_lines { self.old.count ≤ max_lines }
        requires reference_bound { reference < 2 ^ 32 }
        ensures { Put self.old.out.now self.old.bytes
            (bytes_of (self.old.count ∷ reference ∷ (self.old.bytes / 4 + 3) ∷ [])) self.new.out.now result }
    {
        let closing = put_word(self.out, self.bytes, self.count);
        let count = put_word(self.out, closing, reference);
        put_word(self.out, count, self.bytes / 4 + 3)
    }
}

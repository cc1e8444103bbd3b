ghost use Rattle.std.specs.Prelude.{◌≡◌, ◌<◌, ◌+◌, ◌^◌, [], ◌∷◌, length, OnOk, IfOk, IfErr, OnErr, IfSome, IfNone, Ok, Err};
ghost use Rattle.ilk_lines.specs.LinesLeft.{lines_and_tail_numbered_from};
ghost use Rattle.ilk_lines.specs.Reading.{expect_first_line, expect_end_of_text};
ghost use Rattle.ilk_lines.specs.declared.fault.LineFault.TheVariants.{BadLine};

use crate::LineFault;
use crate::parts::first_line;
use std::marker::Model;

/// The unread lines of a text, and the number of the first of them. Contracts see the number, the
/// lines, and the bytes after the last line feed.
#[derive(Drop)]
pub struct Lines<'a> {
    rest: &'a [u8],
    number: u64,
}

impl<'a> Model for Lines<'a> {
    ghost use Rattle.std.specs.Prelude.{◌<◌, ◌+◌, ◌^◌, length};
    ghost use Rattle.ilk_lines.specs.LinesLeft.{RemainingLinesAndTail, lines_and_tail_numbered_from};

    ghost Value = { RemainingLinesAndTail };

    ghost view = { λ l. lines_and_tail_numbered_from l.number l.rest.now };

    ghost invariant = { λ l. l.number + length l.rest.now < 2 ^ 64 };
}

impl<'a> Lines<'a> {
    /// Creates a reader of all lines of `text`, numbered from 1.
    pub fn from_text(text: &'a [u8]) -> Lines<'a>
        ensures { result ≡ lines_and_tail_numbered_from 1 text.now }
    {
        Lines {
            rest: text,
            number: 1,
        }
    }

    /// Returns the number of the next line.
    pub fn number(&self) -> u64
        ensures { result ≡ self.now.number }
    {
        self.number
    }

    /// Returns the next line and a reader of the lines after it. Returns `None` if and only if no
    /// line is left.
    pub fn split_first(&self) -> Option<(&'a [u8], Lines<'a>)>
        ensures lines { IfSome result (λ first. self.now.lines ≡ first.0.now ∷ first.1.lines) }
        ensures after { IfSome result (λ first. first.1.after ≡ self.now.after) }
        ensures number { IfSome result (λ first. first.1.number ≡ self.now.number + 1) }
        ensures none { IfNone result (self.now.lines ≡ []) }
    {
        let (line, rest) = first_line(self.rest)?;
        let after = Lines {
            rest,
            number: self.number + 1,
        };
        Some((line, after))
    }

    /// Reads the next line. Returns `None` if and only if no line is left.
    pub fn next(&mut self) -> Option<&'a [u8]>
        ensures line { IfSome result (λ line. self.old.lines ≡ line.now ∷ self.new.lines) }
        ensures after { self.new.after ≡ self.old.after }
        ensures number { IfSome result (λ line. self.new.number ≡ self.old.number + 1) }
        ensures none { IfNone result (self.old.lines ≡ []) }
        ensures same { IfNone result (self.new ≡ self.old) }
    {
        let (line, after) = self.split_first()?;
        *self = after;
        Some(line)
    }

    /// Reads the next line. If no line is left, fails with the number that it would have.
    pub fn require_line(&mut self) -> Result<&'a [u8], LineFault>
        ensures line { IfOk result (λ line. self.old.lines ≡ line.now ∷ self.new.lines) }
        ensures after { self.new.after ≡ self.old.after }
        ensures number { OnOk result (self.new.number ≡ self.old.number + 1) }
        ensures none { OnErr result (self.old.lines ≡ []) }
        ensures same { OnErr result (self.new ≡ self.old) }
        ensures fault { IfErr result (λ fault. fault ≡ BadLine self.old.number) }
    {
        match self.next() {
            Some(line) => Ok(line),
            None => Err(LineFault::BadLine(self.number)),
        }
    }

    /// Reads the next line, which must be `wanted`. Otherwise fails with that line's number, and
    /// reads nothing.
    pub fn expect_line(&mut self, wanted: &[u8]) -> Result<(), LineFault>
        ensures ok { OnOk result
            (expect_first_line wanted.now self.old.number self.old.lines ≡ Ok self.new.lines) }
        ensures after { self.new.after ≡ self.old.after }
        ensures number { OnOk result (self.new.number ≡ self.old.number + 1) }
        ensures bad { OnErr result
            (expect_first_line wanted.now self.old.number self.old.lines ≡ Err self.old.number) }
        ensures same { OnErr result (self.new ≡ self.old) }
        ensures fault { IfErr result (λ fault. fault ≡ BadLine self.old.number) }
    {
        match self.split_first() {
            Some((line, after)) if line == wanted => {
                *self = after;
                Ok(())
            }
            _ => Err(LineFault::BadLine(self.number)),
        }
    }

    /// Checks that neither a line nor a byte is left. Otherwise fails with the number of the next
    /// line.
    #[tactic(auto, using(crate::proofs::Cuts::not_at_end))]
    pub fn expect_end_of_text(&self) -> Result<(), LineFault>
        ensures ok { OnOk result
            (expect_end_of_text self.now.number self.now.lines self.now.after ≡ Ok tt) }
        ensures bad { OnErr result
            (expect_end_of_text self.now.number self.now.lines self.now.after ≡
            Err self.now.number) }
        ensures fault { IfErr result (λ fault. fault ≡ BadLine self.now.number) }
    {
        if self.rest.is_empty() {
            Ok(())
        } else {
            Err(LineFault::BadLine(self.number))
        }
    }
}

ghost use Rattle.std.specs.Prelude.{◌≡◌, drop, length, map, min, take};
ghost use Rattle.ilk_lines.specs.Written.{text_of};
ghost use Rattle.ilk_log.specs.StepText.{step_text};

use crate::steps::Log;
use crate::steps_left::StepsLeft;
use ilk_lines::ShortByteStack;
use std::alloc::Global;
use std::marker::Model;

/// The text of a log, produced in pieces without memory. Contracts see the bytes that are still to
/// be taken.
#[derive(Drop)]
pub struct LogText {
    token: ShortByteStack,
    left: StepsLeft,
}

impl Model for LogText {
    ghost use Rattle.std.specs.Prelude.{ℕ, ◌++◌, List};

    ghost Value = { List ℕ };

    ghost view = { λ text. text.token ++ text.left };
}

impl LogText {
    /// Creates the text of all steps of `log`, one a line.
    pub fn from_log(alloc: Global, log: Log) -> LogText
        ensures { result ≡ text_of (map step_text log) }
    {
        LogText {
            token: ShortByteStack::empty(),
            left: StepsLeft::from_log(alloc, log),
        }
    }

    /// Copies the next bytes to the front of `into`, as many as fit, and returns their number.
    pub fn take(&mut self, into: &mut [u8]) -> usize
        ensures count { result ≡ min (length into.old) (length self.old) }
        ensures bytes { take result into.new ≡ take result self.old }
        ensures rest { self.new ≡ drop result self.old }
    {
        let mut count = self.token.take(into);
        'tokens: while count < into.len() {
            self.left.next_piece(&mut self.token);
            if self.token.is_empty() {
                return count;
            }
            count += self.token.take(&mut into[count..]);
        }
        count
    }
}

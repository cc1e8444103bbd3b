ghost use Rattle.std.specs.Prelude.{◌≡◌, drop, length, min, take};
ghost use Rattle.ilk_certificate.specs.Writing.{untaken_bytes_of_part};

use ilk_lines::RemainingBytes;
use ilk_log::LogText;

#[derive(Drop)]
pub(crate) enum Part {
    /// Short lines, held as bytes.
    Lines(RemainingBytes),
    /// The lines of a log, made as they are taken.
    Log(LogText),
}

impl Part {
    pub(crate) fn take(&mut self, into: &mut [u8]) -> usize
        ensures count { result ≡ min (length into.old) (length (untaken_bytes_of_part self.old)) }
        ensures bytes { take result into.new ≡ take result (untaken_bytes_of_part self.old) }
        ensures rest { untaken_bytes_of_part self.new ≡
            drop result (untaken_bytes_of_part self.old) }
    {
        match self {
            Part::Lines(lines) => lines.take(into),
            Part::Log(log) => log.take(into),
        }
    }
}

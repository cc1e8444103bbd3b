//! The words of events in run texts. The same table is used to write and read them.
use crate::Event;
use ilk_base::HasWord;

impl HasWord for Event {
    ghost use Rattle.ilk_model.specs.EventWords.{event_word};

    ghost word_of = { event_word };

    fn word(self) -> &'static str {
        match self {
            Event::Mark(_) => "mark",
            Event::Allocate(_) => "allocate",
            Event::Lock(_) => "lock",
            Event::Sense(_) => "sense",
            Event::Release(_) => "release",
            Event::Finish(_) => "finish",
            Event::Throw(_) => "throw",
            Event::Settle(_) => "settle",
            Event::Enter(_) => "enter",
            Event::Head(_) => "head",
            Event::Tail(_) => "tail",
            Event::Leave(_) => "leave",
            Event::Cancel(_) => "cancel",
        }
    }
}

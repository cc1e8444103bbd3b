ghost use Rattle.std.specs.Prelude.{◌≡◌};
ghost use Rattle.ilk_replay.specs.EventLine.{event_from_line, event_from_keyword_and_name};
ghost use Rattle.ilk_replay.specs.EventSubjects.{event_with_keyword_and_subject};

use crate::names::{point_named, route_named, section_named};
use ilk_base::first_value_with_word;
use ilk_lines::split_at_first_space;
use ilk_model::Event;
use ilk_plant::Plant;

/// What an event is about: a route, the point on a section, or the trains at a section.
#[derive(Clone, Copy)]
pub(crate) enum Subject {
    Route(u32),
    Point(u32),
    Section(u32),
}

fn event_with_keyword_and_subject(word: &[u8], about: Subject) -> Option<Event>
    ensures { result ≡ event_with_keyword_and_subject word.now about }
{
    match about {
        Subject::Route(r) => first_value_with_word(
            &[
                Event::Mark(r),
                Event::Allocate(r),
                Event::Lock(r),
                Event::Sense(r),
                Event::Release(r),
                Event::Finish(r),
                Event::Cancel(r),
            ],
            word,
        ),
        Subject::Point(x) => first_value_with_word(&[Event::Throw(x), Event::Settle(x)], word),
        Subject::Section(x) => first_value_with_word(
            &[
                Event::Enter(x),
                Event::Head(x),
                Event::Tail(x),
                Event::Leave(x),
            ],
            word,
        ),
    }
}

fn event_told(plant: &Plant, word: &[u8], name: &[u8]) -> Option<Event>
    ensures { result ≡ event_from_keyword_and_name plant.now word.now name.now }
{
    if let Some(r) = route_named(plant, name) {
        if let Some(event) = event_with_keyword_and_subject(word, Subject::Route(r)) {
            return Some(event);
        }
    }
    if let Some(x) = point_named(plant, name) {
        if let Some(event) = event_with_keyword_and_subject(word, Subject::Point(x)) {
            return Some(event);
        }
    }
    event_with_keyword_and_subject(word, Subject::Section(section_named(plant, name)?))
}

/// Returns the event of a run text's `line`. Returns `None` if it isn't the line of an event.
pub fn event_from_line(plant: &Plant, line: &[u8]) -> Option<Event>
    ensures { result ≡ event_from_line plant.now line.now }
{
    let (word, name) = split_at_first_space(line)?;
    event_told(plant, word, name)
}

ghost use Rattle.std.specs.Prelude.{◌≡◌, ◌++◌, ◌∷◌, [], All, flat_map, string_bytes, IfOk, OnOk};
ghost use Rattle.ilk_lines.specs.Written.{text_of};
ghost use Rattle.ilk_replay.specs.EventSubjects.{subject};
ghost use Rattle.ilk_replay.specs.RunText.{beginning_lines, event_line, run_text, subject_name};
ghost use Rattle.ilk_replay.specs.Writable.{IsSubjectOfPlant, IsEventSubjectOfPlant, IsWritableRunOfPlant};

use crate::Told;
use crate::event_line::Subject;
use crate::state_writing::push_state;
use ilk_base::HasWord;
use ilk_model::Event;
use ilk_plant::{Plant, Row};
use std::alloc::{AllocError, Global};

fn subject(event: Event) -> Subject
    ensures { result ≡ subject event }
{
    match event {
        Event::Mark(r) => Subject::Route(r),
        Event::Allocate(r) => Subject::Route(r),
        Event::Lock(r) => Subject::Route(r),
        Event::Sense(r) => Subject::Route(r),
        Event::Release(r) => Subject::Route(r),
        Event::Finish(r) => Subject::Route(r),
        Event::Throw(x) => Subject::Point(x),
        Event::Settle(x) => Subject::Point(x),
        Event::Enter(x) => Subject::Section(x),
        Event::Head(x) => Subject::Section(x),
        Event::Tail(x) => Subject::Section(x),
        Event::Leave(x) => Subject::Section(x),
        Event::Cancel(r) => Subject::Route(r),
    }
}

#[tactic(auto, using(crate::proofs::Subjects::subject_known))]
fn subject_name<'a>(plant: &'a Plant, about: Subject) -> &'a str
    requires { IsSubjectOfPlant plant.now about }
    ensures { result.now ≡ subject_name plant.now about }
{
    match about {
        Subject::Route(r) => plant.route_name(r),
        Subject::Point(x) => plant.section_name(x),
        Subject::Section(x) => plant.section_name(x),
    }
}

fn push_event(text: &mut String, plant: &Plant, event: Event) -> Result<(), AllocError>
    requires { IsEventSubjectOfPlant plant.now event }
    ensures { OnOk result
        (string_bytes text.new ≡ string_bytes text.old ++ (event_line plant.now event ++ 10 ∷ [])) }
{
    let name = subject_name(plant, subject(event));
    write!(text, "{} {}\n", event.word(), name)
}

fn push_events(text: &mut String, plant: &Plant, events: &Row<Event>) -> Result<(), AllocError>
    requires { All (IsEventSubjectOfPlant plant.now) events.now }
    ensures { OnOk result
        (string_bytes text.new
        ≡ string_bytes text.old
        ++ flat_map (λ event. event_line plant.now event ++ 10 ∷ []) events.now) }
{
    for event in events.as_slice() {
        push_event(text, plant, *event)?;
    }
    Ok(())
}

fn push_beginning(
    alloc: Global,
    text: &mut String,
    plant: &Plant,
    told: &Told,
) -> Result<(), AllocError>
    requires { IsWritableRunOfPlant plant.now told.now }
    ensures { OnOk result
        (string_bytes text.new
        ≡ string_bytes text.old
        ++ text_of (beginning_lines plant.now told.now.from_start told.now.first)) }
{
    if told.from_start {
        return text.push_str("start\n");
    }
    text.push_str("state\n")?;
    push_state(alloc, text, plant, &told.first)?;
    text.push_str("events\n")
}

#[tactic(auto, using(crate::proofs::RunTexts::text_is))]
/// Returns the text of the run `told`, which `read_run` reads as the same run. Fails only if memory
/// runs out.
pub fn write_run(alloc: Global, plant: &Plant, told: &Told) -> Result<Vec<u8>, AllocError>
    requires { IsWritableRunOfPlant plant.now told.now }
    ensures { IfOk result (λ text. text.items ≡ run_text plant.now told.now) }
{
    let mut text = String::from_str(alloc, "run 1\n")?;
    push_beginning(alloc, &mut text, plant, told)?;
    push_events(&mut text, plant, &told.events)?;
    text.push_str("end\n")?;
    Ok(text.into_bytes())
}

ghost use Rattle.std.specs.Prelude.{◌≡◌};
ghost use Rattle.ilk_drive.specs.CommandLine.{command_from_line};
ghost use Rattle.ilk_drive.specs.Commands.{is_command};

use ilk_model::Event;
use ilk_plant::Plant;
use ilk_replay::event_from_line;

fn is_command(event: Event) -> bool
    ensures { result ≡ is_command event }
{
    matches!(event, Event::Mark(_) | Event::Enter(_) | Event::Cancel(_))
}

/// Returns the command of `line`, or `None` if it isn't the line of a command.
pub(crate) fn command_from_line(plant: &Plant, line: &[u8]) -> Option<Event>
    ensures { result ≡ command_from_line plant.now line.now }
{
    let event = event_from_line(plant, line)?;
    if is_command(event) { Some(event) } else { None }
}

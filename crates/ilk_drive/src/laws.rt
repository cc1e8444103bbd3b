ghost use Rattle.std.specs.Prelude.{ℕ, ◌≡◌, ◌≤◌, ◌↔◌, ◌*◌, List, length};
ghost use Rattle.ilk_plant.specs.Start.{start};
ghost use Rattle.ilk_model.specs.declared.event.Event.{Event};
ghost use Rattle.ilk_replay.specs.RunText.{run_text};
ghost use Rattle.ilk_replay.specs.Seen.{replay_result};
ghost use Rattle.ilk_replay.specs.Told.{run_from_text, run_from_start};
ghost use Rattle.ilk_replay.specs.Writable.{IsWritableRunOfPlant};
ghost use Rattle.ilk_replay.specs.declared.told.Tale.TheVariants.{Told as IsTold};
ghost use Rattle.ilk_strict.specs.IsStrict.{IsStrict};
ghost use Rattle.ilk_drive.specs.Drive.{IsDriveOf};
ghost use Rattle.ilk_drive.specs.Scene.{scene_from_text};
ghost use Rattle.ilk_drive.specs.SceneText.{HasNoBadLine, IsFirstBadLineOfScene, IsSceneText, IsTextOfScene};
ghost use Rattle.ilk_drive.specs.Told.{IsRunFromStart, IsOutcomeWithoutHazard, replay_result_of_outcome};
ghost use Rattle.ilk_drive.specs.declared.limits.TheConstants.{MAX_EVENTS_PER_COMMAND};
ghost use Rattle.ilk_drive.specs.declared.outcome.Driven.{Driven};
ghost use Rattle.ilk_drive.specs.declared.scene.Scene.TheVariants.{Bad, Scene as IsScene};

use ilk_plant::Plant;

/// A scenario has exactly one drive. Its events are a run from the initial state, at most
/// `MAX_EVENTS_PER_COMMAND` per command. For a strict table it doesn't end in a hazard. Proof only;
/// no run-time effect.
pub fn drives_are_unique_bounded_runs(plant: &Plant)
    ensures one { (scene : List Event) (a b : Driven) → IsDriveOf plant.now scene a →
        IsDriveOf plant.now scene b → a ≡ b }
    ensures run { (scene : List Event) (driven : Driven) → IsDriveOf plant.now scene driven →
        IsRunFromStart plant.now driven.events }
    ensures few { (scene : List Event) (driven : Driven) → IsDriveOf plant.now scene driven →
        length driven.events ≤ MAX_EVENTS_PER_COMMAND * length scene }
    ensures strict { IsStrict plant.now → (scene : List Event) (driven : Driven) →
        IsDriveOf plant.now scene driven → IsOutcomeWithoutHazard driven.rest }
{
    plant.prove_is_plant();
    plant.prove_sound_acyclic_drafts();
}

/// The text written for a drive's run is read back as that run, and its replay has the drive's
/// result: the hazard in which the drive ends, or no hazard. Proof only; no run-time effect.
pub fn drive_texts_replay_same_outcome(plant: &Plant)
    ensures writable { (scene : List Event) (driven : Driven) → IsDriveOf plant.now scene driven →
        IsWritableRunOfPlant plant.now (run_from_start plant.now driven.events) }
    ensures read { (scene : List Event) (driven : Driven) → IsDriveOf plant.now scene driven →
        run_from_text plant.now (run_text plant.now (run_from_start plant.now driven.events))
        ≡ IsTold (run_from_start plant.now driven.events) }
    ensures seen { (scene : List Event) (driven : Driven) → IsDriveOf plant.now scene driven →
        replay_result plant.now (start plant.now) driven.events
        ≡ replay_result_of_outcome driven.rest }
{
    plant.prove_is_plant();
}

/// A text is read as commands if and only if it is the text written for them over the plant.
/// Otherwise its first bad line is reported: the lines before it begin the text of some scenario,
/// and together with it they begin none. So a written text is read back, and no two texts contain
/// the same commands. Proof only; no run-time effect.
pub fn scene_reading_is_exact(plant: &Plant, text: &[u8])
    ensures scene { (commands : List Event)
        → (scene_from_text plant.now text.now ≡ IsScene commands)
        ↔ IsTextOfScene plant.now commands text.now }
    ensures lines { HasNoBadLine plant.now text.now ↔ IsSceneText plant.now text.now }
    ensures first { (n : ℕ)
        → (scene_from_text plant.now text.now ≡ Bad n)
        ↔ IsFirstBadLineOfScene plant.now text.now n }
{
    plant.prove_is_plant();
}

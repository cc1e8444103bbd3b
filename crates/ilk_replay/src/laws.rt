ghost use Rattle.std.specs.Prelude.{ℕ, ◌≡◌, ◌↔◌};
ghost use Rattle.ilk_replay.specs.FirstBad.{IsFirstBadLineOfRun};
ghost use Rattle.ilk_replay.specs.Told.{run_from_text};
ghost use Rattle.ilk_replay.specs.Writable.{HasNoBadLine, IsRunText, IsTextOfRun};
ghost use Rattle.ilk_replay.specs.declared.told.Tale.TheVariants.{Bad, Told as IsTold};
ghost use Rattle.ilk_replay.specs.declared.told.Told.{Told};

use ilk_plant::Plant;

/// A text is read as a run of the plant if and only if it is the text written for that run.
/// Otherwise its first bad line is reported: the lines before it begin the text of some run, and
/// together with it they begin none. So a written text is read back, and no two texts describe one
/// run. Proof only; no run-time effect.
pub fn run_reading_is_exact(plant: &Plant, text: &[u8])
    ensures run { (told : Told) →
        (run_from_text plant.now text.now ≡ IsTold told) ↔ IsTextOfRun plant.now told text.now }
    ensures lines { HasNoBadLine plant.now text.now ↔ IsRunText plant.now text.now }
    ensures first { (n : ℕ) →
        (run_from_text plant.now text.now ≡ Bad n) ↔ IsFirstBadLineOfRun plant.now text.now n }
{
    plant.prove_is_plant();
}

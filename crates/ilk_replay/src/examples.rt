ghost use Rattle.std.specs.Prelude.{◌≡◌, [], ◌∷◌, codes, false, true};
ghost use Rattle.ilk_plant.specs.Start.{start};
ghost use Rattle.ilk_motion.specs.TwoSections.{two_section_plant};
ghost use Rattle.ilk_model.specs.declared.event.Event.TheVariants.{Enter, Head, Tail};
ghost use Rattle.ilk_model.specs.declared.hazards.HazardAt.TheVariants.{Two};
ghost use Rattle.ilk_replay.specs.declared.seen.Seen.TheVariants.{NotARun, NoHazard, Hazard};
ghost use Rattle.ilk_replay.specs.declared.told.Tale.TheVariants.{Told as IsTold, Bad};
ghost use Rattle.ilk_replay.specs.Seen.{replay_result};
ghost use Rattle.ilk_replay.specs.Told.{run_from_text};
ghost use Rattle.ilk_replay.specs.Examples.{one_train_on_both};

fn runs_on_two_sections()
    ensures meet { replay_result two_section_plant (start two_section_plant)
        (Enter 0 ∷ Enter 1 ∷ Head 0 ∷ [])
        ≡ Hazard (Two 1) }
    ensures nowhere { replay_result two_section_plant (start two_section_plant) (Head 0 ∷ []) ≡
        NotARun 1 }
    ensures alone { replay_result two_section_plant (start two_section_plant) (Enter 0 ∷ []) ≡
        NoHazard }
    ensures twice { replay_result two_section_plant (start two_section_plant)
        (Enter 0 ∷ Enter 0 ∷ [])
        ≡ NotARun 2 }
    ensures past { replay_result two_section_plant (start two_section_plant)
        (Enter 0 ∷ Enter 1 ∷ Head 0 ∷ Tail 0 ∷ []) ≡ NotARun 4 }
{}

fn texts_on_two_sections()
    ensures three { run_from_text two_section_plant
        (codes "run 1\nstart\nenter a\nenter b\nhead a\nend\n")
        ≡ IsTold
        (record {
          first = start two_section_plant;
          from_start = true;
          events = Enter 0 ∷ Enter 1 ∷ Head 0 ∷ [];
        }) }
    ensures empty { run_from_text two_section_plant [] ≡ Bad 1 }
    ensures unknown { run_from_text two_section_plant (codes "run 1\nstart\nenter z\nend\n") ≡
        Bad 3 }
    ensures unended { run_from_text two_section_plant (codes "run 1\nstart\nenter a\n") ≡ Bad 4 }
    ensures unfed { run_from_text two_section_plant (codes "run 1\nstart\nenter a\nend") ≡ Bad 4 }
    ensures beyond { run_from_text two_section_plant (codes "run 1\nstart\nenter a\nend\n\n") ≡
        Bad 5 }
    ensures spaced { run_from_text two_section_plant (codes "run 1\nstart\nenter  a\nend\n") ≡
        Bad 3 }
    ensures linear { run_from_text two_section_plant (codes "run 1\nstart\nthrow a\nend\n") ≡
        Bad 3 }
{}

fn states_on_two_sections()
    ensures whole { run_from_text two_section_plant
        (codes "run 1\nstate\nsection a free\nsection b used\ntrain up a b\nevents\ntail a\nend\n")
        ≡ IsTold (record { first = one_train_on_both; from_start = false; events = Tail 0 ∷ [] }) }
    ensures alone { run_from_text two_section_plant (codes "run 1\nstate\nend\n") ≡ Bad 3 }
    ensures missing { run_from_text two_section_plant
        (codes "run 1\nstate\nsection a free\nevents\nend\n")
        ≡ Bad 4 }
    ensures misnamed { run_from_text two_section_plant
        (codes "run 1\nstate\nsection b free\nsection a free\nevents\nend\n")
        ≡ Bad 3 }
    ensures doubled { run_from_text two_section_plant
        (codes "run 1\nstate\nsection a free\nsection a free\nevents\nend\n")
        ≡ Bad 4 }
    ensures apart { run_from_text two_section_plant
        (codes
        "run 1\nstate\nsection a free\nsection b free\ntrain up b a\nevents\nend\n")
        ≡ Bad 5 }
    ensures eventless { run_from_text two_section_plant
        (codes
        "run 1\nstate\nsection a free\nsection b free\ntrain up a\nend\n")
        ≡ Bad 6 }
{}

ghost use Rattle.std.specs.Prelude.{◌≡◌, Some, None, [], ◌∷◌, option_map};
ghost use Rattle.ilk_plant.specs.Start.{start};
ghost use Rattle.ilk_motion.specs.TwoSections.{bodies, after_first_moved_on, after_one_passed_through, after_third_entry_attempt, two_section_plant};

// Two trains enter at both ends; the first moves into the other's section.
fn two_trains_meet()
    ensures { option_map bodies after_first_moved_on ≡ Some ((0 ∷ 1 ∷ []) ∷ (1 ∷ []) ∷ []) }
{}

// No train enters an occupied section.
fn occupied_border_refuses()
    ensures { after_third_entry_attempt ≡ None }
{}

// After a train has crossed the line, the state is the initial one.
fn one_train_crosses()
    ensures { after_one_passed_through ≡ Some (start two_section_plant) }
{}

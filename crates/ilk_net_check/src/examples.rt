ghost use Rattle.std.specs.Prelude.{◌≡◌, [], ◌∷◌};
ghost use Rattle.ilk_plant.specs.NetworkRules.{network_rules_broken};
ghost use Rattle.ilk_plant.specs.declared.broken.Rule.TheVariants.{N1, N3, N4, N5, N6, N7, N8};
ghost use Rattle.ilk_net_check.specs.Examples.{at, fork, fork_with_turned_leg, fork_with_ring, line_linked_one_way, line_linked_one_way_with_duplicate, line_of_two, loop_of_one, ring_of_three};

fn line_is_clean()
    ensures { network_rules_broken line_of_two ≡ [] }
{}

fn cut_line_is_refused()
    ensures { network_rules_broken line_linked_one_way ≡ at N5 1 ∷ at N6 0 ∷ at N8 0 ∷ [] }
{}

fn repeated_name_is_refused()
    ensures { network_rules_broken line_linked_one_way_with_duplicate
        ≡ at N1 2 ∷ at N5 1 ∷ at N6 0 ∷ at N6 2 ∷ at N8 0 ∷ [] }
{}

fn ring_is_refused()
    ensures { network_rules_broken ring_of_three ≡ at N7 0 ∷ at N7 1 ∷ at N7 2 ∷ [] }
{}

fn loop_is_refused()
    ensures { network_rules_broken loop_of_one ≡ at N3 0 ∷ at N4 0 ∷ at N7 0 ∷ [] }
{}

fn fork_is_clean()
    ensures { network_rules_broken fork ≡ [] }
{}

fn turned_leg_is_refused()
    ensures { network_rules_broken fork_with_turned_leg
        ≡ at N5 1 ∷ at N5 3 ∷ at N7 1 ∷ at N7 3 ∷ [] }
{}

fn ring_by_minus_leg_is_refused()
    ensures { network_rules_broken fork_with_ring ≡ at N7 0 ∷ at N7 1 ∷ at N7 3 ∷ [] }
{}

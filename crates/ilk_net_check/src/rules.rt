ghost use Rattle.std.specs.Prelude.{◌≡◌, ◌≤◌, ◌++◌, ◌↔◌, IfOk, None, OnOk, ℕ, length, option_map, slice_get};
ghost use Rattle.std.specs.List.{Contains};
ghost use Rattle.std.specs.Option.{option_copied};
ghost use Rattle.ilk_plant.specs.Broken.{broken_below, place_kind_of};
ghost use Rattle.ilk_plant.specs.NetNames.{HasBoardsAndNamesOf};
ghost use Rattle.ilk_plant.specs.NetworkRules.{IsOnUpCycle, breaks_network_rule_at, place_count_in_network, has_board_without_neighbour, has_unknown_or_self_neighbour, is_not_named_back_once as is_not_named_back_of, network_rules_broken, repeats_neighbour as repeats_neighbour_of, is_on_up_cycle, is_isolated_linear_section};
ghost use Rattle.ilk_net_check.specs.Numbers.{AgreesWithDraft};
ghost use Rattle.ilk_plant.specs.declared.broken.Rule.TheVariants.{N7};
ghost use Rattle.ilk_plant.specs.declared.limits.TheConstants.{MAX_SECTIONS};

use crate::ends::{ResolvedEnd, ends_of_section, resolved_ends_by_section};
use crate::kinds::{has_board_to_nowhere, is_linear_without_neighbours, repeats_neighbour};
use crate::neighbours::{has_invalid_neighbour, is_not_named_back_once};
use crate::reach::{matrix_entry_or_false, up_reachability_matrix};
use ilk_base::BitSet256;
use ilk_plant::{Broken, KindDraft, NetDraft, NetNames, PlaceKind, Row, Rule, push_broken_if};
use std::alloc::{AllocError, Global};

const NETWORK_RULES: [Rule; 8] = [
    Rule::N1,
    Rule::N2,
    Rule::N3,
    Rule::N4,
    Rule::N5,
    Rule::N6,
    Rule::N7,
    Rule::N8,
];

// A network with numbers for names: its draft, its names, the ends of each section, and
// reachability by walks up.
#[derive(Drop)]
struct Network<'a> {
    net: &'a NetDraft,
    names: &'a NetNames,
    ends: Row<Row<ResolvedEnd>>,
    leads: Row<BitSet256>,
}

impl<'a> Network<'a> {
    fn of(alloc: Global, net: &'a NetDraft, names: &'a NetNames) -> Result<Network<'a>, AllocError>
        requires few { length net.now.sections ≤ MAX_SECTIONS }
        requires named { HasBoardsAndNamesOf names.now net.now }
        ensures net { IfOk result (λ network. network.net.now ≡ net.now) }
        ensures numbered { IfOk result AgreesWithDraft }
    {
        let ends = resolved_ends_by_section(alloc, &names.section_names, net.sections.as_slice())?;
        let leads = up_reachability_matrix(alloc, &ends, net.sections.len() as u32)?;
        Ok(Network {
            net,
            names,
            ends,
            leads,
        })
    }
}

impl Network<'_> {
    fn kind(&self, x: u32) -> Option<&KindDraft>
        ensures { option_copied result
            ≡ option_map (λ section. section.kind) (slice_get self.now.net.now.sections x) }
    {
        match self.net.sections.as_slice().get(x as usize) {
            Some(section) => Some(&section.kind),
            None => None,
        }
    }

    fn repeats_neighbour(&self, x: u32) -> bool
        ensures { result ≡ repeats_neighbour_of self.now.net.now x }
    {
        match self.kind(x) {
            Some(kind) => repeats_neighbour(kind),
            None => false,
        }
    }

    fn stands_alone(&self, x: u32) -> bool
        ensures { result ≡ is_isolated_linear_section self.now.net.now x }
    {
        match self.kind(x) {
            Some(kind) => is_linear_without_neighbours(kind),
            None => false,
        }
    }

    fn has_board_without_neighbour(&self, x: u32) -> bool
        ensures { result ≡ has_board_without_neighbour self.now.net.now x }
    {
        match self.kind(x) {
            Some(kind) => has_board_to_nowhere(kind),
            None => false,
        }
    }

    fn has_unknown_or_self_neighbour(&self, x: u32) -> bool
        requires { AgreesWithDraft self.now }
        ensures { result ≡ has_unknown_or_self_neighbour self.now.net.now x }
    {
        has_invalid_neighbour(ends_of_section(&self.ends, x), x)
    }

    fn is_not_named_back_once(&self, x: u32) -> bool
        requires { AgreesWithDraft self.now }
        ensures { result ≡ is_not_named_back_of self.now.net.now x }
    {
        is_not_named_back_once(&self.ends, x)
    }

    fn returns(&self, x: u32) -> bool
        requires { AgreesWithDraft self.now }
        ensures { result ≡ is_on_up_cycle self.now.net.now x }
    {
        matrix_entry_or_false(&self.leads, x, x)
    }

    fn count(&self, places: PlaceKind) -> u32
        requires few { length self.now.net.now.sections ≤ MAX_SECTIONS }
        requires numbered { AgreesWithDraft self.now }
        ensures { result ≡ place_count_in_network self.now.net.now places }
    {
        match places {
            PlaceKind::Sections => self.net.sections.len() as u32,
            PlaceKind::Boards => self.names.board_names.len(),
            PlaceKind::Routes | PlaceKind::RoutePairs => 0,
        }
    }

    fn breaks(&self, rule: Rule, x: u32) -> bool
        requires { AgreesWithDraft self.now }
        ensures { result ≡ breaks_network_rule_at self.now.net.now rule x }
    {
        match rule {
            Rule::N1 => self.names.section_names.repeats_earlier_name(x),
            Rule::N2 => self.names.board_names.repeats_earlier_name(x),
            Rule::N3 => self.has_unknown_or_self_neighbour(x),
            Rule::N4 => self.repeats_neighbour(x),
            Rule::N5 => self.is_not_named_back_once(x),
            Rule::N6 => self.stands_alone(x),
            Rule::N7 => self.returns(x),
            Rule::N8 => self.has_board_without_neighbour(x),
            _ => false,
        }
    }
}

fn push_broken(broken: &mut Row<Broken>, network: &Network, rule: Rule) -> Result<(), AllocError>
    requires few { length network.now.net.now.sections ≤ MAX_SECTIONS }
    requires numbered { AgreesWithDraft network.now }
    ensures { OnOk result (broken.new ≡ broken.old
        ++ broken_below rule (place_count_in_network network.now.net.now (place_kind_of rule))
        (breaks_network_rule_at network.now.net.now rule)) }
{
    for x in 0..network.count(rule.places()) {
        let entry = Broken {
            rule,
            first: x,
            second: None,
        };
        push_broken_if(broken, network.breaks(rule, x), entry)?;
    }
    Ok(())
}

/// Returns every violated rule of the network, N1 to N8, with its location, ordered by rule and
/// location. A location is a board number for N2, otherwise a section number. The draft must be
/// within the limits. Fails only if memory runs out.
pub fn check_network(alloc: Global, net: &NetDraft) -> Result<Row<Broken>, AllocError>
    requires { length net.now.sections ≤ MAX_SECTIONS }
    ensures rules { IfOk result (λ broken. broken ≡ network_rules_broken net.now) }
    // N7 is listed at section x if and only if a walk up of one or more steps returns to x.
    ensures walks { IfOk result (λ broken. (x : ℕ) →
        Contains broken (record { rule = N7; first = x; second = None }) ↔ IsOnUpCycle net.now x) }
{
    let names = NetNames::from_network(alloc, net)?;
    check_network_with_names(alloc, net, &names)
}

/// Returns every violated rule of the network, as `check_network` does. `names` must be the names
/// of `net`. Fails only if memory runs out.
pub fn check_network_with_names(
    alloc: Global,
    net: &NetDraft,
    names: &NetNames,
) -> Result<Row<Broken>, AllocError>
    requires few { length net.now.sections ≤ MAX_SECTIONS }
    requires named { HasBoardsAndNamesOf names.now net.now }
    ensures rules { IfOk result (λ broken. broken ≡ network_rules_broken net.now) }
    ensures walks { IfOk result (λ broken. (x : ℕ) →
        Contains broken (record { rule = N7; first = x; second = None }) ↔ IsOnUpCycle net.now x) }
{
    let network = Network::of(alloc, net, names)?;
    let mut broken = Row::new(alloc);
    for rule in &NETWORK_RULES {
        push_broken(&mut broken, &network, *rule)?;
    }
    Ok(broken)
}

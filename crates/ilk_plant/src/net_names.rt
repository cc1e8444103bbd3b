ghost use Rattle.std.specs.Prelude.{◌≤◌, IfOk, length};
ghost use Rattle.ilk_plant.specs.NetNames.{HasBoardsAndNamesOf};
ghost use Rattle.ilk_plant.specs.declared.limits.TheConstants.{MAX_SECTIONS};

use crate::names::Names;
use crate::numbering::{named_boards, section_names};
use crate::{Board, NetDraft, Row};
use std::alloc::{AllocError, Global};

/// The boards of a network, and the names of its sections and boards, in the order of their
/// numbers.
#[derive(Drop)]
pub struct NetNames {
    pub section_names: Names,
    pub board_names: Names,
    pub boards: Row<Board>,
}

impl NetNames {
    /// Creates the boards and names of `net`. Fails only if memory runs out.
    pub fn from_network(alloc: Global, net: &NetDraft) -> Result<NetNames, AllocError>
        requires { length net.now.sections ≤ MAX_SECTIONS }
        ensures { IfOk result (λ names. HasBoardsAndNamesOf names net.now) }
    {
        let named = named_boards(alloc, &net.sections)?;
        Ok(NetNames {
            section_names: section_names(alloc, &net.sections)?,
            board_names: Names::from_names(alloc, named.names)?,
            boards: named.boards,
        })
    }
}

use ilk_plant::TableDraft;

/// The result of generating an interlocking table for a network.
#[derive(Drop)]
pub enum Walks {
    /// The interlocking table: one route for each way from a board to the next one or to the end of
    /// the track.
    Routes(TableDraft),
    /// From this board, and from no earlier one, some way doesn't end within `MAX_PATH` sections.
    TooLong { board: u32 },
    /// There are more than `MAX_ROUTES` ways, each of which ends within `MAX_PATH` sections.
    TooMany,
}

use plex_board::Desk;
use plex_board::links::Steady;
use plex_engines::Board;

/// A board with one cache, and the desks of its callers.
#[derive(Drop)]
pub struct Trial {
    pub board: Board<Steady>,
    pub operator: Desk,
    pub first: Desk,
    pub second: Desk,
}

//! A worker's seat at a scan board.

use cvl_base::Monoid;
use least_boards::BoardSeat;
use status_word::Pass;

/// A seat at a scan board.
pub type ScanSeat<M> = BoardSeat<Pass<<M as Monoid>::Item>>;

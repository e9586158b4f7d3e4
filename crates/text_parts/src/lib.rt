//! Texts that the parts of a call write and read: each part has memory for a text, or for integers, of its own, which are then
//! put one behind another in one room.
#![tactic(auto)]

pub mod pieces;
pub mod places;
pub mod rooms;

pub use pieces::{put_front, put_text};
pub use places::{size_places, text_places};
pub use rooms::{read_rooms, text_rooms};

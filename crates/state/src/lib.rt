// What a session keeps, how it is opened, and when it is well formed.
#![tactic(auto)]

mod kept;
pub mod opening;
pub mod wellformed;

pub use kept::{CELLS, MOST_STEPS, Mark, Party, Place, Session, Status, UnknownStatus, cell_of};

// Layout sheets: kinds, write sets, and the reader of rows. The rules stand in `rules`.
#![tactic(auto)]

pub mod kind;
pub mod rows;
mod sets;
pub mod sizes;

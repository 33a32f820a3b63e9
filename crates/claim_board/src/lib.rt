//! A board: a shared list of pieces of work, from which each piece is claimed by exactly one worker. One shared word
//! counts the claims: a claim increments it in a single atomic step, and the old value is the number of the claimed
//! piece. So no worker waits for another: `claim` has no `Wait` bound, and a `Mutex` around the board would not be
//! accepted, because locking it needs that bound.
#![tactic(auto)]

mod close;
mod draw;
mod open;
mod rule;

pub use crate::draw::{Board, Pass};

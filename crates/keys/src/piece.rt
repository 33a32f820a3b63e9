//! The answer of one page to one command of a batch.
use crate::command::Reply;
use std::alloc::Allocator;

/// The answer of one page to the command at one place of a batch.
#[derive(Drop)]
pub struct Piece<A: Allocator> {
    /// The command's place in the batch, counted from 0.
    pub place: usize,
    /// The page's answer.
    pub reply: Reply<A>,
}

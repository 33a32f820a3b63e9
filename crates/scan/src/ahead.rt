//! Reads values ahead of an iteration, so that the processor waits for several of them at once.
use crate::direction::Direction;
use delta_chain::{Base, ChangeList};
use keys::Value;
use std::alloc::Global;

// The numbers of values that are read ahead the first time, and at most.
const FIRST: usize = 4;

const MOST: usize = 16;

/// How far the values of a list were read ahead of an iteration. Each time, up to twice as many are read as the time
/// before, because many iterations end soon.
#[derive(Drop)]
pub(crate) struct Ahead {
    count: usize,
    left: usize,
    // Nobody reads it, but the compiler would leave out reads without a result.
    sum: u64,
}

impl Ahead {
    pub(crate) fn new() -> Self {
        Ahead {
            count: FIRST,
            left: 0,
            sum: 0,
        }
    }

    /// Is called before the iteration returns the value at `place`.
    #[inline]
    pub(crate) fn pass(&mut self, direction: Direction, values: &impl Values, place: usize) {
        if self.left == 0 {
            self.sum = sum_of(direction, values, place, self.count);
            self.left = self.count;
            self.count = self.count.saturating_mul(2).min(MOST);
        }
        self.left = self.left.saturating_sub(1);
    }
}

/// A list of values, of which some may be missing.
pub(crate) trait Values {
    /// Returns the first byte of the value at `place`, or 0 if there is none.
    fn first_byte(&self, place: usize) -> u8;
}

impl Values for Base<Value<Global>, Global> {
    fn first_byte(&self, place: usize) -> u8 {
        if place < self.len() {
            first_byte(self.cell(place))
        } else {
            0
        }
    }
}

impl<'a> Values for ChangeList<'a, Value<Global>, Global> {
    fn first_byte(&self, place: usize) -> u8 {
        if place >= self.len() {
            return 0;
        }
        match self.change(place) {
            (_key, Some(value)) => first_byte(value),
            (_key, None) => 0,
        }
    }
}

fn first_byte(value: &Value<Global>) -> u8 {
    value.as_bytes().first().copied().unwrap_or(0)
}

// The sum of the first bytes of `count` values from `place` on.
fn sum_of(direction: Direction, values: &impl Values, place: usize, count: usize) -> u64 {
    let mut sum: u64 = 0;
    for step in 0..count {
        let at = match direction {
            Direction::Up => place.saturating_add(step),
            Direction::Down => place.saturating_sub(step),
        };
        sum = sum.wrapping_add(u64::from(values.first_byte(at)));
    }
    sum
}

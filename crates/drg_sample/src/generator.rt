//! The generator of a sample.

ghost use Rattle.std.specs.Prelude.{◌≡◌, ◌+◌, ◌-◌, ◌/◌, ◌%◌, ◌≤◌, max, min, map, IfOk};
ghost use Rattle.std.specs.List.{range_with_len};
ghost use Rattle.drg_sample.specs.Draws.{draw, next_state, state_after};
ghost use Rattle.drg_sample.specs.Generated.{drawn_array, falling as falling_from, generated, rising as rising_to, state_after_array};

use arrayvec::ArrayVec;
use drg_array::{Array, MAX_DIAMETER};
use std::alloc::{AllocError, Global};

/// As many arrays, generated from the seed: the first state of a linear congruential generator, which is
/// meant to be below `2^31`. Each array has diameter 2 or 3. The one error is want of memory.
pub fn generate(alloc: Global, seed: u32, count: u32) -> Result<Vec<Array>, AllocError>
    ensures { IfOk result (λ arrays. arrays.items ≡ generated seed count) }
{
    let mut generator = Generator { state: seed };
    let mut arrays = Vec::new(alloc);
    'arrays: for _number in 0..count {
        let array = generator.array();
        arrays.push(array)?;
    }
    Ok(arrays)
}

/// A source of draws.
#[derive(Drop)]
struct Generator {
    state: u32,
}

impl Generator {
    /// The next draw, below `2^15`.
    fn draw(&mut self) -> u32
        ensures state { self.new.state ≡ next_state self.old.state }
        ensures drawn { result ≡ draw self.old.state 0 }
    {
        let next = (1_103_515_245 * u64::from(self.state) + 12_345) % 2_147_483_648;
        self.state = next as u32;
        self.state / 65_536
    }

    /// The next array.
    fn array(&mut self) -> Array
        ensures drawn { result ≡ drawn_array self.old.state }
        ensures state { self.new.state ≡ state_after_array self.old.state }
    {
        let d = self.diameter();
        let k = self.valency();
        let b = self.falling(d, k);
        let c = self.rising(d, k);
        let Some(array) = Array::make(&b, &c) else {
            unreachable!();
        };
        array
    }

    /// A diameter, 2 or 3.
    fn diameter(&mut self) -> usize
        ensures drawn { result ≡ 2 + draw self.old.state 0 % 2 }
        ensures state { self.new.state ≡ next_state self.old.state }
        ensures most { result ≤ 3 }
    {
        2 + (self.draw() % 2) as usize
    }

    /// A valency from 3 to 32.
    fn valency(&mut self) -> u16
        ensures drawn { result ≡ 3 + draw self.old.state 0 % 30 }
        ensures state { self.new.state ≡ next_state self.old.state }
        ensures most { result ≤ 32 }
    {
        3 + (self.draw() % 30) as u16
    }

    /// As many numbers, which fall from the first one.
    fn falling(&mut self, count: usize, first: u16) -> ArrayVec<u16, MAX_DIAMETER>
        requires some { 1 ≤ count }
        requires few { count ≤ 3 }
        requires small { first ≤ 32 }
        ensures numbers { result.items
            ≡ map (falling_from self.old.state first) (range_with_len 0 count) }
        ensures state { self.new.state ≡ state_after (count - 1) self.old.state }
    {
        let mut numbers = ArrayVec::new();
        let mut last = first;
        numbers.push(last);
        'numbers: for _place in 1..count {
            last = self.fall(last);
            numbers.push(last);
        }
        numbers
    }

    /// A number by 1, 2 or 3 less than the last one, and at least 1.
    fn fall(&mut self, last: u16) -> u16
        ensures drawn { result ≡ max 1 (last - 1 - draw self.old.state 0 % 3) }
        ensures state { self.new.state ≡ next_state self.old.state }
    {
        let less = 1 + (self.draw() % 3) as u16;
        last.saturating_sub(less).max(1)
    }

    /// As many numbers, which rise from 1 and to this one at most.
    fn rising(&mut self, count: usize, most: u16) -> ArrayVec<u16, MAX_DIAMETER>
        requires some { 1 ≤ count }
        requires few { count ≤ 3 }
        requires small { most ≤ 32 }
        ensures numbers { result.items
            ≡ map (rising_to self.old.state most) (range_with_len 0 count) }
        ensures state { self.new.state ≡ state_after (count - 1) self.old.state }
    {
        let mut numbers = ArrayVec::new();
        let mut last = 1;
        numbers.push(last);
        'numbers: for _place in 1..count {
            last = self.rise(last, most);
            numbers.push(last);
        }
        numbers
    }

    /// A number by 0, 1 or 2 more than the last one, and at most this one.
    fn rise(&mut self, last: u16, most: u16) -> u16
        requires { last ≤ 32 }
        ensures drawn { result ≡ min most (last + draw self.old.state 0 % 3) }
        ensures state { self.new.state ≡ next_state self.old.state }
    {
        let more = (self.draw() % 3) as u16;
        (last + more).min(most)
    }
}

//! The equations as rows over the places of the unknowns, and the intervals of a room.
use crate::stop::Stop;
use drg_linear::{End, Equation, Room, System, Unknown, bounds_at};
use drg_whole::{Whole, Wide};
use std::alloc::Global;

/// A term of a row, with the place of its unknown. The coefficient isn't 0.
#[derive(Clone, Copy, Debug)]
pub struct Entry {
    pub unknown: Unknown,
    pub place: usize,
    pub coefficient: Whole,
}

/// A sum of terms and the number that it equals. The places ascend.
#[derive(Debug, Drop)]
pub struct Row {
    pub entries: Vec<Entry>,
    pub right: Whole,
}

impl Row {
    /// The term of a place.
    pub fn entry_at(&self, place: usize) -> Option<Entry> {
        for entry in &self.entries {
            if entry.place == place {
                return Some(*entry);
            }
        }
        None
    }
}

/// The row of an equation. Unknowns that are 0 in the room are left out, as they add nothing.
fn row_of(alloc: Global, room: &Room, equation: &Equation) -> Result<Row, Stop> {
    let mut entries = Vec::new(alloc);
    for term in equation.terms.as_slice() {
        let place = term.0.place(room.d());
        if bounds_at(room.as_slice(), place).1 > 0 {
            entries.push(Entry {
                unknown: term.0,
                place,
                coefficient: Whole::checked(term.1)?,
            })?;
        }
    }
    Ok(Row {
        entries,
        right: Whole::checked(equation.right)?,
    })
}

/// The rows of the equations of a system, in their order.
pub fn rows_of(alloc: Global, system: &System) -> Result<Vec<Row>, Stop> {
    let mut rows = Vec::new(alloc);
    for equation in system.equations() {
        rows.push(row_of(alloc, system.room(), equation)?)?;
    }
    Ok(rows)
}

/// The least and the greatest value that an unknown can have.
#[derive(Clone, Copy, Debug)]
pub struct Interval {
    pub low: Whole,
    pub high: Whole,
}

impl Interval {
    /// Whether there is more than one value.
    pub fn is_free(self) -> bool {
        self.low.value < self.high.value
    }

    /// Whether no value is left.
    pub fn is_empty(self) -> bool {
        self.high.value < self.low.value
    }

    /// The bound with which a term with this coefficient adds least, or most.
    pub fn end(self, end: End, coefficient: Whole) -> Whole {
        match end {
            End::Least if coefficient.value > 0 => self.low,
            End::Least => self.high,
            End::Greatest if coefficient.value > 0 => self.high,
            End::Greatest => self.low,
        }
    }
}

/// The interval of a place, and 0 alone outside the room.
pub fn interval_at(intervals: &[Interval], place: usize) -> Interval {
    if place < intervals.len() {
        return intervals[place];
    }
    Interval {
        low: Whole::new(0),
        high: Whole::new(0),
    }
}

/// Puts an interval at a place.
pub fn set_interval(intervals: &mut [Interval], place: usize, interval: Interval) {
    if place < intervals.len() {
        intervals[place] = interval;
    }
}

/// The intervals of a room, by the places of the unknowns.
pub fn intervals_of(alloc: Global, room: &Room) -> Result<Vec<Interval>, Stop> {
    let mut intervals = Vec::new(alloc);
    for bounds in room.as_slice() {
        intervals.push(Interval {
            low: Whole::checked(bounds.0)?,
            high: Whole::checked(bounds.1)?,
        })?;
    }
    Ok(intervals)
}

/// The least, or the greatest, sum of the terms of a row.
pub fn end_of(row: &Row, end: End, intervals: &[Interval]) -> Result<Whole, Wide> {
    let mut sum = Whole::new(0);
    for entry in &row.entries {
        let bound = interval_at(intervals, entry.place).end(end, entry.coefficient);
        sum = sum.plus(entry.coefficient.times(bound)?)?;
    }
    Ok(sum)
}

/// A number of at least 2 that divides the coefficients of all free terms, and not the right side less
/// the fixed terms.
pub fn modulus_of(row: &Row, intervals: &[Interval]) -> Result<Option<Whole>, Wide> {
    let mut divisor = Whole::new(0);
    let mut left = row.right;
    for entry in &row.entries {
        let interval = interval_at(intervals, entry.place);
        if interval.is_free() {
            divisor = divisor.common_divisor(entry.coefficient);
            if divisor.value == 1 {
                return Ok(None);
            }
        } else {
            left = left.less_product(entry.coefficient, interval.low)?;
        }
    }
    if divisor.value < 2 || divisor.divides(left) {
        return Ok(None);
    }
    Ok(Some(divisor))
}

//! Tighter bounds, each from one row, until a row shows that no value is left.
use crate::rows::{Interval, Row, end_of, interval_at, modulus_of, set_interval};
use crate::stop::Stop;
use drg_linear::End;
use drg_whole::{Whole, Wide};
use std::alloc::Global;

/// How often all rows are gone through. More would seldom tighten anything but slowly, and a closing by
/// slow steps has more lines than a branch may have.
const SWEEPS: usize = 4;

/// Which of the two bounds of an unknown.
#[derive(Clone, Copy, Debug, PartialEq, Eq)]
pub enum Side {
    Low,
    High,
}

/// A tighter bound of the unknown of a place, the one before it, and the row that gives it. A value that
/// is tried comes from no row.
#[derive(Clone, Copy, Debug)]
pub struct Tightening {
    pub side: Side,
    pub place: usize,
    pub value: Whole,
    pub before: Whole,
    pub row: Option<usize>,
}

/// Why no value is left.
#[derive(Clone, Copy, Debug)]
pub enum Ending {
    /// The right side of a row is below its least sum, or above its greatest.
    Miss { row: usize, end: End },
    /// A row fails modulo a number.
    Modulus { row: usize, modulus: Whole },
    /// The low bound of an unknown is above its high one, by a row.
    Void { row: usize, place: usize },
}

/// What the sums of a row leave: the right side less the least sum, and the greatest sum less the right
/// side.
#[derive(Clone, Copy, Debug)]
struct Slack {
    down: Whole,
    up: Whole,
}

impl Slack {
    /// The slack after a term whose bounds have moved.
    fn moved(self, coefficient: Whole, old: Interval, new: Interval) -> Result<Slack, Wide> {
        let least = new
            .end(End::Least, coefficient)
            .minus(old.end(End::Least, coefficient))?;
        let greatest = old
            .end(End::Greatest, coefficient)
            .minus(new.end(End::Greatest, coefficient))?;
        Ok(Slack {
            down: self.down.less_product(coefficient, least)?,
            up: self.up.less_product(coefficient, greatest)?,
        })
    }

    /// The interval of a term that the slack leaves.
    fn narrowed(self, coefficient: Whole, old: Interval) -> Result<Interval, Wide> {
        let (lacks, exceeds) = if coefficient.value > 0 {
            (self.up, self.down)
        } else {
            (self.down, self.up)
        };
        let size = absolute(coefficient);
        let low = old.high.minus(quotient(lacks, size))?;
        let high = old.low.plus(quotient(exceeds, size))?;
        Ok(Interval {
            low: if old.low.value < low.value {
                low
            } else {
                old.low
            },
            high: if high.value < old.high.value {
                high
            } else {
                old.high
            },
        })
    }
}

/// The number without its sign.
pub fn absolute(number: Whole) -> Whole {
    if number.value < 0 {
        number.negated()
    } else {
        number
    }
}

/// The quotient rounded down; 0 where the divisor isn't positive.
pub fn quotient(number: Whole, divisor: Whole) -> Whole {
    if divisor.value > 0 {
        number.floor_over(divisor)
    } else {
        Whole::new(0)
    }
}

/// Intervals that get tighter, and the steps by which they did.
#[derive(Debug, Drop)]
pub struct Tighter {
    pub intervals: Vec<Interval>,
    pub trail: Vec<Tightening>,
}

impl Tighter {
    /// These intervals, before any step. Takes no memory.
    pub fn start(alloc: Global, intervals: Vec<Interval>) -> Tighter {
        Tighter {
            intervals,
            trail: Vec::new(alloc),
        }
    }

    /// Takes the new interval of a place.
    pub fn take(&mut self, place: usize, new: Interval, row: Option<usize>) -> Result<(), Stop> {
        let old = interval_at(&self.intervals, place);
        if old.low.value < new.low.value {
            self.trail.push(Tightening {
                side: Side::Low,
                place,
                value: new.low,
                before: old.low,
                row,
            })?;
        }
        if new.high.value < old.high.value {
            self.trail.push(Tightening {
                side: Side::High,
                place,
                value: new.high,
                before: old.high,
                row,
            })?;
        }
        set_interval(&mut self.intervals, place, new);
        Ok(())
    }

    /// Goes back to where the trail had so many steps.
    pub fn back_to(&mut self, steps: usize) {
        for _ in steps..self.trail.len() {
            if let Some(last) = self.trail.pop() {
                let mut interval = interval_at(&self.intervals, last.place);
                match last.side {
                    Side::Low => interval.low = last.before,
                    Side::High => interval.high = last.before,
                }
                set_interval(&mut self.intervals, last.place, interval);
            }
        }
    }

    /// Tightens by a row, or tells why no value is left.
    pub fn by_row(&mut self, number: usize, row: &Row) -> Result<Option<Ending>, Stop> {
        let down = row.right.minus(end_of(row, End::Least, &self.intervals)?)?;
        let up = end_of(row, End::Greatest, &self.intervals)?.minus(row.right)?;
        if down.value < 0 || up.value < 0 {
            let end = if down.value < 0 {
                End::Least
            } else {
                End::Greatest
            };
            return Ok(Some(Ending::Miss { row: number, end }));
        }
        if let Some(modulus) = modulus_of(row, &self.intervals)? {
            return Ok(Some(Ending::Modulus {
                row: number,
                modulus,
            }));
        }
        self.narrow(number, row, Slack { down, up })
    }

    /// Narrows the intervals of the terms of a row, from its slack.
    fn narrow(&mut self, number: usize, row: &Row, start: Slack) -> Result<Option<Ending>, Stop> {
        let mut slack = start;
        for entry in &row.entries {
            let old = interval_at(&self.intervals, entry.place);
            let new = slack.narrowed(entry.coefficient, old)?;
            self.take(entry.place, new, Some(number))?;
            if new.is_empty() {
                return Ok(Some(Ending::Void {
                    row: number,
                    place: entry.place,
                }));
            }
            slack = slack.moved(entry.coefficient, old, new)?;
        }
        Ok(None)
    }

    /// Tightens by each row in turn.
    fn sweep(&mut self, rows: &[Row]) -> Result<Option<Ending>, Stop> {
        for (number, row) in rows.iter().enumerate() {
            let ending = self.by_row(number, row)?;
            if ending.is_some() {
                return Ok(ending);
            }
        }
        Ok(None)
    }

    /// Tightens by all rows in a few sweeps.
    pub fn by_rows(&mut self, rows: &[Row]) -> Result<Option<Ending>, Stop> {
        for _ in 0..SWEEPS {
            let before = self.trail.len();
            let ending = self.sweep(rows)?;
            if ending.is_some() || self.trail.len() == before {
                return Ok(ending);
            }
        }
        Ok(None)
    }
}

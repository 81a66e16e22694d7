//! A bounded search for values, depth first, from the middle of the intervals out.
use crate::rows::{Interval, Row, interval_at};
use crate::stop::Stop;
use crate::tighten::{Ending, Tighter, quotient};
use drg_whole::{Whole, Wide};
use std::alloc::{AllocError, Global};

/// How often the rows are gone through after a value is tried.
const ROUNDS: usize = 20;

/// How many values of an unknown are tried.
const VALUES: u32 = 16;

/// An unknown of which values are tried, from the middle of its interval out.
#[derive(Clone, Copy, Debug)]
struct Frame {
    /// How many steps the trail has without a value of it.
    steps: usize,
    place: usize,
    middle: Whole,
    tried: u32,
}

impl Frame {
    /// The next value within the interval: the middle, then those above and below it in turn.
    fn next(&mut self, interval: Interval) -> Result<Option<Whole>, Wide> {
        for k in self.tried..VALUES {
            let offset = Whole::checked(i128::from((k + 1) / 2))?;
            let value = if k % 2 == 0 {
                self.middle.minus(offset)?
            } else {
                self.middle.plus(offset)?
            };
            if interval.low.value <= value.value && value.value <= interval.high.value {
                self.tried = k + 1;
                return Ok(Some(value));
            }
        }
        self.tried = VALUES;
        Ok(None)
    }
}

/// The numbers of the rows that have a term at each place.
fn rows_by_place(alloc: Global, rows: &[Row], places: usize) -> Result<Vec<Vec<usize>>, Stop> {
    let mut by_place = Vec::new(alloc);
    for _ in 0..places {
        by_place.push(Vec::new(alloc))?;
    }
    for (number, row) in rows.iter().enumerate() {
        for entry in &row.entries {
            if let Some(numbers) = by_place.get_mut(entry.place) {
                numbers.push(number)?;
            }
        }
    }
    Ok(by_place)
}

/// What a step of the search comes to.
#[derive(Clone, Copy, Debug)]
enum Step {
    /// Each unknown has one value.
    Found,
    /// Nothing is left to try.
    Stuck,
    /// There is more to try.
    On,
}

/// The state of the search.
#[derive(Debug, Drop)]
struct Descent<'a> {
    rows: &'a [Row],
    by_place: Vec<Vec<usize>>,
    /// Which rows are to be looked at, as a bound in them has changed.
    due: Vec<bool>,
    tighter: Tighter,
    frames: Vec<Frame>,
    failures: usize,
}

impl<'a> Descent<'a> {
    /// The search before its first value, with all rows due.
    fn start(
        alloc: Global,
        rows: &'a [Row],
        intervals: Vec<Interval>,
        failures: usize,
    ) -> Result<Descent<'a>, Stop> {
        Ok(Descent {
            rows,
            by_place: rows_by_place(alloc, rows, intervals.len())?,
            due: vec![in alloc; true; rows.len()]?,
            tighter: Tighter::start(alloc, intervals),
            frames: Vec::new(alloc),
            failures,
        })
    }

    /// Has the rows looked at that have a term at this place.
    fn ask(&mut self, place: usize) {
        if place < self.by_place.len() {
            for number in &self.by_place[place] {
                if let Some(due) = self.due.get_mut(*number) {
                    *due = true;
                }
            }
        }
    }

    /// Has the rows looked at in which a bound has changed since the trail had so many steps.
    fn ask_since(&mut self, steps: usize) {
        for n in steps..self.tighter.trail.len() {
            if let Some(step) = self.tighter.trail.get(n) {
                let place = step.place;
                self.ask(place);
            }
        }
    }

    /// Whether a row is due, which it then is no more.
    fn take_due(&mut self, number: usize) -> bool {
        if number < self.due.len() {
            let due = self.due[number];
            self.due[number] = false;
            return due;
        }
        false
    }

    /// Narrows by each row that is due.
    fn round(&mut self) -> Result<Option<Ending>, Stop> {
        let rows = self.rows;
        for (number, row) in rows.iter().enumerate() {
            if self.take_due(number) {
                let steps = self.tighter.trail.len();
                let ending = self.tighter.by_row(number, row)?;
                if ending.is_some() {
                    return Ok(ending);
                }
                self.ask_since(steps);
            }
        }
        Ok(None)
    }

    /// Narrows until no bound moves, or for so many rounds. What ends it, where no value is left.
    fn settle(&mut self) -> Result<Option<Ending>, Stop> {
        for _ in 0..ROUNDS {
            let steps = self.tighter.trail.len();
            let ending = self.round()?;
            if ending.is_some() || self.tighter.trail.len() == steps {
                return Ok(ending);
            }
        }
        Ok(None)
    }

    /// The place of the free unknown with the fewest values.
    fn fewest(&self) -> Result<Option<usize>, Wide> {
        let mut best = None;
        let mut least = Whole::new(0);
        for (place, interval) in self.tighter.intervals.iter().enumerate() {
            let width = interval.high.minus(interval.low)?;
            if width.value > 0 && (best.is_none() || width.value < least.value) {
                best = Some(place);
                least = width;
            }
        }
        Ok(best)
    }

    /// Goes on to the free unknown with the fewest values.
    fn descend(&mut self) -> Result<Step, Stop> {
        let Some(place) = self.fewest()? else {
            return Ok(Step::Found);
        };
        let interval = interval_at(&self.tighter.intervals, place);
        let middle = quotient(interval.low.plus(interval.high)?, Whole::new(2));
        self.frames.push(Frame {
            steps: self.tighter.trail.len(),
            place,
            middle,
            tried: 0,
        })?;
        Ok(Step::On)
    }

    /// Gives the unknown of a place this value, and narrows. What ends it, where no value is left.
    fn fix(&mut self, place: usize, value: Whole) -> Result<Option<Ending>, Stop> {
        let interval = Interval {
            low: value,
            high: value,
        };
        self.tighter.take(place, interval, None)?;
        self.due.fill(false);
        self.ask(place);
        self.settle()
    }

    /// Tries the next value of the last unknown, or goes back to the one before it.
    fn step(&mut self) -> Result<Step, Stop> {
        let Some(mut frame) = self.frames.pop() else {
            return Ok(Step::Stuck);
        };
        self.tighter.back_to(frame.steps);
        let interval = interval_at(&self.tighter.intervals, frame.place);
        let Some(value) = frame.next(interval)? else {
            return Ok(Step::On);
        };
        self.frames.push(frame)?;
        if self.fix(frame.place, value)?.is_none() {
            return self.descend();
        }
        if self.failures == 0 {
            return Ok(Step::Stuck);
        }
        self.failures -= 1;
        Ok(Step::On)
    }

    /// Tries values until each unknown has one, or nothing is left to try, in at most so many steps.
    fn run(&mut self, steps: usize) -> Result<Step, Stop> {
        let mut step = self.descend()?;
        for _ in 0..steps {
            match step {
                Step::On => step = self.step()?,
                _ => return Ok(step),
            }
        }
        Ok(step)
    }
}

/// Intervals of one value each, where a search finds them that ends after so many failures. Whether
/// the values meet the rows is to be looked at.
pub fn dive(
    alloc: Global,
    rows: &[Row],
    intervals: Vec<Interval>,
    failures: usize,
) -> Result<Option<Vec<Interval>>, Stop> {
    let steps = intervals.len().saturating_mul(failures.saturating_add(1));
    let mut descent = Descent::start(alloc, rows, intervals, failures)?;
    if descent.settle()?.is_some() {
        return Ok(None);
    }
    match descent.run(steps)? {
        Step::Found => {
            let tighter = descent.tighter;
            Ok(Some(tighter.intervals))
        }
        _ => Ok(None),
    }
}

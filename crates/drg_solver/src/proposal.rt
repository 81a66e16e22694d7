//! Proposals for a leaf: lines that may close it, or values that may solve the system. Nothing is known
//! of them before they are tried.
use crate::closing::{Bound, high_line, low_line, number, void_line};
use crate::dive::dive;
use crate::needed::needed;
use crate::rows::{Interval, Row, interval_at, intervals_of, rows_of};
use crate::stop::Stop;
use crate::tighten::{Ending, Side, Tightening, Tighter};
use drg_derivation::Line;
use drg_linear::{Room, System, Unknown};
use drg_whole::{Whole, Wide};
use std::alloc::{AllocError, Global};

/// In how many leaves values are searched for. Later ones are only tightened.
const LEAVES: u32 = 64;

/// How many failures a search for values may have in the first leaf, and in a later one.
const FIRST_FAILURES: usize = 100;

const FAILURES: usize = 20;

/// What is proposed for a leaf.
#[derive(Debug, Drop)]
pub enum Proposal {
    /// These lines may close it.
    Closing(Vec<Line>),
    /// The values of these intervals, one each, may solve the system.
    Values(Vec<Interval>),
    /// The leaf may be divided at this value of an unknown.
    Division { unknown: Unknown, at: i128 },
    /// Nothing.
    Nothing,
}

/// The unknown of a place in a row.
fn unknown_at(rows: &[Row], row: usize, place: usize) -> Option<Unknown> {
    let entry = rows.get(row)?.entry_at(place)?;
    Some(entry.unknown)
}

/// The line of a tighter bound.
fn step_line(rows: &[Row], step: Tightening) -> Option<Line> {
    let equation = step.row?;
    let bound = Bound {
        unknown: unknown_at(rows, equation, step.place)?,
        number: step.value.value,
        equation,
    };
    match step.side {
        Side::Low => Some(low_line(bound)),
        Side::High => Some(high_line(bound)),
    }
}

/// The line of an ending.
fn ending_line(rows: &[Row], ending: Ending) -> Option<Line> {
    match ending {
        Ending::Miss { row, .. } => Some(Line::Miss { n: number(row) }),
        Ending::Modulus { row, modulus } => Some(Line::Mod {
            n: number(row),
            g: modulus.value,
        }),
        Ending::Void { row, place } => Some(void_line(unknown_at(rows, row, place)?)),
    }
}

/// The lines of the tighter bounds and of the ending.
fn closing(
    alloc: Global,
    rows: &[Row],
    steps: &[Tightening],
    ending: Ending,
) -> Result<Vec<Line>, AllocError> {
    let mut lines = Vec::new(alloc);
    for step in steps {
        if let Some(line) = step_line(rows, *step) {
            lines.push(line)?;
        }
    }
    if let Some(line) = ending_line(rows, ending) {
        lines.push(line)?;
    }
    Ok(lines)
}

/// A division at the low bound of the free unknown with the fewest values.
fn division(rows: &[Row], intervals: &[Interval]) -> Result<Proposal, Wide> {
    let mut best = Proposal::Nothing;
    let mut least = Whole::new(0);
    for row in rows {
        for entry in &row.entries {
            let interval = interval_at(intervals, entry.place);
            let width = interval.high.minus(interval.low)?;
            if width.value > 0 && (least.is_zero() || width.value < least.value) {
                least = width;
                best = Proposal::Division {
                    unknown: entry.unknown,
                    at: interval.low.value,
                };
            }
        }
    }
    Ok(best)
}

/// What proposals are made from.
#[derive(Debug, Drop)]
pub struct Proposer {
    rows: Vec<Row>,
    /// For how many leaves a proposal was asked for.
    leaves: u32,
}

impl Proposer {
    /// A proposer for a system.
    pub fn new(alloc: Global, system: &System) -> Result<Proposer, AllocError> {
        let rows = match rows_of(alloc, system) {
            Ok(rows) => rows,
            Err(Stop::Memory) => return Err(AllocError),
            Err(Stop::Wide) => Vec::new(alloc),
        };
        Ok(Proposer { rows, leaves: 0 })
    }

    /// What is proposed for a leaf, where no number is out of range.
    fn attempt(&self, alloc: Global, room: &Room) -> Result<Proposal, Stop> {
        let mut tighter = Tighter::start(alloc, intervals_of(alloc, room)?);
        if let Some(ending) = tighter.by_rows(&self.rows)? {
            let steps = needed(alloc, &self.rows, &tighter, ending)?;
            let lines = closing(alloc, &self.rows, &steps, ending)?;
            return Ok(Proposal::Closing(lines));
        }
        let division = division(&self.rows, &tighter.intervals)?;
        if self.leaves > LEAVES {
            return Ok(division);
        }
        let failures = if self.leaves > 1 {
            FAILURES
        } else {
            FIRST_FAILURES
        };
        match dive(alloc, &self.rows, tighter.intervals, failures)? {
            Some(values) => Ok(Proposal::Values(values)),
            None => Ok(division),
        }
    }

    /// What is proposed for the next leaf.
    pub fn propose(&mut self, alloc: Global, room: &Room) -> Result<Proposal, AllocError> {
        self.leaves = self.leaves.saturating_add(1);
        match self.attempt(alloc, room) {
            Ok(proposal) => Ok(proposal),
            Err(Stop::Wide) => Ok(Proposal::Nothing),
            Err(Stop::Memory) => Err(AllocError),
        }
    }
}

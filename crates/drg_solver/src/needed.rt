//! The bounds that an ending needs, from those that were tightened on the way.
use crate::rows::Row;
use crate::tighten::{Ending, Side, Tightening, Tighter};
use drg_linear::End;
use drg_whole::Whole;
use std::alloc::{AllocError, Global};

/// Puts a flag at a place. What stood there.
fn put_flag(flags: &mut Vec<bool>, place: usize, flag: bool) -> bool {
    if place < flags.len() {
        let before = flags[place];
        flags[place] = flag;
        return before;
    }
    false
}

/// The bounds that are asked for, by the places of the unknowns.
#[derive(Debug, Drop)]
struct Asked {
    lows: Vec<bool>,
    highs: Vec<bool>,
}

impl Asked {
    /// Nothing is asked for.
    fn nothing(alloc: Global, places: usize) -> Result<Asked, AllocError> {
        Ok(Asked {
            lows: vec![in alloc; false; places]?,
            highs: vec![in alloc; false; places]?,
        })
    }

    /// Asks for a bound, or lets it go. Whether it was asked for.
    fn put(&mut self, side: Side, place: usize, asked: bool) -> bool {
        match side {
            Side::Low => put_flag(&mut self.lows, place, asked),
            Side::High => put_flag(&mut self.highs, place, asked),
        }
    }

    /// Asks for the bounds of a sum of a row, but for the terms of one place.
    fn ask_sum(&mut self, row: &Row, end: End, but: Option<usize>) {
        for entry in &row.entries {
            let side = match end {
                End::Least if entry.coefficient.value > 0 => Side::Low,
                End::Least => Side::High,
                End::Greatest if entry.coefficient.value > 0 => Side::High,
                End::Greatest => Side::Low,
            };
            if but != Some(entry.place) {
                self.put(side, entry.place, true);
            }
        }
    }

    /// Asks for both bounds of each term whose coefficient the modulus doesn't divide.
    fn ask_fixed(&mut self, row: &Row, modulus: Whole) {
        for entry in &row.entries {
            if !modulus.divides(entry.coefficient) {
                self.put(Side::Low, entry.place, true);
                self.put(Side::High, entry.place, true);
            }
        }
    }

    /// Asks for what an ending needs.
    fn ask_ending(&mut self, rows: &[Row], ending: Ending) {
        match ending {
            Ending::Miss { row, end } if row < rows.len() => self.ask_sum(&rows[row], end, None),
            Ending::Modulus { row, modulus } if row < rows.len() => {
                self.ask_fixed(&rows[row], modulus);
            }
            Ending::Void { place, .. } => {
                self.put(Side::Low, place, true);
                self.put(Side::High, place, true);
            }
            _ => {}
        }
    }

    /// Asks for what a tighter bound needs.
    fn ask_step(&mut self, rows: &[Row], step: Tightening) {
        let Some(number) = step.row else {
            return;
        };
        if number < rows.len() {
            let row = &rows[number];
            if let Some(entry) = row.entry_at(step.place) {
                let negative = entry.coefficient.value < 0;
                let end = if (step.side == Side::Low) == negative {
                    End::Least
                } else {
                    End::Greatest
                };
                self.ask_sum(row, end, Some(step.place));
            }
        }
    }
}

/// The steps of the trail that the ending needs, in their order.
pub fn needed(
    alloc: Global,
    rows: &[Row],
    tighter: &Tighter,
    ending: Ending,
) -> Result<Vec<Tightening>, AllocError> {
    let mut asked = Asked::nothing(alloc, tighter.intervals.len())?;
    asked.ask_ending(rows, ending);
    let mut steps = Vec::new(alloc);
    for step in tighter.trail.iter().rev() {
        if asked.put(step.side, step.place, false) {
            asked.ask_step(rows, *step);
            steps.push(*step)?;
        }
    }
    steps.reverse();
    Ok(steps)
}

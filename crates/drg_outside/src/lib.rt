//! What reaches outside: where bytes come from, where they go, and the faults of both.
//!
//! [`Inputs`] are named inputs that are opened and read, and a [`Sink`] takes bytes. Both say by
//! counts when a call failed, so that a caller can't answer a fault that didn't happen.
//! [`MemInputs`] and [`MemSink`] stand in memory: they tell their bytes, and their contracts say
//! exactly what each call gives, leaves and counts. [`RealInputs`] and [`RealSink`] adapt files and
//! standard output: they tell no bytes and are the trusted edge. [`read_all`] and [`write_all`]
//! move whole inputs and pieces through any of them.
//!
//! Definitions: `specs/Causes.antt` (counts of faults), `specs/Files.antt` (named files),
//! `specs/Memory.antt` (inputs and sink in memory), `specs/Real.antt` (the counts of the real ones)
//! and `specs/Whole.antt` (whole transfers).
#![tactic(auto)]

mod inputs;
mod memory;
mod real;
mod sink;
mod whole;

pub use inputs::{Failed, Inputs};
pub use memory::{MemInputs, MemSink};
pub use real::{RealInputs, RealSink};
pub use sink::Sink;
pub use whole::{ReadAllFault, read_all, write_all};

#[cfg(test)]
mod tests;

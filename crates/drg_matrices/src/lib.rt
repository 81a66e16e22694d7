//! The frame of an intersection array: its eigenvalues with their cosines and multiplicities, and
//! the matrices P and Q, exactly.
//!
//! `frame_of` makes the frame over any exact field that holds the eigenvalues, or names the first
//! quantity with a work number above `2^127 - 1` in magnitude. The frame meets all equations of the
//! frame of the array, P·Q = nI among them, and an array has no other one (`one_frame`).
//!
//! `specs/Frame.antt` says what the frame of an array is, `specs/Formulas.antt` by which formulas it
//! is made, `specs/Fits.antt` when these fit, and `specs/Faults.antt` which is the first that doesn't.
#![tactic(auto)]

mod checks;
mod cosines;
mod dual;
mod eigen;
mod fault;
mod frame;
mod laws;
mod terms;
#[cfg(test)]
mod tests;

pub use fault::FrameFault;
pub use frame::{Frame, frame_of};
pub use laws::{fault_law, one_frame};

//! What the lines so far have made known.
ghost use Rattle.std.specs.Prelude.{◌≡◌, ◌+◌, length, is_some, Some, IfOk, OnOk, OnErr, true};
ghost use Rattle.drg_array.specs.Entries.{diameter};
ghost use Rattle.drg_linear.specs.Equations.{EquationContent};
ghost use Rattle.drg_replay.specs.Answers.{FollowsRule, Takes, TakesLine};
ghost use Rattle.drg_replay.specs.Rooms.{are_closed, room_steps, room_after};
ghost use Rattle.drg_replay.specs.Systems.{system_of, system_at_start, with_equation};
ghost use Rattle.drg_replay.specs.Claims.{claim_is_met as the_claim_is_met};
ghost use Rattle.drg_replay.specs.Lines.{known_at_start};
ghost use Rattle.drg_derivation.specs.declared.line.Line.TheVariants.{K, P, Frame as FrameLine, Theta, Prow, Qrow, Krein, Eq as EqLine};

use crate::counts::Counts;
use crate::equations::equation_of_line;
use crate::frame::{Frame, check_frame};
use crate::index::index;
use crate::refusal::{Fault, Refusal, not_built};
use crate::rows::check_row;
use crate::sizes::check_sizes;
use crate::systems::{starting_room, type_of};
use drg_array::{Array, Claim};
use drg_derivation::{Line, NumberList};
use drg_linear::{Equation, TripleType};
use drg_rooms::Branches;
use std::alloc::{AllocError, Global};
use std::marker::Model;

/// All that is known, for a claim whose line is met.
#[derive(Debug, Drop)]
pub struct Known {
    alloc: Global,
    array: Array,
    claim: Claim,
    counts: Counts,
    frame: Option<Frame>,
    rooms: Option<Branches>,
}

impl Model for Known {
    ghost use Rattle.std.specs.Prelude.{◌≡◌, ◌+◌, true, length};
    ghost use Rattle.drg_array.specs.Entries.{diameter};
    ghost use Rattle.drg_replay.specs.Known.{KnownContent};
    ghost use Rattle.drg_replay.specs.Claims.{claim_is_met};

    ghost Value = { KnownContent };

    ghost view = { λ k. record { array = k.array; claim = k.claim; counts = k.counts; frame = k.frame; rooms = k.rooms } };

    ghost invariant = { λ k. (claim_is_met k.array k.claim ≡ true)
        × (length k.counts.rows ≡ diameter k.array + 1) };
}

/// A copy of the numbers.
pub fn copied(alloc: Global, numbers: &NumberList) -> Result<NumberList, AllocError>
    ensures { IfOk result (λ copy. copy ≡ numbers.now) }
{
    Ok(NumberList::new(numbers.as_slice().to_vec(alloc)?))
}

impl Known {
    /// Before the first line.
    pub fn new(alloc: Global, array: Array, claim: Claim) -> Result<Known, AllocError>
        requires { the_claim_is_met array claim ≡ true }
        ensures { IfOk result (λ known. known ≡ known_at_start array claim) }
    {
        let counts = Counts::new(alloc, &array)?;
        Ok(Known {
            alloc,
            array,
            claim,
            counts,
            frame: None,
            rooms: None,
        })
    }

    /// The array in force.
    pub fn array(&self) -> &Array
        ensures { result.now ≡ self.now.array }
    {
        &self.array
    }

    /// The claim in force, whose line is met.
    pub fn claim(&self) -> Claim
        ensures value { result ≡ self.now.claim }
        ensures met { the_claim_is_met self.now.array self.now.claim ≡ true }
    {
        self.claim
    }

    /// What the lines `k` and `p` state. There are rows for each upper index from 0 to d.
    pub fn counts(&self) -> &Counts
        ensures value { result.now ≡ self.now.counts }
        ensures rows { length self.now.counts.rows ≡ diameter self.now.array + 1 }
    {
        &self.counts
    }

    /// What the `frame` line and those that need it state, where it stands.
    pub fn frame(&self) -> &Option<Frame>
        ensures { result.now ≡ self.now.frame }
    {
        &self.frame
    }

    /// Whether a `frame` line stands.
    pub fn framed(&self) -> bool
        ensures { result ≡ is_some self.now.frame }
    {
        self.frame.is_some()
    }

    /// Whether rooms stand of which no branch is open.
    pub fn is_closed(&self) -> bool
        ensures { result ≡ are_closed self.now.rooms }
    {
        match &self.rooms {
            None => false,
            Some(rooms) => !rooms.is_open(),
        }
    }

    /// Takes a `k` line.
    fn take_sizes(&mut self, values: &NumberList) -> Result<(), Fault>
        ensures { FollowsRule result (K values.now) self.old self.new }
    {
        check_sizes(&self.array, self.counts.sizes(), values.as_slice())?;
        let sizes = copied(self.alloc, values)?;
        self.counts.keep_sizes(sizes);
        Ok(())
    }

    /// Takes a `p` line.
    fn take_row(&mut self, h: i128, i: i128, values: &NumberList) -> Result<(), Fault>
        ensures { FollowsRule result (P h i values.now) self.old self.new }
    {
        let d = self.array.d();
        let h = index(0, h, d)?;
        let i = index(1, i, d)?;
        check_row(
            &self.array,
            h,
            self.counts.rows_at(h),
            i - 1,
            values.as_slice(),
        )?;
        let row = copied(self.alloc, values)?;
        self.counts.keep_row(h, row)?;
        Ok(())
    }

    /// Takes a `frame` line.
    fn take_frame(&mut self, root: i128) -> Result<(), Fault>
        ensures { FollowsRule result (FrameLine root) self.old self.new }
    {
        check_frame(self, root)?;
        self.frame = Some(Frame::new(self.alloc, root));
        Ok(())
    }

    /// Takes a `theta` line.
    fn take_theta(&mut self, i: i128, values: &NumberList) -> Result<(), Fault>
        ensures { FollowsRule result (Theta i values.now) self.old self.new }
    {
        match &mut self.frame {
            Some(frame) => frame.take_theta(self.alloc, &self.array, i, values),
            None => Err(Fault::Refused(Refusal::NotMet)),
        }
    }

    /// Takes a `prow` line.
    fn take_prow(&mut self, i: i128, values: &NumberList) -> Result<(), Fault>
        ensures { FollowsRule result (Prow i values.now) self.old self.new }
    {
        match &mut self.frame {
            Some(frame) => frame.take_prow(self.alloc, &self.array, i, values),
            None => Err(Fault::Refused(Refusal::NotMet)),
        }
    }

    /// Takes a `qrow` line.
    fn take_qrow(&mut self, r: i128, values: &NumberList) -> Result<(), Fault>
        ensures { FollowsRule result (Qrow r values.now) self.old self.new }
    {
        match &mut self.frame {
            Some(frame) => {
                frame.take_qrow(self.alloc, &self.array, self.counts.sizes(), r, values)
            }
            None => Err(Fault::Refused(Refusal::NotMet)),
        }
    }

    /// Takes a `krein` line.
    fn take_krein(&mut self, i: i128, j: i128, values: &NumberList) -> Result<(), Fault>
        ensures { FollowsRule result (Krein i j values.now) self.old self.new }
    {
        match &mut self.frame {
            Some(frame) => frame.take_krein(self.alloc, &self.array, i, j, values),
            None => Err(Fault::Refused(Refusal::NotMet)),
        }
    }

    /// Appends an equation, the first of which opens the system of the type.
    fn keep_equation(&mut self, ty: TripleType, equation: Equation) -> Result<(), AllocError>
        ensures ok { OnOk result (self.new ≡ record self.old {
          rooms = Some (with_equation
              (system_of self.old.rooms (system_at_start (diameter self.old.array) self.old.counts.rows ty))
              equation);
        }) }
        ensures err { OnErr result (self.new ≡ self.old) }
    {
        self.array.known_valid();
        match &mut self.rooms {
            Some(rooms) => rooms.push(equation),
            None => {
                let d = self.array.d();
                let room = starting_room(self.alloc, d, &self.counts, ty)?;
                let mut rooms = Branches::start(self.alloc, d, room);
                rooms.push(equation)?;
                self.rooms = Some(rooms);
                Ok(())
            }
        }
    }

    /// Takes an `eq` line.
    fn take_eq(&mut self, n: i128, x: i128, y: i128) -> Result<(), Fault>
        ensures { FollowsRule result (EqLine n x y) self.old self.new }
    {
        let Some(ty) = type_of(self.claim) else {
            return Err(Fault::Refused(Refusal::NotMet));
        };
        let equation = equation_of_line(self.alloc, &self.array, &self.counts, ty, n, x, y)?;
        self.keep_equation(ty, equation)?;
        Ok(())
    }

    /// Takes a room line.
    #[tactic(auto, using(crate::proofs::RoomSteps::room_met, crate::proofs::RoomSteps::room_not_met, crate::proofs::RoomSteps::room_wide))]
    fn take_room_line(&mut self, line: &Line) -> Result<(), Fault>
        ensures { Takes result (room_steps self.old.rooms line.now)
            self.old (record self.old { rooms = room_after line.now self.old.rooms }) self.new }
    {
        match &mut self.rooms {
            Some(rooms) => {
                rooms.step(line)?;
                Ok(())
            }
            None => Err(Fault::Refused(Refusal::NotMet)),
        }
    }

    /// Takes a line by its rule. A refusal changes nothing, nor does want of memory.
    fn follow(&mut self, line: &Line) -> Result<(), Fault>
        ensures { FollowsRule result line.now self.old self.new }
    {
        match line {
            Line::Eq { a, x, y } => self.take_eq(*a, *x, *y),
            Line::Comb { .. }
            | Line::Low { .. }
            | Line::High { .. }
            | Line::Split { .. }
            | Line::Miss { .. }
            | Line::Mod { .. }
            | Line::Void { .. } => self.take_room_line(line),
            Line::K { values } => self.take_sizes(values),
            Line::P { h, i, values } => self.take_row(*h, *i, values),
            Line::Frame { root } => self.take_frame(*root),
            Line::Theta { i, values } => self.take_theta(*i, values),
            Line::Prow { i, values } => self.take_prow(*i, values),
            Line::Qrow { r, values } => self.take_qrow(*r, values),
            Line::Krein { i, j, values } => self.take_krein(*i, *j, values),
            _ => {
                not_built()?;
                Ok(())
            }
        }
    }

    /// Takes a line. A refusal changes nothing, nor does want of memory.
    pub fn step(&mut self, line: &Line) -> Result<(), Fault>
        ensures { TakesLine result line.now self.old self.new }
    {
        if self.is_closed() {
            return Err(Fault::Refused(Refusal::NotMet));
        }
        self.follow(line)
    }
}

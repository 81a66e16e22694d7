//! The equations made so far and the open branches, as lines change them.
ghost use Rattle.std.specs.Prelude.{◌≡◌, ◌<◌, ◌^◌, ◌++◌, ◌∷◌, [], MatchResult};
ghost use Rattle.drg_derivation.specs.declared.line.Line.TheVariants.{Comb, Low, High, Split, Miss, Mod, Void};
ghost use Rattle.drg_rooms.specs.Lines.{is_open as the_is_open};
ghost use Rattle.drg_rooms.specs.Answers.{TakesRoomLine, TriesRoomLine};

use crate::combinations::combination;
use crate::equation_list::EquationList;
use crate::fault::{Fault, RoomFault};
use crate::looks::{above, is_void, splits, unknown_at};
use crate::moduli::check_mod;
use crate::refusal::{Refusal, met_where};
use crate::trail::Trail;
use crate::values::{check_high, check_low, check_miss};
use drg_derivation::{Line, NumberList};
use drg_linear::Equation;
use std::alloc::{AllocError, Global};
use std::marker::Model;

/// The equations made so far, the room in hand and the branches kept for later.
#[derive(Debug, Drop)]
pub struct Branches {
    d: usize,
    equations: EquationList,
    open: Trail,
}

impl Model for Branches {
    ghost use Rattle.std.specs.Prelude.{◌<◌, ◌^◌};
    ghost use Rattle.drg_rooms.specs.Content.{BranchesContent};

    ghost Value = { BranchesContent };

    ghost view = { λ b. record { d = b.d; equations = b.equations; branches = b.«open» } };

    ghost invariant = { λ b. b.d < 2 ^ 8 };
}

impl Branches {
    /// One open branch with this room, and no equation. The room has a low and a high bound for
    /// each unknown whose numbers are from 1 to d, in their order. Takes no memory.
    pub fn start(alloc: Global, d: usize, bounds: Vec<(i128, i128)>) -> Branches
        requires { d < 2 ^ 8 }
        ensures { result ≡ record { d = d; equations = []; branches = bounds.items ∷ [] } }
    {
        Branches {
            d,
            equations: EquationList::new(alloc),
            open: Trail::new(alloc, bounds),
        }
    }

    /// Appends an equation as the next. Where it fails, nothing has changed.
    pub fn push(&mut self, equation: Equation) -> Result<(), AllocError>
        ensures { MatchResult result
            (λ _. self.new ≡ record self.old { equations = self.old.equations ++ equation ∷ [] })
            (λ _. self.new ≡ self.old) }
    {
        self.equations.push(equation)?;
        Ok(())
    }

    /// Whether a branch is open.
    pub fn is_open(&self) -> bool
        ensures { result ≡ the_is_open self.now.branches }
    {
        self.open.is_open()
    }

    /// Takes a `low` line.
    fn take_low(&mut self, r: i128, s: i128, t: i128, v: i128, n: i128) -> Result<(), Fault>
        ensures { TriesRoomLine result self.old (Low r s t v n) self.new }
    {
        let room = self.open.room()?;
        let unknown = unknown_at(self.d, r, s, t)?;
        let equation = self.equations.get(n)?;
        check_low(self.d, room, unknown, v, equation)?;
        self.open.raise(unknown.place(self.d), v)?;
        Ok(())
    }

    /// Takes a `high` line.
    fn take_high(&mut self, r: i128, s: i128, t: i128, v: i128, n: i128) -> Result<(), Fault>
        ensures { TriesRoomLine result self.old (High r s t v n) self.new }
    {
        let room = self.open.room()?;
        let unknown = unknown_at(self.d, r, s, t)?;
        let equation = self.equations.get(n)?;
        check_high(self.d, room, unknown, v, equation)?;
        self.open.lower(unknown.place(self.d), v)?;
        Ok(())
    }

    /// Takes a `split` line.
    fn take_split(&mut self, r: i128, s: i128, t: i128, v: i128) -> Result<(), Fault>
        ensures { TriesRoomLine result self.old (Split r s t v) self.new }
    {
        let room = self.open.room()?;
        let place = unknown_at(self.d, r, s, t)?.place(self.d);
        met_where(splits(room, place, v))?;
        let low = above(room, place, v);
        self.open.halve(place, v, low)?;
        Ok(())
    }

    /// Takes a `miss` line.
    fn take_miss(&mut self, n: i128) -> Result<(), Fault>
        ensures { TriesRoomLine result self.old (Miss n) self.new }
    {
        let room = self.open.room()?;
        let equation = self.equations.get(n)?;
        check_miss(self.d, room, equation)?;
        self.open.close();
        Ok(())
    }

    /// Takes a `mod` line.
    fn take_mod(&mut self, n: i128, g: i128) -> Result<(), Fault>
        ensures { TriesRoomLine result self.old (Mod n g) self.new }
    {
        let room = self.open.room()?;
        let equation = self.equations.get(n)?;
        check_mod(self.d, room, g, equation)?;
        self.open.close();
        Ok(())
    }

    /// Takes a `void` line.
    fn take_void(&mut self, r: i128, s: i128, t: i128) -> Result<(), Fault>
        ensures { TriesRoomLine result self.old (Void r s t) self.new }
    {
        let room = self.open.room()?;
        let place = unknown_at(self.d, r, s, t)?.place(self.d);
        met_where(is_void(room, place))?;
        self.open.close();
        Ok(())
    }

    /// Takes a `comb` line.
    fn take_comb(&mut self, m: i128, values: &NumberList) -> Result<(), Fault>
        ensures { TriesRoomLine result self.old (Comb m values.now) self.new }
    {
        let alloc = self.equations.allocator();
        let equation = combination(alloc, &self.equations, values.as_slice())?;
        self.push(equation)?;
        Ok(())
    }

    /// Takes a line.
    fn take(&mut self, line: &Line) -> Result<(), Fault>
        ensures { TriesRoomLine result self.old line.now self.new }
    {
        match line {
            Line::Low { r, s, t, v, n } => self.take_low(*r, *s, *t, *v, *n),
            Line::High { r, s, t, v, n } => self.take_high(*r, *s, *t, *v, *n),
            Line::Split { r, s, t, v } => self.take_split(*r, *s, *t, *v),
            Line::Miss { n } => self.take_miss(*n),
            Line::Mod { n, g } => self.take_mod(*n, *g),
            Line::Void { r, s, t } => self.take_void(*r, *s, *t),
            Line::Comb { m, values } => self.take_comb(*m, values),
            _ => Err(Fault::Refused(Refusal::NotMet)),
        }
    }

    /// Takes a line: Ok where it is met, with what it makes. A refusal changes nothing.
    pub fn step(&mut self, line: &Line) -> Result<(), RoomFault>
        ensures { TakesRoomLine result self.old line.now self.new }
    {
        match self.take(line) {
            Ok(()) => Ok(()),
            Err(Fault::Refused(Refusal::NotMet)) => Err(RoomFault::NotMet),
            Err(Fault::Refused(Refusal::Wide)) => Err(RoomFault::Wide),
            Err(Fault::Memory) => Err(RoomFault::Memory),
        }
    }
}

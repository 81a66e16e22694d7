//! What the `frame` line and those that need it state.
ghost use Rattle.std.specs.Prelude.{◌≡◌, ◌++◌, ◌∷◌, [], ◌≤◌, length, true, IsTrue, unsigned_abs, OnOk, OnErr};
ghost use Rattle.drg_replay.specs.Frames.{frame_steps, is_next as the_is_next, all_stand as the_all_stand, theta_steps, prow_steps, qrow_steps};
ghost use Rattle.drg_replay.specs.KreinLines.{krein_content, krein_steps, with_krein};
ghost use Rattle.drg_replay.specs.Lines.{with_theta, with_prow, with_qrow};
ghost use Rattle.drg_array.specs.Entries.{diameter};
ghost use Rattle.drg_quadratic.specs.Values.{IsRoot};
ghost use Rattle.drg_replay.specs.Roots.{is_root as the_is_root};
ghost use Rattle.drg_replay.specs.Steps.{first_failure};
ghost use Rattle.drg_replay.specs.Answers.{Takes};

use crate::eigenmatrix::{check_prow, check_theta};
use crate::index::index;
use crate::known::{Known, copied};
use crate::krein_lines::{KreinLine, check_krein};
use crate::orthogonality::check_qrow;
use crate::refusal::{Fault, Refusal, met_where};
use crate::root::is_root;
use crate::sizes::is_full;
use drg_array::{Array, Class};
use drg_derivation::NumberList;
use std::alloc::{AllocError, Global};
use std::marker::Model;

/// The field of a frame, and the numbers of the lines `theta`, `prow`, `qrow` and `krein`.
#[derive(Debug, Drop)]
pub struct Frame {
    root: u32,
    theta: Vec<NumberList>,
    p: Vec<NumberList>,
    q: Vec<NumberList>,
    krein: Vec<KreinLine>,
}

impl Model for Frame {
    ghost use Rattle.drg_replay.specs.Known.{FrameContent};
    ghost use Rattle.drg_array.specs.Entries.{diameter};
    ghost use Rattle.drg_quadratic.specs.Values.{IsRoot};

    ghost Value = { FrameContent };

    ghost view = { λ f. record { root = f.root; theta = f.theta.items; p = f.p.items; q = f.q.items; krein = f.krein.items } };

    ghost invariant = { λ f. IsRoot f.root };
}

/// Appends a copy of the numbers to those of the lines before.
fn keep(alloc: Global, lines: &mut Vec<NumberList>, numbers: &NumberList) -> Result<(), AllocError>
    ensures ok { OnOk result (lines.new.items ≡ lines.old.items ++ numbers.now ∷ []) }
    ensures err { OnErr result (lines.new.items ≡ lines.old.items) }
{
    lines.push(copied(alloc, numbers)?)?;
    Ok(())
}

/// The same for a line of i and j.
fn keep_krein(
    alloc: Global,
    lines: &mut Vec<KreinLine>,
    i: usize,
    j: usize,
    numbers: &NumberList,
) -> Result<(), AllocError>
    ensures ok { OnOk result (lines.new.items ≡ lines.old.items ++ krein_content i j numbers.now ∷ []) }
    ensures err { OnErr result (lines.new.items ≡ lines.old.items) }
{
    lines.push(KreinLine::new(i, j, copied(alloc, numbers)?))?;
    Ok(())
}

impl Frame {
    /// After the `frame` line alone.
    #[tactic(auto, using(crate::proofs::RootLaws::root_is))]
    pub fn new(alloc: Global, root: i128) -> Frame
        requires { the_is_root root ≡ true }
        ensures { result ≡ record { root = unsigned_abs root; theta = []; p = []; q = []; krein = [] } }
    {
        Frame {
            root: root as u32,
            theta: Vec::new(alloc),
            p: Vec::new(alloc),
            q: Vec::new(alloc),
            krein: Vec::new(alloc),
        }
    }

    /// The root of the field numbers.
    pub fn root(&self) -> u32
        ensures value { result ≡ self.now.root }
        ensures root { IsRoot self.now.root }
    {
        self.root
    }

    /// The numbers of the `theta` lines.
    pub fn theta(&self) -> &[NumberList]
        ensures { result.now ≡ self.now.theta }
    {
        &self.theta
    }

    /// The numbers of the `prow` lines.
    pub fn p(&self) -> &[NumberList]
        ensures { result.now ≡ self.now.p }
    {
        &self.p
    }

    /// The numbers of the `qrow` lines.
    pub fn q(&self) -> &[NumberList]
        ensures { result.now ≡ self.now.q }
    {
        &self.q
    }

    /// What the `krein` lines state.
    pub fn krein(&self) -> &[KreinLine]
        ensures { result.now ≡ self.now.krein }
    {
        &self.krein
    }

    /// Takes a `theta` line.
    pub fn take_theta(
        &mut self,
        alloc: Global,
        array: &Array,
        i: i128,
        values: &NumberList,
    ) -> Result<(), Fault>
        ensures { Takes result (theta_steps array.now self.old i values.now)
            self.old (with_theta self.old values.now) self.new }
    {
        check_theta(array, self, i, values.as_slice())?;
        keep(alloc, &mut self.theta, values)?;
        Ok(())
    }

    /// Takes a `prow` line.
    pub fn take_prow(
        &mut self,
        alloc: Global,
        array: &Array,
        i: i128,
        values: &NumberList,
    ) -> Result<(), Fault>
        ensures { Takes result (prow_steps array.now self.old i values.now)
            self.old (with_prow self.old values.now) self.new }
    {
        check_prow(array, self, i, values.as_slice())?;
        keep(alloc, &mut self.p, values)?;
        Ok(())
    }

    /// Takes a `qrow` line.
    pub fn take_qrow(
        &mut self,
        alloc: Global,
        array: &Array,
        sizes: &Option<NumberList>,
        r: i128,
        values: &NumberList,
    ) -> Result<(), Fault>
        ensures { Takes result (qrow_steps array.now sizes.now self.old r values.now)
            self.old (with_qrow self.old values.now) self.new }
    {
        check_qrow(array, sizes, self, r, values)?;
        keep(alloc, &mut self.q, values)?;
        Ok(())
    }

    /// Takes a `krein` line.
    pub fn take_krein(
        &mut self,
        alloc: Global,
        array: &Array,
        i: i128,
        j: i128,
        values: &NumberList,
    ) -> Result<(), Fault>
        ensures { Takes result (krein_steps array.now self.old i j values.now)
            self.old (with_krein self.old (unsigned_abs i) (unsigned_abs j) values.now) self.new }
    {
        let d = array.d();
        let i = index(1, i, d)?;
        let j = index(i, j, d)?;
        check_krein(array, self, i, j, values.as_slice())?;
        keep_krein(alloc, &mut self.krein, i, j, values)?;
        Ok(())
    }
}

/// Whether the index is that of the next of these lines, which are at most d+1.
#[tactic(auto, unfolding(crate::specs::Frames::is_next))]
pub fn is_next(array: &Array, i: i128, lines: &[NumberList]) -> bool
    ensures value { result ≡ the_is_next array.now i lines.now }
    ensures below { IsTrue result → length lines.now ≤ diameter array.now }
{
    match index(0, i, array.d()) {
        Ok(i) => i == lines.len(),
        Err(_) => false,
    }
}

/// Whether all d+1 of these lines stand.
pub fn all_stand(array: &Array, lines: &[NumberList]) -> bool
    ensures { result ≡ the_all_stand array.now lines.now }
{
    let d = array.d();
    lines.len() == d + 1
}

/// Whether a `frame` line with this root is met.
pub fn check_frame(known: &Known, root: i128) -> Result<(), Refusal>
    ensures { result ≡ first_failure (frame_steps known.now root) }
{
    if known.framed() || !is_full(known.array(), known.counts().sizes()) {
        return Err(Refusal::NotMet);
    }
    match known.claim().class() {
        Class::Counting => Err(Refusal::NotMet),
        Class::Spectral => met_where(is_root(root)),
    }
}

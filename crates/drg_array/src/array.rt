//! Intersection arrays.

ghost use Rattle.std.specs.Prelude.{◌↔◌, IsTrue, IsSome, IfSome, ◌≡◌, ◌≤◌, ◌<◌, ◌++◌, Some, None, IfOk, OnErr, IfErr, OnOk, length};
ghost use Rattle.std.specs.List.{AllByRecursion};
ghost use Rattle.drg_algebra.specs.Beginnings.{BeginsWith};
ghost use Rattle.drg_array.specs.Entries.{Entries, IsEntry, b_at, c_at, a_at, diameter, IsArray};
ghost use Rattle.drg_array.specs.Text.{IsArrayText, array_text, numbers_text};
ghost use Rattle.drg_array.specs.Faults.{IsFault};

use crate::fault::ArrayFault;
use crate::reading::read_array;
use crate::{MAX_DIAMETER, MAX_ENTRY};
use arrayvec::ArrayVec;
use itoa::Buffer;
use std::alloc::AllocError;
use std::marker::Model;

/// An intersection array `{b_0,..,b_(d-1); c_1,..,c_d}` (Brouwer, Cohen and Neumaier 1989, section
/// 4.1): as many `b` as `c`, from 1 to `MAX_DIAMETER`, each from 1 to `MAX_ENTRY`.
#[derive(PartialEq, Eq, Hash, Debug, Drop)]
pub struct Array {
    b: ArrayVec<u16, MAX_DIAMETER>,
    c: ArrayVec<u16, MAX_DIAMETER>,
}

impl Model for Array {
    ghost use Rattle.drg_array.specs.Entries.{Entries, IsArray};

    ghost Value = { Entries };

    ghost view = { λ a. record { b = a.b.items; c = a.c.items } };

    ghost invariant = { λ a. IsArray (record { b = a.b.items; c = a.c.items }) };

    ghost inverse = { λ e. record { b = record { items = e.b }; c = record { items = e.c } } };
}

impl Array {
    /// The array of these entries, `b_0` to `b_(d-1)` and `c_1` to `c_d`. There is none where the
    /// lists differ in length, are empty or too long, or hold a number that is no entry.
    pub fn make(b: &[u16], c: &[u16]) -> Option<Array>
        ensures some { IsSome result ↔ IsArray (record { b = b.now; c = c.now }) }
        ensures entries { IfSome result (λ a. a ≡ record { b = b.now; c = c.now }) }
    {
        if b.len() != c.len() || b.is_empty() || !are_entries(b) || !are_entries(c) {
            return None;
        }
        let b = ArrayVec::try_from(b).ok()?;
        let c = ArrayVec::try_from(c).ok()?;
        Some(Array::of_lists(b, c))
    }

    pub(crate) fn of_lists(b: ArrayVec<u16, MAX_DIAMETER>, c: ArrayVec<u16, MAX_DIAMETER>) -> Array
        requires { IsArray (record { b = b.items; c = c.items }) }
        ensures { result ≡ record { b = b.items; c = c.items } }
    {
        Array { b, c }
    }

    /// Reads an array text, with any number of spaces between its parts. One pass, no memory.
    pub fn read(bytes: &[u8]) -> Result<Array, ArrayFault>
        ensures ok { IfOk result (IsArrayText bytes.now) }
        ensures only { OnErr result ((a : Entries) → IsArrayText bytes.now a → ⊥) }
        ensures fault { IfErr result (IsFault bytes.now) }
    {
        read_array(bytes)
    }

    /// The diameter, from 1 to `MAX_DIAMETER`.
    pub fn d(&self) -> usize
        ensures value { result ≡ diameter self.now }
        ensures array { IsArray self.now }
    {
        self.b.len()
    }

    /// Does nothing. A caller's proof has it at hand then that the entries are those of an array.
    pub fn known_valid(&self)
        ensures { IsArray self.now }
    {
        let _read = &self.b;
    }

    /// Appends the canonical text, which has no spaces.
    pub fn write_text(&self, out: &mut Vec<u8>) -> Result<(), AllocError>
        ensures ok { OnOk result (out.new.items ≡ out.old.items ++ array_text self.now) }
        ensures err { OnErr result (BeginsWith (array_text self.now) out.old.items out.new.items) }
    {
        out.push(b'{')?;
        write_numbers(&self.b, out)?;
        out.push(b';')?;
        write_numbers(&self.c, out)?;
        out.push(b'}')?;
        Ok(())
    }

    /// The valency `b_0`.
    pub fn valency(&self) -> u16
        ensures { result ≡ b_at self.now 0 }
    {
        self.b[0]
    }

    /// The same array. Takes no memory.
    pub fn copied(&self) -> Array
        ensures { result ≡ self.now }
    {
        self.known_valid();
        let Some(copy) = Array::make(&self.b, &self.c) else {
            unreachable!();
        };
        copy
    }

    /// The entry `b_i`, with `b_d = 0`.
    pub fn b(&self, i: usize) -> u16
        requires { i ≤ diameter self.now }
        ensures { result ≡ b_at self.now i }
    {
        if i < self.b.len() { self.b[i] } else { 0 }
    }

    /// The entry `c_i`, with `c_0 = 0`.
    pub fn c(&self, i: usize) -> u16
        requires { i ≤ diameter self.now }
        ensures { result ≡ c_at self.now i }
    {
        if i > 0 { self.c[i - 1] } else { 0 }
    }

    /// The number `a_i = b_0 - b_i - c_i`, which is negative where the test degree fails.
    pub fn a(&self, i: usize) -> i32
        requires { i ≤ diameter self.now }
        ensures { result ≡ a_at self.now i }
    {
        i32::from(self.valency()) - i32::from(self.b(i)) - i32::from(self.c(i))
    }
}

/// Whether each number can stand in an array.
fn are_entries(numbers: &[u16]) -> bool
    ensures { IsTrue result ↔ AllByRecursion IsEntry numbers.now }
{
    numbers.iter().all(|&n| 1 <= n && n <= MAX_ENTRY)
}

/// Appends the numbers with a comma between two.
fn write_numbers(numbers: &[u16], out: &mut Vec<u8>) -> Result<(), AllocError>
    ensures ok { OnOk result (out.new.items ≡ out.old.items ++ numbers_text numbers.now) }
    ensures err { OnErr result (BeginsWith (numbers_text numbers.now) out.old.items out.new.items) }
{
    let mut buffer = Buffer::new();
    'numbers: for (place, number) in numbers.iter().enumerate() {
        if place > 0 {
            out.push(b',')?;
        }
        out.extend_from_slice(buffer.format(*number).as_bytes())?;
    }
    Ok(())
}

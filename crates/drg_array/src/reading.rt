//! Reading an array text byte by byte, in one pass.

ghost use Rattle.std.specs.Prelude.{◌≡◌, ◌+◌, ◌-◌, ◌*◌, ◌<◌, ◌≤◌, Ok, Err, OnOk, IfOk, IfErr};
ghost use Rattle.drg_array.specs.Reading.{step as step_of, mark as mark_of, comma as comma_of, brace as brace_of, complete, reading, IsSound};
ghost use Rattle.drg_array.specs.Reading as at;
ghost use Rattle.drg_array.specs.Reader.{list_of, standing, state_of};

use crate::{Array, ArrayFault, ArrayKind, MAX_DIAMETER, MAX_ENTRY};
use arrayvec::ArrayVec;
use std::mem::take;

/// What can come next in an array text.
#[derive(Clone, Copy, PartialEq, Eq)]
enum Next {
    /// The opening brace.
    Brace,
    /// A number.
    Number,
    /// A further digit of a number of this value, or what can follow the number.
    Digit(u16),
    /// A comma or the end of the list.
    Mark,
    /// Nothing, as the array is complete.
    End,
}

/// What has been read of an array text.
#[derive(Drop)]
struct Reader {
    /// The numbers before the semicolon, once it has come.
    b: Option<ArrayVec<u16, MAX_DIAMETER>>,
    /// The numbers since the brace or the semicolon.
    numbers: ArrayVec<u16, MAX_DIAMETER>,
    next: Next,
}

/// Reads byte by byte.
pub fn read_array(bytes: &[u8]) -> Result<Array, ArrayFault>
    ensures { result ≡ reading 1 at.start bytes.now }
{
    let mut reader = Reader::new();
    'bytes: for (place, byte) in bytes.iter().enumerate() {
        if let Err(kind) = reader.step(*byte) {
            let at = place as u64 + 1;
            return Err(ArrayFault { at, kind });
        }
    }
    let at = bytes.len() as u64 + 1;
    reader.finish().ok_or(ArrayFault {
        at,
        kind: ArrayKind::Syntax,
    })
}

impl Reader {
    fn new() -> Reader
        ensures { state_of result ≡ at.start }
    {
        Reader {
            b: None,
            numbers: ArrayVec::new(),
            next: Next::Brace,
        }
    }

    /// Takes the next byte. After an error the reader isn't used again.
    fn step(&mut self, byte: u8) -> Result<(), ArrayKind>
        requires { IsSound (state_of self.old) }
        ensures ok { OnOk result (step_of (state_of self.old) byte ≡ Ok (state_of self.new)) }
        ensures err { IfErr result (λ kind. step_of (state_of self.old) byte ≡ Err kind) }
    {
        self.next = self.next_after(byte)?;
        Ok(())
    }

    fn next_after(&mut self, byte: u8) -> Result<Next, ArrayKind>
        requires { IsSound (state_of self.old) }
        ensures ok { IfOk result (λ next.
            step_of (state_of self.old) byte
            ≡ Ok (standing (list_of self.new.b) self.new.numbers.items next)) }
        ensures err { IfErr result (λ kind. step_of (state_of self.old) byte ≡ Err kind) }
    {
        match (self.next, byte) {
            (Next::Digit(value), b'0'..=b'9') => further(value, byte),
            (Next::Digit(value), _) => {
                self.numbers.push(value);
                self.mark(byte)
            }
            (Next::Mark, _) => self.mark(byte),
            (next, b' ') => Ok(next),
            (Next::Brace, b'{') => Ok(Next::Number),
            (Next::Number, b'0') => Err(ArrayKind::Zero),
            (Next::Number, b'1'..=b'9') => Ok(Next::Digit(u16::from(byte - b'0'))),
            _ => Err(ArrayKind::Syntax),
        }
    }

    /// The array, where it is complete.
    fn finish(self) -> Option<Array>
        requires { IsSound (state_of self) }
        ensures { result ≡ complete (state_of self) }
    {
        match (self.next, self.b) {
            (Next::End, Some(b)) => Some(Array::of_lists(b, self.numbers)),
            _ => None,
        }
    }

    /// Takes a byte after a number.
    fn mark(&mut self, byte: u8) -> Result<Next, ArrayKind>
        ensures ok { IfOk result (λ next.
            mark_of (list_of self.old.b) self.old.numbers.items byte
            ≡ Ok (standing (list_of self.new.b) self.new.numbers.items next)) }
        ensures err { IfErr result (λ kind.
            mark_of (list_of self.old.b) self.old.numbers.items byte ≡ Err kind) }
    {
        match byte {
            b' ' => Ok(Next::Mark),
            b',' => self.comma(),
            b';' if self.b.is_none() => {
                self.b = Some(take(&mut self.numbers));
                Ok(Next::Number)
            }
            b'}' => self.brace(),
            _ => Err(ArrayKind::Syntax),
        }
    }

    fn comma(&self) -> Result<Next, ArrayKind>
        ensures ok { IfOk result (λ next.
            comma_of (list_of self.now.b) self.now.numbers.items
            ≡ Ok (standing (list_of self.now.b) self.now.numbers.items next)) }
        ensures err { IfErr result (λ kind.
            comma_of (list_of self.now.b) self.now.numbers.items ≡ Err kind) }
    {
        match &self.b {
            None if self.numbers.is_full() => Err(ArrayKind::Long),
            Some(b) if self.numbers.len() >= b.len() => Err(ArrayKind::Lengths),
            _ => Ok(Next::Number),
        }
    }

    fn brace(&self) -> Result<Next, ArrayKind>
        ensures ok { IfOk result (λ next.
            brace_of (list_of self.now.b) self.now.numbers.items
            ≡ Ok (standing (list_of self.now.b) self.now.numbers.items next)) }
        ensures err { IfErr result (λ kind.
            brace_of (list_of self.now.b) self.now.numbers.items ≡ Err kind) }
    {
        match &self.b {
            None => Err(ArrayKind::Syntax),
            Some(b) if self.numbers.len() == b.len() => Ok(Next::End),
            Some(_) => Err(ArrayKind::Lengths),
        }
    }
}

/// Carries the value on by a further digit.
fn further(value: u16, digit: u8) -> Result<Next, ArrayKind>
    requires value { value ≤ MAX_ENTRY }
    requires digit { (48 ≤ digit) × (digit ≤ 57) }
    ensures ok { IfOk result (λ next. (next ≡ Next.Digit (value * 10 + (digit - 48)))
        × (value * 10 + (digit - 48) ≤ MAX_ENTRY)) }
    ensures err { IfErr result (λ kind. (kind ≡ ArrayKind.Large)
        × (MAX_ENTRY < value * 10 + (digit - 48))) }
{
    let value = value * 10 + u16::from(digit - b'0');
    if value > MAX_ENTRY {
        return Err(ArrayKind::Large);
    }
    Ok(Next::Digit(value))
}

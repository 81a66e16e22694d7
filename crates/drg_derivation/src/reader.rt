//! A derivation, line by line, over lent bytes.

ghost use Rattle.std.specs.Prelude.{◌≡◌, ◌≢◌, suc, IfOk, IfErr, OnErr, IfSome, IfNone};
ghost use Rattle.drg_derivation.specs.Places.{HandsOut, IsBad, start};

use crate::LineView;
use crate::place::{Place, line_at};
use crate::split::split_line;
use std::marker::Model;

/// A reader that hands out the lines of a derivation, one at a time. Takes no memory.
#[derive(Debug, Drop)]
pub struct LineReader<'a> {
    rest: &'a [u8],
    place: Place,
    line: u64,
}

impl<'a> Model for LineReader<'a> {
    ghost use Rattle.std.specs.Prelude.{◌+◌, ◌<◌, ◌^◌, length};
    ghost use Rattle.drg_derivation.specs.Places.{Reading};

    ghost Value = { Reading };

    ghost view = { λ r. record { place = r.place; rest = r.rest.now; line = r.line } };

    ghost invariant = { λ r. r.line + length r.rest.now + 1 < 2 ^ 64 };
}

impl<'a> LineReader<'a> {
    /// A reader before the first line.
    pub fn new(bytes: &'a [u8]) -> LineReader<'a>
        ensures { result ≡ start bytes.now }
    {
        LineReader {
            rest: bytes,
            place: Place::Version,
            line: 0,
        }
    }

    /// The next line, or None past the `end` line. Where the bytes don't go on with a line that
    /// stands at its place, the number of that line, counted from 1, and so again at each further
    /// call.
    pub fn next(&mut self) -> Result<Option<LineView<'a>>, u64>
        ensures line { IfOk result
            (λ found. IfSome found (λ line. HandsOut self.old line self.new)) }
        ensures over { IfOk result (λ found. IfNone found (self.old.place ≡ Place.After)) }
        ensures still { IfOk result (λ found. IfNone found (self.new ≡ self.old)) }
        ensures refused { IfErr result (λ number. number ≡ suc self.old.line) }
        ensures bad { OnErr result (IsBad self.old.place self.old.rest) }
        ensures unchanged { OnErr result (self.new ≡ self.old) }
        ensures going { OnErr result (self.old.place ≢ Place.After) }
    {
        if self.place == Place::After {
            return Ok(None);
        }
        let number = self.line + 1;
        let Some((text, rest)) = split_line(self.rest) else {
            return Err(number);
        };
        let Some((line, place)) = line_at(self.place, text) else {
            return Err(number);
        };
        self.rest = rest;
        self.place = place;
        self.line = number;
        Ok(Some(line))
    }

    /// The bytes after the lines that were handed out.
    pub fn rest(&self) -> &'a [u8]
        ensures { result.now ≡ self.now.rest }
    {
        self.rest
    }
}

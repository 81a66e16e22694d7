ghost use Rattle.std.specs.Prelude.{◌≡◌, ◌<◌, ◌≤◌, ◌+◌, ◌^◌, ◌++◌, ◌↔◌, [], Some, None, min, IsTrue, IsErr, OnOk, OnErr, IfOk, IfSome, IfNone, take, drop, length, unwrap_or, if◌then◌else◌};
ghost use Rattle.std.specs.Io.{WritesAtMost};
ghost use Rattle.std.specs.Io.KnownBytes.{ReadConsumes};
ghost use Rattle.drg_outside.specs.Causes.{next_count, HasCause};
ghost use Rattle.drg_outside.specs.Files.{content_of, Opens, OpenHasCause};
ghost use Rattle.drg_outside.specs.Memory.{files_of, content_at, is_chosen, open_fails, read_fails, read_count, write_fails, write_count};

use crate::{Failed, Inputs, Sink};
use std::alloc::{AllocError, Global};
use std::marker::Model;

/// Inputs in memory that tell their names and bytes, and whose calls fail where it was asked for.
///
/// A read gives at most `most` bytes. The calls of `open` and `read` are numbered together from 1,
/// and those whose numbers stand in `fails` fail. All counts stop at the last value of a `u64`.
#[derive(Drop)]
pub struct MemInputs {
    entries: Vec<(String, Vec<u8>)>,
    most: usize,
    fails: Vec<u64>,
    opened: Option<(usize, usize)>,
    calls: u64,
    open_faults: u64,
    read_faults: u64,
}

impl Model for MemInputs {
    ghost use Rattle.std.specs.Prelude.{◌<◌};
    ghost use Rattle.drg_outside.specs.Memory.{MemoryFiles, files_of, rest_of};

    ghost Value = { MemoryFiles };

    ghost view = { λ s. record {
      files = files_of s.entries.items;
      left = rest_of (files_of s.entries.items) s.opened;
      most = s.most;
      fails = s.fails.items;
      calls = s.calls;
      open_faults = s.open_faults;
      read_faults = s.read_faults;
    } };

    ghost invariant = { λ s. 0 < s.most };
}

impl MemInputs {
    /// Inputs of these files, each a name and its bytes, of which none is open yet. The first file
    /// of a name counts.
    pub fn new(files: Vec<(String, Vec<u8>)>, most: usize, fails: Vec<u64>) -> MemInputs
        requires { 1 ≤ most }
        ensures { result ≡ record {
          files = files_of files.items;
          left = [];
          most = most;
          fails = fails.items;
          calls = 0;
          open_faults = 0;
          read_faults = 0;
        } }
    {
        MemInputs {
            entries: files,
            most,
            fails,
            opened: None,
            calls: 0,
            open_faults: 0,
            read_faults: 0,
        }
    }
}

impl Inputs for MemInputs {
    ghost files = { λ s. Some s.files };

    ghost left = { λ s. Some s.left };

    ghost open_faults = { λ s. s.open_faults };

    ghost read_faults = { λ s. s.read_faults };

    /// Fails exactly where the call's number is chosen, which raises the count, or the name isn't
    /// there, which doesn't.
    fn open(&mut self, name: &str) -> Result<(), Failed>
        ensures fails { IsErr result ↔ IsTrue (open_fails self.old name.now) }
        ensures ok { OnOk result (self.new ≡ record self.old {
          left = unwrap_or (content_of name.now self.old.files) [];
          calls = next_count self.old.calls;
        }) }
        ensures err { OnErr result (self.new ≡ record self.old {
          left = [];
          calls = next_count self.old.calls;
          open_faults = if is_chosen self.old.fails self.old.calls
              then next_count self.old.open_faults
              else self.old.open_faults;
        }) }

        // As at every Inputs.
        ensures bytes { Opens (Some self.old.files) (Some self.new.left) name.now result }
        ensures cause { OpenHasCause
            self.old.open_faults self.new.open_faults (Some self.old.files) name.now result }
    {
        self.opened = None;
        self.calls = self.calls.saturating_add(1);
        if self.fails.contains(&self.calls) {
            self.open_faults = self.open_faults.saturating_add(1);
            return Err(Failed);
        }
        match place_of(&self.entries, name) {
            Some(place) => {
                self.opened = Some((place, 0));
                Ok(())
            }
            None => Err(Failed),
        }
    }

    /// Fails exactly where the call's number is chosen. Else it gives the lesser of `most`, `buf`
    /// and what is left.
    fn read(&mut self, buf: &mut [u8]) -> Result<usize, Failed>
        ensures fails { IsErr result ↔ IsTrue (read_fails self.old) }
        ensures count { IfOk result (λ n. n ≡ read_count self.old (length buf.old)) }
        ensures front { IfOk result (λ n. buf.new ≡ take n self.old.left ++ drop n buf.old) }
        ensures ok { IfOk result (λ n. self.new ≡ record self.old {
          left = drop n self.old.left;
          calls = next_count self.old.calls;
        }) }
        ensures err { OnErr result (self.new ≡ record self.old {
          calls = next_count self.old.calls;
          read_faults = next_count self.old.read_faults;
        }) }
        ensures same_buffer { OnErr result (buf.new ≡ buf.old) }

        // As at every Inputs.
        ensures bytes { ReadConsumes (Some self.old.left) (Some self.new.left) result buf.new }
        ensures cause { HasCause self.old.read_faults self.new.read_faults result }
    {
        self.calls = self.calls.saturating_add(1);
        if self.fails.contains(&self.calls) {
            self.read_faults = self.read_faults.saturating_add(1);
            return Err(Failed);
        }
        let Some((place, done)) = self.opened else {
            return Ok(0);
        };
        let rest = rest_from(&self.entries, place, done);
        let count = rest.len().min(buf.len()).min(self.most);
        buf[..count].copy_from_slice(&rest[..count]);
        self.opened = Some((place, done + count));
        Ok(count)
    }
}

/// The place of the first file of this name.
fn place_of(entries: &[(String, Vec<u8>)], name: &str) -> Option<usize>
    ensures found { IfSome result (λ place. content_of name.now (files_of entries.now)
        ≡ Some (content_at (files_of entries.now) place)) }
    ensures missing { IfNone result (content_of name.now (files_of entries.now) ≡ None) }
{
    for (place, entry) in entries.iter().enumerate() {
        if entry.0.as_str() == name {
            return Some(place);
        }
    }
    None
}

/// What is left of the file in this place, of which so many bytes were read.
fn rest_from(entries: &[(String, Vec<u8>)], place: usize, done: usize) -> &[u8]
    ensures rest { result.now ≡ drop done (content_at (files_of entries.now) place) }
    ensures fits { done + length result.now < 2 ^ 64 }
{
    if place >= entries.len() {
        return &[];
    }
    let content = entries[place].1.as_slice();
    if done <= content.len() {
        &content[done..]
    } else {
        &[]
    }
}

/// A sink in memory that tells its bytes, has room for so many of them, and whose writes fail where
/// it was asked for.
///
/// A write takes at most `most` bytes. The writes are numbered from 1, and those whose numbers
/// stand in `fails` fail. Both counts stop at the last value of a `u64`.
#[derive(Drop)]
pub struct MemSink {
    bytes: Vec<u8>,
    room: usize,
    most: usize,
    fails: Vec<u64>,
    calls: u64,
    faults: u64,
}

impl Model for MemSink {
    ghost use Rattle.std.specs.Prelude.{◌≤◌, ◌<◌, vec_len, vec_capacity};
    ghost use Rattle.drg_outside.specs.Memory.{MemoryBytes};

    ghost Value = { MemoryBytes };

    ghost view = { λ s. record {
      bytes = s.bytes.items;
      room = s.room;
      most = s.most;
      fails = s.fails.items;
      calls = s.calls;
      faults = s.faults;
    } };

    ghost invariant = { λ s. (0 < s.most) × (vec_len s.bytes ≤ s.room)
        × (s.room ≤ vec_capacity s.bytes) };
}

impl MemSink {
    /// An empty sink. It takes the memory for `room` bytes at once: its writes take none.
    pub fn new(
        alloc: Global,
        room: usize,
        most: usize,
        fails: Vec<u64>,
    ) -> Result<MemSink, AllocError>
        requires { 1 ≤ most }
        ensures { IfOk result (λ s. s ≡ record {
          bytes = [];
          room = room;
          most = most;
          fails = fails.items;
          calls = 0;
          faults = 0;
        }) }
    {
        Ok(MemSink {
            bytes: Vec::with_capacity(alloc, room)?,
            room,
            most,
            fails,
            calls: 0,
            faults: 0,
        })
    }

    /// The bytes written so far.
    pub fn written(&self) -> &[u8]
        ensures { result.now ≡ self.now.bytes }
    {
        self.bytes.as_slice()
    }
}

impl Sink for MemSink {
    ghost bytes = { λ s. Some s.bytes };

    ghost faults = { λ s. s.faults };

    /// Fails exactly where the write's number is chosen, or the piece isn't empty and the sink is
    /// full. Else it takes the lesser of `most`, the piece and the room that is left.
    fn write(&mut self, piece: &[u8]) -> Result<usize, Failed>
        ensures fails { IsErr result ↔ IsTrue (write_fails self.old piece.now) }
        ensures count { IfOk result (λ n. n ≡ write_count self.old piece.now) }
        ensures ok { IfOk result (λ n. self.new ≡ record self.old {
          bytes = self.old.bytes ++ take n piece.now;
          calls = next_count self.old.calls;
        }) }
        ensures err { OnErr result (self.new ≡ record self.old {
          calls = next_count self.old.calls;
          faults = next_count self.old.faults;
        }) }

        // As at every Sink.
        ensures bound { WritesAtMost result piece.now }
        ensures progress { 0 < length piece.now → IfOk result (λ n. 0 < n) }
        ensures cause { HasCause self.old.faults self.new.faults result }
    {
        self.calls = self.calls.saturating_add(1);
        let spare = self.room - self.bytes.len();
        let is_refused = spare == 0 && !piece.is_empty();
        let count = piece.len().min(spare).min(self.most);
        if is_refused || self.fails.contains(&self.calls) {
            self.faults = self.faults.saturating_add(1);
            return Err(Failed);
        }
        match self.bytes.extend_from_slice(&piece[..count]) {
            Ok(()) => Ok(count),
            Err(_) => unreachable!(),
        }
    }
}

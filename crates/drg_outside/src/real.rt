ghost use Rattle.std.specs.Prelude.{◌≡◌, ◌<◌, IfOk, length, None};
ghost use Rattle.std.specs.Io.{ReadsAtMost, WritesAtMost};
ghost use Rattle.std.specs.Io.KnownBytes.{ReadConsumes, WriteAppends};
ghost use Rattle.drg_outside.specs.Causes.{HasCause};
ghost use Rattle.drg_outside.specs.Files.{OpenHasCause};
ghost use Rattle.drg_outside.specs.Real.{CountsFaults};

use crate::{Failed, Inputs, Sink};
use std::io::{Read, Write};
use std::marker::Model;
use std::rt::Files;
use std::{fs, io};

/// Files, named by their paths. Of names and bytes nothing is told.
///
/// Each `Err` raises the count of its call. Once a count stands at its last value, that call fails
/// for good.
#[derive(Drop)]
pub struct RealInputs<'a, R: Files> {
    rt: &'a R,
    file: Option<R::File>,
    open_faults: u64,
    read_faults: u64,
}

// Contracts see the counts of its faults alone.
impl<'a, R: Files> Model for RealInputs<'a, R> {
    ghost use Rattle.drg_outside.specs.Real.{FileFaults};

    ghost Value = { FileFaults };

    ghost view = { λ s. record { open_faults = s.open_faults; read_faults = s.read_faults } };
}

impl<'a, R: Files> RealInputs<'a, R> {
    /// Inputs of which none is open yet.
    pub fn new(rt: &'a R) -> Self
        ensures { result ≡ record { open_faults = 0; read_faults = 0 } }
    {
        RealInputs {
            rt,
            file: None,
            open_faults: 0,
            read_faults: 0,
        }
    }
}

impl<R: Files> Inputs for RealInputs<'_, R> {
    ghost files = { λ _. None };

    ghost left = { λ _. None };

    ghost open_faults = { λ s. s.open_faults };

    ghost read_faults = { λ s. s.read_faults };

    /// Opens the file at this path. A folder may open; its first read fails then.
    fn open(&mut self, name: &str) -> Result<(), Failed>
        ensures counts { CountsFaults self.old.open_faults self.new.open_faults result }
        ensures other_count { self.new.read_faults ≡ self.old.read_faults }

        // As at every Inputs.
        ensures cause { OpenHasCause
            self.old.open_faults self.new.open_faults None name.now result }
    {
        self.file = None;
        if self.open_faults < u64::MAX {
            if let Ok(file) = fs::open(self.rt, name) {
                self.file = Some(file);
                return Ok(());
            }
        }
        self.open_faults = self.open_faults.saturating_add(1);
        Err(Failed)
    }

    fn read(&mut self, buf: &mut [u8]) -> Result<usize, Failed>
        ensures counts { CountsFaults self.old.read_faults self.new.read_faults result }
        ensures other_count { self.new.open_faults ≡ self.old.open_faults }

        // As at every Inputs.
        ensures bound { ReadsAtMost result buf.new }
        ensures bytes { ReadConsumes None None result buf.new }
        ensures cause { HasCause self.old.read_faults self.new.read_faults result }
    {
        if self.read_faults < u64::MAX {
            let Some(file) = &mut self.file else {
                return Ok(0);
            };
            if let Ok(count) = file.read(buf) {
                return Ok(count);
            }
        }
        self.read_faults = self.read_faults.saturating_add(1);
        Err(Failed)
    }
}

/// Standard output. Of the bytes nothing is told.
///
/// Each `Err`, and each write that takes nothing of a piece that isn't empty, raises the count.
/// Once the count stands at its last value, every write fails.
#[derive(Drop)]
pub struct RealSink<'a, R: Print> {
    rt: &'a R,
    faults: u64,
}

// Contracts see the count of its faults alone.
impl<'a, R: Print> Model for RealSink<'a, R> {
    ghost use Rattle.std.specs.Prelude.{ℕ};

    ghost Value = { ℕ };

    ghost view = { λ s. s.faults };
}

impl<'a, R: Print> RealSink<'a, R> {
    /// A sink that has written nothing yet.
    pub fn new(rt: &'a R) -> Self
        ensures { result ≡ 0 }
    {
        RealSink { rt, faults: 0 }
    }
}

impl<R: Print> Sink for RealSink<'_, R> {
    ghost bytes = { λ _. None };

    ghost faults = { λ s. s };

    fn write(&mut self, piece: &[u8]) -> Result<usize, Failed>
        ensures counts { CountsFaults self.old self.new result }

        // As at every Sink.
        ensures bound { WritesAtMost result piece.now }
        ensures progress { 0 < length piece.now → IfOk result (λ n. 0 < n) }
        ensures appended { WriteAppends None None result piece.now }
        ensures cause { HasCause self.old self.new result }
    {
        if self.faults < u64::MAX {
            match io::writer(self.rt).write(piece) {
                Ok(count) if count > 0 || piece.is_empty() => return Ok(count),
                _ => {}
            }
        }
        self.faults = self.faults.saturating_add(1);
        Err(Failed)
    }
}

ghost use Rattle.std.specs.Prelude.{◌≡◌, ℕ, List, Option};
ghost use Rattle.std.specs.Io.{ReadsAtMost};
ghost use Rattle.std.specs.Io.KnownBytes.{ReadConsumes};
ghost use Rattle.drg_outside.specs.Causes.{HasCause};
ghost use Rattle.drg_outside.specs.Files.{File, Opens, OpenHasCause};

/// A call to the outside failed. Which kind of fault it was is told by the count that rose.
#[derive(Clone, Copy, Debug, PartialEq, Eq)]
pub struct Failed;

/// Named inputs, of which one at a time is open.
///
/// Names and bytes are `None` where an implementation doesn't tell them; clauses on them then say
/// nothing.
pub trait Inputs {
    /// The files in their order. Where a name stands twice, the first file counts.
    ghost files: { Self → Option (List File) };
    /// The bytes of the open file that haven't been read yet. None are left while no file is open.
    ghost left: { Self → Option (List ℕ) };
    /// How many calls of `open` failed for another cause than a name that isn't there.
    ghost open_faults: { Self → ℕ };
    /// How many calls of `read` failed.
    ghost read_faults: { Self → ℕ };

    /// Opens the named input in place of the one before. After an `Err` no input is open.
    fn open(&mut self, name: &str) -> Result<(), Failed>
        ensures same_files { files self.new ≡ files self.old }
        ensures bytes { Opens (files self.old) (left self.new) name.now result }
        ensures cause { OpenHasCause
            (open_faults self.old) (open_faults self.new) (files self.old) name.now result }
        ensures other_count { read_faults self.new ≡ read_faults self.old };

    /// Puts the next bytes at the front of `buf` and says how many: 0 only where `buf` is empty or
    /// nothing is left.
    fn read(&mut self, buf: &mut [u8]) -> Result<usize, Failed>
        ensures same_files { files self.new ≡ files self.old }
        ensures bound { ReadsAtMost result buf.new }
        ensures bytes { ReadConsumes (left self.old) (left self.new) result buf.new }
        ensures cause { HasCause (read_faults self.old) (read_faults self.new) result }
        ensures other_count { open_faults self.new ≡ open_faults self.old };
}

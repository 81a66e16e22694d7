ghost use Rattle.std.specs.Prelude.{◌≡◌, ◌++◌, OnOk, OnErr};
ghost use Rattle.drg_algebra.specs.Beginnings.{BeginsWith};
ghost use Rattle.drg_quadratic.specs.Quadratic.{value_of, root_of};
ghost use Rattle.drg_quadratic.specs.Text.{value_text, first_text, second_text, sign_text, root_text};

use crate::parts::magnitude;
use crate::quadratic::Quadratic;
use drg_fraction::Field;
use itoa::Buffer;
use std::alloc::AllocError;

impl Quadratic {
    /// Appends the text of a where b is 0, and else those of a, of the sign and the magnitude of b, and
    /// of the root, as in `-1/2+1/2r5`. An a that is 0 is left out, and so is a `+` behind it.
    pub fn write_text(&self, out: &mut Vec<u8>) -> Result<(), AllocError>
        ensures ok { OnOk result (out.new.items
            ≡ out.old.items ++ value_text (root_of self.now) (value_of self.now)) }
        ensures err { OnErr result (BeginsWith (value_text (root_of self.now) (value_of self.now))
            out.old.items out.new.items) }
    {
        if self.b().num() == 0 {
            return self.a().write_text(out);
        }
        self.write_first(out)?;
        self.write_second(out)
    }

    // The rational part, left out where it is 0.
    fn write_first(&self, out: &mut Vec<u8>) -> Result<(), AllocError>
        ensures ok { OnOk result
            (out.new.items ≡ out.old.items ++ first_text (value_of self.now).a) }
        ensures err { OnErr result
            (BeginsWith (first_text (value_of self.now).a) out.old.items out.new.items) }
    {
        if self.a().num() == 0 {
            return Ok(());
        }
        self.a().write_text(out)
    }

    // The sign and the magnitude of b, and the root.
    fn write_second(&self, out: &mut Vec<u8>) -> Result<(), AllocError>
        ensures ok { OnOk result (out.new.items
            ≡ out.old.items ++ second_text (root_of self.now) (value_of self.now)) }
        ensures err { OnErr result (BeginsWith (second_text (root_of self.now) (value_of self.now))
            out.old.items out.new.items) }
    {
        self.write_sign(out)?;
        magnitude(self.b()).write_text(out)?;
        self.write_root(out)
    }

    // The sign of b, left out where it is `+` and nothing stands before it.
    fn write_sign(&self, out: &mut Vec<u8>) -> Result<(), AllocError>
        ensures ok { OnOk result (out.new.items ≡ out.old.items ++ sign_text (value_of self.now)) }
        ensures err { OnErr result (out.new.items ≡ out.old.items) }
    {
        if self.b().num() < 0 {
            out.push(b'-')?;
        } else if self.a().num() != 0 {
            out.push(b'+')?;
        }
        Ok(())
    }

    // The letter `r` and the root.
    fn write_root(&self, out: &mut Vec<u8>) -> Result<(), AllocError>
        ensures ok { OnOk result (out.new.items ≡ out.old.items ++ root_text (root_of self.now)) }
        ensures err { OnErr result
            (BeginsWith (root_text (root_of self.now)) out.old.items out.new.items) }
    {
        out.push(b'r')?;
        let mut buffer = Buffer::new();
        out.extend_from_slice(buffer.format(self.root()).as_bytes())
    }
}

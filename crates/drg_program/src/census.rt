ghost use Rattle.std.specs.Prelude.{◌≡◌, ◌++◌, [], OnOk, IfOk, codes};
ghost use Rattle.drg_array.specs.Text.{array_text};
ghost use Rattle.drg_census.specs.Census.{IsWithinLimits};
ghost use Rattle.drg_program.specs.Census.{census_text as the_census_text};
ghost use Rattle.drg_program.specs.Run.{Finds};
ghost use Rattle.drg_words.specs.declared.command.Command.TheVariants.{Census as CensusCommand};

use crate::Status;
use crate::output::{EarlyRefusal, Output};
use drg_array::Array;
use drg_census::{census, census_law};
use std::alloc::{AllocError, Global};

/// The arrays of diameter d, valency k and n vertices that pass tests 1 to 9.
pub fn arrays_of(alloc: Global, d: u8, k: u16, n: u32) -> Result<Output, EarlyRefusal>
    requires { IsWithinLimits d k n }
    ensures { Finds (CensusCommand d k n) [] result }
{
    census_law();
    let arrays = census(alloc, d, k, n)?;
    let text = census_text(alloc, &arrays)?;
    Ok(Output {
        status: Status::Done,
        text,
    })
}

/// The arrays, each in a line of its own. The one error is want of memory.
fn census_text(alloc: Global, arrays: &[Array]) -> Result<Vec<u8>, AllocError>
    ensures { IfOk result (λ text. text.items ≡ the_census_text arrays.now) }
{
    let mut text = Vec::new(alloc);
    'arrays: for array in arrays {
        write_line(array, &mut text)?;
    }
    Ok(text)
}

/// Appends the text of the array and a line end.
fn write_line(array: &Array, out: &mut Vec<u8>) -> Result<(), AllocError>
    ensures { OnOk result (out.new.items ≡ out.old.items ++ (array_text array.now ++ codes "\n")) }
{
    array.write_text(out)?;
    out.push(b'\n')?;
    Ok(())
}

// The bytes of an input.
ghost use Rattle.std.specs.Prelude.{◌≡◌, IfOk, IfSome, option_map, take};

use crate::operands::MAX_SCRIPT;
use arrayvec::ArrayVec;
use std::io;
use std::io::Read;

// A script: the input's bytes, up to as many as a script may have.
pub fn read<R: Read + Drop>(input: R) -> io::Result<ArrayVec<u8, MAX_SCRIPT>>
    ensures { IfOk result (λ script. IfSome (option_map (take 131072) (R.remaining input)) (λ bytes. script.items ≡ bytes)) }
{
    let mut script = ArrayVec::new();
    io::copy(&mut input.take(MAX_SCRIPT as u64), &mut script)?;
    Ok(script)
}

//! What each line of a refusal has.
ghost use Rattle.std.specs.Prelude.{◌≡◌, ◌++◌, ◌∷◌, OnOk, codes, decimal};

use itoa::Buffer;
use sim_base::NoMemory;

/// Puts a number in decimal behind the text.
pub(crate) fn push_decimal(text: &mut Vec<u8>, number: u32) -> Result<(), NoMemory>
    ensures { OnOk result (text.new.items ≡ text.old.items ++ decimal number) }
{
    let mut buffer = Buffer::new();
    text.extend_from_slice(buffer.format(number).as_bytes())?;
    Ok(())
}

/// Puts the beginning of a line behind the text: the number and the name of the refusal.
pub(crate) fn push_head(text: &mut Vec<u8>, number: u8, name: &str) -> Result<(), NoMemory>
    ensures { OnOk result (text.new.items ≡ text.old.items ++ codes "refused " ++ decimal number ++ 32 ∷ name.now) }
{
    text.extend_from_slice(b"refused ")?;
    push_decimal(text, u32::from(number))?;
    text.push(b' ')?;
    text.extend_from_slice(name.as_bytes())?;
    Ok(())
}

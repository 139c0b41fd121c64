//! Names that plus signs join in a value, since commas part the values of a list.
ghost use Rattle.std.specs.Prelude.{◌≡◌, IfOk};
ghost use Rattle.notation.specs.Range.{comma_for, with_commas};

use std::alloc::{AllocError, Global};

// A comma for a plus sign, else the same byte.
fn comma_for(byte: u8) -> u8
    ensures { result ≡ comma_for byte }
{
    if byte == b'+' { b',' } else { byte }
}

/// A copy with commas in the places of plus signs.
pub(crate) fn with_commas(alloc: Global, text: &[u8]) -> Result<Vec<u8>, AllocError>
    ensures { IfOk result (λ made. made.items ≡ with_commas text.now) }
{
    let mut made = Vec::new(alloc);
    for byte in text {
        made.push(comma_for(*byte))?;
    }
    Ok(made)
}

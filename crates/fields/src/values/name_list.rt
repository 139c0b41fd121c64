//! Lists of names, separated by commas, of which each stands for a set of bits.
ghost use Rattle.std.specs.Prelude.{◌≡◌, false, IsTrue, option_map};
ghost use Rattle.std.specs.Str.{str_eq_ignore_ascii_case};
ghost use Rattle.fields.specs.values.NameList.{row_named, number_named, set_listed, names_listed};
ghost use Rattle.fields.specs.steps.Tables.{rows_of, all_have_names};
ghost use Rattle.fields.specs.text.Tap.{has_failed, Puts};

use crate::text::cut::cut_at;
use crate::text::tap::{Tap, WriteFailed};
use bitflags::{Flag, Flags};
use std::io::Write;

// Whether a text is this name in any mix of upper and lower case.
pub(crate) fn is_name(name: &[u8], text: &[u8]) -> bool
    ensures { result ≡ str_eq_ignore_ascii_case name.now text.now }
{
    name.eq_ignore_ascii_case(text)
}

// The name as the table of flags writes it.
fn name_in_table<F: Flags>(text: &[u8]) -> Option<&'static str>
    requires { F.exact }
    ensures { option_map (λ name. name.now) result ≡ option_map (λ row. row.0) (row_named F.table text.now) }
{
    for flag in F::flags() {
        if is_name(flag.name().as_bytes(), text) {
            return Some(flag.name());
        }
    }
    None
}

// The set that a name stands for.
fn set_named<F: Flags>(text: &[u8]) -> Option<F>
    requires exact { F.exact }
    requires named { IsTrue (all_have_names F.table) }
    ensures { option_map F.set_of result ≡ number_named F.table text.now }
{
    F::from_name(name_in_table::<F>(text)?)
}

// The union of the sets that the names of a list stand for.
pub(crate) fn read_names<F: Flags>(text: &[u8]) -> Option<F>
    requires exact { F.exact }
    requires named { IsTrue (all_have_names F.table) }
    ensures { option_map F.set_of result ≡ set_listed F.table text.now }
{
    let mut set = F::empty();
    let mut rest = text;
    while let Some((name, further)) = cut_at(rest, b',') {
        set.insert(set_named(name)?);
        rest = further;
    }
    set.insert(set_named(rest)?);
    Some(set)
}

// Writes the names of those of some flags that a set has, in their order.
pub(crate) fn put_names<F: Flags + Copy, W: Write>(
    set: F,
    flags: &[Flag<F>],
    output: &mut Tap<W>,
) -> Result<(), WriteFailed>
    requires exact { F.exact }
    ensures { Puts W.contents output.old output.new result
        (names_listed (rows_of F.set_of flags.now) (F.set_of set)) }
{
    if output.failed() {
        return Err(WriteFailed);
    }
    let mut separator: &[u8] = b"";
    for flag in flags {
        if set.contains(*flag.value()) {
            output.put_all(&[separator, flag.name().as_bytes()])?;
            separator = b",";
        }
    }
    Ok(())
}

//! The table of options: what the options of a line are read by.
ghost use Rattle.std.specs.Prelude.{◌≡◌, option_map};
ghost use Rattle.std.specs.List.{list_any};
ghost use Rattle.std.specs.Str.{bytes_eq};
ghost use Rattle.dumps.specs.Options.{option_of, extension_of, begun_by_protocol, known_of, number_of};
ghost use Rattle.dumps.specs.Views.{table_in, texts_in, rows_in, row_in, extensions_in, extension_in, names_in, known_in, all_known_in};

use crate::options::row::{ExtensionRow, OptionRow};

/// A name with the number that it stands for, as text.
#[derive(Clone, Copy)]
pub struct NameRow<'a> {
    pub name: &'a [u8],
    pub number: &'a [u8],
}

/// A condition that the program can be given in words of its own.
#[derive(Clone, Copy)]
pub struct KnownCondition<'a> {
    /// The words of the condition with the name of its match, each quoted if it must be, with blanks between.
    pub text: &'a [u8],
    /// The words that ask it.
    pub holds: &'a [&'a [u8]],
    /// The words that ask its opposite.
    pub fails: &'a [&'a [u8]],
}

/// The options, the matches and targets that have them, the names that stand for numbers, and conditions that are known. Everything is
/// lent, so a table with further rows is one over a `Vec` of them.
///
/// `-m` and `-p` are to be the rule's own options, and no other option of its own may ask what the program doesn't
/// read: a match's options alone make conditions, and protocols.
#[derive(Clone, Copy)]
pub struct OptionTable<'a> {
    /// The options; where two rows of one owner have a spelling, the first counts.
    pub options: &'a [OptionRow<'a>],
    /// The matches and targets; where two have a name, the first counts.
    pub extensions: &'a [ExtensionRow<'a>],
    /// The names of ports.
    pub ports: &'a [NameRow<'a>],
    /// The names of types of ICMP that the program doesn't read, as `type` or `type/code`.
    pub icmp_types: &'a [NameRow<'a>],
    /// The conditions that the program is given in words of its own; where two rows have a text, the first counts.
    pub known: &'a [KnownCondition<'a>],
}

impl<'a> OptionTable<'a> {
    /// The same table, with these conditions as those that are known.
    pub fn knowing(self, known: &'a [KnownCondition<'a>]) -> OptionTable<'a>
        ensures { table_in result ≡ record (table_in self.entry) { known = all_known_in known.now } }
    {
        OptionTable {
            options: self.options,
            extensions: self.extensions,
            ports: self.ports,
            icmp_types: self.icmp_types,
            known,
        }
    }
}

// Whether a text is one of some.
pub(crate) fn is_among(text: &[u8], texts: &[&[u8]]) -> bool
    ensures { result ≡ list_any (bytes_eq text.now) (texts_in texts.now) }
{
    for one in texts {
        if text == *one {
            return true;
        }
    }
    false
}

// The first option of an owner that is spelled so.
pub(crate) fn option_in<'a>(
    options: &[OptionRow<'a>],
    owner: &[u8],
    spelling: &[u8],
) -> Option<OptionRow<'a>>
    ensures { option_map row_in result ≡ option_of (rows_in options.now) owner.now spelling.now }
{
    for row in options {
        if row.owner == owner && is_among(spelling, row.names) {
            return Some(*row);
        }
    }
    None
}

// The first match or target of a name.
pub(crate) fn extension_in<'a>(
    extensions: &[ExtensionRow<'a>],
    name: &[u8],
) -> Option<ExtensionRow<'a>>
    ensures { option_map extension_in result ≡ extension_of (extensions_in extensions.now) name.now }
{
    for row in extensions {
        if row.name == name {
            return Some(*row);
        }
    }
    None
}

// The first match that the word of a protocol begins by itself.
pub(crate) fn begun_by_protocol<'a>(
    extensions: &[ExtensionRow<'a>],
    protocol: &[u8],
) -> Option<&'a [u8]>
    ensures { option_map (λ name. name.now) result ≡ begun_by_protocol (extensions_in extensions.now) protocol.now }
{
    for row in extensions {
        if is_among(protocol, row.protocols) {
            return Some(row.name);
        }
    }
    None
}

// The first condition of a text that is known.
pub(crate) fn known_of<'a>(rows: &[KnownCondition<'a>], text: &[u8]) -> Option<KnownCondition<'a>>
    ensures { option_map known_in result ≡ known_of (all_known_in rows.now) text.now }
{
    for row in rows {
        if row.text == text {
            return Some(*row);
        }
    }
    None
}

// The number of the first row of a name.
pub(crate) fn number_of<'a>(rows: &[NameRow<'a>], name: &[u8]) -> Option<&'a [u8]>
    ensures { option_map (λ number. number.now) result ≡ number_of (names_in rows.now) name.now }
{
    for row in rows {
        if row.name == name {
            return Some(row.number);
        }
    }
    None
}

//! The rows of the table as they are kept: read from text, and lent as a table.
ghost use Rattle.std.specs.Prelude.{◌≡◌, ◌≤◌, length, take, drop, option_map};
ghost use Rattle.dumps.specs.Known.{Written, own_owner, written_by, kind_of, kind_refusal, name_refusal, written_in};

use crate::options::kept::{KeptExtension, KeptOption, KnownOptions, NO_WORDS, Span};
use crate::options::refusal::{OptionFault, OptionRefusal, add_refused};
use crate::options::row::{ExtensionRow, Kind, Lasting, OptionRow, Role};
use crate::options::rows::{EXTENSIONS, OPTIONS};
use crate::options::table::{NameRow, OptionTable, is_among};
use crate::options::table_line::{extension_of, option_of};
use crate::services::{icmp_type_names, port_names};
use fields::{cut_at, read_number_to};
use std::alloc::{AllocError, Global};

/// The rows of a table, lent.
#[derive(Drop)]
pub struct Rows<'a> {
    options: Vec<OptionRow<'a>>,
    extensions: Vec<ExtensionRow<'a>>,
    ports: Vec<NameRow<'a>>,
    icmp_types: Vec<NameRow<'a>>,
}

// The words of a span.
fn spanned<'a>(words: &'a [&'a [u8]], span: Span) -> &'a [&'a [u8]]
    requires { span.to ≤ length words.now }
    ensures { result.now ≡ drop span.from (take span.to words.now) }
{
    match words.get(span.from..span.to) {
        Some(some) => return some,
        None => return &[],
    }
}

// Whose an option is: one that begins a match, or gives a protocol, is the rule's own.
fn owner_in(role: Role, owner: &[u8]) -> &[u8]
    ensures { result.now ≡ own_owner role owner.now }
{
    match role {
        Role::Match | Role::Protocol => return b"".as_slice(),
        _ => return owner,
    }
}

// An option to be added: the name of its match, its spelling, and how many values follow.
#[derive(Clone, Copy)]
struct WrittenOption<'a> {
    name: &'a [u8],
    option: &'a [u8],
    values: usize,
}

// The option that a text `MATCH OPTION N` writes.
#[tactic(auto, unfolding(crate::specs::Known::written_by))]
fn written_by(text: &[u8]) -> Option<WrittenOption<'_>>
    ensures { option_map written_in result ≡ written_by text.now }
{
    let (name, rest) = cut_at(text, b' ')?;
    let (option, number) = cut_at(rest, b' ')?;
    let values = read_number_to(number, 9)?;
    if name.is_empty() || option.is_empty() {
        return None;
    }
    Some(WrittenOption {
        name,
        option,
        values: values as usize,
    })
}

// The kind of the first match or target of a name.
fn kind_named(kept: &[KeptExtension<'_>], name: &[u8]) -> Option<Kind>
    ensures { result ≡ kind_of kept.now name.now }
{
    for one in kept {
        if one.name == name {
            return Some(one.kind);
        }
    }
    None
}

// Why what has this kind gets no option that asks a condition.
fn kind_refusal(kind: Kind) -> Option<OptionRefusal>
    ensures { result ≡ kind_refusal kind }
{
    match kind {
        Kind::Known { .. } => Some(OptionRefusal::MatchIsRead),
        Kind::Foreign(_) => None,
        Kind::Ends | Kind::Logs | Kind::Passes | Kind::Decides { .. } => Some(
            OptionRefusal::NameOfTarget,
        ),
    }
}

// Why a name gets none.
fn name_refusal(kind: Option<Kind>) -> Option<OptionRefusal>
    ensures { result ≡ name_refusal kind }
{
    match kind {
        None => None,
        Some(kind) => kind_refusal(kind),
    }
}

impl<'a> KnownOptions<'a> {
    ghost use Rattle.std.specs.Prelude.{◌≡◌, ◌⊎◌, true, false, ◌++◌, ◌∷◌, [], IfOk, IfErr, IfSome, OnOk};
    ghost use Rattle.std.specs.List.{list_any};
    ghost use Rattle.dumps.specs.Conditions.{AreOwnStarts, HasOwnStarts};
    ghost use Rattle.dumps.specs.Known.{IsAdded, IsAddRefused, IsMatchAdded, IsMatchRefused, AreLent, add_refused_in, added_row, is_spelled, known_rows, known_extensions, with_match, table_of};
    ghost use Rattle.dumps.specs.Options.{Row, Extension};
    ghost use Rattle.dumps.specs.TableLines.{AreOptionLines, AreExtensionLines, AreWordsKept, IsOptionLine, IsExtensionLine, IsOptionLast, IsExtensionLast, IsNoOption, IsNoExtension};
    ghost use Rattle.dumps.specs.Views.{rows_in, extensions_in};

    /// The options of iptables 1.8.9 that rules of the table `filter` may have.
    ///
    /// # Errors
    ///
    /// That memory was refused; or the line of the table that is no row.
    pub fn new(alloc: Global) -> Result<KnownOptions<'a>, OptionFault>
        ensures options { IfOk result (λ known. AreOptionLines OPTIONS.now (known_rows known)) }
        ensures extensions { IfOk result (λ known. AreExtensionLines EXTENSIONS.now (known_extensions known)) }
        ensures refused { IfErr result (λ fault. IfSome (add_refused_in fault) (λ why. IsNoOption OPTIONS.now why ⊎ IsNoExtension EXTENSIONS.now why)) }
    {
        let mut known = KnownOptions {
            alloc,
            words: Vec::new(alloc),
            options: Vec::new(alloc),
            extensions: Vec::new(alloc),
        };
        known.add_options(OPTIONS)?;
        known.add_extensions(EXTENSIONS)?;
        Ok(known)
    }

    // Adds the options of a text.
    fn add_options(&mut self, text: &'a str) -> Result<(), OptionFault>
        requires { known_rows self.old ≡ [] }
        ensures options { OnOk result (AreOptionLines text.now (known_rows self.new)) }
        ensures same { OnOk result (known_extensions self.new ≡ known_extensions self.old) }
        ensures refused { IfErr result (λ fault. IfSome (add_refused_in fault) (IsNoOption text.now)) }
    {
        for line in text.lines() {
            if !self.add_option_line(line)? {
                return Err(add_refused(self.alloc, OptionRefusal::NotARow, line.as_bytes()));
            }
        }
        Ok(())
    }

    // Adds the matches and targets of a text.
    fn add_extensions(&mut self, text: &'a str) -> Result<(), OptionFault>
        requires { known_extensions self.old ≡ [] }
        ensures extensions { OnOk result (AreExtensionLines text.now (known_extensions self.new)) }
        ensures same { OnOk result (known_rows self.new ≡ known_rows self.old) }
        ensures refused { IfErr result (λ fault. IfSome (add_refused_in fault) (IsNoExtension text.now)) }
    {
        for line in text.lines() {
            if !self.add_extension_line(line)? {
                return Err(add_refused(self.alloc, OptionRefusal::NotARow, line.as_bytes()));
            }
        }
        Ok(())
    }

    // Keeps the words of a line.
    fn keep(&mut self, line: &'a str) -> Result<Span, AllocError>
        ensures { IfOk result (AreWordsKept line.now self.old self.new) }
    {
        let from = self.words.len();
        for word in line.split(' ') {
            self.words.push(word.as_bytes())?;
        }
        Ok(Span {
            from,
            to: self.words.len(),
        })
    }

    // Adds the option of a line. The answer is whether the line is a row.
    fn add_option_line(&mut self, line: &'a str) -> Result<bool, AllocError>
        ensures last { IfOk result (λ is_row. is_row ≡ true → IsOptionLast line.now self.old self.new) }
        ensures none { IfOk result (λ is_row. is_row ≡ false → (row : Row) → IsOptionLine line.now row → ⊥) }
    {
        let span = self.keep(line)?;
        let (_, words) = self.words.as_slice().split_at(span.from);
        let Some(kept) = option_of(words, span) else {
            return Ok(false);
        };
        self.options.push(kept)?;
        Ok(true)
    }

    // Adds the match or target of a line, in the same way.
    fn add_extension_line(&mut self, line: &'a str) -> Result<bool, AllocError>
        ensures last { IfOk result (λ is_row. is_row ≡ true → IsExtensionLast line.now self.old self.new) }
        ensures none { IfOk result (λ is_row. is_row ≡ false → (row : Extension) → IsExtensionLine line.now row → ⊥) }
    {
        let span = self.keep(line)?;
        let (_, words) = self.words.as_slice().split_at(span.from);
        let Some(kept) = extension_of(words, span) else {
            return Ok(false);
        };
        self.extensions.push(kept)?;
        Ok(true)
    }

    // Whether the rule, or the match of a name, has an option that is spelled so.
    fn has_option(&self, name: &[u8], option: &[u8]) -> bool
        ensures { result ≡ list_any (is_spelled name.now option.now) (known_rows self.now) }
    {
        for kept in &self.options {
            let owner = owner_in(kept.role, kept.owner);
            let is_asked = owner.is_empty() || owner == name;
            if is_asked && is_among(option, spanned(self.words.as_slice(), kept.names)) {
                return true;
            }
        }
        false
    }

    /// Adds an option that the table lacks, written as `MATCH OPTION N`: N values follow the option, at most 9, and it asks a
    /// condition. After `!` it asks another one, since nobody says that this is the opposite. A match that the table lacks is added
    /// with it: each place has a condition of its own.
    ///
    /// # Errors
    ///
    /// Why none is added, with the word that is refused.
    pub fn add(&mut self, text: &'a [u8]) -> Result<(), OptionFault>
        ensures added { OnOk result (IsAdded text.now self.old self.new) }
        ensures refused { IfErr result (λ fault. IfSome (add_refused_in fault) (IsAddRefused text.now self.old)) }
    {
        let Some(row) = written_by(text) else {
            return Err(add_refused(self.alloc, OptionRefusal::NotAnOption, text));
        };
        if let Some(why) = name_refusal(kind_named(self.extensions.as_slice(), row.name)) {
            return Err(add_refused(self.alloc, why, row.name));
        }
        if self.has_option(row.name, row.option) {
            return Err(add_refused(self.alloc, OptionRefusal::OptionIsThere, row.option));
        }
        self.add_asking(row)?;
        Ok(())
    }

    /// Adds a match without an option, unless it is there: each place has a condition of its own.
    ///
    /// # Errors
    ///
    /// Why none is added, with the word that is refused.
    pub fn add_match(&mut self, name: &'a [u8]) -> Result<(), OptionFault>
        ensures added { OnOk result (IsMatchAdded name.now self.old self.new) }
        ensures refused { IfErr result (λ fault. IfSome (add_refused_in fault) (IsMatchRefused name.now self.old)) }
    {
        if name.is_empty() {
            return Err(add_refused(self.alloc, OptionRefusal::NotAnOption, name));
        }
        if let Some(why) = name_refusal(kind_named(self.extensions.as_slice(), name)) {
            return Err(add_refused(self.alloc, why, name));
        }
        self.begin(name)?;
        Ok(())
    }

    // Adds a match, where there is no match or target of this name yet.
    fn begin(&mut self, name: &'a [u8]) -> Result<(), AllocError>
        ensures there { OnOk result (known_extensions self.new ≡ with_match name.now (known_extensions self.old)) }
        ensures same { known_rows self.new ≡ known_rows self.old }
    {
        if kind_named(self.extensions.as_slice(), name).is_none() {
            self.extensions.push(KeptExtension {
                name,
                kind: Kind::Foreign(Lasting::Place),
                protocols: NO_WORDS,
                sets: NO_WORDS,
            })?;
        }
        Ok(())
    }

    // Adds an option that asks a condition, and after `!` another one, and its match where there is none yet.
    fn add_asking(&mut self, row: WrittenOption<'a>) -> Result<(), AllocError>
        ensures last { OnOk result (known_rows self.new ≡ known_rows self.old ++ added_row (written_in row.entry) ∷ []) }
        ensures there { OnOk result (known_extensions self.new ≡ with_match row.entry.name.now (known_extensions self.old)) }
    {
        let from = self.words.len();
        self.words.push(row.option)?;
        let to = self.words.len();
        self.options.push(KeptOption {
            owner: row.name,
            names: Span { from, to },
            values: row.values,
            role: Role::Unopposed,
        })?;
        self.begin(row.name)
    }

    // The options, lent.
    fn option_rows(&self, alloc: Global) -> Result<Vec<OptionRow<'_>>, AllocError>
        ensures starts { IfOk result (λ rows. AreOwnStarts (rows_in rows.items)) }
        ensures lent { IfOk result (λ rows. rows_in rows.items ≡ known_rows self.now) }
    {
        let mut rows = Vec::with_capacity(alloc, self.options.len())?;
        for kept in &self.options {
            rows.push(OptionRow {
                owner: owner_in(kept.role, kept.owner),
                names: spanned(self.words.as_slice(), kept.names),
                values: kept.values,
                role: kept.role,
            })?;
        }
        Ok(rows)
    }

    // The matches and targets, lent.
    fn extension_rows(&self, alloc: Global) -> Result<Vec<ExtensionRow<'_>>, AllocError>
        ensures { IfOk result (λ rows. extensions_in rows.items ≡ known_extensions self.now) }
    {
        let mut rows = Vec::with_capacity(alloc, self.extensions.len())?;
        for kept in &self.extensions {
            rows.push(ExtensionRow {
                name: kept.name,
                kind: kept.kind,
                protocols: spanned(self.words.as_slice(), kept.protocols),
                sets: spanned(self.words.as_slice(), kept.sets),
            })?;
        }
        Ok(rows)
    }

    /// The rows of the table, lent, with the names of ports and of types of ICMP.
    ///
    /// # Errors
    ///
    /// `AllocError` where memory was refused.
    pub fn rows(&self, alloc: Global) -> Result<Rows<'_>, AllocError>
        ensures starts { IfOk result (λ rows. HasOwnStarts (table_of rows)) }
        ensures lent { IfOk result (λ rows. AreLent self.now (table_of rows)) }
    {
        Ok(Rows {
            options: self.option_rows(alloc)?,
            extensions: self.extension_rows(alloc)?,
            ports: port_names(alloc)?,
            icmp_types: icmp_type_names(alloc)?,
        })
    }
}

impl<'a> Rows<'a> {
    ghost use Rattle.std.specs.Prelude.{◌≡◌};
    ghost use Rattle.dumps.specs.Known.{table_of};
    ghost use Rattle.dumps.specs.Views.{table_in};

    /// The table of these rows.
    pub fn table(&self) -> OptionTable<'_>
        ensures { table_in result ≡ table_of self.now }
    {
        OptionTable {
            options: self.options.as_slice(),
            extensions: self.extensions.as_slice(),
            ports: self.ports.as_slice(),
            icmp_types: self.icmp_types.as_slice(),
            known: &[],
        }
    }
}

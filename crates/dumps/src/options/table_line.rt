//! The lines of the table, each by its words.
ghost use Rattle.std.specs.Prelude.{◌≡◌, ◌≢◌, ◌+◌, length, IfNone, IfSome};
ghost use Rattle.dumps.specs.Options.{Row, Extension, is_match};
ghost use Rattle.dumps.specs.TableLines.{role_word, kind_word, owner_named, AreOption, AreExtension, IsOptionOf, IsExtensionOf};
ghost use Rattle.dumps.specs.Views.{texts_in};

use crate::options::kept::{KeptExtension, KeptOption, NO_WORDS, Span};
use crate::options::row::{Kind, Lasting, Role};
use fields::read_number_to;

// Each role, and each kind.
const ROLES: [Role; 14] = [
    Role::Own,
    Role::Ports,
    Role::IcmpType,
    Role::Protocol,
    Role::Match,
    Role::Target,
    Role::Asks,
    Role::Unopposed,
    Role::Holds,
    Role::Says,
    Role::Turns,
    Role::AsksOf,
    Role::Counts,
    Role::Sets,
];

const KINDS: [Kind; 10] = [
    Kind::Known { alone: false },
    Kind::Known { alone: true },
    Kind::Foreign(Lasting::Text),
    Kind::Foreign(Lasting::Place),
    Kind::Foreign(Lasting::Set),
    Kind::Ends,
    Kind::Logs,
    Kind::Passes,
    Kind::Decides { all: true },
    Kind::Decides { all: false },
];

// The word for a role.
fn role_word(role: Role) -> &'static [u8]
    ensures { result.now ≡ role_word role }
{
    match role {
        Role::Own => b"own",
        Role::Ports => b"ports",
        Role::IcmpType => b"icmp-type",
        Role::Protocol => b"protocol",
        Role::Match => b"match",
        Role::Target => b"target",
        Role::Asks => b"asks",
        Role::Unopposed => b"unopposed",
        Role::Holds => b"holds",
        Role::Says => b"says",
        Role::Turns => b"turns",
        Role::AsksOf => b"asks-of",
        Role::Counts => b"counts",
        Role::Sets => b"sets",
    }
}

// The word for a kind.
fn kind_word(kind: Kind) -> &'static [u8]
    ensures { result.now ≡ kind_word kind }
{
    match kind {
        Kind::Known { alone: false } => b"known",
        Kind::Known { alone: true } => b"alone",
        Kind::Foreign(Lasting::Text) => b"text",
        Kind::Foreign(Lasting::Place) => b"place",
        Kind::Foreign(Lasting::Set) => b"set",
        Kind::Ends => b"ends",
        Kind::Logs => b"logs",
        Kind::Passes => b"passes",
        Kind::Decides { all: true } => b"decides",
        Kind::Decides { all: false } => b"may-decide",
    }
}

// The role that a word names.
fn role_named(word: &[u8]) -> Option<Role>
    ensures named { IfSome result (λ role. role_word role ≡ word.now) }
    ensures none { IfNone result ((role : Role) → role_word role ≢ word.now) }
{
    for role in &ROLES {
        if role_word(*role) == word {
            return Some(*role);
        }
    }
    None
}

// The kind that a word names.
fn kind_by(word: &[u8]) -> Option<Kind>
    ensures named { IfSome result (λ kind. kind_word kind ≡ word.now) }
    ensures none { IfNone result ((kind : Kind) → kind_word kind ≢ word.now) }
{
    for kind in &KINDS {
        if kind_word(*kind) == word {
            return Some(*kind);
        }
    }
    None
}

// Whether a kind is that of a match.
fn is_match(kind: Kind) -> bool
    ensures { result ≡ is_match kind }
{
    match kind {
        Kind::Known { .. } | Kind::Foreign(_) => true,
        Kind::Ends | Kind::Logs | Kind::Passes | Kind::Decides { .. } => false,
    }
}

// Whose an option is by a word: `.` is the rule itself.
fn owner_named(word: &[u8]) -> &[u8]
    ensures { result.now ≡ owner_named word.now }
{
    if word == b".".as_slice() {
        return b"".as_slice();
    }
    word
}

// The option of the words of a line, which have this span.
pub(crate) fn option_of<'a>(words: &[&'a [u8]], span: Span) -> Option<KeptOption<'a>>
    requires { span.from + length words.now ≡ span.to }
    ensures option { IfSome result (IsOptionOf words.now span) }
    ensures none { IfNone result ((row : Row) → AreOption (texts_in words.now) row → ⊥) }
{
    let [owner, role, values, ..] = words else {
        return None;
    };
    let role = role_named(role)?;
    let values = read_number_to(values, 9)?;
    Some(KeptOption {
        owner: owner_named(owner),
        names: Span {
            from: span.from + 3,
            to: span.to,
        },
        values: values as usize,
        role,
    })
}

// The match or target of the words of a line, in the same way.
pub(crate) fn extension_of<'a>(words: &[&'a [u8]], span: Span) -> Option<KeptExtension<'a>>
    requires { span.from + length words.now ≡ span.to }
    ensures extension { IfSome result (IsExtensionOf words.now span) }
    ensures none { IfNone result ((row : Extension) → AreExtension (texts_in words.now) row → ⊥) }
{
    let [name, kind, ..] = words else {
        return None;
    };
    let kind = kind_by(kind)?;
    let more = Span {
        from: span.from + 2,
        to: span.to,
    };
    let (protocols, sets) = if is_match(kind) {
        (more, NO_WORDS)
    } else {
        (NO_WORDS, more)
    };
    Some(KeptExtension {
        name,
        kind,
        protocols,
        sets,
    })
}

//! Lines that are known by their bytes: blank lines, comments, and `COMMIT`.
ghost use Rattle.std.specs.Prelude.{◌≡◌, nat_lt, length};
ghost use Rattle.std.specs.List.{list_all};
ghost use Rattle.fields.specs.text.Words.{is_blank};
ghost use Rattle.restore.specs.sections.Restore.{after_blanks, is_commit};
ghost use Rattle.restore.specs.sections.Section.{is_quiet, is_too_long};

// The most bytes of a line.
const LINE_MAX: usize = 10240;

// Whether a line has more bytes than it may have.
pub(crate) fn is_too_long(line: &[u8]) -> bool
    ensures { result ≡ is_too_long line.now }
{
    line.len() > LINE_MAX
}

// A blank or a tab.
fn is_blank(byte: u8) -> bool
    ensures { result ≡ is_blank byte }
{
    byte == b' ' || byte == b'\t'
}

// The line without the blanks and tabs before it.
fn after_blanks(line: &[u8]) -> &[u8]
    ensures { result.now ≡ after_blanks line.now }
{
    let mut rest = line;
    while !rest.is_empty() && is_blank(rest[0]) {
        rest = &rest[1..];
    }
    rest
}

/// Whether a line is blank, or a comment: its first byte other than a blank or tab is `#`. It takes no memory.
pub fn is_quiet(line: &[u8]) -> bool
    ensures { result ≡ is_quiet line.now }
{
    match after_blanks(line).first() {
        None => true,
        Some(byte) => *byte == b'#',
    }
}

fn all_blank(text: &[u8]) -> bool
    ensures { result ≡ list_all is_blank text.now }
{
    text.iter().all(|byte| is_blank(*byte))
}

// Whether a line is `COMMIT`, with blanks and tabs round it or not.
pub(crate) fn is_commit(line: &[u8]) -> bool
    ensures { result ≡ is_commit line.now }
{
    match after_blanks(line).strip_prefix(b"COMMIT") {
        Some(rest) => all_blank(rest),
        None => false,
    }
}

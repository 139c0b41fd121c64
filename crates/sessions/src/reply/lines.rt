//! What a session prints of the classifier of a chain's rules.
ghost use Rattle.std.specs.Prelude.{◌≡◌, ◌+◌, ◌<◌, ◌∷◌, decimal, drop, false, flat_map, length};
ghost use Rattle.fields.specs.text.Tap.{has_failed, Puts};
ghost use Rattle.table.specs.chains.Table.{chain_at};
ghost use Rattle.sessions.specs.Replies.{digit_at, field_line, hexadecimal, lines_reply, numbers_text, piece_text, start_text, further_numbers};

use classify::{Line, Piece, Row};
use fields::{Field, Tap, WriteFailed};
use itoa::Buffer;
use std::io::Write;
use table::Table;

// The hexadecimal digit of a number at one of 32 places, the highest first.
fn digit_at(number: u128, place: usize) -> u8
    requires { place < 32 }
    ensures { result ≡ digit_at number place }
{
    let digits = number >> (4 * (31 - place));
    b"0123456789abcdef"[(digits % 16) as usize]
}

// A number as 32 hexadecimal digits.
fn hexadecimal(number: u128) -> [u8; 32]
    ensures { result ≡ hexadecimal number }
{
    let mut text = [0; 32];
    for place in 0..32 {
        text[place] = digit_at(number, place);
    }
    text
}

// Writes a number.
fn put_decimal<W: Write>(number: u128, output: &mut Tap<W>) -> Result<(), WriteFailed>
    ensures { Puts W.contents output.old output.new result (decimal number) }
{
    let mut text = Buffer::new();
    output.put(text.format(number).as_bytes())
}

// Writes where a piece starts: 32 hexadecimal digits for an interface, a decimal number else.
fn put_start<W: Write>(field: Field, start: u128, output: &mut Tap<W>) -> Result<(), WriteFailed>
    ensures { Puts W.contents output.old output.new result (start_text field start) }
{
    match field {
        Field::InIface | Field::OutIface => output.put(&hexadecimal(start)),
        _ => put_decimal(start, output),
    }
}

// Writes a number after a comma.
fn put_next<W: Write>(number: u128, output: &mut Tap<W>) -> Result<(), WriteFailed>
    ensures { Puts W.contents output.old output.new result (44 ∷ decimal number) }
{
    let mut text = Buffer::new();
    output.put_all(&[b",", text.format(number).as_bytes()])
}

// Writes the numbers of the rules from a place on that allow a piece, each after a comma.
fn put_further<W: Write>(row: &Row<'_>, from: usize, output: &mut Tap<W>) -> Result<(), WriteFailed>
    requires { has_failed output.old ≡ false }
    ensures { Puts W.contents output.old output.new result (further_numbers (from + 1) (drop from row.now)) }
{
    let _count = row.len();
    let mut next = from;
    while let Some(at) = row.next_set(next) {
        next = at + 1;
        put_next(next as u128, output)?;
    }
    Ok(())
}

// Writes the numbers of the rules that allow a piece, with a comma between two.
fn put_numbers<W: Write>(row: &Row<'_>, output: &mut Tap<W>) -> Result<(), WriteFailed>
    requires { has_failed output.old ≡ false }
    ensures { Puts W.contents output.old output.new result (numbers_text row.now) }
{
    let _count = row.len();
    let Some(first) = row.next_set(0) else {
        return Ok(());
    };
    let number = first + 1;
    put_decimal(number as u128, output)?;
    put_further(row, number, output)
}

// Writes a piece: ` 22:{1,2}`.
fn put_piece<W: Write>(
    field: Field,
    piece: &Piece<'_>,
    output: &mut Tap<W>,
) -> Result<(), WriteFailed>
    requires { has_failed output.old ≡ false }
    ensures { Puts W.contents output.old output.new result (piece_text field piece.now) }
{
    output.put(b" ")?;
    put_start(field, piece.start(), output)?;
    output.put(b":{")?;
    put_numbers(&piece.row(), output)?;
    output.put(b"}")
}

// Writes the pieces of a line.
fn put_pieces<W: Write>(
    field: Field,
    line: &Line<'_>,
    output: &mut Tap<W>,
) -> Result<(), WriteFailed>
    requires { has_failed output.old ≡ false }
    ensures { Puts W.contents output.old output.new result (flat_map (piece_text field) line.now) }
{
    for at in 0..line.len() {
        put_piece(field, &line.piece(at), output)?;
    }
    Ok(())
}

// Writes the line of a field: its name, and its pieces.
fn put_line<W: Write>(
    table: &Table,
    place: usize,
    field: Field,
    output: &mut Tap<W>,
) -> Result<(), WriteFailed>
    requires place { place < length table.now.table.chains }
    requires ready { has_failed output.old ≡ false }
    ensures { Puts W.contents output.old output.new result (field_line (chain_at table.now.table place).rules field) }
{
    let line = table.classifier(place).line(field);
    output.put(field.name())?;
    put_pieces(field, &line, output)?;
    output.put(b"\n")
}

// Writes the lines of some fields.
fn put_lines<W: Write>(
    table: &Table,
    place: usize,
    fields: &[Field],
    output: &mut Tap<W>,
) -> Result<(), WriteFailed>
    requires place { place < length table.now.table.chains }
    requires ready { has_failed output.old ≡ false }
    ensures { Puts W.contents output.old output.new result
        (flat_map (field_line (chain_at table.now.table place).rules) fields.now) }
{
    for field in fields {
        put_line(table, place, *field, output)?;
    }
    Ok(())
}

/// Writes the classifier of the rules of the chain at a place, which has to be there: for each field a line of its
/// name and, for each piece in rising order, the piece's start, and in braces the numbers of the rules that allow the
/// piece, as `22:{1,2}`. Starts are decimal, but for interfaces, where they are 32 hexadecimal digits.
///
/// It takes no memory, and time linear in the text, which is written as it comes, and in the words of the rows: one
/// for 64 rules.
///
/// # Errors
///
/// `WriteFailed` where the writer failed, now or before: it then got a beginning of the text, none where it had
/// failed before.
#[tactic(auto, unfolding(crate::specs::Replies::lines_reply))]
pub fn write_lines<W: Write>(
    table: &Table,
    place: usize,
    output: &mut Tap<W>,
) -> Result<(), WriteFailed>
    requires { place < length table.now.table.chains }
    ensures { Puts W.contents output.old output.new result (lines_reply (chain_at table.now.table place).rules) }
{
    if output.failed() {
        return Err(WriteFailed);
    }
    put_lines(table, place, &Field::ALL, output)
}

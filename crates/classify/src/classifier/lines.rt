//! Each step of an edit, on the lines of all fields in turn, and back where one is refused.

ghost use Rattle.std.specs.Prelude.{◌≡◌, ◌<◌, ◌≤◌, ◌+◌, ◌%◌, ◌↔◌, ℕ, length, OnOk, OnErr, IsOk, IsTrue};
ghost use Rattle.bits.specs.Rows.{two_words};
ghost use Rattle.classify.specs.steps.Pieces.{row_bits};
ghost use Rattle.classify.specs.steps.Fields.{EachLine, EachEdit, ShowTheSame, AreEmpty, EachField, OnEach};
ghost use Rattle.classify.specs.steps.Fields.{Rises, HasCuts, HasOnlyCuts, Stands, IsCutMore, IsJoinedUp, InsertsSet};
ghost use Rattle.classify.specs.steps.Fields.{ReplacesSet, UsesRoom, FreesAll};
ghost use Rattle.classify.specs.steps.Fields.{IsCutFor, HasRoom, TakesIn, TakesOver, HasPlace, LosesBox};
ghost use Rattle.classify.specs.steps.Fields.{HasRoomAfter, IsOpenedUp, IsClosedUp, HaveOneMargin};
ghost use Rattle.classify.specs.steps.Fields.{IsKeptWithCuts, HasSameRoom, IsRoomier, KeepsRoom, TakesNoneBeside};

use crate::line::edit;
use crate::line::owned::OwnedLine;
use bits::TWO_WORDS;
use fields::Spans;
use std::alloc::{AllocError, Global};

// Cuts every line wherever the box's answers change on its field.
fn split_lines(lines: &mut [OwnedLine], spans: &[Spans]) -> Result<(), AllocError>
    requires as_long { length spans.now ≡ length lines.old }
    requires rising { OnEach Rises spans.now lines.old }
    ensures split { EachField IsCutMore spans.now lines.old lines.new }
    ensures cuts { OnOk result (EachField (λ s _ m. HasCuts s m) spans.now lines.old lines.new) }
    ensures there { OnEach HasCuts spans.now lines.old → IsOk result }
    ensures kept { EachField IsKeptWithCuts spans.now lines.old lines.new }
    ensures room { EachEdit HasSameRoom lines.old lines.new }
{
    for k in 0..lines.len() {
        let line = &mut lines[k];
        edit::split_all(line, &spans[k])?;
    }
    Ok(())
}

// Takes the memory that one more bit in each row of every line needs, for a box at a place among the boxes.
fn reserve_lines(lines: &mut [OwnedLine], at: usize) -> Result<(), AllocError>
    ensures more { EachEdit IsRoomier lines.old lines.new }
    ensures room { OnOk result (EachEdit (λ _ m. 0 < m.room.places) lines.old lines.new) }
    ensures there { EachLine (λ l. 0 < l.room.places) lines.old → IsOk result }
    ensures kept { EachEdit (TakesNoneBeside at) lines.old lines.new }
{
    for k in 0..lines.len() {
        let line = &mut lines[k];
        line.reserve(at)?;
    }
    Ok(())
}

// Takes all memory that a box needs, in every line: rows whose words have a place left need none.
fn prepare_lines(lines: &mut [OwnedLine], at: usize, spans: &[Spans]) -> Result<(), AllocError>
    requires as_long { length spans.now ≡ length lines.old }
    requires rising { OnEach Rises spans.now lines.old }
    ensures split { EachField IsCutMore spans.now lines.old lines.new }
    ensures cuts { OnOk result (EachField (λ s _ m. HasCuts s m) spans.now lines.old lines.new) }
    ensures ready { OnOk result (EachLine (λ m. 0 < m.room.places) lines.new) }
    ensures there { OnEach HasRoom spans.now lines.old → IsOk result }
    ensures room { EachEdit KeepsRoom lines.old lines.new }
{
    split_lines(lines, spans)?;
    reserve_lines(lines, at)
}

// Takes the cuts wherever the box's answers change back, in every line, where the rows are equal.
fn unsplit_lines(lines: &mut [OwnedLine], spans: &[Spans])
    requires as_long { length spans.now ≡ length lines.old }
    requires rising { OnEach Rises spans.now lines.old }
    requires apart { OnEach HasOnlyCuts spans.now lines.old }
    ensures joined { EachField IsJoinedUp spans.now lines.old lines.new }
    ensures room { EachEdit HasSameRoom lines.old lines.new }
{
    for k in 0..lines.len() {
        let line = &mut lines[k];
        edit::unsplit_all(line, &spans[k]);
    }
}

// Puts a box in, in every line, for which all memory is taken.
fn insert_prepared_lines(lines: &mut [OwnedLine], at: usize, spans: &[Spans])
    requires as_long { length spans.now ≡ length lines.old }
    requires cut { OnEach IsCutFor spans.now lines.old }
    requires room { EachLine (λ l. 0 < l.room.places) lines.old }
    requires after { 0 < at → EachLine (HasRoomAfter 1) lines.old }
    requires place { EachLine (λ l. at ≤ row_bits l.pieces) lines.old }
    ensures { EachField (TakesIn at) spans.now lines.old lines.new }
{
    for k in 0..lines.len() {
        let line = &mut lines[k];
        edit::insert_prepared(line, at, &spans[k]);
    }
}

// Whether so many bits go in after the last of each row of every line before memory is needed.
fn have_room_after(lines: &[OwnedLine], bits: usize) -> bool
    ensures { IsTrue result ↔ EachLine (HasRoomAfter bits) lines.now }
{
    for k in 0..lines.len() {
        let line = &lines[k];
        if line.room_after() < bits {
            return false;
        }
    }
    true
}

// Makes blank places before each row, in every line.
fn open_margins(lines: &mut [OwnedLine])
    requires { EachLine (HasRoomAfter two_words) lines.old }
    ensures { EachEdit IsOpenedUp lines.old lines.new }
{
    for k in 0..lines.len() {
        let line = &mut lines[k];
        line.open_margin();
    }
}

// Gives blank places before each row up, in every line.
fn close_margins(lines: &mut [OwnedLine])
    ensures { EachEdit IsClosedUp lines.old lines.new }
{
    for k in 0..lines.len() {
        let line = &mut lines[k];
        line.close_margin();
    }
}

// Makes way for a box at a place: room after the rows where it isn't before all others and some line has none, and blank
// places before them where it is and there are none. The first box needs none: those after it mostly come behind it.
fn make_way(lines: &mut [OwnedLine], len: usize, at: usize)
    requires place { at ≤ len }
    requires room { EachLine (λ l. 0 < l.room.places) lines.old }
    ensures same { EachEdit (λ l m. (m.pieces ≡ l.pieces) × (m.room.places ≡ l.room.places)) lines.old lines.new }
    ensures after { 0 < at → EachLine (HasRoomAfter 1) lines.new }
    ensures margin { HaveOneMargin lines.old → HaveOneMargin lines.new }
    ensures first { len ≡ 0 → lines.new ≡ lines.old }
    ensures opened { 0 < len → at ≡ 0 → EachLine (λ l. l.room.before ≡ 0) lines.old → EachLine (HasRoomAfter two_words) lines.old
        → EachEdit IsOpenedUp lines.old lines.new }
    ensures blank { at ≡ 0 → EachLine (λ l. 0 < l.room.before) lines.old → lines.new ≡ lines.old }
    ensures full { at ≡ 0 → (EachLine (HasRoomAfter two_words) lines.old → ⊥) → lines.new ≡ lines.old }
    ensures closed { 0 < at → (EachLine (HasRoomAfter 1) lines.old → ⊥) → EachEdit IsClosedUp lines.old lines.new }
    ensures fits { 0 < at → EachLine (HasRoomAfter 1) lines.old → lines.new ≡ lines.old }
{
    if len == 0 {
        return;
    }
    if at > 0 {
        if !have_room_after(lines, 1) {
            close_margins(lines);
        }
        return;
    }
    let has_none = lines.first().is_some_and(|line| line.margin() == 0);
    if has_none && have_room_after(lines, TWO_WORDS) {
        open_margins(lines);
    }
}

// Puts a box in at a place among the boxes, in every line. Without the memory all lines stay as they were.
pub(crate) fn insert_lines(
    lines: &mut [OwnedLine],
    len: usize,
    at: usize,
    spans: &[Spans],
) -> Result<(), AllocError>
    requires as_long { length spans.now ≡ length lines.old }
    requires place { at ≤ len }
    requires sound { OnEach (Stands len) spans.now lines.old }
    ensures ok { OnOk result (EachField (InsertsSet at) spans.now lines.old lines.new) }
    ensures sound { OnOk result (EachField (λ s _ m. Stands (len + 1) s m) spans.now lines.old lines.new) }
    ensures there { OnEach HasRoom spans.now lines.old → IsOk result }
    ensures room { OnOk result (EachEdit UsesRoom lines.old lines.new) }
    ensures err { OnErr result (ShowTheSame lines.old lines.new) }
    ensures back { OnErr result (EachEdit KeepsRoom lines.old lines.new) }
    ensures margin { HaveOneMargin lines.old → HaveOneMargin lines.new }
{
    match prepare_lines(lines, at, spans) {
        Ok(()) => {
            make_way(lines, len, at);
            insert_prepared_lines(lines, at, spans);
            Ok(())
        }
        Err(refused) => {
            unsplit_lines(lines, spans);
            Err(refused)
        }
    }
}

// Puts a box in the place of another, in every line, where all cuts are there.
fn settle_lines(lines: &mut [OwnedLine], at: usize, spans: &[Spans])
    requires as_long { length spans.now ≡ length lines.old }
    requires cut { OnEach IsCutFor spans.now lines.old }
    requires place { EachLine (λ l. at < row_bits l.pieces) lines.old }
    ensures { EachField (TakesOver at) spans.now lines.old lines.new }
{
    for k in 0..lines.len() {
        let line = &mut lines[k];
        edit::replace_box(line, at, &spans[k]);
    }
}

// Puts a box in the place of another, in every line. Without the memory all lines stay as they were.
pub(crate) fn replace_lines(
    lines: &mut [OwnedLine],
    len: usize,
    at: usize,
    spans: &[Spans],
) -> Result<(), AllocError>
    requires as_long { length spans.now ≡ length lines.old }
    requires place { at < len }
    requires sound { OnEach (Stands len) spans.now lines.old }
    ensures ok { OnOk result (EachField (ReplacesSet at) spans.now lines.old lines.new) }
    ensures sound { OnOk result (EachField (λ s _ m. Stands len s m) spans.now lines.old lines.new) }
    ensures room { EachEdit HasSameRoom lines.old lines.new }
    ensures there { OnEach HasCuts spans.now lines.old → IsOk result }
    ensures err { OnErr result (ShowTheSame lines.old lines.new) }
{
    match split_lines(lines, spans) {
        Ok(()) => {
            settle_lines(lines, at, spans);
            Ok(())
        }
        Err(refused) => {
            unsplit_lines(lines, spans);
            Err(refused)
        }
    }
}

// Takes a box out, in every line.
pub(crate) fn remove_lines(lines: &mut [OwnedLine], at: usize)
    requires { EachLine (HasPlace at) lines.old }
    ensures { EachEdit (LosesBox at) lines.old lines.new }
{
    for k in 0..lines.len() {
        let line = &mut lines[k];
        edit::remove_box(line, at);
    }
}

// Takes every box out, in every line.
pub(crate) fn clear_lines(lines: &mut [OwnedLine])
    ensures empty { AreEmpty lines.old lines.new }
    ensures room { EachEdit FreesAll lines.old lines.new }
{
    for k in 0..lines.len() {
        let line = &mut lines[k];
        edit::clear(line);
    }
}

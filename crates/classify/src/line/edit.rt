//! The steps of an edit on one line: cuts made, answers changed, cuts taken back or joined. All memory is taken
//! first; what follows cannot fail.

ghost use Rattle.fields.specs.declared.numbers.spans.Interval.{Interval};
ghost use Rattle.std.specs.Prelude.{◌≡◌, ◌<◌, ◌≤◌, ◌+◌, ◌-◌, ℕ, length, OnOk, IsOk, List, map, insert, remove, slice_set, slice_index, slice_index_or, false, true, [], ◌∷◌, IsTrue};
ghost use Rattle.classify.specs.Line.{IsLineOf, starts};
ghost use Rattle.classify.specs.steps.Pieces.{Differ, IsRising, IsSplitOf, StartsAt, row_bits, CutsStart, EndsStart, ChangesAt, IsApart};
ghost use Rattle.fields.specs.numbers.Spans.{has};
ghost use Rattle.classify.specs.steps.Edits.{with_written, without_answer, IsMergeOf, IsUnsplitAt, IsNumber, IsEndOf, IsJoined, IsJoinedBeside, KeepsApart, Says, row_of};
ghost use Rattle.classify.specs.steps.Fields.{IsCutFor, HasRoomAfter, TakesPlace, LeavesPlace, FreesRoom, FreesAll};
ghost use Rattle.classify.specs.steps.Kept.{IsSound};

use crate::line::owned::OwnedLine;
use crate::line::put::put_answers;
use fields::{Interval, Spans};
use std::alloc::AllocError;

// Cuts the piece that x is in, whose place is given, so that a piece starts at x: both halves have its row.
fn split(line: &mut OwnedLine, place: usize, x: u128) -> Result<(), AllocError>
    requires within { place < length line.old.pieces }
    requires low { slice_index (starts line.old.pieces) place ≤ x }
    requires high { place + 1 < length line.old.pieces → x < slice_index (starts line.old.pieces) (place + 1) }
    ensures split { (top : ℕ) (spans : List Interval) → x ≤ top → ChangesAt spans x → IsRising top line.old.pieces
        → IsSplitOf top spans line.old.pieces line.new.pieces }
    ensures ok { OnOk result (StartsAt x line.new.pieces) }
    ensures there { StartsAt x line.old.pieces → IsOk result }
    ensures kept { StartsAt x line.old.pieces → line.new.pieces ≡ line.old.pieces }
    ensures room { line.new.room ≡ line.old.room }
{
    if line.start(place) < x {
        line.split_at(place, x)?;
    }
    Ok(())
}

// Whether two rising numbers are in one piece, and it starts at neither.
fn are_inside(line: &OwnedLine, place: usize, x: u128, y: u128) -> bool
    requires { place < length line.now.pieces }
    ensures above { IsTrue result → slice_index (starts line.now.pieces) place < x }
    ensures rising { IsTrue result → x < y }
    ensures below { IsTrue result → place + 1 < length line.now.pieces → y < slice_index (starts line.now.pieces) (place + 1) }
{
    if place < line.len() - 1 && line.start(place + 1) <= y {
        return false;
    }
    line.start(place) < x && x < y
}

// Cuts a line at a number.
fn split_at(line: &mut OwnedLine, x: u128) -> Result<(), AllocError>
    ensures split { (top : ℕ) (spans : List Interval) → x ≤ top → ChangesAt spans x → IsRising top line.old.pieces
        → IsSplitOf top spans line.old.pieces line.new.pieces }
    ensures ok { OnOk result (StartsAt x line.new.pieces) }
    ensures there { StartsAt x line.old.pieces → IsOk result }
    ensures kept { StartsAt x line.old.pieces → line.new.pieces ≡ line.old.pieces }
    ensures room { line.new.room ≡ line.old.room }
{
    let place = line.place_of(x);
    split(line, place, x)
}

// Cuts a line at two numbers: by one move where both cuts fall into one piece.
fn split_pair(line: &mut OwnedLine, x: u128, y: u128) -> Result<(), AllocError>
    ensures split { (top : ℕ) (spans : List Interval) → x ≤ top → y ≤ top → ChangesAt spans x → ChangesAt spans y
        → IsRising top line.old.pieces → IsSplitOf top spans line.old.pieces line.new.pieces }
    ensures ok { OnOk result (StartsAt x line.new.pieces × StartsAt y line.new.pieces) }
    ensures there { StartsAt x line.old.pieces → StartsAt y line.old.pieces → IsOk result }
    ensures kept { StartsAt x line.old.pieces → StartsAt y line.old.pieces → line.new.pieces ≡ line.old.pieces }
    ensures room { line.new.room ≡ line.old.room }
{
    let place = line.place_of(x);
    if are_inside(line, place, x, y) {
        line.split_twice_at(place, x, y)?;
        return Ok(());
    }
    split(line, place, x)?;
    split_at(line, y)?;
    Ok(())
}

// Cuts a line where an interval begins, and after its end.
fn split_interval(line: &mut OwnedLine, top: u128, interval: Interval) -> Result<(), AllocError>
    requires rising { IsRising top line.old.pieces }
    requires begins { interval.first ≤ top }
    requires ends { interval.last ≤ top }
    ensures split { (spans : List Interval) → ChangesAt spans interval.first → ChangesAt spans (interval.last + 1)
        → IsSplitOf top spans line.old.pieces line.new.pieces }
    ensures ok { OnOk result (EndsStart top line.new.pieces interval) }
    ensures there { EndsStart top line.old.pieces interval → IsOk result }
    ensures kept { EndsStart top line.old.pieces interval → line.new.pieces ≡ line.old.pieces }
    ensures room { line.new.room ≡ line.old.room }
{
    if interval.last >= top {
        return split_at(line, interval.first);
    }
    split_pair(line, interval.first, interval.last + 1)
}

// Cuts a line wherever a set begins or ends, interval by interval.
fn split_intervals(line: &mut OwnedLine, spans: &Spans) -> Result<(), AllocError>
    requires { IsRising spans.now.top line.old.pieces }
    ensures split { IsSplitOf spans.now.top spans.now.intervals line.old.pieces line.new.pieces }
    ensures ok { OnOk result (CutsStart spans.now.top spans.now.intervals line.new.pieces) }
    ensures there { CutsStart spans.now.top spans.now.intervals line.old.pieces → IsOk result }
    ensures kept { CutsStart spans.now.top spans.now.intervals line.old.pieces → line.new.pieces ≡ line.old.pieces }
    ensures room { line.new.room ≡ line.old.room }
{
    let top = spans.top();
    for interval in spans.intervals() {
        split_interval(line, top, *interval)?;
    }
    Ok(())
}

// The same of a set that begins with the line: gap by gap, and after the last interval.
fn split_gaps(line: &mut OwnedLine, spans: &Spans) -> Result<(), AllocError>
    requires rising { IsRising spans.now.top line.old.pieces }
    requires first { has spans.now.intervals 0 ≡ true }
    ensures split { IsSplitOf spans.now.top spans.now.intervals line.old.pieces line.new.pieces }
    ensures ok { OnOk result (CutsStart spans.now.top spans.now.intervals line.new.pieces) }
    ensures there { CutsStart spans.now.top spans.now.intervals line.old.pieces → IsOk result }
    ensures kept { CutsStart spans.now.top spans.now.intervals line.old.pieces → line.new.pieces ≡ line.old.pieces }
    ensures room { line.new.room ≡ line.old.room }
{
    let intervals = spans.intervals();
    for k in 1..intervals.len() {
        let next = intervals[k].first;
        split_pair(line, intervals[k - 1].last + 1, next)?;
    }
    let last = intervals[intervals.len() - 1].last;
    if last >= spans.top() {
        return Ok(());
    }
    split_at(line, last + 1)?;
    Ok(())
}

// Cuts a line wherever a set begins or ends. It says what it said. Its room stays. Both cuts of an interval or, where the set begins
// with the line, of a gap are made at once.
pub(crate) fn split_all(line: &mut OwnedLine, spans: &Spans) -> Result<(), AllocError>
    requires { IsRising spans.now.top line.old.pieces }
    ensures split { IsSplitOf spans.now.top spans.now.intervals line.old.pieces line.new.pieces }
    ensures ok { OnOk result (CutsStart spans.now.top spans.now.intervals line.new.pieces) }
    ensures there { CutsStart spans.now.top spans.now.intervals line.old.pieces → IsOk result }
    ensures kept { CutsStart spans.now.top spans.now.intervals line.old.pieces → line.new.pieces ≡ line.old.pieces }
    ensures room { line.new.room ≡ line.old.room }
{
    if spans.has(0) {
        return split_gaps(line, spans);
    }
    split_intervals(line, spans)
}

// Takes the cut at x back where the rows on its two sides are equal.
fn unsplit(line: &mut OwnedLine, x: u128)
    ensures unsplit { (top : ℕ) → IsRising top line.old.pieces → IsUnsplitAt (IsNumber x) top line.old.pieces line.new.pieces }
    ensures room { line.new.room ≡ line.old.room }
{
    let place = line.place_of(x);
    if place == 0 {
        return;
    }
    if line.start(place) < x {
        return;
    }
    if line.is_same_after(place - 1) {
        line.remove(place);
    }
}

// Takes the cuts where an interval begins, and after its end, back where the rows are equal.
fn unsplit_interval(line: &mut OwnedLine, top: u128, interval: Interval)
    requires { IsRising top line.old.pieces }
    ensures unsplit { IsUnsplitAt (IsEndOf interval) top line.old.pieces line.new.pieces }
    ensures room { line.new.room ≡ line.old.room }
{
    unsplit(line, interval.first);
    if interval.last < top {
        unsplit(line, interval.last + 1);
    }
}

// Takes the cuts wherever a set begins or ends back where the rows are equal. Elsewhere no neighbours are
// compared: there the rows differ.
pub(crate) fn unsplit_all(line: &mut OwnedLine, spans: &Spans)
    requires rising { IsRising spans.now.top line.old.pieces }
    requires apart { IsApart spans.now.intervals line.old.pieces }
    ensures merge { IsMergeOf spans.now.top line.old.pieces line.new.pieces }
    ensures room { line.new.room ≡ line.old.room }
{
    let top = spans.top();
    for interval in spans.intervals() {
        unsplit_interval(line, top, *interval);
    }
}

// Writes a box's answer into a piece's row, and answers with what stood there.
fn write_in(line: &mut OwnedLine, k: usize, at: usize, spans: &Spans) -> bool
    requires within { k < length line.old.pieces }
    requires place { at < row_bits line.old.pieces }
    ensures row { line.new.pieces ≡ slice_set line.old.pieces k
        (with_written at spans.now.intervals (slice_index_or line.old.pieces k (0, []))) }
    ensures bit { result ≡ slice_index_or (row_of line.old.pieces k) at false }
    ensures long { row_bits line.new.pieces ≡ row_bits line.old.pieces }
    ensures room { line.new.room ≡ line.old.room }
{
    let bit = line.get(k, at);
    let answer = spans.has(line.start(k));
    if answer != bit {
        line.set(k, at, answer);
    }
    bit
}

// Joins the piece after another to it if their rows are equal. It compares them only where the bits that
// stood in them differed: else they are apart as before.
fn join(line: &mut OwnedLine, k: usize, bit: bool, above: bool)
    requires { k < length line.old.pieces }
    ensures joined { IsJoined bit above k line.old.pieces line.new.pieces }
    ensures long { row_bits line.new.pieces ≡ row_bits line.old.pieces }
    ensures room { line.new.room ≡ line.old.room }
{
    if bit == above {
        return;
    }
    if k >= line.len() - 1 {
        return;
    }
    if line.is_same_after(k) {
        line.remove(k + 1);
    }
}

// Writes a box's answers over another's, and joins the pieces that only the other's kept apart.
fn set_answers(line: &mut OwnedLine, at: usize, spans: &Spans)
    requires place { at < row_bits line.old.pieces }
    requires keeps_apart { KeepsApart (with_written at spans.now.intervals) at line.old.pieces }
    ensures merge { (top : ℕ) → IsRising top (map (with_written at spans.now.intervals) line.old.pieces)
        → IsMergeOf top (map (with_written at spans.now.intervals) line.old.pieces) line.new.pieces }
    ensures long { row_bits line.new.pieces ≡ row_bits line.old.pieces }
    ensures room { line.new.room ≡ line.old.room }
{
    let mut above = false;
    let mut k = line.len();
    while k > 0 {
        k -= 1;
        let bit = write_in(line, k, at, spans);
        join(line, k, bit, above);
        above = bit;
    }
}

// Puts a box's answers in, for which all memory is taken. No cut goes: at each one the rows still differ.
pub(crate) fn insert_prepared(line: &mut OwnedLine, at: usize, spans: &Spans)
    requires cut { IsCutFor spans.now line.old }
    requires place { at ≤ row_bits line.old.pieces }
    requires room { 0 < line.old.room.places }
    requires after { 0 < at → HasRoomAfter 1 line.old }
    ensures sound { IsSound spans.now.top (row_bits line.old.pieces + 1) line.new }
    ensures line { (sets : List (List Interval)) → Says spans.now.top sets line.old.pieces
        → IsLineOf has spans.now.top (insert sets at spans.now.intervals) line.new.pieces }
    ensures room { line.new.room.places + 1 ≡ line.old.room.places }
    ensures margin { TakesPlace at line.old.room.before line.new.room.before }
{
    put_answers(line, at, spans);
}

// Joins a piece to the one before it if their rows are equal beside the answers of one box.
fn join_beside(line: &mut OwnedLine, k: usize, at: usize)
    requires later { 0 < k }
    requires piece { k < length line.old.pieces }
    requires place { at < row_bits line.old.pieces }
    ensures joined { IsJoinedBeside at (k - 1) line.old.pieces line.new.pieces }
    ensures long { row_bits line.new.pieces ≡ row_bits line.old.pieces }
    ensures room { line.new.room ≡ line.old.room }
{
    if line.is_same_beside(k - 1, at) {
        line.remove(k);
    }
}

// Takes out the cuts that only one box's answers make. Rows are compared where these change from a piece to the next; of all
// other pieces no more than the one bit is looked at.
fn drop_cuts(line: &mut OwnedLine, at: usize)
    requires place { at < row_bits line.old.pieces }
    requires differ { Differ line.old.pieces }
    ensures merge { (top : ℕ) → IsRising top (map (without_answer at) line.old.pieces)
        → IsMergeOf top (map (without_answer at) line.old.pieces) (map (without_answer at) line.new.pieces) }
    ensures long { row_bits line.new.pieces ≡ row_bits line.old.pieces }
    ensures room { line.new.room ≡ line.old.room }
{
    let last = line.len() - 1;
    let mut k = line.run_start(last, at);
    while k > 0 {
        join_beside(line, k, at);
        k = line.run_start(k - 1, at);
    }
}

// Takes a box out: first the cuts that only its answers made, and then its place.
pub(crate) fn remove_box(line: &mut OwnedLine, at: usize)
    requires place { at < row_bits line.old.pieces }
    requires differ { Differ line.old.pieces }
    ensures sound { (top : ℕ) → IsRising top line.old.pieces → IsSound top (row_bits line.old.pieces - 1) line.new }
    ensures line { (top : ℕ) (sets : List (List Interval)) → IsLineOf has top sets line.old.pieces
        → IsLineOf has top (remove sets at) line.new.pieces }
    ensures room { FreesRoom line.old line.new }
    ensures margin { LeavesPlace at line.old.room.before line.new.room.before }
{
    drop_cuts(line, at);
    line.remove_column(at);
}

// Puts a box in the place of another, where the line is cut wherever its answers change.
pub(crate) fn replace_box(line: &mut OwnedLine, at: usize, spans: &Spans)
    requires cut { IsCutFor spans.now line.old }
    requires place { at < row_bits line.old.pieces }
    ensures sound { IsSound spans.now.top (row_bits line.old.pieces) line.new }
    ensures line { (sets : List (List Interval)) → Says spans.now.top sets line.old.pieces
        → IsLineOf has spans.now.top (slice_set sets at spans.now.intervals) line.new.pieces }
    ensures room { line.new.room ≡ line.old.room }
{
    set_answers(line, at, spans);
}

// Takes every box out: one piece without a bit is left.
pub(crate) fn clear(line: &mut OwnedLine)
    ensures empty { line.new.pieces ≡ (0, []) ∷ [] }
    ensures room { FreesAll line.old line.new }
{
    line.clear();
}

//! A box's answers put into a line that is cut wherever they change: into the pieces that the box allows, or into all, and
//! then taken back from those between.

ghost use Rattle.std.specs.Prelude.{◌≡◌, ◌<◌, ◌≤◌, ◌+◌, ◌&&◌, ℕ, length, map, false, true, slice_index_or};
ghost use Rattle.fields.specs.numbers.Spans.{has};
ghost use Rattle.classify.specs.steps.Pieces.{CutsStart, IsRising, StartsAt, row_bits};
ghost use Rattle.classify.specs.steps.Fields.{HasRoomAfter, TakesPlace};
ghost use Rattle.classify.specs.steps.Edits.{row_of, with_answer, with_written, IsRunIn};

use crate::line::owned::OwnedLine;
use fields::{Interval, Spans};

/// Pieces side by side: from one place up to another, which is not among them.
#[derive(Clone, Copy)]
struct Run {
    from: usize,
    to: usize,
}

// The pieces in an interval, where one starts where it begins.
fn run_in(line: &OwnedLine, interval: Interval) -> Run
    requires begins { StartsAt interval.first line.now.pieces }
    requires some { interval.first ≤ interval.last }
    ensures { IsRunIn interval result.from result.to line.now.pieces }
{
    let pieces = line.len();
    let from = line.place_of(interval.first);
    let next = from + 1;
    if next == pieces || interval.last < line.start(next) {
        return Run { from, to: next };
    }
    Run {
        from,
        to: line.place_of(interval.last) + 1,
    }
}

// Writes a 1 for each piece that a box allows, interval by interval, where a 0 stands for all.
fn put_few(line: &mut OwnedLine, at: usize, spans: &Spans)
    requires cuts { CutsStart spans.now.top spans.now.intervals line.old.pieces }
    requires place { at < row_bits line.old.pieces }
    requires none { (j : ℕ) → j < length line.old.pieces → slice_index_or (row_of line.old.pieces j) at false ≡ false }
    ensures answers { line.new.pieces ≡ map (with_written at spans.now.intervals) line.old.pieces }
    ensures room { line.new.room ≡ line.old.room }
{
    for interval in spans.intervals() {
        let Run { from, to } = run_in(line, *interval);
        line.set_run(from, to, at, true);
    }
}

// Writes a 1 for all pieces at once, where a 0 stands for all, and then a 0 for those between a box's intervals: the first
// begins with the line, and the last ends with it.
fn put_gaps(line: &mut OwnedLine, at: usize, spans: &Spans)
    requires rising { IsRising spans.now.top line.old.pieces }
    requires cuts { CutsStart spans.now.top spans.now.intervals line.old.pieces }
    requires place { at < row_bits line.old.pieces }
    requires none { (j : ℕ) → j < length line.old.pieces → slice_index_or (row_of line.old.pieces j) at false ≡ false }
    requires first { has spans.now.intervals 0 ≡ true }
    requires last { has spans.now.intervals spans.now.top ≡ true }
    ensures answers { line.new.pieces ≡ map (with_written at spans.now.intervals) line.old.pieces }
    ensures room { line.new.room ≡ line.old.room }
{
    line.set_all(at);
    let intervals = spans.intervals();
    for k in 1..intervals.len() {
        let after = intervals[k].first;
        let gap = Interval {
            first: intervals[k - 1].last + 1,
            last: after - 1,
        };
        let Run { from, to } = run_in(line, gap);
        line.set_run(from, to, at, false);
    }
}

// Whether a box allows the first number of a line and the last.
fn has_both_ends(spans: &Spans) -> bool
    ensures { result ≡ (has spans.now.intervals 0 && has spans.now.intervals spans.now.top) }
{
    spans.has(0) && spans.has(spans.top())
}

// Puts a box's answers into the rows of a line that is cut wherever they change. Beside the place that is opened in each
// row, it touches the pieces alone that the box allows or, where it allows both ends of the line, those alone that it leaves out:
// so a wildcard costs one write, and what a `!` stands before costs what it names.
pub(crate) fn put_answers(line: &mut OwnedLine, at: usize, spans: &Spans)
    requires rising { IsRising spans.now.top line.old.pieces }
    requires cuts { CutsStart spans.now.top spans.now.intervals line.old.pieces }
    requires place { at ≤ row_bits line.old.pieces }
    requires room { 0 < line.old.room.places }
    requires after { 0 < at → HasRoomAfter 1 line.old }
    ensures answers { line.new.pieces ≡ map (with_answer at spans.now.intervals) line.old.pieces }
    ensures room { line.new.room.places + 1 ≡ line.old.room.places }
    ensures margin { TakesPlace at line.old.room.before line.new.room.before }
{
    line.insert_column(at);
    if has_both_ends(spans) {
        put_gaps(line, at, spans);
    } else {
        put_few(line, at, spans);
    }
}

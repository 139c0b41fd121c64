//! The line of a field as the classifier keeps it: the starts of its pieces, and their rows apart from them.

ghost use Rattle.std.specs.Prelude.{ℕ, ◌≡◌, ◌<◌, ◌≤◌, ◌+◌, ◌-◌, ◌%◌, ◌^◌, length, map, insert, remove, slice_set, slice_index, slice_index_or, take, ◌≢◌, false, true, IfOk, IsOk, OnOk, OnErr, IsTrue, ◌↔◌, [], ◌∷◌};
ghost use Rattle.bits.specs.MarginRows.{after_margin};
ghost use Rattle.bits.specs.Rows.{two_words};
ghost use Rattle.bits.specs.TurnedRows.{turned};
ghost use Rattle.bits.specs.steps.Packing.{all_bits, IsPacked};
ghost use Rattle.classify.specs.Line.{starts};
ghost use Rattle.classify.specs.steps.Kept.{IsLine, line_prop};
ghost use Rattle.classify.specs.steps.Pieces.{row_bits, row_in};
ghost use Rattle.classify.specs.steps.Edits.{row_of, IsRunWritten};
ghost use Rattle.classify.specs.steps.Fields.{HasRoomAfter, TakesPlace, LeavesPlace, IsOpenedUp, IsClosedUp, IsRoomier, TakesNoneBeside, FreesRoom, FreesAll};
ghost use Rattle.bits.specs.steps.StoredRows.{words_of};
ghost use Rattle.bits.specs.steps.Summaries.{IsSummaryOf};
ghost use Rattle.std.specs.List.{zip};

use crate::line::starts::Starts;
use bits::{TurnedRows, TurnedWords};
use std::alloc::{AllocError, Global};
use std::marker::Model;

/// The pieces of a line, in rising order from 0: the first number of each, and the answer of each box, at the box's place.
#[derive(Drop)]
pub(crate) struct OwnedLine {
    starts: Starts,
    rows: TurnedRows,
    ghost stands: { IsLine (zip starts rows.rows) rows.room.places } by { line_prop (zip starts rows.rows) rows.room.places },
}

impl Model for OwnedLine {
    ghost use Rattle.std.specs.Prelude.{◌≡◌, length};
    ghost use Rattle.std.specs.List.{zip};
    ghost use Rattle.classify.specs.steps.Kept.{PiecesAndRoom, line_code};

    ghost Value = { PiecesAndRoom };

    ghost coded = { line_code };

    ghost view = { λ l. record { pieces = zip l.starts l.rows.rows; room = l.rows.room; stands = l.stands } };

    ghost invariant = { λ l. length l.rows.rows ≡ length l.starts };
}

impl OwnedLine {
    // The line of no box: one piece without a bit, and room for 256 bits.
    pub(crate) fn open(alloc: Global) -> Result<OwnedLine, AllocError>
        ensures { IfOk result (λ line. (line.pieces ≡ (0, []) ∷ []) × (line.room.places ≡ 256) × (line.room.before ≡ 0)) }
    {
        Ok(OwnedLine {
            starts: Starts::zero(alloc)?,
            rows: TurnedRows::with_one_row(alloc)?,
        })
    }

    // How many pieces there are.
    pub(crate) fn len(&self) -> usize
        ensures { result ≡ length self.now.pieces }
    {
        self.rows.count()
    }

    // The first number of a piece.
    pub(crate) fn start(&self, k: usize) -> u128
        requires { k < length self.now.pieces }
        ensures { result ≡ slice_index (starts self.now.pieces) k }
    {
        self.starts.get(k)
    }

    // The place of the piece that a number is in: a binary search, where there is more than one.
    pub(crate) fn place_of(&self, x: u128) -> usize
        ensures within { result < length self.now.pieces }
        ensures low { slice_index (starts self.now.pieces) result ≤ x }
        ensures high { result + 1 < length self.now.pieces → x < slice_index (starts self.now.pieces) (result + 1) }
        ensures few { result < 2 ^ 32 }
    {
        if self.rows.count() == 1 {
            return 0;
        }
        self.starts.count_to(x) - 1
    }

    // The same in 32 bits: a line has no more pieces than these can count.
    #[inline(always)]
    pub(crate) fn place_at(&self, x: u128) -> u32
        ensures within { result < length self.now.pieces }
        ensures here { row_of self.now.pieces result ≡ row_in self.now.pieces x }
    {
        self.place_of(x) as u32
    }

    // How many blank places stand before the first bit of each row.
    pub(crate) fn margin(&self) -> usize
        ensures { result ≡ self.now.room.before }
    {
        self.rows.margin()
    }

    // How many bits a row has.
    pub(crate) fn bits(&self, k: usize) -> usize
        requires { k < length self.now.pieces }
        ensures { result ≡ length (row_of self.now.pieces k) }
    {
        self.rows.bits(k)
    }

    // A row and its margin, as it is turned; they are lent.
    pub(crate) fn row(&self, k: usize) -> TurnedWords<'_>
        requires { k < length self.now.pieces }
        ensures own { IsPacked (words_of result.own) (length (after_margin self.now.room.before (row_of self.now.pieces k))) }
        ensures turn { IsPacked (words_of result.turn) (length (after_margin self.now.room.before (row_of self.now.pieces k))) }
        ensures bits { take (length (after_margin self.now.room.before (row_of self.now.pieces k)))
            (turned (all_bits (words_of result.turn)) (all_bits (words_of result.own))) ≡ after_margin self.now.room.before (row_of self.now.pieces k) }
        ensures summed { IsSummaryOf result.summary (after_margin self.now.room.before (row_of self.now.pieces k)) }
    {
        self.rows.row(k)
    }

    // The bit at a place of a row.
    pub(crate) fn get(&self, k: usize, at: usize) -> bool
        requires piece { k < length self.now.pieces }
        requires place { at < row_bits self.now.pieces }
        ensures { result ≡ slice_index_or (row_of self.now.pieces k) at false }
    {
        self.rows.get(k, at)
    }

    // Writes the bit at a place of a row.
    pub(crate) fn set(&mut self, k: usize, at: usize, bit: bool)
        requires piece { k < length self.old.pieces }
        requires place { at < row_bits self.old.pieces }
        ensures pieces { self.new.pieces
            ≡ slice_set self.old.pieces k (slice_index (starts self.old.pieces) k, slice_set (row_of self.old.pieces k) at bit) }
        ensures long { row_bits self.new.pieces ≡ row_bits self.old.pieces }
        ensures room { self.new.room ≡ self.old.room }
    {
        self.rows.set(k, at, bit);
    }

    // Writes the bit at a place of the rows of pieces side by side: from one up to another, which is not among them.
    pub(crate) fn set_run(&mut self, from: usize, to: usize, at: usize, bit: bool)
        requires order { from ≤ to }
        requires within { to ≤ length self.old.pieces }
        requires place { at < row_bits self.old.pieces }
        ensures written { IsRunWritten at bit from to self.old.pieces self.new.pieces }
        ensures room { self.new.room ≡ self.old.room }
    {
        self.rows.set_run(from, to, at, bit);
    }

    // Writes a 1 at a place of each row, which has a 0 there: by one write, which turns all of them.
    pub(crate) fn set_all(&mut self, at: usize)
        requires place { at < row_bits self.old.pieces }
        requires none { (j : ℕ) → j < length self.old.pieces → slice_index_or (row_of self.old.pieces j) at false ≡ false }
        ensures pieces { self.new.pieces ≡ map (λ p. (p.0, slice_set p.1 at true)) self.old.pieces }
        ensures room { self.new.room ≡ self.old.room }
    {
        self.rows.turn_all(at);
    }

    // Cuts a piece at a number: the new one has its row. Where memory is refused the pieces are as before.
    pub(crate) fn split_at(&mut self, k: usize, x: u128) -> Result<(), AllocError>
        requires piece { k < length self.old.pieces }
        requires above { slice_index (starts self.old.pieces) k < x }
        requires below { k + 1 < length self.old.pieces → x < slice_index (starts self.old.pieces) (k + 1) }
        ensures ok { OnOk result (self.new.pieces ≡ insert self.old.pieces (k + 1) (x, row_of self.old.pieces k)) }
        ensures err { OnErr result (self.new.pieces ≡ self.old.pieces) }
        ensures room { self.new.room ≡ self.old.room }
    {
        self.rows.duplicate(k)?;
        match self.starts.insert(k + 1, x) {
            Ok(()) => Ok(()),
            Err(refused) => {
                self.rows.remove(k + 1);
                Err(refused)
            }
        }
    }

    // Cuts a piece at two rising numbers, by one move: both new ones have its row. Where memory is refused the pieces are as
    // before.
    pub(crate) fn split_twice_at(&mut self, k: usize, x: u128, y: u128) -> Result<(), AllocError>
        requires piece { k < length self.old.pieces }
        requires above { slice_index (starts self.old.pieces) k < x }
        requires rising { x < y }
        requires below { k + 1 < length self.old.pieces → y < slice_index (starts self.old.pieces) (k + 1) }
        ensures ok { OnOk result (self.new.pieces
            ≡ insert (insert self.old.pieces (k + 1) (y, row_of self.old.pieces k)) (k + 1) (x, row_of self.old.pieces k)) }
        ensures err { OnErr result (self.new.pieces ≡ self.old.pieces) }
        ensures room { self.new.room ≡ self.old.room }
    {
        self.rows.duplicate_twice(k)?;
        match self.starts.insert_pair(k + 1, x, y) {
            Ok(()) => Ok(()),
            Err(refused) => {
                self.rows.remove(k + 1);
                self.rows.remove(k + 1);
                Err(refused)
            }
        }
    }

    // Whether a piece has the row of the one after it.
    pub(crate) fn is_same_after(&self, k: usize) -> bool
        requires { k + 1 < length self.now.pieces }
        ensures { IsTrue result ↔ (row_of self.now.pieces k ≡ row_of self.now.pieces (k + 1)) }
    {
        let _pieces = self.rows.count();
        self.rows.same(k, k + 1)
    }

    // Whether a piece has the row of the one after it, beside the bits at a place.
    pub(crate) fn is_same_beside(&self, k: usize, at: usize) -> bool
        requires piece { k + 1 < length self.now.pieces }
        requires place { at < row_bits self.now.pieces }
        ensures { IsTrue result ↔ (remove (row_of self.now.pieces k) at ≡ remove (row_of self.now.pieces (k + 1)) at) }
    {
        let _pieces = self.rows.count();
        self.rows.same_beside(k, k + 1, at)
    }

    // Where the pieces begin, side by side up to one of them, that have its bit at a place.
    pub(crate) fn run_start(&self, k: usize, at: usize) -> usize
        requires piece { k < length self.now.pieces }
        requires place { at < row_bits self.now.pieces }
        ensures within { result ≤ k }
        ensures alike { (j : ℕ) → result ≤ j → j ≤ k
            → slice_index_or (row_of self.now.pieces j) at false ≡ slice_index_or (row_of self.now.pieces k) at false }
        ensures first { 0 < result
            → slice_index_or (row_of self.now.pieces (result - 1)) at false ≢ slice_index_or (row_of self.now.pieces k) at false }
    {
        let _pieces = self.rows.count();
        self.rows.run_start(k, at)
    }

    // Takes a piece out, which is not the first.
    pub(crate) fn remove(&mut self, k: usize)
        requires later { 0 < k }
        requires piece { k < length self.old.pieces }
        ensures pieces { self.new.pieces ≡ remove self.old.pieces k }
        ensures room { self.new.room ≡ self.old.room }
    {
        self.starts.remove(k);
        self.rows.remove(k);
    }

    // Puts a 0 into each row at a place. Before all other bits it takes a blank place, where there is one, and no bit moves;
    // elsewhere the later bits move up by one.
    pub(crate) fn insert_column(&mut self, at: usize)
        requires place { at ≤ row_bits self.old.pieces }
        requires room { 0 < self.old.room.places }
        requires after { 0 < at → HasRoomAfter 1 self.old }
        ensures pieces { self.new.pieces ≡ map (λ p. (p.0, insert p.1 at false)) self.old.pieces }
        ensures room { self.new.room.places + 1 ≡ self.old.room.places }
        ensures margin { TakesPlace at self.old.room.before self.new.room.before }
    {
        self.rows.insert_column(at);
    }

    // Takes a bit out of each row at a place. The first leaves a blank place, and no bit moves; of any other the later ones
    // move down by one.
    pub(crate) fn remove_column(&mut self, at: usize)
        requires { at < row_bits self.old.pieces }
        ensures pieces { self.new.pieces ≡ map (λ p. (p.0, remove p.1 at)) self.old.pieces }
        ensures room { FreesRoom self.old self.new }
        ensures margin { LeavesPlace at self.old.room.before self.new.room.before }
    {
        self.rows.remove_column(at);
    }

    // Makes two words of blank places before each row, of the room after its last bit.
    pub(crate) fn open_margin(&mut self)
        requires { HasRoomAfter two_words self.old }
        ensures { IsOpenedUp self.old self.new }
    {
        self.rows.open_margin();
    }

    // Gives blank places before each row, where there are any, up for places after its last bit.
    pub(crate) fn close_margin(&mut self)
        ensures { IsClosedUp self.old self.new }
    {
        self.rows.close_margin();
    }

    // How many bits more go in after the last of each row before memory is needed.
    pub(crate) fn room_after(&self) -> usize
        ensures { result ≡ self.now.room.places - self.now.room.before }
    {
        self.rows.room_after()
    }

    // Takes the memory that one more bit in each row needs, at a place or after it.
    pub(crate) fn reserve(&mut self, at: usize) -> Result<(), AllocError>
        ensures more { IsRoomier self.old self.new }
        ensures ok { OnOk result (0 < self.new.room.places) }
        ensures there { 0 < self.old.room.places → IsOk result }
        ensures kept { TakesNoneBeside at self.old self.new }
    {
        self.rows.reserve(at)
    }

    // Leaves the first piece alone, without a bit.
    pub(crate) fn clear(&mut self)
        ensures pieces { self.new.pieces ≡ (0, []) ∷ [] }
        ensures room { FreesAll self.old self.new }
    {
        self.starts.keep_first();
        self.rows.clear();
    }

    // An equal line.
    pub(crate) fn copy(&self, alloc: Global) -> Result<OwnedLine, AllocError>
        ensures { IfOk result (λ line. line ≡ self.now) }
    {
        Ok(OwnedLine {
            starts: self.starts.copy(alloc)?,
            rows: self.rows.copy(alloc)?,
        })
    }
}

//! Consoles: a reader and the writer that answers it. The reader is asked for more in one way, by which its tap notes
//! whether the writer held bytes back then.
ghost use Rattle.std.specs.Prelude.{◌≡◌, ◌+◌, ◌<◌, ◌≤◌, ◌↔◌, ℕ, Option, List, OnOk, IsTrue, is_err, vec_len, vec_capacity};
ghost use Rattle.fields.specs.text.Tap.{has_failed, is_late, is_late_after, is_unflushed, known, shown_left, turns_left};
ghost use Rattle.fields.specs.text.Line.{ReadsOn, ReadsPart};
ghost use Rattle.sessions.specs.run.Console.{HasSameTaps, reader, writer};

use fields::{LineRead, ReadFailed, Tap};
use std::io::BufRead;

/// The taps of a reader and of the writer that answers it, lent for a run. Through a console the reader is asked for
/// more in one way, by which it notes that it was asked `late` where the writer held bytes back then.
#[derive(Drop)]
pub struct Console<'a, R, W> {
    input: &'a mut Tap<R>,
    pub(crate) output: &'a mut Tap<W>,
}

impl<'a, R, W> Console<'a, R, W> {
    /// A console over two taps, whose reader was not asked for anything yet.
    pub fn new(input: &'a mut Tap<R>, output: &'a mut Tap<W>) -> Console<'a, R, W>
        ensures input { result.input.ghost_name ≡ input.entry.ghost_name }
        ensures output { result.output.ghost_name ≡ output.entry.ghost_name }
        ensures reader { reader result ≡ input.old }
        ensures writer { writer result ≡ output.old }
    {
        Console { input, output }
    }

    // How many steps of reading are left.
    pub(crate) fn turns(&self) -> u64
        ensures { result ≡ turns_left (reader self.now) }
    {
        self.input.turns()
    }
}

impl<R: BufRead, W> Console<'_, R, W> {
    // Whether the reader shows bytes still, for which it is not asked for more.
    pub(crate) fn shows(&self) -> bool
        ensures { IsTrue result ↔ 0 < shown_left (reader self.now) }
    {
        self.input.has_more()
    }

    // Reads on in a line, as `Tap::read_part` does. What the writer holds back is withheld.
    pub(crate) fn read_part(
        &mut self,
        max: usize,
        line: &mut Vec<u8>,
        too_long: &mut bool,
    ) -> Result<Option<LineRead>, ReadFailed>
        requires room { max ≤ vec_capacity line.old }
        requires within { vec_len line.old ≤ max }
        ensures same { HasSameTaps self.old self.new }
        ensures writer { writer self.new ≡ writer self.old }
        ensures late { is_late (reader self.new) ≡ is_late_after (reader self.old) (is_unflushed (writer self.old)) }
        ensures reads { (first : Option (List ℕ)) (turns : ℕ)
            → ReadsPart first (known R.remaining (reader self.old)) turns (turns_left (reader self.old)) max line.old.items too_long.old
            → ReadsOn first (known R.remaining (reader self.new)) turns (turns_left (reader self.new)) max line.new.items too_long.new result }
        ensures failed { has_failed (reader self.new) ≡ is_err result }
        ensures turns { OnOk result (turns_left (reader self.old) ≡ turns_left (reader self.new) + 1) }
        ensures within { vec_len line.new ≤ max }
        ensures capacity { vec_capacity line.old ≤ vec_capacity line.new }
    {
        let withheld = self.output.unflushed();
        self.input.read_part(max, line, too_long, withheld)
    }
}

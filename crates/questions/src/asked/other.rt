//! A packet whose verdict is another one.
ghost use Rattle.std.specs.Prelude.{◌≡◌, ◌≢◌, false, All, Any, IfOk, IsTrue, MatchOption};
ghost use Rattle.questions.specs.asked.Alike.{IsOfOther};
ghost use Rattle.questions.specs.steps.Compared.{IsUnwritten};

use crate::foreign::answers::Answers;
use crate::sampling::sample::sample_of;
use crate::walking::task::Leaf;
use fields::{Hook, Words};
use std::alloc::AllocError;
use table::Verdict;

// A packet that a line writes, and answers.
#[derive(Drop)]
pub(crate) struct Shown {
    pub words: Words,
    pub answers: Answers,
}

// Whether all leaves have this verdict.
pub(crate) fn all_give(found: &[Leaf], verdict: Verdict) -> bool
    ensures all { IsTrue result → All (λ leaf. leaf.verdict ≡ verdict) found.now }
    ensures some { result ≡ false → Any (λ leaf. leaf.verdict ≢ verdict) found.now }
{
    for leaf in found {
        if leaf.verdict != verdict {
            return false;
        }
    }
    true
}

// A packet of some leaf with another verdict than this one, and the leaf's answers.
pub(crate) fn other_among(
    hook: Hook,
    leaves: &[Leaf],
    verdict: Verdict,
) -> Result<Option<Shown>, AllocError>
    ensures { IfOk result (λ found. MatchOption found (All (IsUnwritten hook verdict) leaves.now) (IsOfOther hook verdict leaves.now)) }
{
    for leaf in leaves {
        if leaf.verdict == verdict {
            continue;
        }
        let alloc = *leaf.trail.allocator();
        match sample_of(alloc, hook, &leaf.area)? {
            None => {}
            Some(sample) => {
                let answers = leaf.answers.copy(alloc)?;
                return Ok(Some(Shown {
                    words: sample.words,
                    answers,
                }));
            }
        }
    }
    Ok(None)
}

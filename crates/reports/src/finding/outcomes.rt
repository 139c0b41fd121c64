//! The verdicts of a set of packets, with what was asked.
ghost use Rattle.std.specs.Prelude.{◌≡◌, All, IfSome, Some, Vec};
ghost use Rattle.std.specs.Global.{Global};
ghost use Rattle.fields.specs.numbers.Field.{top};
ghost use Rattle.questions.specs.declared.asked.reached.Reached.{Reached as Entry};

use crate::fault::ReportFault;
use crate::json::document::Answer;
use crate::json::outcomes::{outcomes_answer, unclear_answer};
use crate::lines::outcomes::put_outcomes;
use fields::{Field, Hook, Tap};
use questions::Reached;
use rulesets::Dump;
use std::alloc::{AllocError, Global};
use std::io::Write;

/// The verdicts of a set of packets at a hook, grouped by a field, if they are known.
#[derive(Clone, Copy)]
pub struct Outcomes<'a> {
    dump: &'a Dump,
    hook: Hook,
    field: Field,
    found: &'a Option<Vec<Reached>>,
    ghost on_field: { (reached : Vec Entry Global) → found.now ≡ Some reached → All (λ entry. entry.numbers.top ≡ top field) reached.items },
}

impl<'a> Outcomes<'a> {
    /// The verdicts that were found, if they are known.
    pub fn new(
        dump: &'a Dump,
        hook: Hook,
        field: Field,
        found: &'a Option<Vec<Reached>>,
    ) -> Outcomes<'a>
        requires { IfSome found.now (λ reached. All (λ entry. entry.numbers.top ≡ top field) reached.items) }
    {
        Outcomes {
            dump,
            hook,
            field,
            found,
        }
    }

    /// Writes them as lines.
    ///
    /// # Errors
    ///
    /// Where memory was refused, or a write failed.
    pub(crate) fn put<W: Write>(
        &self,
        alloc: Global,
        output: &mut Tap<W>,
    ) -> Result<(), ReportFault> {
        match self.found {
            Some(found) => put_outcomes(alloc, self.dump, self.field, found.as_slice(), output),
            None => Ok(output.put(b"unclear\n")?),
        }
    }

    /// The same as JSON.
    ///
    /// # Errors
    ///
    /// `AllocError` where memory was refused.
    pub(crate) fn entry(&self, alloc: Global) -> Result<Answer, AllocError> {
        match self.found {
            Some(found) => {
                outcomes_answer(alloc, self.dump, self.hook, self.field, found.as_slice())
            }
            None => unclear_answer(alloc, self.field),
        }
    }
}

//! The files of a question are restored, it is asked, and what is found is written, as lines or as a document.
use crate::claims::{ClaimsFile, fault_at, read_claims};
use crate::fault::Fault;
use crate::packets::asked_packets::Asked;
use crate::packets::covering::read_covered;
use crate::packets::read_packets;
use audits::{
    Asking, Claim, Form, GivenPacket, Inquiry, Pair, ask_claims, ask_difference, ask_packets,
    ask_rules, first_untold,
};
use fields::Tap;
use programs::{Audit, Question};
use reports::{Finding, Outcomes};
use rulesets::{
    Dump, OneDump, RulesetFault, TwoDumps, read_answered, read_one, read_plain, read_two,
};
use std::io::{IsTerminal, Write};
use std::rt::{Clock, Files};

// Asks of each rule of a dump, and answers the status.
fn write_form<'a, R: Clock, E: Print + IsTerminal, W: Write>(
    asking: &mut Asking<'_, R, E>,
    one: &OneDump,
    form: Form<'_>,
    json: bool,
    output: &mut Tap<W>,
) -> Result<u8, Fault<'a>> {
    let inquiry = Inquiry {
        form,
        dump: &one.dump,
        open: &one.open,
    };
    let found = ask_rules(asking, inquiry)?;
    let finding = Finding::Rules {
        inquiry,
        found: &found,
    };
    finding.write(asking.alloc(), json, output)?;
    Ok(form.status(&found.tally))
}

// Asks whether two tables give each packet the same verdict, and which of the rules by which they differ are dead, and answers the
// status.
fn write_differences<'a, R: Clock, E: Print + IsTerminal, W: Write>(
    asking: &mut Asking<'_, R, E>,
    two: &TwoDumps,
    json: bool,
    output: &mut Tap<W>,
) -> Result<u8, Fault<'a>> {
    let pair = Pair {
        old: &two.old,
        new: &two.new,
        open: &two.open,
        verdicts: &two.verdicts,
    };
    let found = ask_difference(asking, pair)?;
    let finding = Finding::Difference {
        pair,
        found: &found,
    };
    finding.write(asking.alloc(), json, output)?;
    Ok(found.status())
}

// Asks for the verdicts of a set of packets, and answers the status: 3 where they aren't known, else 0.
fn write_outcomes<'a, R: Clock, E: Print + IsTerminal, W: Write>(
    asking: &mut Asking<'_, R, E>,
    dump: &Dump,
    asked: &Asked,
    json: bool,
    output: &mut Tap<W>,
) -> Result<u8, Fault<'a>> {
    let found = asking.reach(dump.boxed(), &asked.given, asked.field)?;
    let outcomes = Outcomes::new(dump, asked.given.hook, asked.field, &found);
    Finding::Outcomes(outcomes).write(asking.alloc(), json, output)?;
    Ok(if found.is_some() { 0 } else { 3 })
}

// Asks what becomes of some packets, and answers the status.
fn write_walks<'a, R: Clock, E: Print + IsTerminal, W: Write>(
    asking: &mut Asking<'_, R, E>,
    one: &OneDump,
    packets: &[GivenPacket],
    json: bool,
    output: &mut Tap<W>,
) -> Result<u8, Fault<'a>> {
    let found = ask_packets(asking, &one.dump, &one.open, packets)?;
    let finding = Finding::Walks {
        dump: &one.dump,
        open: &one.open,
        packets,
        found: &found,
    };
    finding.write(asking.alloc(), json, output)?;
    Ok(found.status())
}

// Asks whether claims hold, and answers the status.
fn write_claims<'a, R: Clock, E: Print + IsTerminal, W: Write>(
    asking: &mut Asking<'_, R, E>,
    one: &OneDump,
    claims: &[Claim],
    json: bool,
    output: &mut Tap<W>,
) -> Result<u8, Fault<'a>> {
    let found = ask_claims(asking, one, claims)?;
    let finding = Finding::Claims {
        one,
        claims,
        found: &found,
    };
    finding.write(asking.alloc(), json, output)?;
    Ok(found.status())
}

/// What is asked, what its files and packets come from, and what messages go to.
#[derive(Drop)]
pub(crate) struct Source<'b, 'a, R, E> {
    /// Where files and standard input are read.
    pub(crate) rt: &'b R,
    /// What messages are written to.
    pub(crate) errors: &'b E,
    /// What the line of the program asks for.
    pub(crate) audit: &'b Audit<'a>,
}

impl<'a, R, E> Source<'_, 'a, R, E>
where
    R: Clock + Files + Input + AllocGlobal,
    E: Print + IsTerminal,
{
    // The dump of a file, with the answers of `--when`.
    fn one(&self, file: &'a str) -> Result<OneDump, RulesetFault<'a>> {
        read_one(self.rt, self.errors, file, self.audit)
    }

    // Asks of each rule of a file, and answers the status.
    fn write_form<W: Write>(
        &self,
        file: &'a str,
        form: Form<'_>,
        asking: &mut Asking<'_, R, E>,
        output: &mut Tap<W>,
    ) -> Result<u8, Fault<'a>> {
        write_form(asking, &self.one(file)?, form, self.audit.json, output)
    }

    // Asks which rules of a file match none of the packets on standard input, and answers the status: 1 where one could, else 3 where something
    // isn't known, of a rule or of one of these packets.
    fn write_cover<W: Write>(
        &self,
        file: &'a str,
        asking: &mut Asking<'_, R, E>,
        output: &mut Tap<W>,
    ) -> Result<u8, Fault<'a>> {
        let one = self.one(file)?;
        let found = read_covered(self.rt, self.errors, asking, &one.dump, &one.open)?;
        let Some(marks) = found else {
            return Ok(2);
        };
        write_form(asking, &one, Form::Cover(&marks), self.audit.json, output)
    }

    // Asks whether two files give each packet the same verdict, and answers the status.
    fn write_differences<W: Write>(
        &self,
        old: &'a str,
        new: &'a str,
        asking: &mut Asking<'_, R, E>,
        output: &mut Tap<W>,
    ) -> Result<u8, Fault<'a>> {
        let two = read_two(self.rt, self.errors, old, new, self.audit)?;
        write_differences(asking, &two, self.audit.json, output)
    }

    // Asks a file for the verdicts of a set of packets, and answers the status.
    fn write_reach<W: Write>(
        &self,
        file: &'a str,
        asking: &mut Asking<'_, R, E>,
        output: &mut Tap<W>,
    ) -> Result<u8, Fault<'a>> {
        let asked = Asked::read(self.rt.alloc(), self.audit.words.as_slice())?;
        let one = read_plain(self.rt, self.errors, file, self.audit)?;
        write_outcomes(asking, &one.dump, &asked, self.audit.json, output)
    }

    // Asks a file what becomes of the packets on standard input, and answers the status.
    fn write_walks<W: Write>(
        &self,
        file: &'a str,
        asking: &mut Asking<'_, R, E>,
        output: &mut Tap<W>,
    ) -> Result<u8, Fault<'a>> {
        let one = self.one(file)?;
        match read_packets(self.rt, self.errors)? {
            Some(packets) => {
                write_walks(asking, &one, packets.as_slice(), self.audit.json, output)
            }
            None => Ok(2),
        }
    }

    // Asks a file whether the claims of another one hold, and answers the status.
    fn write_claims<W: Write>(
        &self,
        file: &'a str,
        claims: &'a str,
        asking: &mut Asking<'_, R, E>,
        output: &mut Tap<W>,
    ) -> Result<u8, Fault<'a>> {
        let ClaimsFile {
            claims: listed,
            given,
        } = read_claims(self.rt, claims)?;
        let one = read_answered(self.rt, self.errors, file, self.audit, &given)?;
        if let Some(claim) = first_untold(&one.dump, listed.as_slice()) {
            let fault = Fault::Untold(file);
            return Err(fault_at(self.rt.alloc(), claims, claim.line, &fault));
        }
        write_claims(asking, &one, listed.as_slice(), self.audit.json, output)
    }

    /// Restores the files of the question, writes its answer, and answers the status.
    ///
    /// # Errors
    ///
    /// Where a file cannot be restored, standard input fails, the words give no packets or no condition of a rule, memory was refused, or a write
    /// failed.
    pub(crate) fn answer<W: Write>(
        &self,
        asking: &mut Asking<'_, R, E>,
        output: &mut Tap<W>,
    ) -> Result<u8, Fault<'a>> {
        match self.audit.question {
            Question::Dead { file } => self.write_form(file, Form::Dead, asking, output),
            Question::Tests { file } => self.write_form(file, Form::Tests, asking, output),
            Question::Cover { file } => self.write_cover(file, asking, output),
            Question::Compare { old, new } => self.write_differences(old, new, asking, output),
            Question::Reach { file } => self.write_reach(file, asking, output),
            Question::Walk { file } => self.write_walks(file, asking, output),
            Question::Assert { file, claims } => self.write_claims(file, claims, asking, output),
        }
    }
}

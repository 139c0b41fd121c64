//! What an audit found, which is written as lines or as a JSON document.
pub(crate) mod outcomes;

use crate::fault::ReportFault;
use crate::finding::outcomes::Outcomes;
use crate::json::claims::claims_answer;
use crate::json::difference::differences_answer;
use crate::json::document::{Answer, text_of};
use crate::json::each_rule::rules_answer;
use crate::json::packet_walks::packets_answer;
use crate::lines::claims::put_claims;
use crate::lines::difference::put_differences;
use crate::lines::each_rule::put_rules;
use crate::lines::packet_walks::put_packets;
use audits::{AnsweredClaims, Claim, Difference, Found, GivenPacket, Inquiry, PacketWalks, Pair};
use fields::Tap;
use rulesets::{Dump, MatchCount, OneDump, OpenConditions, open_counts};
use std::alloc::{AllocError, Global};
use std::io::Write;

/// What an audit found.
#[derive(Clone, Copy)]
pub enum Finding<'a> {
    /// What is known of rules.
    Rules {
        /// What was asked.
        inquiry: Inquiry<'a>,
        /// What is known.
        found: &'a Found,
    },
    /// Whether two dumps give each packet the same verdict.
    Difference {
        /// The dumps.
        pair: Pair<'a>,
        /// What is known of them.
        found: &'a Difference,
    },
    /// The verdicts of a set of packets.
    Outcomes(Outcomes<'a>),
    /// What becomes of each of some packets.
    Walks {
        /// The table in which they walk.
        dump: &'a Dump,
        /// Its conditions.
        open: &'a OpenConditions,
        /// The packets.
        packets: &'a [GivenPacket],
        /// What becomes of each, in their order.
        found: &'a PacketWalks,
    },
    /// What is known of claims.
    Claims {
        /// The dump of which they are.
        one: &'a OneDump,
        /// The claims.
        claims: &'a [Claim],
        /// What is known of each, in their order.
        found: &'a AnsweredClaims,
    },
}

impl Finding<'_> {
    // How many conditions are open; a set of packets is asked for where there are none.
    fn counts(&self, alloc: Global) -> Result<Vec<MatchCount>, AllocError> {
        match self {
            Finding::Rules { inquiry, .. } => open_counts(alloc, inquiry.open),
            Finding::Difference { pair, .. } => open_counts(alloc, pair.open),
            Finding::Outcomes(_) => Ok(Vec::new(alloc)),
            Finding::Walks { open, .. } => open_counts(alloc, open),
            Finding::Claims { one, .. } => open_counts(alloc, &one.open),
        }
    }

    // Writes it as lines.
    fn put<W: Write>(
        &self,
        alloc: Global,
        counts: &[MatchCount],
        output: &mut Tap<W>,
    ) -> Result<(), ReportFault> {
        match self {
            Finding::Rules { inquiry, found } => put_rules(*inquiry, found, counts, output)?,
            Finding::Difference { pair, found } => put_differences(*pair, found, counts, output)?,
            Finding::Outcomes(found) => found.put(alloc, output)?,
            Finding::Walks {
                dump,
                open,
                packets,
                found,
            } => put_packets(dump, open, packets, found, counts, output)?,
            Finding::Claims { one, claims, found } => put_claims(
                one, claims, found, counts, output,
            )?,
        }
        Ok(())
    }

    // The same as JSON.
    fn entry(&self, alloc: Global, counts: &[MatchCount]) -> Result<Answer, AllocError> {
        match self {
            Finding::Rules { inquiry, found } => rules_answer(alloc, *inquiry, found, counts),
            Finding::Difference { pair, found } => differences_answer(alloc, *pair, found, counts),
            Finding::Outcomes(found) => found.entry(alloc),
            Finding::Walks {
                dump,
                open,
                packets,
                found,
            } => packets_answer(alloc, dump, open, packets, found, counts),
            Finding::Claims { one, claims, found } => claims_answer(
                alloc, one, claims, found, counts,
            ),
        }
    }

    /// Writes it: as a document with a newline behind it where `json` is set, else as lines.
    ///
    /// # Errors
    ///
    /// Where memory was refused, or a write failed.
    pub fn write<W: Write>(
        &self,
        alloc: Global,
        json: bool,
        output: &mut Tap<W>,
    ) -> Result<(), ReportFault> {
        let counts = self.counts(alloc)?;
        if json {
            let text = text_of(alloc, &self.entry(alloc, counts.as_slice())?)?;
            output.put_all(&[text.as_slice(), b"\n"])?;
            return Ok(());
        }
        self.put(alloc, counts.as_slice(), output)
    }
}

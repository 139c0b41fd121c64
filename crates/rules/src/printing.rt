//! The text of a rule.
ghost use Rattle.std.specs.Prelude.{◌≡◌, false, flat_map};
ghost use Rattle.fields.specs.text.Printed.{spaced_all};
ghost use Rattle.fields.specs.text.Line.{IsOneLine};
ghost use Rattle.fields.specs.text.Tap.{has_failed, Puts};
ghost use Rattle.rules.specs.Printing.{shown_bang, rule_text, TextReadsBack, IsOnlyOne, HasShortLine};
ghost use Rattle.rules.specs.rule.Readable.{IsInOrder, IsReadable};
ghost use Rattle.rules.specs.steps.Writing.{value_text, option_value_text, start_text, match_text, action_text};
ghost use Rattle.rules.specs.steps.Views.{view_match, view_spec};

pub(crate) mod listed_line;
mod spaced;

use crate::options::match_kind::MatchKind;
use crate::options::option_value::OptionValue;
use crate::options::value::Value;
use crate::printing::spaced::{spaced_option, spaced_start};
use crate::rule::Rule;
use crate::rule::action::Action;
use crate::rule::spec::{Match, RuleSpec};
use fields::{Tap, WriteFailed};
use std::io::Write;

// Writes the words of a value, if it has any, without the first blank.
fn put_words<W: Write>(output: &mut Tap<W>, value: &Value) -> Result<(), WriteFailed>
    requires { has_failed output.old ≡ false }
    ensures { Puts W.contents output.old output.new result (value_text value.now) }
{
    match value {
        Value::Source(prefix) | Value::Destination(prefix) => prefix.put(output),
        Value::InInterface(pattern) | Value::OutInterface(pattern) => pattern.put(output),
        Value::Protocol(protocol) => protocol.put(output),
        Value::SourcePort(ports) | Value::DestinationPort(ports) => ports.put(output),
        Value::TcpFlags(test) => test.put(output),
        Value::IcmpType(icmp) => icmp.put(output),
        Value::SourcePorts(list) | Value::DestinationPorts(list) | Value::Ports(list) => {
            list.put(output)
        }
        Value::SourceRange(range) | Value::DestinationRange(range) => range.put(output),
        Value::Ctstate(states) | Value::State(states) => states.put(output),
        Value::Comment(comment) => comment.put(output),
        Value::TtlEqual(ttl) | Value::TtlGreater(ttl) | Value::TtlLess(ttl) => ttl.put(output),
        Value::RejectWith(answer) => answer.put(output),
        Value::LogPrefix(text) => text.put(output),
        Value::LogLevel(level) => level.put(output),
        Value::Fragment
        | Value::LogTcpSequence
        | Value::LogTcpOptions
        | Value::LogIpOptions
        | Value::LogUid => Ok(()),
    }
}

// Writes `!` before an option that is inverted.
fn put_bang<W: Write>(output: &mut Tap<W>, inverted: bool) -> Result<(), WriteFailed>
    requires { has_failed output.old ≡ false }
    ensures { Puts W.contents output.old output.new result (spaced_all (shown_bang inverted)) }
{
    if inverted {
        return output.put(b" !");
    }
    Ok(())
}

// Writes an option with its value.
fn put_option_value<W: Write>(
    output: &mut Tap<W>,
    option_value: &OptionValue,
) -> Result<(), WriteFailed>
    requires { has_failed output.old ≡ false }
    ensures { Puts W.contents output.old output.new result (option_value_text option_value.now) }
{
    put_bang(output, option_value.inverted)?;
    output.put(spaced_option(&option_value.value))?;
    put_words(output, &option_value.value)
}

// Writes options, one after another.
fn put_option_values<W: Write>(
    output: &mut Tap<W>,
    option_values: &[OptionValue],
) -> Result<(), WriteFailed>
    requires { has_failed output.old ≡ false }
    ensures { Puts W.contents output.old output.new result (flat_map option_value_text option_values.now) }
{
    for option_value in option_values {
        put_option_value(output, option_value)?;
    }
    Ok(())
}

// Writes what starts a match.
fn put_start<W: Write>(output: &mut Tap<W>, kind: MatchKind) -> Result<(), WriteFailed>
    requires { has_failed output.old ≡ false }
    ensures { Puts W.contents output.old output.new result (start_text kind) }
{
    output.put(spaced_start(kind))
}

// Writes a match with its options.
fn put_match<W: Write>(output: &mut Tap<W>, one: &Match) -> Result<(), WriteFailed>
    requires { has_failed output.old ≡ false }
    ensures { Puts W.contents output.old output.new result (match_text (view_match one.now)) }
{
    put_start(output, one.kind)?;
    put_option_values(output, one.option_values.as_slice())
}

// Writes matches, one after another.
fn put_matches<W: Write>(output: &mut Tap<W>, matches: &[Match]) -> Result<(), WriteFailed>
    requires { has_failed output.old ≡ false }
    ensures { Puts W.contents output.old output.new result (flat_map (λ m. match_text (view_match m)) matches.now) }
{
    for one in matches {
        put_match(output, one)?;
    }
    Ok(())
}

// Writes a target without its options.
fn put_action<W: Write>(output: &mut Tap<W>, action: &Option<Action>) -> Result<(), WriteFailed>
    requires { has_failed output.old ≡ false }
    ensures { Puts W.contents output.old output.new result (action_text action.now) }
{
    match action {
        None => Ok(()),
        Some(Action::Accept) => output.put(b" -j ACCEPT"),
        Some(Action::Drop) => output.put(b" -j DROP"),
        Some(Action::Return) => output.put(b" -j RETURN"),
        Some(Action::Reject) => output.put(b" -j REJECT"),
        Some(Action::Log) => output.put(b" -j LOG"),
        Some(Action::Jump(name)) => output.put_all(&[b" -j ", name.bytes()]),
        Some(Action::Goto(name)) => output.put_all(&[b" -g ", name.bytes()]),
    }
}

// Writes what a rule holds.
fn put_spec<W: Write>(output: &mut Tap<W>, spec: &RuleSpec) -> Result<(), WriteFailed>
    requires { has_failed output.old ≡ false }
    ensures { Puts W.contents output.old output.new result (rule_text (view_spec spec.now)) }
{
    put_option_values(output, spec.option_values.as_slice())?;
    put_matches(output, spec.matches.as_slice())?;
    put_action(output, &spec.action)?;
    put_option_values(output, spec.target_options.as_slice())
}

/// Writes the text of a rule, each of its words after one blank: what stands after `-A chain` in a listing
/// (iptables-save(8)). It takes no memory, and time linear in the text, which has at most 8,845 bytes and no newline;
/// after `-A` and a chain's name it fits a line.
///
/// The options of the rule, of each match and of the target stand in the order of a listing, in whatever order they
/// were given. The text's words are read as this rule, and no other rule has the text.
///
/// # Errors
///
/// `WriteFailed` where the writer failed, now or before: it then got a beginning of the text, none where it had
/// failed before.
#[tactic(auto, using(crate::proofs::laws::printing::RoundTripLaws::listing_laws))]
pub fn write_rule<W: Write>(rule: &Rule, output: &mut Tap<W>) -> Result<(), WriteFailed>
    ensures puts { Puts W.contents output.old output.new result (rule_text rule.now) }
    ensures ordered { IsInOrder rule.now }
    ensures readable { IsReadable rule.now }
    ensures reads_back { TextReadsBack rule.now }
    ensures only { IsOnlyOne rule.now }
    ensures one_line { IsOneLine (rule_text rule.now) }
    ensures short { HasShortLine rule.now }
{
    let spec = rule.spec();
    if output.failed() {
        return Err(WriteFailed);
    }
    put_spec(output, spec)
}

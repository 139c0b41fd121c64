//! The listing of a table, and of its rules.
ghost use Rattle.std.specs.Prelude.{◌≡◌, ◌<◌, ◌++◌, codes, false, length, flat_map, option_map};
ghost use Rattle.fields.specs.text.Tap.{has_failed, Puts};
ghost use Rattle.table.specs.chains.Table.{chain_at, policy_of};
ghost use Rattle.table.specs.edits.Headline.{policy_text};
ghost use Rattle.restore.specs.Listing.{chain_line, head_line, head_with, listing, policy_word, rule_line, rule_lines, rules_listing, RestoresItself};

use crate::round_trip::listings_restore;
use fields::{Tap, WriteFailed};
use rules::{Rule, write_rule};
use std::io::Write;
use table::{Policy, Table};

// The word of a policy.
fn policy_text(policy: Policy) -> &'static [u8]
    ensures { result.now ≡ policy_text policy }
{
    match policy {
        Policy::Accept => b"ACCEPT",
        Policy::Drop => b"DROP",
    }
}

// What stands for the policy in a chain line: `-` for a user chain, which has none.
fn policy_word(policy: Option<Policy>) -> &'static [u8]
    ensures { result.now ≡ policy_word policy }
{
    match policy {
        Some(policy) => policy_text(policy),
        None => b"-",
    }
}

// The policy of the chain at a place, if it is a built-in one.
fn policy_of(table: &Table, place: usize) -> Option<Policy>
    requires { place < length table.now.table.chains }
    ensures { result ≡ policy_of table.now.table (chain_at table.now.table place).name }
{
    table.stands();
    table.policy(place)
}

// Writes a name and a word separated by a blank, with what stands before and after them.
fn put_with_word<W: Write>(
    output: &mut Tap<W>,
    before: &[u8],
    name: &[u8],
    word: &[u8],
    after: &[u8],
) -> Result<(), WriteFailed>
    requires { has_failed output.old ≡ false }
    ensures { Puts W.contents output.old output.new result (before.now ++ (name.now ++ (codes " " ++ (word.now ++ after.now)))) }
{
    output.put_all(&[before, name, b" ", word, after])
}

// Writes the line of a chain: `:INPUT ACCEPT [0:0]`.
fn put_chain_line<W: Write>(
    table: &Table,
    place: usize,
    output: &mut Tap<W>,
) -> Result<(), WriteFailed>
    requires place { place < length table.now.table.chains }
    requires ready { has_failed output.old ≡ false }
    ensures { Puts W.contents output.old output.new result (chain_line table.now.table (chain_at table.now.table place)) }
{
    let word = policy_word(policy_of(table, place));
    put_with_word(output, b":", table.chain_name(place), word, b" [0:0]\n")
}

// Writes the lines of all chains.
fn put_chain_lines<W: Write>(table: &Table, output: &mut Tap<W>) -> Result<(), WriteFailed>
    requires { has_failed output.old ≡ false }
    ensures { Puts W.contents output.old output.new result (flat_map (chain_line table.now.table) table.now.table.chains) }
{
    for place in 0..table.chain_count() {
        put_chain_line(table, place, output)?;
    }
    Ok(())
}

// Writes a rule as the command that puts it last in its chain: `-A INPUT`, and the rule.
fn put_rule_line<W: Write>(name: &[u8], rule: &Rule, output: &mut Tap<W>) -> Result<(), WriteFailed>
    requires { has_failed output.old ≡ false }
    ensures { Puts W.contents output.old output.new result (rule_line name.now rule.now) }
{
    output.put(b"-A ")?;
    output.put(name)?;
    write_rule(rule, output)?;
    output.put(b"\n")
}

// Writes the rules of the chain at a place.
fn put_rules<W: Write>(table: &Table, place: usize, output: &mut Tap<W>) -> Result<(), WriteFailed>
    requires place { place < length table.now.table.chains }
    requires ready { has_failed output.old ≡ false }
    ensures { Puts W.contents output.old output.new result (rule_lines (chain_at table.now.table place)) }
{
    let name = table.chain_name(place);
    for number in 0..table.rule_count(place) {
        put_rule_line(name, table.rule(place, number + 1), output)?;
    }
    Ok(())
}

// Writes the rules of all chains, chain by chain.
fn put_all_rules<W: Write>(table: &Table, output: &mut Tap<W>) -> Result<(), WriteFailed>
    requires { has_failed output.old ≡ false }
    ensures { Puts W.contents output.old output.new result (flat_map rule_lines table.now.table.chains) }
{
    for place in 0..table.chain_count() {
        put_rules(table, place, output)?;
    }
    Ok(())
}

// Writes a chain as the command that gives it its policy, or that makes it: `-P INPUT ACCEPT` or `-N name`.
fn put_head_with<W: Write>(
    name: &[u8],
    policy: Option<Policy>,
    output: &mut Tap<W>,
) -> Result<(), WriteFailed>
    requires { has_failed output.old ≡ false }
    ensures { Puts W.contents output.old output.new result (head_with name.now policy) }
{
    match policy {
        Some(policy) => put_with_word(output, b"-P ", name, policy_text(policy), b"\n"),
        None => output.put_all(&[b"-N ", name, b"\n"]),
    }
}

// Writes the chain at a place, without its rules.
fn put_head<W: Write>(table: &Table, place: usize, output: &mut Tap<W>) -> Result<(), WriteFailed>
    requires place { place < length table.now.table.chains }
    requires ready { has_failed output.old ≡ false }
    ensures { Puts W.contents output.old output.new result (head_line table.now.table (chain_at table.now.table place)) }
{
    put_head_with(table.chain_name(place), policy_of(table, place), output)
}

// Writes all chains, without their rules.
fn put_heads<W: Write>(table: &Table, output: &mut Tap<W>) -> Result<(), WriteFailed>
    requires { has_failed output.old ≡ false }
    ensures { Puts W.contents output.old output.new result (flat_map (head_line table.now.table) table.now.table.chains) }
{
    for place in 0..table.chain_count() {
        put_head(table, place, output)?;
    }
    Ok(())
}

// Writes what `-S` lists of all chains.
fn put_rules_of_all<W: Write>(table: &Table, output: &mut Tap<W>) -> Result<(), WriteFailed>
    requires { has_failed output.old ≡ false }
    ensures { Puts W.contents output.old output.new result (rules_listing table.now.table None) }
{
    put_heads(table, output)?;
    put_all_rules(table, output)
}

// Writes what `-S` lists of the chain of a name; nothing where there is none.
fn put_rules_of<W: Write>(
    table: &Table,
    name: &[u8],
    output: &mut Tap<W>,
) -> Result<(), WriteFailed>
    requires { has_failed output.old ≡ false }
    ensures { Puts W.contents output.old output.new result (rules_listing table.now.table (Some name.now)) }
{
    let Some(place) = table.index_of(name) else {
        return Ok(());
    };
    table.stands();
    put_head(table, place, output)?;
    put_rules(table, place, output)
}

/// Writes the listing of a table (iptables-save(8)): `*filter`, a line for each chain with its policy, or `-` for a
/// user chain, and the counters `[0:0]`, then the rules chain by chain, each after `-A chain`, and `COMMIT`.
///
/// A restore of the listing gives the table from the empty one.
///
/// It takes no memory, and time linear in the text, which is written as it comes.
///
/// # Errors
///
/// `WriteFailed` where the writer failed, now or before: it then got a beginning of the listing, none where it had
/// failed before.
pub fn write_listing<W: Write>(table: &Table, output: &mut Tap<W>) -> Result<(), WriteFailed>
    ensures puts { Puts W.contents output.old output.new result (listing table.now.table) }
    ensures restores { RestoresItself table.now.table }
{
    table.stands();
    listings_restore();
    output.put(b"*filter\n")?;
    put_chain_lines(table, output)?;
    put_all_rules(table, output)?;
    output.put(b"COMMIT\n")
}

/// Writes what `-S` lists (iptables(8)), of the chain of a name or, without one, of all: first the chains, each as
/// the command that gives it its policy or that makes it, and then their rules, each after `-A chain`.
///
/// For a chain that isn't there it writes nothing: the caller looks for it before.
///
/// It takes no memory, and time linear in the text, which is written as it comes; of one chain, that and a search by
/// halving.
///
/// # Errors
///
/// `WriteFailed` where the writer failed, now or before: it then got a beginning of the text, none where it had
/// failed before.
pub fn write_rules<W: Write>(
    table: &Table,
    chain: Option<&[u8]>,
    output: &mut Tap<W>,
) -> Result<(), WriteFailed>
    ensures puts { Puts W.contents output.old output.new result (rules_listing table.now.table (option_map (λ c. c.now) chain.entry)) }
{
    if output.failed() {
        return Err(WriteFailed);
    }
    match chain {
        None => put_rules_of_all(table, output),
        Some(name) => put_rules_of(table, name, output),
    }
}

//! Lists of ports.
ghost use Rattle.std.specs.Prelude.{◌≡◌, ◌≤◌, ◌<◌, ◌+◌, ◌∷◌, [], ◌++◌, Option, Some, None, IfSome, false, flat_map, length, ℕ, IfOk};
ghost use Rattle.fields.specs.numbers.Field.{port_top};
ghost use Rattle.fields.specs.numbers.Spans.{has};
ghost use Rattle.fields.specs.values.PortRange.{ports_text};
ghost use Rattle.fields.specs.values.PortList.{port_item_of, port_count, port_list_of, IsPortList, port_list_text, list_has_port};
ghost use Rattle.fields.specs.steps.ValueParts.{item_within};
ghost use Rattle.fields.specs.text.Printed.{IsBareWord};
ghost use Rattle.fields.specs.text.Tap.{has_failed, Puts};

use crate::numbers::field::PORT_TOP;
use crate::numbers::spans::Spans;
use crate::text::cut::cut_at;
use crate::text::number::read_number_to;
use crate::text::tap::{Tap, WriteFailed};
use crate::values::copied::copied;
use crate::values::port_range::PortRange;
use arrayvec::ArrayVec;
use std::alloc::{AllocError, Global};
use std::io::Write;
use std::marker::Model;

/// A list of 1 to 15 ports, in its order and with its repeats, where a range counts as two.
#[derive(Debug, PartialEq, Eq, Drop)]
pub struct PortList {
    items: ArrayVec<PortRange, 15>,
}

impl Model for PortList {
    ghost use Rattle.std.specs.Prelude.{List};
    ghost use Rattle.fields.specs.values.PortRange.{Ports};
    ghost use Rattle.fields.specs.values.PortList.{IsPortList};

    ghost Value = { List Ports };

    ghost view = { λ list. list.items.items };

    ghost invariant = { λ list. IsPortList list.items.items };

    ghost inverse = { λ items. record { items = record { items = items } } };
}

// As how many ports an item counts.
fn port_count(item: PortRange) -> usize
    ensures { result ≡ port_count item }
{
    if item.first() == item.last() { 1 } else { 2 }
}

// The item that a text writes.
#[tactic(auto, unfolding(crate::specs::values::PortList::port_item_of))]
fn read_item(text: &[u8]) -> Option<PortRange>
    ensures { result ≡ port_item_of text.now }
{
    let Some((from, to)) = cut_at(text, b':') else {
        let port = read_number_to(text, 65535)?;
        return PortRange::between(port, port);
    };
    let from = read_number_to(from, 65535)?;
    let to = read_number_to(to, 65535)?;
    PortRange::between(from, to)
}

// The item, where it counts as so many ports at most.
#[tactic(auto, unfolding(crate::specs::steps::ValueParts::item_within))]
fn read_item_within(text: &[u8], room: usize) -> Option<PortRange>
    ensures { result ≡ item_within room text.now }
{
    let item = read_item(text)?;
    if port_count(item) <= room {
        Some(item)
    } else {
        None
    }
}

impl PortList {
    /// The list that a text writes: 1 to 15 ports separated by commas, where a range `a:b` counts as
    /// two. Both ends of a range stand there, a not above b, and `a:a` is `a`
    /// (iptables-extensions(8), `--sports`).
    pub fn read(text: &[u8]) -> Option<PortList>
        ensures { result ≡ port_list_of text.now }
    {
        let mut items = ArrayVec::new();
        let mut room = 15;
        let mut rest = text;
        while let Some((part, further)) = cut_at(rest, b',') {
            let item = read_item_within(part, room)?;
            room -= port_count(item);
            items.push(item);
            rest = further;
        }
        let item = read_item_within(rest, room)?;
        items.push(item);
        Some(PortList { items })
    }

    /// The same list again. It takes no memory.
    pub fn copy(&self) -> PortList
        ensures { result ≡ self.now }
    {
        PortList {
            items: copied(&self.items),
        }
    }

    /// The ports and ranges in their order; they are lent.
    pub fn items(&self) -> &[PortRange]
        ensures value { result.now ≡ self.now }
        ensures list { IsPortList self.now }
    {
        self.items.as_slice()
    }

    /// Whether the port, or a range that has it, is listed.
    pub fn holds(&self, port: u16) -> bool
        ensures { result ≡ list_has_port self.now port }
    {
        self.items().iter().any(|item| item.holds(port))
    }

    /// Writes the list in its order, with a comma between two. That text reads back as this list, and needs no
    /// quotes. It takes no memory.
    #[tactic(auto, using(crate::proofs::laws::values::PortListLaws::reads_back, crate::proofs::laws::values::BareLaws::list_is_bare))]
    pub fn put<W: Write>(&self, output: &mut Tap<W>) -> Result<(), WriteFailed>
        ensures puts { Puts W.contents output.old output.new result (port_list_text self.now) }
        ensures word { IsBareWord (port_list_text self.now) }
        ensures reads_back { port_list_of (port_list_text self.now) ≡ Some self.now }
    {
        let items = self.items.as_slice();
        items[0].put(output)?;
        put_further(output, &items[1..])
    }

    /// The ports of all items of the list. It answers `AllocError` only where memory was refused.
    pub fn allowed(&self, alloc: Global) -> Result<Spans, AllocError>
        ensures top { IfOk result (λ set. set.top ≡ port_top) }
        ensures members { IfOk result (λ set. (x : ℕ) → x ≤ port_top → has set.intervals x ≡ list_has_port self.now x) }
    {
        let mut set = Spans::none(alloc, PORT_TOP);
        for item in self.items() {
            let ports = item.allowed(alloc)?;
            set = set.join(alloc, &ports)?;
        }
        Ok(set)
    }
}

// Writes further items of a list, each after a comma.
fn put_further<W: Write>(output: &mut Tap<W>, items: &[PortRange]) -> Result<(), WriteFailed>
    requires { has_failed output.old ≡ false }
    ensures { Puts W.contents output.old output.new result
        (flat_map (λ item. 44 ∷ ports_text item) items.now) }
{
    for item in items {
        put_next(output, *item)?;
    }
    Ok(())
}

// Writes a comma and an item.
fn put_next<W: Write>(output: &mut Tap<W>, item: PortRange) -> Result<(), WriteFailed>
    ensures { Puts W.contents output.old output.new result (44 ∷ ports_text item) }
{
    output.put(b",")?;
    item.put(output)
}

//! The lines of a few rules, as text.

use crate::classifiers::texts::{append, boxed};
use classify::{Classifier, Line};
use fields::Field;
use std::alloc::{AllocError, Global};
use std::fmt::Write;
use std::process::Abort;
use std::test::Fail;

// What `lines` prints of a line after its field's name.
fn text_of(alloc: Global, line: &Line, field: Field) -> Result<String, AllocError> {
    let mut text = String::new(alloc);
    for piece in line.pieces() {
        if field == Field::InIface || field == Field::OutIface {
            write!(text, " {:032x}:", piece.start())?;
        } else {
            write!(text, " {}:", piece.start())?;
        }
        let row = piece.row();
        let mut before = '{';
        let mut from = 0;
        for _ in 0..row.len() {
            let Some(place) = row.next_set(from) else {
                break;
            };
            from = place.saturating_add(1);
            text.push(before)?;
            write!(text, "{from}")?;
            before = ',';
        }
        text.push_str(if before == '{' { "{}" } else { "}" })?;
    }
    Ok(text)
}

// Compares a text with its field's among some, and with another where it has none.
fn expect_row(rt: &impl Abort, text: &str, field: Field, rows: &[(Field, &str)], other: &str) {
    for (of, row) in rows {
        if *of == field {
            assert_eq!(rt; text, *row);
            return;
        }
    }
    assert_eq!(rt; text, other);
}

// Compares every line with its row's text, and those that have none with one piece of such places.
fn expect(
    rt: &impl Abort,
    alloc: Global,
    classifier: &Classifier,
    rows: &[(Field, &str)],
    others: &str,
) -> Result<(), AllocError> {
    for field in Field::ALL {
        let text = text_of(alloc, &classifier.line(field), field)?;
        let zero = if field == Field::InIface || field == Field::OutIface {
            "00000000000000000000000000000000"
        } else {
            "0"
        };
        let whole = format!(in alloc; " {zero}:{others}")?;
        expect_row(rt, text.as_str(), field, rows, whole.as_str());
    }
    Ok(())
}

// A classifier of two rules.
fn two_rules(rt: &impl Abort, alloc: Global) -> Result<Classifier, Fail> {
    let mut classifier = Classifier::new(alloc)?;
    append(rt, alloc, &mut classifier, "-s 10.1.2.3/8 -j ACCEPT")?;
    append(rt, alloc, &mut classifier, "-p tcp --dport 22 -j DROP")?;
    Ok(classifier)
}

const SOURCE_OF_TWO: (Field, &str) = (Field::Source, " 0:{2} 167772160:{1,2} 184549376:{2}");

#[test]
fn lines_of_two_rules(rt: HostRuntime) -> Result<(), Fail> {
    let alloc = rt.alloc();
    let empty = Classifier::new(alloc)?;
    expect(&rt, alloc, &empty, &[], "{}")?;
    let mut classifier = two_rules(&rt, alloc)?;
    let rows = [
        SOURCE_OF_TWO,
        (Field::Protocol, " 0:{1} 6:{1,2} 7:{1}"),
        (Field::Fragment, " 0:{1,2} 1:{1}"),
        (Field::DestinationPort, " 0:{1} 22:{1,2} 23:{1}"),
    ];
    expect(&rt, alloc, &classifier, &rows, "{1,2}")?;
    let copy = classifier.copy(alloc)?;
    assert!(rt; classifier.len() > 1);
    classifier.replace(1, boxed(alloc, "-j DROP")?)?;
    expect(&rt, alloc, &classifier, &[SOURCE_OF_TWO], "{1,2}")?;
    classifier.clear();
    assert_eq!(rt; classifier.len(), 0);
    expect(&rt, alloc, &classifier, &[], "{}")?;
    expect(&rt, alloc, &copy, &rows, "{1,2}")?;
    Ok(())
}

#[test]
fn a_rule_put_first_and_one_taken_out(rt: HostRuntime) -> Result<(), Fail> {
    let alloc = rt.alloc();
    let mut classifier = two_rules(&rt, alloc)?;
    classifier.insert(0, boxed(alloc, "-j LOG")?)?;
    let rows = [
        (Field::Source, " 0:{1,3} 167772160:{1,2,3} 184549376:{1,3}"),
        (Field::Protocol, " 0:{1,2} 6:{1,2,3} 7:{1,2}"),
        (Field::Fragment, " 0:{1,2,3} 1:{1,2}"),
        (Field::DestinationPort, " 0:{1,2} 22:{1,2,3} 23:{1,2}"),
    ];
    expect(&rt, alloc, &classifier, &rows, "{1,2,3}")?;
    assert!(rt; classifier.len() > 1);
    classifier.remove(1);
    let rows = [
        (Field::Protocol, " 0:{1} 6:{1,2} 7:{1}"),
        (Field::Fragment, " 0:{1,2} 1:{1}"),
        (Field::DestinationPort, " 0:{1} 22:{1,2} 23:{1}"),
    ];
    expect(&rt, alloc, &classifier, &rows, "{1,2}")?;
    Ok(())
}

#[test]
fn a_cut_stays_while_a_rule_needs_it(rt: HostRuntime) -> Result<(), Fail> {
    let alloc = rt.alloc();
    let mut classifier = Classifier::new(alloc)?;
    append(&rt, alloc, &mut classifier, "-p tcp --dport 22 -j ACCEPT")?;
    append(&rt, alloc, &mut classifier, "-p tcp --dport 22 -j DROP")?;
    let rows = [
        (Field::Protocol, " 0:{} 6:{1,2} 7:{}"),
        (Field::Fragment, " 0:{1,2} 1:{}"),
        (Field::DestinationPort, " 0:{} 22:{1,2} 23:{}"),
    ];
    expect(&rt, alloc, &classifier, &rows, "{1,2}")?;
    assert!(rt; classifier.len() > 0);
    classifier.remove(0);
    let rows = [
        (Field::Protocol, " 0:{} 6:{1} 7:{}"),
        (Field::Fragment, " 0:{1} 1:{}"),
        (Field::DestinationPort, " 0:{} 22:{1} 23:{}"),
    ];
    expect(&rt, alloc, &classifier, &rows, "{1}")?;
    assert!(rt; classifier.len() > 0);
    classifier.replace(0, boxed(alloc, "-j DROP")?)?;
    expect(&rt, alloc, &classifier, &[], "{1}")?;
    Ok(())
}

// Compares the lines of one rule.
fn expect_rule(
    rt: &impl Abort,
    alloc: Global,
    text: &str,
    rows: &[(Field, &str)],
) -> Result<(), Fail> {
    let mut classifier = Classifier::new(alloc)?;
    append(rt, alloc, &mut classifier, text)?;
    expect(rt, alloc, &classifier, rows, "{1}")?;
    Ok(())
}

const TCP: (Field, &str) = (Field::Protocol, " 0:{} 6:{1} 7:{}");

const FIRST: (Field, &str) = (Field::Fragment, " 0:{1} 1:{}");

#[test]
fn lines_of_one_address_or_interface(rt: HostRuntime) -> Result<(), Fail> {
    let alloc = rt.alloc();
    let last = (Field::Destination, " 0:{} 4294967295:{1}");
    expect_rule(&rt, alloc, "-d 255.255.255.255 -j DROP", &[last])?;
    let eth = (
        Field::InIface,
        " 00000000000000000000000000000000:{} 65746800000000000000000000000000:{1} 65746900000000000000000000000000:{}",
    );
    expect_rule(&rt, alloc, "-i eth+ -j DROP", &[eth])?;
    let none = (Field::Source, " 0:{}");
    let range = "-m iprange --src-range 10.0.0.9-10.0.0.1 -j DROP";
    expect_rule(&rt, alloc, range, &[none])?;
    Ok(())
}

#[test]
fn lines_of_one_match(rt: HostRuntime) -> Result<(), Fail> {
    let alloc = rt.alloc();
    let flags = (
        Field::TcpFlags,
        " 0:{} 2:{1} 3:{} 10:{1} 11:{} 34:{1} 35:{} 42:{1} 43:{}",
    );
    expect_rule(&rt, alloc, "-p tcp --syn -j DROP", &[TCP, FIRST, flags])?;
    let port = (Field::DestinationPort, " 0:{1} 80:{} 81:{1}");
    let text = "-p tcp ! --dport 80 -j DROP";
    expect_rule(&rt, alloc, text, &[TCP, FIRST, port])?;
    let state = (Field::ConnectionState, " 0:{} 2:{1} 6:{} 10:{1}");
    let text = "-p 6 -m state --state established,NEW -j ACCEPT";
    expect_rule(&rt, alloc, text, &[TCP, state])?;
    let icmp = (Field::Protocol, " 0:{} 1:{1} 2:{}");
    let ping = (Field::IcmpType, " 0:{} 2048:{1} 2304:{}");
    let text = "-p icmp --icmp-type ping -j REJECT";
    expect_rule(&rt, alloc, text, &[icmp, FIRST, ping])?;
    Ok(())
}

#[test]
fn lines_of_both_ports(rt: HostRuntime) -> Result<(), Fail> {
    let alloc = rt.alloc();
    let text = "-p tcp -m multiport --ports 22,80:90 -j DROP";
    expect_rule(&rt, alloc, text, &[TCP, FIRST])?;
    let text = "-p tcp -m multiport ! --ports 22 -j DROP";
    expect_rule(&rt, alloc, text, &[TCP, FIRST])?;
    let port = (Field::DestinationPort, " 0:{1} 80:{} 81:{1}");
    let text = "-p tcp -m multiport --ports 22 ! --dport 80 -j DROP";
    expect_rule(&rt, alloc, text, &[TCP, FIRST, port])
}

// Each rule, and the line of times to live.
const LIVES: &[(&str, &str)] = &[
    ("-m ttl --ttl-lt 5 -j DROP", " 0:{1} 5:{}"),
    ("-m ttl --ttl-lt 0", " 0:{}"),
    ("-m ttl --ttl-lt 255", " 0:{1} 255:{}"),
    ("-m ttl --ttl-gt 254 -j DROP", " 0:{} 255:{1}"),
    ("-m ttl --ttl-gt 255 -j DROP", " 0:{}"),
    ("-m ttl --ttl-gt 0", " 0:{} 1:{1}"),
    ("-m ttl --ttl-eq 0", " 0:{1} 1:{}"),
    ("-m ttl --ttl-eq 64", " 0:{} 64:{1} 65:{}"),
    ("-m ttl --ttl-eq 255", " 0:{} 255:{1}"),
    ("-m ttl ! --ttl-eq 0", " 0:{} 1:{1}"),
    ("-m ttl ! --ttl-eq 64 -j DROP", " 0:{1} 64:{} 65:{1}"),
    ("-m ttl ! --ttl-eq 255", " 0:{1} 255:{}"),
    ("-m ttl --ttl-gt 4 -m ttl --ttl-lt 9", " 0:{} 5:{1} 9:{}"),
    ("-m ttl --ttl-gt 9 -m ttl --ttl-lt 4", " 0:{}"),
];

#[test]
fn lines_of_times_to_live(rt: HostRuntime) -> Result<(), Fail> {
    for (text, line) in LIVES {
        expect_rule(&rt, rt.alloc(), text, &[(Field::TimeToLive, *line)])?;
    }
    Ok(())
}

//! Rules that are compared, copied and renamed.
use crate::lines::read;
use fields::Name;
use rules::{Rule, Target};
use std::alloc::Global;
use std::process::Abort;
use std::test::Fail;

// Two lines, and whether they are equal rules.
const EQUAL: &[(&str, &str, bool)] = &[
    (
        "-p tcp -m tcp --dport 22 -j DROP",
        "--protocol 6 --destination-port 22:22 -j DROP",
        true,
    ),
    (
        "-s 1.1.1.1",
        "-s 1.1.1.1/255.255.255.255 -d 0.0.0.0/0",
        true,
    ),
    (
        "-p tcp --syn",
        "-p tcp --tcp-flags RST,FIN,ack,SYN syn",
        true,
    ),
    ("-p icmp -m icmp", "-p 1 --icmp-type 255", true),
    ("-j LOG", "-j LOG --log-prefix \"\" --log-level 4", true),
    (
        "-j REJECT",
        "-j REJECT --reject-with icmp-port-unreachable",
        true,
    ),
    ("-i a -o b", "-o b -i a", true),
    ("-i a", "-o a", false),
    ("-s 1.1.1.1", "! -s 1.1.1.1", false),
    ("-s 1.1.1.1", "-s 1.1.1.1 -j DROP", false),
    ("-p tcp", "-p tcp -m tcp", false),
    ("-j a", "-g a", false),
    ("-m state --state NEW", "-m conntrack --ctstate NEW", false),
    (
        "-p tcp -m multiport --dports 1,2",
        "-p tcp -m multiport --dports 2,1",
        false,
    ),
    (
        "-p tcp -m tcp -m comment --comment x",
        "-p tcp -m comment --comment x -m tcp",
        false,
    ),
    ("-j LOG --log-uid", "-j LOG --log-ip-options", false),
    (
        "-p tcp -m multiport --ports 5:5,7",
        "-p tcp -m multiport --ports 5,7:7",
        true,
    ),
    (
        "-p tcp -m multiport --ports 1,2",
        "-p tcp -m multiport --ports 2,1",
        false,
    ),
    (
        "-p tcp -m multiport --ports 1",
        "-p tcp -m multiport ! --ports 1",
        false,
    ),
    (
        "-p tcp -m multiport --ports 1",
        "-p tcp -m multiport --dports 1",
        false,
    ),
    (
        "-p tcp -m multiport --ports 1",
        "-p tcp -m multiport --sports 1",
        false,
    ),
    ("-m ttl --ttl-eq 64", "--match ttl --ttl-eq 64", true),
    ("-m ttl --ttl-eq 64", "-m ttl --ttl-eq 65", false),
    ("-m ttl --ttl-eq 64", "-m ttl ! --ttl-eq 64", false),
    ("-m ttl --ttl-eq 255", "-m ttl --ttl-gt 254", false),
    ("-m ttl --ttl-lt 0", "-m ttl --ttl-gt 255", false),
    (
        "-m ttl --ttl-lt 5",
        "-m ttl --ttl-lt 5 -m ttl --ttl-lt 5",
        false,
    ),
    ("-j RETURN", "--jump RETURN", true),
    ("-f", "! --fragment", false),
    (
        "-m iprange --src-range 1.1.1.1 ! --dst-range 2.2.2.2-3.3.3.3",
        "-m iprange ! --dst-range 2.2.2.2-3.3.3.3 --src-range 1.1.1.1-1.1.1.1",
        true,
    ),
    (
        "-p udp -m multiport ! --sports 1,2 --sport 3",
        "-p udp -m multiport ! --source-ports 1,2:2 -m udp --sport 3:3",
        true,
    ),
    (
        "-m comment --comment a -j LOG --log-prefix x --log-tcp-sequence",
        "-m comment --comment a -j LOG --log-prefix x --log-tcp-options",
        false,
    ),
];

// Whether the rules of two lines are equal, asked of the first.
fn equals(alloc: Global, one: &str, other: &str) -> Result<bool, Fail> {
    let first = read(alloc, one)?;
    let second = read(alloc, other)?;
    Ok(first.equals(&second))
}

// Compares whether the rules of two lines are equal.
fn compared(rt: &impl Abort, alloc: Global, row: &(&str, &str, bool)) -> Result<(), Fail> {
    let (one, other, are_equal) = *row;
    assert!(rt; equals(alloc, one, other)? == are_equal, "{one}, {other}");
    assert!(rt; equals(alloc, other, one)? == are_equal, "{other}, {one}");
    Ok(())
}

#[test]
fn compares(rt: HostRuntime) -> Result<(), Fail> {
    for row in EQUAL {
        compared(&rt, rt.alloc(), row)?;
    }
    Ok(())
}

// Whether the copy of the rule of a line equals it.
fn is_copied(alloc: Global, line: &str) -> Result<bool, Fail> {
    let rule = read(alloc, line)?;
    let copy = rule.copy(alloc)?;
    Ok(copy.equals(&rule))
}

#[test]
fn copies(rt: HostRuntime) -> Result<(), Fail> {
    for (one, other, _) in EQUAL {
        assert!(rt; is_copied(rt.alloc(), one)?, "{one}");
        assert!(rt; is_copied(rt.alloc(), other)?, "{other}");
    }
    Ok(())
}

// Gives the chain that a rule names another name.
fn rename(rule: &mut Rule) -> Result<(), Fail> {
    let name = Name::read(b"new").ok_or("no name")?;
    match rule.target() {
        Some(Target::Goto(_)) => rule.rename_target(&name),
        Some(Target::Jump(_)) => rule.rename_target(&name),
        _ => return Err(Fail::new("no chain")),
    }
    Ok(())
}

// Whether the rule of a line has a text after its chain was renamed.
fn is_renamed(alloc: Global, line: &str, text: &str) -> Result<bool, Fail> {
    let mut rule = read(alloc, line)?;
    rename(&mut rule)?;
    let expected = read(alloc, text)?;
    Ok(rule.equals(&expected))
}

#[test]
fn renames_its_target(rt: HostRuntime) -> Result<(), Fail> {
    const ROWS: &[(&str, &str)] = &[
        (
            "-o eth0 -m comment --comment x -g old",
            " -o eth0 -m comment --comment x -g new",
        ),
        ("-p tcp --dport 1 -j old", " -p tcp -m tcp --dport 1 -j new"),
        (
            "-p tcp -m multiport ! --ports 1 -m ttl --ttl-gt 5 -g old",
            " -p tcp -m multiport ! --ports 1 -m ttl --ttl-gt 5 -g new",
        ),
    ];
    for (line, text) in ROWS {
        assert!(rt; is_renamed(rt.alloc(), line, text)?, "{line}");
    }
    Ok(())
}

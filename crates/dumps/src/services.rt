//! Names that stand for numbers: those of services for ports, and those of types of ICMP that the program doesn't read.
ghost use Rattle.std.specs.Prelude.{◌≡◌, ◌++◌, [], IfOk};
ghost use Rattle.std.specs.List.{cons_option};
ghost use Rattle.fields.specs.text.Cut.{cut_at};
ghost use Rattle.dumps.specs.Services.{HaveOneLine, names_of, services, icmp_types};
ghost use Rattle.dumps.specs.Views.{names_in};

use crate::options::table::NameRow;
use fields::cut_at;
use std::alloc::{AllocError, Global};

// Services, each with its port, which is one for TCP and UDP.
static PORTS: &str = "tcpmux 1
echo 7
discard 9
systat 11
daytime 13
netstat 15
qotd 17
chargen 19
ftp-data 20
ftp 21
ssh 22
telnet 23
smtp 25
mail 25
time 37
whois 43
tacacs 49
domain 53
bootps 67
bootpc 68
tftp 69
gopher 70
finger 79
http 80
www 80
kerberos 88
iso-tsap 102
pop3 110
pop-3 110
sunrpc 111
portmapper 111
auth 113
ident 113
nntp 119
ntp 123
epmap 135
loc-srv 135
netbios-ns 137
netbios-dgm 138
netbios-ssn 139
imap2 143
imap 143
snmp 161
snmp-trap 162
snmptrap 162
xdmcp 177
bgp 179
ipx 213
ptp-event 319
ptp-general 320
ldap 389
svrloc 427
https 443
snpp 444
microsoft-ds 445
kpasswd 464
submissions 465
ssmtp 465
smtps 465
urd 465
isakmp 500
exec 512
biff 512
login 513
who 513
shell 514
syslog 514
printer 515
talk 517
ntalk 518
route 520
router 520
uucp 540
klogin 543
kshell 544
dhcpv6-client 546
dhcpv6-server 547
afpovertcp 548
rtsp 554
nntps 563
submission 587
asf-rmcp 623
ipp 631
ldaps 636
ldp 646
tinc 655
kerberos-adm 749
domain-s 853
rsync 873
ftps-data 989
ftps 990
telnets 992
imaps 993
pop3s 995
socks 1080
openvpn 1194
ms-sql-s 1433
ms-sql-m 1434
l2f 1701
l2tp 1701
radius 1812
radius-acct 1813
radacct 1813
nfs 2049
cvspserver 2401
dict 2628
gpsd 2947
icpv2 3130
icp 3130
iscsi-target 3260
mysql 3306
ms-wbt-server 3389
nut 3493
distcc 3632
daap 3689
svn 3690
subversion 3690
sieve 4190
epmd 4369
ntske 4460
ipsec-nat-t 4500
iax 4569
munin 4949
sip 5060
sip-tls 5061
xmpp-client 5222
jabber-client 5222
xmpp-server 5269
jabber-server 5269
cfengine 5308
mdns 5353
postgresql 5432
postgres 5432
nrpe 5666
nsca 5667
amqps 5671
amqp 5672
x11 6000
redis 6379
syslog-tls 6514
ircd 6667
ircs-u 6697
http-alt 8080
webcache 8080
puppet 8140
bacula-dir 9101
bacula-fd 9102
bacula-sd 9103
git 9418
webmin 10000
zabbix-agent 10050
zabbix-trapper 10051
amanda 10080
nbd 10809
hkp 11371
";

// Types of ICMP, each as `type` or `type/code`.
static ICMP_TYPES: &str = "source-route-failed 3/5
network-unknown 3/6
host-unknown 3/7
network-prohibited 3/9
host-prohibited 3/10
TOS-network-unreachable 3/11
TOS-host-unreachable 3/12
communication-prohibited 3/13
host-precedence-violation 3/14
precedence-cutoff 3/15
network-redirect 5/0
host-redirect 5/1
TOS-network-redirect 5/2
TOS-host-redirect 5/3
router-advertisement 9
router-solicitation 10
ttl-zero-during-transit 11/0
ttl-zero-during-reassembly 11/1
ip-header-bad 12/0
required-option-missing 12/1
address-mask-request 17
address-mask-reply 18
";

// Adds the row of a line, if a blank stands between a name and a number.
fn add_row<'a>(rows: &mut Vec<NameRow<'a>>, line: &'a str) -> Result<(), AllocError>
    ensures { IfOk result (λ _. names_in rows.new.items ≡ names_in rows.old.items ++ cons_option (cut_at 32 line.now) []) }
{
    if let Some((name, number)) = cut_at(line.as_bytes(), b' ') {
        rows.push(NameRow { name, number })?;
    }
    Ok(())
}

// The rows of a text, one a line.
fn name_rows(alloc: Global, text: &str) -> Result<Vec<NameRow<'_>>, AllocError>
    ensures { IfOk result (λ rows. names_in rows.items ≡ names_of text.now) }
{
    let mut rows = Vec::new(alloc);
    for line in text.lines() {
        add_row(&mut rows, line)?;
    }
    Ok(rows)
}

/// The common services' names for ports (services(5)).
///
/// # Errors
///
/// `AllocError` where memory was refused.
pub fn port_names(alloc: Global) -> Result<Vec<NameRow<'static>>, AllocError>
    ensures rows { IfOk result (λ rows. names_in rows.items ≡ names_of services) }
    ensures lines { IfOk result (λ rows. HaveOneLine (names_in rows.items)) }
{
    name_rows(alloc, PORTS)
}

/// The names of types of ICMP that iptables has and the program doesn't read (iptables-extensions(8), `--icmp-type`).
///
/// # Errors
///
/// `AllocError` where memory was refused.
pub fn icmp_type_names(alloc: Global) -> Result<Vec<NameRow<'static>>, AllocError>
    ensures rows { IfOk result (λ rows. names_in rows.items ≡ names_of icmp_types) }
    ensures lines { IfOk result (λ rows. HaveOneLine (names_in rows.items)) }
{
    name_rows(alloc, ICMP_TYPES)
}

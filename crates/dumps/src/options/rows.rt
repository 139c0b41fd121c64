//! The rows of the table of options. `tools/rows` writes this file, by the table in commands/options.table.

// Of each option a line: whose it is, and `.` where it is the rule's own, its role, how many values follow, and its spellings.
pub(crate) static OPTIONS: &str = ". own 1 -s --source --src
. own 1 -d --destination --dst
. own 1 -i --in-interface
. own 1 -o --out-interface
. protocol 1 -p --protocol
. own 0 -f --fragments --fragment
. match 1 -m --match
. target 1 -j --jump
. own 1 -g --goto
. says 0 -4 --ipv4
tcp ports 1 --sport --source-port
tcp ports 1 --dport --destination-port
tcp own 2 --tcp-flags
tcp own 0 --syn
tcp unopposed 1 --tcp-option
udp ports 1 --sport --source-port
udp ports 1 --dport --destination-port
icmp icmp-type 1 --icmp-type
multiport ports 1 --sports --source-ports
multiport ports 1 --dports --destination-ports
multiport ports 1 --ports
iprange own 1 --src-range
iprange own 1 --dst-range
conntrack own 1 --ctstate
conntrack unopposed 1 --ctproto
conntrack unopposed 1 --ctorigsrc
conntrack unopposed 1 --ctorigdst
conntrack unopposed 1 --ctreplsrc
conntrack unopposed 1 --ctrepldst
conntrack unopposed 1 --ctorigsrcport
conntrack unopposed 1 --ctorigdstport
conntrack unopposed 1 --ctreplsrcport
conntrack unopposed 1 --ctrepldstport
conntrack unopposed 1 --ctstatus
conntrack unopposed 1 --ctexpire
conntrack unopposed 1 --ctdir
state own 1 --state
ttl own 1 --ttl-eq --ttl
ttl own 1 --ttl-gt
ttl own 1 --ttl-lt
comment own 1 --comment
addrtype asks 1 --src-type
addrtype asks 1 --dst-type
addrtype says 0 --limit-iface-in
addrtype says 0 --limit-iface-out
ah unopposed 1 --ahspi
bpf asks 1 --bytecode
bpf asks 1 --object-pinned
cgroup unopposed 1 --path
cgroup unopposed 1 --cgroup
cluster says 1 --cluster-total-nodes
cluster unopposed 1 --cluster-local-node
cluster unopposed 1 --cluster-local-nodemask
cluster says 1 --cluster-hash-seed
condition asks 1 --condition
connbytes unopposed 1 --connbytes
connbytes says 1 --connbytes-dir
connbytes says 1 --connbytes-mode
connlabel asks 1 --label
connlabel says 0 --set
connlimit unopposed 1 --connlimit-upto
connlimit unopposed 1 --connlimit-above
connlimit says 1 --connlimit-mask
connlimit says 0 --connlimit-saddr
connlimit says 0 --connlimit-daddr
connmark unopposed 1 --mark
cpu asks 1 --cpu
dccp unopposed 1 --sport --source-port
dccp unopposed 1 --dport --destination-port
dccp unopposed 1 --dccp-types
dccp unopposed 1 --dccp-option
devgroup asks 1 --src-group
devgroup asks 1 --dst-group
dscp asks 1 --dscp
dscp asks 1 --dscp-class
ecn unopposed 0 --ecn-tcp-cwr
ecn unopposed 0 --ecn-tcp-ece
ecn unopposed 1 --ecn-ip-ect
esp unopposed 1 --espspi
geoip unopposed 1 --src-cc --source-country
geoip unopposed 1 --dst-cc --destination-country
hashlimit unopposed 1 --hashlimit-upto
hashlimit unopposed 1 --hashlimit-above
hashlimit unopposed 1 --hashlimit
hashlimit says 1 --hashlimit-burst
hashlimit says 1 --hashlimit-mode
hashlimit says 1 --hashlimit-srcmask
hashlimit says 1 --hashlimit-dstmask
hashlimit says 1 --hashlimit-name
hashlimit says 1 --hashlimit-htable-size
hashlimit says 1 --hashlimit-htable-max
hashlimit says 1 --hashlimit-htable-expire
hashlimit says 1 --hashlimit-htable-gcinterval
hashlimit says 0 --hashlimit-rate-match
hashlimit says 1 --hashlimit-rate-interval
helper asks 1 --helper
ipcomp unopposed 1 --ipcompspi
ipcomp says 0 --compres
ipvs unopposed 0 --ipvs
ipvs unopposed 1 --vproto
ipvs unopposed 1 --vaddr
ipvs unopposed 1 --vport
ipvs unopposed 1 --vdir
ipvs unopposed 1 --vmethod
ipvs unopposed 1 --vportctl
length asks 1 --length
limit asks 1 --limit
limit says 1 --limit-burst
mac unopposed 1 --mac-source
mark asks 1 --mark
nfacct asks 1 --nfacct-name
osf unopposed 1 --genre
osf says 1 --ttl
osf says 1 --log
owner asks 1 --uid-owner
owner asks 1 --gid-owner
owner asks 0 --socket-exists
owner says 0 --suppl-groups
physdev unopposed 1 --physdev-in
physdev unopposed 1 --physdev-out
physdev asks 0 --physdev-is-in
physdev asks 0 --physdev-is-out
physdev asks 0 --physdev-is-bridged
pkttype asks 1 --pkt-type
policy says 1 --dir
policy unopposed 1 --pol
policy says 0 --strict
policy unopposed 1 --reqid
policy unopposed 1 --spi
policy unopposed 1 --proto
policy unopposed 1 --mode
policy unopposed 1 --tunnel-src
policy unopposed 1 --tunnel-dst
policy says 0 --next
quota asks 1 --quota
realm asks 1 --realm
recent holds 0 --set
recent asks 0 --rcheck
recent asks 0 --update
recent asks 0 --remove
recent says 1 --seconds
recent says 0 --reap
recent says 1 --hitcount
recent says 0 --rttl
recent says 1 --name
recent says 1 --mask
recent says 0 --rsource
recent says 0 --rdest
rpfilter says 0 --loose
rpfilter says 0 --validmark
rpfilter says 0 --accept-local
rpfilter turns 0 --invert
sctp unopposed 1 --sport --source-port
sctp unopposed 1 --dport --destination-port
sctp unopposed 2 --chunk-types
set asks-of 2 --match-set
set says 0 --return-nomatch
set says 0 --update-counters
set says 0 --update-subcounters
set counts 1 --packets-eq
set counts 1 --packets-lt
set counts 1 --packets-gt
set counts 1 --bytes-eq
set counts 1 --bytes-lt
set counts 1 --bytes-gt
socket asks 0 --transparent
socket says 0 --nowildcard
statistic says 1 --mode
statistic asks 1 --probability
statistic asks 1 --every
statistic says 1 --packet
string asks 1 --string
string asks 1 --hex-string
string says 1 --algo
string says 1 --from
string says 1 --to
string says 0 --icase
tcpmss unopposed 1 --mss
time asks 1 --datestart
time asks 1 --datestop
time asks 1 --timestart
time asks 1 --timestop
time asks 1 --monthdays
time asks 1 --weekdays
time says 0 --contiguous
time says 0 --kerneltz
time says 0 --utc
tos asks 1 --tos
u32 asks 1 --u32
REJECT own 1 --reject-with
LOG own 1 --log-prefix
LOG own 1 --log-level
LOG own 0 --log-tcp-sequence
LOG own 0 --log-tcp-options
LOG own 0 --log-ip-options
LOG own 0 --log-uid
LOG says 0 --log-macdecode
AUDIT says 1 --type
CLASSIFY says 1 --set-class
CONNMARK says 1 --set-xmark
CONNMARK says 0 --save-mark
CONNMARK says 0 --restore-mark
CONNMARK says 1 --nfmask
CONNMARK says 1 --ctmask
CONNMARK says 1 --mask
CONNMARK says 1 --set-mark
CONNMARK says 1 --and-mark
CONNMARK says 1 --or-mark
CONNMARK says 1 --xor-mark
CONNMARK says 1 --left-shift-mark
CONNMARK says 1 --right-shift-mark
IDLETIMER says 1 --timeout
IDLETIMER says 1 --label
IDLETIMER says 0 --alarm
LED says 1 --led-trigger-id
LED says 1 --led-delay
LED says 0 --led-always-blink
MARK says 1 --set-xmark
MARK says 1 --set-mark
MARK says 1 --and-mark
MARK says 1 --or-mark
MARK says 1 --xor-mark
NFLOG says 1 --nflog-group
NFLOG says 1 --nflog-prefix
NFLOG says 1 --nflog-range
NFLOG says 1 --nflog-size
NFLOG says 1 --nflog-threshold
RATEEST says 1 --rateest-name
RATEEST says 1 --rateest-interval
RATEEST says 1 --rateest-ewmalog
SET sets 2 --add-set
SET sets 2 --del-set
SET sets 2 --map-set
SET says 1 --timeout
SET says 0 --exist
SET says 0 --map-mark
SET says 0 --map-prio
SET says 0 --map-queue
TCPMSS says 1 --set-mss
TCPMSS says 0 --clamp-mss-to-pmtu
TEE says 1 --gateway
TEE says 1 --oif
ULOG says 1 --ulog-nlgroup
ULOG says 1 --ulog-prefix
ULOG says 1 --ulog-cprange
ULOG says 1 --ulog-qthreshold
CLUSTERIP says 0 --new
CLUSTERIP says 1 --hashmode
CLUSTERIP says 1 --clustermac
CLUSTERIP says 1 --total-nodes
CLUSTERIP says 1 --local-node
CLUSTERIP says 1 --hash-init
NFQUEUE says 1 --queue-num
NFQUEUE says 1 --queue-balance
NFQUEUE says 0 --queue-bypass
NFQUEUE says 0 --queue-cpu-fanout
SYNPROXY says 1 --mss
SYNPROXY says 1 --wscale
SYNPROXY says 0 --sack-perm
SYNPROXY says 0 --timestamp
SYNPROXY says 0 --ecn
TARPIT says 0 --tarpit
TARPIT says 0 --honeypot
TARPIT says 0 --reset
";

// Of each match and target a line: its name, its kind, and of a match the words of `-p` that begin it, of a target the matches that ask
// what it sets.
pub(crate) static EXTENSIONS: &str = "tcp alone tcp 6
udp alone udp 17
icmp alone icmp 1
multiport known
iprange known
conntrack known
state known
ttl known
comment known
addrtype text
ah text ah 51
bpf place
cgroup text
cluster text
condition place
connbytes place
connlabel place
connlimit place
connmark set
cpu text
dccp text dccp 33
devgroup text
dscp text
ecn text
esp text esp 50
geoip text
hashlimit place
helper text
ipcomp text ipcomp 108
ipvs place
length set
limit place
mac text
mark set
nfacct place
osf text
owner text
physdev text
pkttype text
policy text
quota place
realm text
recent place
rpfilter text
sctp text sctp 132
set set
socket text
statistic place
string set
tcpmss set
time place
tos text
u32 set
ACCEPT ends
DROP ends
RETURN ends
REJECT ends
LOG logs
AUDIT passes
CLASSIFY passes
CONNMARK passes connmark mark
IDLETIMER passes
LED passes
MARK passes mark
NFLOG passes
RATEEST passes
SET passes mark
TCPMSS passes tcpmss length u32 string
TEE passes
TRACE passes
ULOG passes
CLUSTERIP may-decide
NFQUEUE decides
QUEUE decides
SYNPROXY may-decide
TARPIT decides
";

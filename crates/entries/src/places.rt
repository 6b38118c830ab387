// Where the members of an entry, and of the objects in it, stand: found in one walk of an object, and looked at many times.
#![tactic(auto, using(crate::proofs::PlaceLaws::placing))]

ghost use Rattle.std.specs.Prelude.{◌≡◌};
ghost use Rattle.entries.specs.Trees.{trees};
ghost use Rattle.entries.specs.Places.{MatchesAt, MudAt, Ipv4At, TcpAt, UdpAt, PortAt, EntryAt, SidesOf};

use crate::members::members_of;
use flows::Direction;

// Each of these has the file, the object that was found in it, where the object's members stand, and whether it has no others.
// Where no object was found, none of its members is there.
#[derive(Clone, Copy)]
pub struct Mud<'a> {
    pub s: &'a [u8],
    pub found: Option<usize>,
    pub manufacturer: Option<usize>,
    pub model: Option<usize>,
    pub controller: Option<usize>,
    pub kin: Option<usize>,
    pub local: Option<usize>,
    pub mine: Option<usize>,
    pub listed: bool,
    pub ghost held: { MudAt s.now found manufacturer model controller kin local mine listed } by { Prim.hlevel trees },
}

#[derive(Clone, Copy)]
pub struct Ipv4<'a> {
    pub s: &'a [u8],
    pub found: Option<usize>,
    pub protocol: Option<usize>,
    pub source: Option<usize>,
    pub destination: Option<usize>,
    pub sender: Option<usize>,
    pub receiver: Option<usize>,
    pub listed: bool,
    pub ghost held: { Ipv4At s.now found protocol source destination sender receiver listed } by { Prim.hlevel trees },
}

#[derive(Clone, Copy)]
pub struct Port<'a> {
    pub s: &'a [u8],
    pub found: Option<usize>,
    pub lower: Option<usize>,
    pub upper: Option<usize>,
    pub port: Option<usize>,
    pub operator: Option<usize>,
    pub listed: bool,
    pub ghost held: { PortAt s.now found lower upper port operator listed } by { Prim.hlevel trees },
}

#[derive(Clone, Copy)]
pub struct Tcp<'a> {
    pub s: &'a [u8],
    pub found: Option<usize>,
    pub source: Option<usize>,
    pub destination: Option<usize>,
    pub initiated: Option<usize>,
    pub listed: bool,
    pub ghost held: { TcpAt s.now found source destination initiated listed } by { Prim.hlevel trees },
}

#[derive(Clone, Copy)]
pub struct Udp<'a> {
    pub s: &'a [u8],
    pub found: Option<usize>,
    pub source: Option<usize>,
    pub destination: Option<usize>,
    pub listed: bool,
    pub ghost held: { UdpAt s.now found source destination listed } by { Prim.hlevel trees },
}

#[derive(Clone, Copy)]
pub struct Matches<'a> {
    pub s: &'a [u8],
    pub found: Option<usize>,
    pub mud: Option<usize>,
    pub ipv4: Ipv4<'a>,
    pub tcp: Option<usize>,
    pub udp: Option<usize>,
    pub listed: bool,
    pub ghost held: { MatchesAt s.now found mud ipv4.found tcp udp listed } by { Prim.hlevel trees },
    pub ghost in_file: { ipv4.s.now ≡ s.now },
}

// The entry at a place. What else it has is of no account.
#[derive(Clone, Copy)]
pub struct Entry<'a> {
    pub s: &'a [u8],
    pub at: usize,
    pub actions: Option<usize>,
    pub matches: Matches<'a>,
    pub ghost held: { EntryAt s.now at actions matches.found } by { Prim.hlevel trees },
    pub ghost in_file: { matches.s.now ≡ s.now },
}

// The members of `ipv4` by side: the network and the name of the remote, and those of the device.
#[derive(Clone, Copy)]
pub struct Sides {
    pub network: Option<usize>,
    pub name: Option<usize>,
    pub elsewhere: Option<usize>,
    pub stranger: Option<usize>,
}

pub fn mud_at<'a>(s: &'a [u8], found: Option<usize>) -> Mud<'a>
    ensures { (result.s.now ≡ s.now) × (result.found ≡ found) }
{
    let m = members_of::<6>(
        s,
        found,
        8,
        &[
            b"manufacturer",
            b"model",
            b"controller",
            b"same-manufacturer",
            b"local-networks",
            b"my-controller",
        ],
    );
    let [manufacturer, model, controller, kin, local, mine] = m.places;
    Mud {
        s,
        found,
        manufacturer,
        model,
        controller,
        kin,
        local,
        mine,
        listed: m.listed,
    }
}

fn ipv4_at<'a>(s: &'a [u8], found: Option<usize>) -> Ipv4<'a>
    ensures { (result.s.now ≡ s.now) × (result.found ≡ found) }
{
    let m = members_of::<5>(
        s,
        found,
        8,
        &[
            b"protocol",
            b"source-ipv4-network",
            b"destination-ipv4-network",
            b"ietf-acldns:src-dnsname",
            b"ietf-acldns:dst-dnsname",
        ],
    );
    let [protocol, source, destination, sender, receiver] = m.places;
    Ipv4 {
        s,
        found,
        protocol,
        source,
        destination,
        sender,
        receiver,
        listed: m.listed,
    }
}

pub fn port_at<'a>(s: &'a [u8], found: Option<usize>) -> Port<'a>
    ensures { (result.s.now ≡ s.now) × (result.found ≡ found) }
{
    let m = members_of::<4>(
        s,
        found,
        7,
        &[b"lower-port", b"upper-port", b"port", b"operator"],
    );
    let [lower, upper, port, operator] = m.places;
    Port {
        s,
        found,
        lower,
        upper,
        port,
        operator,
        listed: m.listed,
    }
}

pub fn tcp_at<'a>(s: &'a [u8], found: Option<usize>) -> Tcp<'a>
    ensures { (result.s.now ≡ s.now) × (result.found ≡ found) }
{
    let m = members_of::<3>(
        s,
        found,
        8,
        &[
            b"source-port",
            b"destination-port",
            b"ietf-mud:direction-initiated",
        ],
    );
    let [source, destination, initiated] = m.places;
    Tcp {
        s,
        found,
        source,
        destination,
        initiated,
        listed: m.listed,
    }
}

pub fn udp_at<'a>(s: &'a [u8], found: Option<usize>) -> Udp<'a>
    ensures { (result.s.now ≡ s.now) × (result.found ≡ found) }
{
    let m = members_of::<2>(s, found, 8, &[b"source-port", b"destination-port"]);
    let [source, destination] = m.places;
    Udp {
        s,
        found,
        source,
        destination,
        listed: m.listed,
    }
}

fn matches_at<'a>(s: &'a [u8], found: Option<usize>) -> Matches<'a>
    ensures { (result.s.now ≡ s.now) × (result.found ≡ found) }
{
    let m = members_of::<4>(s, found, 9, &[b"ietf-mud:mud", b"ipv4", b"tcp", b"udp"]);
    let [mud, ipv4, tcp, udp] = m.places;
    Matches {
        s,
        found,
        mud,
        ipv4: ipv4_at(s, ipv4),
        tcp,
        udp,
        listed: m.listed,
    }
}

pub fn parts_of<'a>(s: &'a [u8], entry: usize) -> Entry<'a>
    ensures { (result.s.now ≡ s.now) × (result.at ≡ entry) }
{
    let m = members_of::<2>(s, Some(entry), 10, &[b"actions", b"matches"]);
    let [actions, matches] = m.places;
    Entry {
        s,
        at: entry,
        actions,
        matches: matches_at(s, matches),
    }
}

// "In a from-device list the destination is the remote and the source the device; in a to-device list the reverse."
pub fn sides_of(ipv4: &Ipv4, d: Direction) -> Sides
    ensures { SidesOf d ipv4.now.s.now ipv4.now.found result }
{
    match d {
        Direction::FromDevice => Sides {
            network: ipv4.destination,
            name: ipv4.receiver,
            elsewhere: ipv4.source,
            stranger: ipv4.sender,
        },
        Direction::ToDevice => Sides {
            network: ipv4.source,
            name: ipv4.sender,
            elsewhere: ipv4.destination,
            stranger: ipv4.receiver,
        },
    }
}

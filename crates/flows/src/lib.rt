// What a flow is. The one table of a set of flows is mathematics: see specs/ and proofs/.
#![tactic(auto, using(crate::proofs::Deciding::deciding), unfolding(crate::specs::Flow::flow_numbers))]

ghost use Rattle.std.specs.Prelude.{◌≡◌};
ghost use Rattle.flows.specs.Flow.{flow_numbers, is_flow};
ghost use Rattle.flows.specs.Numbers.{direction_number, opener_number, point_of, by_side, sides_of};

#[derive(Clone, Copy, Debug, PartialEq, Eq)]
pub enum Direction {
    FromDevice,
    ToDevice,
}

#[derive(Clone, Copy, Debug, PartialEq, Eq)]
pub enum Opener {
    Device,
    Remote,
}

#[derive(Clone, Copy, Debug, PartialEq, Eq)]
pub struct Protocol(pub u8);

#[derive(Clone, Copy, Debug, PartialEq, Eq)]
pub struct Address(pub u32);

// Two ports that must not be taken for each other: only `sides_of` makes them of a packet's ports.
#[derive(Clone, Copy, Debug, PartialEq, Eq)]
pub struct RemotePort(pub u16);

#[derive(Clone, Copy, Debug, PartialEq, Eq)]
pub struct DevicePort(pub u16);

#[derive(Clone, Copy, Debug, PartialEq, Eq)]
pub struct Sides {
    pub remote: RemotePort,
    pub device: DevicePort,
}

// Six numbers that may be a flow. Direction and opener come as numbers, since they may be neither 0 nor 1.
#[derive(Clone, Copy, Debug, PartialEq, Eq)]
pub struct Numbers {
    pub direction: u8,
    pub protocol: Protocol,
    pub opener: u8,
    pub address: Address,
    pub remote: RemotePort,
    pub device: DevicePort,
}

impl From<Direction> for u8 {
    ghost from_gives = { λ d n. n ≡ direction_number d };

    fn from(d: Direction) -> u8 {
        match d {
            Direction::FromDevice => 0,
            Direction::ToDevice => 1,
        }
    }
}

impl From<Opener> for u8 {
    ghost from_gives = { λ o n. n ≡ opener_number o };

    fn from(o: Opener) -> u8 {
        match o {
            Opener::Device => 0,
            Opener::Remote => 1,
        }
    }
}

// The direction rule: of what goes with a packet's source and its destination, the remote's and the device's.
pub fn by_side<T>(d: Direction, source: T, destination: T) -> (T, T)
    ensures { result ≡ by_side d source destination }
{
    match d {
        Direction::FromDevice => (destination, source),
        Direction::ToDevice => (source, destination),
    }
}

// Whose port a packet's source and destination port are.
pub fn sides_of(d: Direction, source: u16, destination: u16) -> Sides
    ensures { result ≡ sides_of d source destination }
{
    let (remote, device) = by_side(d, source, destination);
    Sides {
        remote: RemotePort(remote),
        device: DevicePort(device),
    }
}

// Whether ports and opener suit the protocol.
fn suits(n: Numbers) -> bool
    ensures { result ≡ flow_numbers n.protocol.0 n.opener n.remote.0 n.device.0 }
{
    n.protocol.0 == 6 || n.opener == 0 && (n.protocol.0 == 17 || n.remote.0 == 0 && n.device.0 == 0)
}

pub fn is_flow(n: Numbers) -> bool
    ensures { result ≡ is_flow (point_of n) }
{
    n.direction <= 1 && n.opener <= 1 && suits(n)
}

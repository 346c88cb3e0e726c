// The addresses of units, of their blocks, and of the extents of a group. A host's number is below 4.
ghost use Rattle.std.specs.Prelude.{◌≡◌, ◌<◌, IsSome, IfSome, ◌↔◌};

/// One of the four hosts, numbered 0 to 3.
#[derive(Clone, Copy, Debug, PartialEq, Eq, Hash)]
pub struct Host {
    number: u8,
    pub ghost in_range: { number < 4 },
}

impl Host {
    /// The host `number`, or None where it is over 3.
    pub fn new(number: u8) -> Option<Host>
        ensures valid { IsSome result ↔ (number < 4) }
        ensures number { IfSome result (λ host. host.number ≡ number) }
    {
        if number < 4 {
            Some(Host { number })
        } else {
            None
        }
    }

    /// The host's number, 0 to 3.
    pub fn number(self) -> u8
        ensures same { result ≡ self.number }
        ensures in_range { result < 4 }
    {
        self.number
    }
}

/// The highest LUN of a host's units: the first is 0.
pub const MAX_LUN: u8 = 7;

/// The address of a logical unit: the host that owns it, and its logical unit number (LUN).
#[derive(Clone, Copy, Debug, PartialEq, Eq, Hash)]
pub struct Addr {
    pub host: Host,
    pub lun: u8,
}

/// Relocation block (AutoRAID's RB) number `rb` of the unit `addr`, counted from 0.
#[derive(Clone, Copy, Debug, PartialEq, Eq, Hash)]
pub struct Key {
    pub addr: Addr,
    pub rb: u32,
}

/// Extent (AutoRAID's PEX) number `extent` of disk `disk`, both counted from 0.
#[derive(Clone, Copy, Debug, PartialEq, Eq)]
pub struct Place {
    pub disk: u8,
    pub extent: u16,
}

/// The four extents of a group (AutoRAID's PEG), by member position 0 to 3.
#[derive(Clone, Copy, Debug, PartialEq, Eq)]
pub struct Members {
    pub first: Place,
    pub second: Place,
    pub third: Place,
    pub fourth: Place,
}

impl Members {
    ghost use Rattle.ar_disks.specs.Members.{member, with_member};

    /// The extent at member position `position`, 0 to 3.
    pub fn at(&self, position: u8) -> Place
        requires { position < 4 }
        ensures { result ≡ member self.now position }
    {
        match position {
            0 => self.first,
            1 => self.second,
            2 => self.third,
            _ => self.fourth,
        }
    }

    /// Replaces the extent at member position `position`, 0 to 3; the others stay.
    pub fn set(&mut self, position: u8, place: Place)
        requires { position < 4 }
        ensures { self.new ≡ with_member self.old position place }
    {
        match position {
            0 => self.first = place,
            1 => self.second = place,
            2 => self.third = place,
            _ => self.fourth = place,
        }
    }
}

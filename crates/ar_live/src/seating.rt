// The seats of the four hosts.
ghost use Rattle.std.specs.Prelude.{◌≡◌, ◌<◌, ◌+◌, [], ◌∷◌, map};
ghost use Rattle.ar_served.specs.Seat.{SeatState};

use ar_disks::Host;
use ar_served::Seat;
use std::alloc::Global;
use std::sync::ledger::{Ledger, Share};

/// Returns the seats of hosts 0 to 3, in order, each with one of the four parts of the ledger.
pub fn seats<L: Ledger>(alloc: Global, share: &mut Share<L>) -> [Seat<L>; 4]
    requires parts { share.old.parts ≡ 4 }
    requires amount { share.old.amount ≡ 0 }
    ensures hosts { map (λ (s : SeatState). s.host.number) result ≡ 0 ∷ 1 ∷ 2 ∷ 3 ∷ [] }
    ensures transcripts { map (λ (s : SeatState). s.transcript) result ≡ [] ∷ [] ∷ [] ∷ [] ∷ [] }
    ensures rooms { map (λ (s : SeatState). s.room) result ≡ 0 ∷ 0 ∷ 0 ∷ 0 ∷ [] }
    ensures commands { map (λ (s : SeatState). s.commands) result ≡ 0 ∷ 0 ∷ 0 ∷ 0 ∷ [] }
{
    [
        seat(alloc, share, 0),
        seat(alloc, share, 1),
        seat(alloc, share, 2),
        seat(alloc, share, 3),
    ]
}

// The seat of a host, with one part of the ledger.
fn seat<L: Ledger>(alloc: Global, share: &mut Share<L>, number: u8) -> Seat<L>
    requires number { number < 4 }
    requires parts { 0 < share.old.parts }
    requires amount { share.old.amount ≡ 0 }
    ensures host { result.host.number ≡ number }
    ensures transcript { result.transcript ≡ [] }
    ensures room { result.room ≡ 0 }
    ensures commands { result.commands ≡ 0 }
    ensures parts { share.new.parts + 1 ≡ share.old.parts }
    ensures amount { share.new.amount ≡ 0 }
{
    Seat::new(alloc, host(number), share.split_off(1, 0))
}

// The host of a number.
fn host(number: u8) -> Host
    requires { number < 4 }
    ensures { result.number ≡ number }
{
    match Host::new(number) {
        Some(host) => host,
        None => unreachable!(),
    }
}

// Chooses the four disks of the next group: those with the most unassigned extents, the lowest numbers on ties.
ghost use Rattle.std.specs.Prelude.{◌≡◌, ◌+◌, ◌<◌, ◌≤◌, List, ℕ, length, IfSome, IfNone};
ghost use Rattle.ar_store.specs.Fullest.{IsFullest, ArePicked, AreFour, AreOrdered, AreFourFullest, HasFewCounts};
ghost use Rattle.ar_store.specs.Fullest.{disks_with_loose};

/// Four disks, in ascending order.
#[derive(Clone, Copy, Debug, PartialEq, Eq)]
pub struct FourDisks {
    pub first: u8,
    pub second: u8,
    pub third: u8,
    pub fourth: u8,
}

/// Returns the four disks with the most unassigned extents, the lowest numbers on ties; `counts` has the number for
/// each disk. None if fewer than four disks have any.
pub fn four_fullest(counts: &[u16]) -> Option<FourDisks>
    requires { length counts.now ≤ 255 }
    ensures found { IfSome result (AreFourFullest counts.now) }
    ensures none { IfNone result (HasFewCounts counts.now) }
{
    // The usual answer while balancing moves extents, found in one pass.
    if disks_with_loose(counts) < 4 {
        return None;
    }
    let first = fullest(counts, &[])?;
    let second = fullest(counts, &[first])?;
    let third = fullest(counts, &[first, second])?;
    let fourth = fullest(counts, &[first, second, third])?;
    Some(in_order(first, second, third, fourth))
}

// How many disks have unassigned extents.
fn disks_with_loose(counts: &[u16]) -> usize
    ensures { result ≡ disks_with_loose counts.now }
{
    counts.iter().filter(|count| **count > 0).count()
}

// The disk with the most unassigned extents other than those of `but`, the lowest number on ties. None if no other has
// any.
fn fullest(counts: &[u16], but: &[u8]) -> Option<u8>
    requires { length counts.now ≤ 255 }
    ensures { IsFullest counts.now but.now (length counts.now) result }
{
    let mut best = None;
    for number in 0..counts.len() as u8 {
        best = fuller(counts, but, best, number);
    }
    best
}

// Returns `number` if it has more unassigned extents than `best`, the best of the disks below it, and else `best`.
fn fuller(counts: &[u16], but: &[u8], best: Option<u8>, number: u8) -> Option<u8>
    requires best { IsFullest counts.now but.now number best }
    requires there { number < length counts.now }
    ensures { IsFullest counts.now but.now (number + 1) result }
{
    if counts[number as usize] == 0 || but.contains(&number) {
        return best;
    }
    let Some(disk) = best else {
        return Some(number);
    };
    if counts[number as usize] > counts[disk as usize] {
        Some(number)
    } else {
        best
    }
}

// Four different disks in ascending order.
fn in_order(first: u8, second: u8, third: u8, fourth: u8) -> FourDisks
    ensures ordered { AreOrdered result.first result.second result.third result.fourth }
    ensures picked { (counts : List ℕ) → ArePicked counts first second third fourth → AreFour counts result }
{
    let mut disks = [first, second, third, fourth];
    disks.sort_unstable();
    let [first, second, third, fourth] = disks;
    FourDisks {
        first,
        second,
        third,
        fourth,
    }
}

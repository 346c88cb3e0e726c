// A mask: 64 flags as the bits of one number, of which the lowest that is set is found at once.
ghost use Rattle.std.specs.Prelude.{◌≡◌, ◌≢◌, ℕ, ◌<◌};
ghost use Rattle.std.specs.Int.{bit_at};

/// The lowest bit that is set.
pub fn lowest_bit(mask: u64) -> u16
    requires { 0 < mask }
    ensures bound { result < 64 }
    ensures set { bit_at mask result ≡ 1 }
    ensures below { (i : ℕ) → i < result → bit_at mask i ≡ 0 }
{
    mask.trailing_zeros() as u16
}

/// The mask with a bit set.
pub fn set_bit(mask: u64, bit: u16) -> u64
    requires { bit < 64 }
    ensures here { bit_at result bit ≡ 1 }
    ensures others { (i : ℕ) → i < 64 → i ≢ bit → bit_at result i ≡ bit_at mask i }
{
    mask | 1 << bit
}

/// The mask with a bit cleared.
pub fn clear_bit(mask: u64, bit: u16) -> u64
    requires { bit < 64 }
    ensures here { bit_at result bit ≡ 0 }
    ensures others { (i : ℕ) → i < 64 → i ≢ bit → bit_at result i ≡ bit_at mask i }
{
    mask & !(1 << bit)
}

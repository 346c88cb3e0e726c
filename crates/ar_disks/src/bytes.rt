// The byte-slice operations that blocks and disks share. None changes a length.
ghost use Rattle.std.specs.Prelude.{◌≡◌, ◌+◌, ◌≤◌, ◌++◌, length, take, drop};
ghost use Rattle.ar_disks.specs.Block.{xor, zeros};

/// Overwrites `target` with `bytes`, from offset `at` on.
pub fn overwrite(target: &mut [u8], at: usize, bytes: &[u8])
    requires { at + length bytes.now ≤ length target.old }
    ensures { target.new ≡ take at target.old ++ (bytes.now ++ drop (at + length bytes.now) target.old) }
{
    target[at..at + bytes.len()].copy_from_slice(bytes);
}

#[tactic(auto, unfolding(crate::specs::Block::zeros))]
/// Sets every byte to zero.
pub fn zero(target: &mut [u8])
    ensures { target.new ≡ zeros (length target.old) }
{
    target.fill(0);
}

/// XORs `bytes` into `target`, which has the same length.
pub fn add_into(bytes: &[u8], target: &mut [u8])
    requires { length target.old ≡ length bytes.now }
    ensures { target.new ≡ xor target.old bytes.now }
{
    for i in 0..bytes.len() {
        target[i] ^= bytes[i];
    }
}

/// XORs `one` and `other` into `target`, in one pass. All three have the same length.
pub fn add_both_into(one: &[u8], other: &[u8], target: &mut [u8])
    requires one { length target.old ≡ length one.now }
    requires other { length target.old ≡ length other.now }
    ensures { target.new ≡ xor (xor target.old one.now) other.now }
{
    for i in 0..target.len() {
        target[i] = target[i] ^ one[i] ^ other[i];
    }
}

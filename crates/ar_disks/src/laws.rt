// Blocks of one length are an abelian group under XOR, and each is its own inverse.
ghost use Rattle.std.specs.Prelude.{◌≡◌, ℕ, List, length};
ghost use Rattle.ar_disks.specs.Block.{xor, zeros};

/// The laws of XOR by which parity is computed and a missing block reconstructed: it is commutative and associative,
/// the zero block changes nothing, and a block XORed with itself is zeros. A call has no effect.
pub fn xor_laws()
    ensures commutative { (xs ys : List ℕ) → xor xs ys ≡ xor ys xs }
    ensures associative { (xs ys zs : List ℕ) → xor (xor xs ys) zs ≡ xor xs (xor ys zs) }
    ensures unit { (xs : List ℕ) → xor xs (zeros (length xs)) ≡ xs }
    ensures inverse { (xs : List ℕ) → xor xs xs ≡ zeros (length xs) }
    ensures len { (xs ys : List ℕ) → length xs ≡ length ys → length (xor xs ys) ≡ length xs }
{}

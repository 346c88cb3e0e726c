// READ and WRITE, block by block in ascending order. A block that is overwritten whole or in place is never read.
ghost use Rattle.std.specs.Prelude.{◌≡◌, ◌≢◌, ◌⊎◌, ◌+◌, ◌*◌, ◌-◌, ◌/◌, ◌%◌, ◌<◌, ◌≤◌, ◌==◌, ◌||◌, ℕ, false, IsTrue};
ghost use Rattle.std.specs.Prelude.{length};
ghost use Rattle.std.specs.List.{concat};
ghost use Rattle.ar_disks.specs.declared.address.Key.{Key};
ghost use Rattle.ar_disks.specs.Geometry.{sectors_of, block_len_of};
ghost use Rattle.ar_disks.specs.Block.{sectors_at, with_sectors, zeros};
ghost use Rattle.ar_cache.specs.Backing.{stored, InTurn, StopsInTurn, KeepsBacking, SameBlocks};
ghost use Rattle.ar_volume.specs.Sectors.{sector_in, sectors_in, key_of, keys_in, unit_block};
ghost use Rattle.ar_volume.specs.Storing.{Overwrites, ReadsFirst, Replaces, StopsOver, StopsReading, StopsReplacing};

use ar_cache::Backing;
use ar_disks::{Addr, Block, Completion, Geometry, Key, SECTOR_LEN, zero};

/// Reads sectors `lba` to `lba + count - 1` of a unit, all below 1,048,576, into `out`, which has as many bytes. Reads
/// each of their blocks once, in ascending order, until one fails. After `Broken`, `out` begins with the sectors of the
/// blocks that were read; the bytes after them are unspecified.
pub fn read_sectors<B: Backing>(
    blocks: &mut B,
    geometry: Geometry,
    addr: Addr,
    lba: u32,
    count: u32,
    out: &mut [u8],
) -> Completion
    requires sound { B.is_broken blocks.old ≡ false }
    requires shape { geometry ≡ B.geometry blocks.old }
    requires known { (rb : ℕ) → rb * sectors_of geometry < lba + count → IsTrue (B.knows blocks.old (key_of addr rb)) }
    requires small { lba + count ≤ 1048576 }
    requires sectors { length out.old ≡ 512 * count }

    ensures done { result ≡ Completion.Done
        → out.new ≡ concat (sectors_in geometry (unit_block (B.block_at blocks.old) addr) lba count) }
    ensures all { result ≡ Completion.Done → InTurn B.gets (keys_in geometry addr lba count) blocks.old blocks.new }
    ensures blocks { result ≡ Completion.Done → SameBlocks (B.block_at blocks.old) (B.block_at blocks.new) }

    ensures gets { ReadsFirst B.gets geometry addr lba count blocks.old blocks.new }
    ensures stopped { result ≡ Completion.Broken → StopsReading B.gets B.is_broken geometry
        (unit_block (B.block_at blocks.old) addr) addr lba count blocks.old blocks.new out.new }

    ensures answer { result ≡ stored (B.is_broken blocks.new) }
    ensures keeps { KeepsBacking B.geometry B.knows B.is_broken B.follows blocks.old blocks.new }
{
    let sectors = geometry.sectors();
    let end = lba + count;
    let mut at = lba;
    while at < end {
        let first = at % sectors;
        let part = (sectors - first).min(end - at);
        let key = Key {
            addr,
            rb: at / sectors,
        };
        let begin = (at - lba) as usize * SECTOR_LEN;
        let piece = &mut out[begin..begin + part as usize * SECTOR_LEN];
        match blocks.get_part(key, first as usize, piece) {
            Completion::Done => at += part,
            broken => return broken,
        }
    }
    Completion::Done
}

// Overwrites sectors of one block. It is read first, unless they cover all of it or it is overwritten in place.
fn write_part<B: Backing>(
    blocks: &mut B,
    geometry: Geometry,
    key: Key,
    first: usize,
    bytes: &[u8],
    block: &mut Block,
) -> Completion
    requires shape { geometry ≡ B.geometry blocks.old }
    requires known { IsTrue (B.knows blocks.old key) }
    requires whole { length block.old ≡ block_len_of geometry }
    requires within { 512 * first + length bytes.now ≤ block_len_of geometry }

    ensures inside { result ≡ Completion.Done → (i : ℕ) → first ≤ i
        → 512 * (i + 1) ≤ 512 * first + length bytes.now
        → sectors_at (B.block_at blocks.new key) i 1 ≡ sectors_at bytes.now (i - first) 1 }
    ensures outside { result ≡ Completion.Done → (i : ℕ) → (i < first) ⊎ (512 * first + length bytes.now ≤ 512 * i)
        → i < sectors_of geometry
        → sectors_at (B.block_at blocks.new key) i 1 ≡ sectors_at (B.block_at blocks.old key) i 1 }
    ensures others { result ≡ Completion.Done → (k : Key) → k ≢ key
        → B.block_at blocks.new k ≡ B.block_at blocks.old k }
    ensures puts { result ≡ Completion.Done
        → Replaces B.gets B.puts ((length bytes.now == block_len_of geometry) || B.in_place blocks.old key)
        blocks.old key blocks.new }
    ensures stopped { result ≡ Completion.Broken → StopsReplacing B.gets B.breaks B.is_broken
        ((length bytes.now == block_len_of geometry) || B.in_place blocks.old key) blocks.old key blocks.new }

    ensures answer { result ≡ stored (B.is_broken blocks.new) }
    ensures keeps { KeepsBacking B.geometry B.knows B.is_broken B.follows blocks.old blocks.new }
    ensures len { length block.new ≡ length block.old }
{
    if bytes.len() == geometry.block_len() {
        return blocks.put(key, bytes);
    }
    if blocks.is_in_place(key) {
        return blocks.put_part(key, first, bytes);
    }
    match blocks.get(key, block.bytes_mut()) {
        Completion::Broken => Completion::Broken,
        Completion::Done => {
            block.set_sectors(first, bytes);
            blocks.put(key, block.bytes())
        }
    }
}

// Overwrites sectors of one block with zeros. The block is read first.
pub(crate) fn zero_part<B: Backing>(
    blocks: &mut B,
    key: Key,
    first: usize,
    count: usize,
    block: &mut Block,
) -> Completion
    requires known { IsTrue (B.knows blocks.old key) }
    requires whole { length block.old ≡ block_len_of (B.geometry blocks.old) }
    requires within { first + count ≤ sectors_of (B.geometry blocks.old) }

    ensures inside { result ≡ Completion.Done → (i : ℕ) → first ≤ i → i < first + count
        → sectors_at (B.block_at blocks.new key) i 1 ≡ sectors_at (zeros (count * 512)) (i - first) 1 }
    ensures outside { result ≡ Completion.Done → (i : ℕ) → (i < first) ⊎ (first + count ≤ i)
        → i < sectors_of (B.geometry blocks.old)
        → sectors_at (B.block_at blocks.new key) i 1 ≡ sectors_at (B.block_at blocks.old key) i 1 }
    ensures others { result ≡ Completion.Done → (k : Key) → k ≢ key
        → B.block_at blocks.new k ≡ B.block_at blocks.old k }
    ensures puts { result ≡ Completion.Done → Replaces B.gets B.puts false blocks.old key blocks.new }
    ensures stopped { result ≡ Completion.Broken
        → StopsReplacing B.gets B.breaks B.is_broken false blocks.old key blocks.new }

    ensures answer { result ≡ stored (B.is_broken blocks.new) }
    ensures keeps { KeepsBacking B.geometry B.knows B.is_broken B.follows blocks.old blocks.new }
    ensures len { length block.new ≡ length block.old }
{
    match blocks.get(key, block.bytes_mut()) {
        Completion::Broken => Completion::Broken,
        Completion::Done => {
            zero_sectors(block, first, count);
            blocks.put(key, block.bytes())
        }
    }
}

#[tactic(auto, unfolding(ar_disks::specs::Block::with_sectors))]
// Overwrites sectors of a block with zeros.
fn zero_sectors(block: &mut Block, first: usize, count: usize)
    requires { 512 * (first + count) ≤ length block.old }
    ensures zeroed { block.new ≡ with_sectors block.old first (zeros (count * 512)) }
    ensures len { length block.new ≡ length block.old }
{
    let bytes = block.bytes_mut();
    zero(&mut bytes[first * SECTOR_LEN..(first + count) * SECTOR_LEN]);
}

/// Overwrites sectors `lba` to `lba + count - 1` of a unit, all below 1,048,576, with `bytes`, block by block in
/// ascending order, until one fails. A block is read first if they cover it in part and it isn't overwritten in place.
pub fn write_sectors<B: Backing>(
    blocks: &mut B,
    geometry: Geometry,
    addr: Addr,
    lba: u32,
    count: u32,
    bytes: &[u8],
    block: &mut Block,
) -> Completion
    requires sound { B.is_broken blocks.old ≡ false }
    requires shape { geometry ≡ B.geometry blocks.old }
    requires whole { length block.old ≡ block_len_of geometry }
    requires known { (rb : ℕ) → rb * sectors_of geometry < lba + count → IsTrue (B.knows blocks.old (key_of addr rb)) }
    requires small { lba + count ≤ 1048576 }
    requires sectors { length bytes.now ≡ 512 * count }

    ensures inside { result ≡ Completion.Done → (i : ℕ) → lba ≤ i → i < lba + count
        → sector_in geometry (unit_block (B.block_at blocks.new) addr) i ≡ sectors_at bytes.now (i - lba) 1 }
    ensures outside { result ≡ Completion.Done → (i : ℕ) → (i < lba) ⊎ (lba + count ≤ i)
        → sector_in geometry (unit_block (B.block_at blocks.new) addr) i
        ≡ sector_in geometry (unit_block (B.block_at blocks.old) addr) i }
    ensures others { result ≡ Completion.Done → (k : Key) → k.addr ≢ addr
        → B.block_at blocks.new k ≡ B.block_at blocks.old k }
    ensures puts { result ≡ Completion.Done
        → InTurn (Overwrites B.gets B.puts B.in_place geometry lba count) (keys_in geometry addr lba count)
        blocks.old blocks.new }
    ensures stopped { result ≡ Completion.Broken → StopsInTurn (Overwrites B.gets B.puts B.in_place geometry lba count)
        (StopsOver B.gets B.breaks B.in_place B.is_broken geometry lba count) (keys_in geometry addr lba count)
        blocks.old blocks.new }

    ensures answer { result ≡ stored (B.is_broken blocks.new) }
    ensures keeps { KeepsBacking B.geometry B.knows B.is_broken B.follows blocks.old blocks.new }
    ensures len { length block.new ≡ length block.old }
{
    let sectors = geometry.sectors();
    let end = lba + count;
    let mut at = lba;
    while at < end {
        let first = at % sectors;
        let part = (sectors - first).min(end - at);
        let key = Key {
            addr,
            rb: at / sectors,
        };
        let from = (at - lba) as usize * SECTOR_LEN;
        let piece = &bytes[from..from + part as usize * SECTOR_LEN];
        match write_part(blocks, geometry, key, first as usize, piece, block) {
            Completion::Done => at += part,
            Completion::Broken => return Completion::Broken,
        }
    }
    Completion::Done
}

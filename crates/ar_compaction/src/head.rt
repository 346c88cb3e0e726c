// The head of a store's log: whose log it is, the shape of its array, and how many units were made before. A number of
// several bytes is big-endian:
//
//     version, 1 byte (2) | generation, 8 | identity, 16 | geometry, 1 (0 paper, 1 small) | disks, 1
//     | extents of a disk, 2 | units made at each of 32 addresses, 64 | length of the name, 1 (at most 64) | name
//
// A head of version 1 has no numbers of units made, which are read as zeros; none is written any more.
ghost use Rattle.std.specs.Prelude.{◌≡◌, ◌≤◌, IfOk, length};
ghost use Rattle.std.specs.Int.{w16, w64};
ghost use Rattle.ar_record.specs.Reading.{bytes_at, number_at};
ghost use Rattle.ar_compaction.specs.declared.head.HeadError.TheVariants.{NoMemory};
ghost use Rattle.ar_compaction.specs.Head.{HeadData, IsEncodingOf, IsHead, former_encoding, geometry_byte, head_data};
ghost use Rattle.ar_compaction.specs.Head.{head_encoding};
ghost use Rattle.ar_compaction.specs.HeadReading.{HeadReadsAs, PartReadsAs, fields_at, head_decoded, makes_field_at};
ghost use Rattle.ar_compaction.specs.HeadReading.{name_at, shape_at};
ghost use Rattle.ar_compaction.specs.Makes.{no_makes};

use crate::Makes;
use ar_disks::Geometry;
use std::alloc::{AllocError, Global};

/// The greatest length of a store's name, in bytes.
pub const MAX_NAME: usize = 64;

// The version of this layout, and of the records after it.
const VERSION: u8 = 2;

// The version without the units made.
const FORMER_VERSION: u8 = 1;

/// What a store's log begins with.
#[derive(Debug, Drop)]
pub struct StoreHead {
    /// The number of the log among those of the store: each checkpoint begins the next.
    pub generation: u64,
    /// Random bits, the same in each log and copy of one store.
    pub identity: [u8; 16],
    /// The geometry of the array.
    pub geometry: Geometry,
    /// The number of disks with which the array starts; records add others.
    pub disks: u8,
    /// The extents of each disk.
    pub extents: u16,
    /// How many units were made at each address that the log's own records don't make.
    pub makes: Makes,
    /// The store's name, at most 64 bytes.
    pub name: Vec<u8>,
}

/// Why bytes are not decoded as a head.
#[derive(Clone, Copy, Debug, PartialEq, Eq)]
pub enum HeadError {
    /// Out of memory for the name.
    NoMemory,
    /// They begin with the byte of another version.
    OtherVersion,
    /// They are not the encoding of a head.
    Invalid,
}

impl From<AllocError> for HeadError {
    ghost from_gives = { λ _ e. e ≡ NoMemory };

    fn from(_e: AllocError) -> HeadError {
        HeadError::NoMemory
    }
}

/// Encodes a head.
pub fn encode_head(alloc: Global, head: &StoreHead) -> Result<Vec<u8>, AllocError>
    requires { length head.now.name.items ≤ 64 }
    ensures { IfOk result (λ bytes. bytes.items ≡ head_encoding (head_data head.now)) }
{
    let mut out = Vec::new(alloc);
    out.extend_from_slice(&[VERSION])?;
    out.extend_from_slice(&head.generation.to_be_bytes())?;
    out.extend_from_slice(&head.identity)?;
    out.extend_from_slice(&[geometry_byte(head.geometry), head.disks])?;
    out.extend_from_slice(&head.extents.to_be_bytes())?;
    out.extend_from_slice(&head.makes.bytes)?;
    out.extend_from_slice(&[head.name.len() as u8])?;
    out.extend_from_slice(&head.name)?;
    Ok(out)
}

/// Decodes the head that `bytes` are the encoding of, in this version or the former one.
pub fn decode_head(alloc: Global, bytes: &[u8]) -> Result<StoreHead, HeadError>
    ensures exact { HeadReadsAs head_data result (head_decoded bytes.now) }
    // What is decoded has these bytes as its encoding.
    ensures found { IfOk result (λ head. IsHead (head_data head) × IsEncodingOf (head_data head) bytes.now) }
    // What is encoded is decoded again, unless out of memory.
    ensures again { (head : HeadData) → IsHead head → bytes.now ≡ head_encoding head
        → HeadReadsAs head_data result (Ok head) }
    ensures former { (head : HeadData) → IsHead head → head.makes ≡ no_makes → bytes.now ≡ former_encoding head
        → HeadReadsAs head_data result (Ok head) }
{
    whole_head(alloc, bytes)
}

// The head, without what follows from it.
fn whole_head(alloc: Global, bytes: &[u8]) -> Result<StoreHead, HeadError>
    ensures { HeadReadsAs head_data result (head_decoded bytes.now) }
{
    let Some((version, rest)) = bytes.split_first() else {
        return Err(HeadError::Invalid);
    };
    match *version {
        FORMER_VERSION => fields_of(alloc, true, rest),
        VERSION => fields_of(alloc, false, rest),
        _ => Err(HeadError::OtherVersion),
    }
}

// The fields after the version, which may be the former one.
#[tactic(auto, unfolding(crate::specs::HeadReading::fields_at))]
fn fields_of(alloc: Global, is_former: bool, bytes: &[u8]) -> Result<StoreHead, HeadError>
    ensures { PartReadsAs head_data result (fields_at is_former bytes.now) }
{
    let (generation, rest) = generation_of(bytes)?;
    let (identity, rest) = identity_of(rest)?;
    let (geometry, disks, rest) = shape_of(rest)?;
    let (extents, rest) = extents_of(rest)?;
    let (makes, rest) = makes_of(is_former, rest)?;
    let name = name_of(alloc, rest)?;
    Ok(StoreHead {
        generation,
        identity,
        geometry,
        disks,
        extents,
        makes,
        name,
    })
}

fn generation_of(bytes: &[u8]) -> Result<(u64, &[u8]), HeadError>
    ensures { PartReadsAs (λ x. (x.0, x.1.now)) result (number_at w64 bytes.now) }
{
    if bytes.len() < 8 {
        return Err(HeadError::Invalid);
    }
    let (front, rest) = bytes.split_at(8);
    let number = u64::from_be_bytes([
        front[0], front[1], front[2], front[3], front[4], front[5], front[6], front[7],
    ]);
    Ok((number, rest))
}

fn identity_of(bytes: &[u8]) -> Result<([u8; 16], &[u8]), HeadError>
    ensures { PartReadsAs (λ x. (x.0, x.1.now)) result (bytes_at 16 bytes.now) }
{
    if bytes.len() < 16 {
        return Err(HeadError::Invalid);
    }
    let (front, rest) = bytes.split_at(16);
    let mut identity = [0; 16];
    identity.copy_from_slice(front);
    Ok((identity, rest))
}

// The geometry and the number of disks.
fn shape_of(bytes: &[u8]) -> Result<(Geometry, u8, &[u8]), HeadError>
    ensures { PartReadsAs (λ x. ((x.0, x.1), x.2.now)) result (shape_at bytes.now) }
{
    match bytes {
        [0, disks, rest @ ..] => Ok((Geometry::PAPER, *disks, rest)),
        [1, disks, rest @ ..] => Ok((Geometry::SMALL, *disks, rest)),
        _ => Err(HeadError::Invalid),
    }
}

fn extents_of(bytes: &[u8]) -> Result<(u16, &[u8]), HeadError>
    ensures { PartReadsAs (λ x. (x.0, x.1.now)) result (number_at w16 bytes.now) }
{
    if bytes.len() < 2 {
        return Err(HeadError::Invalid);
    }
    let (front, rest) = bytes.split_at(2);
    Ok((u16::from_be_bytes([front[0], front[1]]), rest))
}

// How many units were made; the former version doesn't say.
fn makes_of(is_former: bool, bytes: &[u8]) -> Result<(Makes, &[u8]), HeadError>
    ensures { PartReadsAs (λ x. (x.0.bytes, x.1.now)) result (makes_field_at is_former bytes.now) }
{
    if is_former {
        return Ok((Makes::none(), bytes));
    }
    if bytes.len() < 64 {
        return Err(HeadError::Invalid);
    }
    let (front, rest) = bytes.split_at(64);
    let mut makes = Makes::none();
    makes.bytes.copy_from_slice(front);
    Ok((makes, rest))
}

// The name, and nothing after it.
fn name_of(alloc: Global, bytes: &[u8]) -> Result<Vec<u8>, HeadError>
    ensures { PartReadsAs (λ x. x.items) result (name_at bytes.now) }
{
    let Some((count, name)) = bytes.split_first() else {
        return Err(HeadError::Invalid);
    };
    if usize::from(*count) > MAX_NAME || name.len() != usize::from(*count) {
        return Err(HeadError::Invalid);
    }
    Ok(Vec::from_slice(alloc, name)?)
}

fn geometry_byte(geometry: Geometry) -> u8
    ensures { result ≡ geometry_byte geometry }
{
    match geometry {
        Geometry::Paper => 0,
        Geometry::Small => 1,
    }
}

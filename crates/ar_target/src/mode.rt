// What MODE SENSE returns: a header, a block descriptor, and mode pages.
ghost use Rattle.std.specs.Prelude.{◌≡◌, ◌≤◌, ◌++◌, IfOk, OnOk};
ghost use Rattle.ar_target.specs.Mode as mode;

use crate::request::{ModePages, ModeSense};
use std::alloc::{AllocError, Global};

/// The mode data of a unit whose last block is `last`, on an array that has a cache if `write_back`. `Err` if out of
/// memory.
#[tactic(auto, unfolding(crate::specs::Mode::mode_data))]
pub(crate) fn mode_data(
    alloc: Global,
    write_back: bool,
    sense: ModeSense,
    last: u32,
) -> Result<Vec<u8>, AllocError>
    ensures { IfOk result (λ bytes. bytes.items ≡ mode.mode_data write_back sense last) }
{
    let mut bytes = Vec::with_capacity(alloc, 72)?;
    put_header(
        &mut bytes,
        sense.is_long,
        descriptor_len(sense.has_descriptor),
        pages_len(sense.pages),
    )?;
    put_descriptor(&mut bytes, sense.has_descriptor, last)?;
    put_pages(&mut bytes, write_back, sense)?;
    Ok(bytes)
}

// The length of the block descriptor.
fn descriptor_len(has_descriptor: bool) -> u8
    ensures is { result ≡ mode.descriptor_len has_descriptor }
    ensures short { result ≤ 8 }
{
    if has_descriptor { 8 } else { 0 }
}

// The length of the pages.
fn pages_len(pages: ModePages) -> u8
    ensures is { result ≡ mode.pages_len pages }
    ensures short { result ≤ 56 }
{
    match pages {
        ModePages::ErrorRecovery => 12,
        ModePages::Caching => 20,
        ModePages::Control => 12,
        ModePages::InformationalExceptions => 12,
        ModePages::All => 56,
    }
}

// Appends the mode parameter header, by the lengths of the block descriptor and the pages.
fn put_header(
    bytes: &mut Vec<u8>,
    is_long: bool,
    descriptor: u8,
    pages: u8,
) -> Result<(), AllocError>
    requires descriptor { descriptor ≤ 8 }
    requires pages { pages ≤ 56 }
    ensures { OnOk result (bytes.new.items ≡ bytes.old.items ++ mode.mode_header is_long descriptor pages) }
{
    if is_long {
        bytes.extend_from_slice(&[0, 6 + descriptor + pages, 0, 0x10, 0, 0, 0, descriptor])
    } else {
        bytes.extend_from_slice(&[3 + descriptor + pages, 0, 0x10, descriptor])
    }
}

// Appends the block descriptor, if it is returned.
fn put_descriptor(bytes: &mut Vec<u8>, has_descriptor: bool, last: u32) -> Result<(), AllocError>
    ensures { OnOk result (bytes.new.items ≡ bytes.old.items ++ mode.block_descriptors has_descriptor last) }
{
    if !has_descriptor {
        return Ok(());
    }
    let blocks = last.saturating_add(1).to_be_bytes();
    bytes.extend_from_slice(&[blocks[0], blocks[1], blocks[2], blocks[3], 0, 0, 2, 0])
}

// Appends the mode pages, ascending. Where changeable values are asked for, none can be changed.
fn put_pages(bytes: &mut Vec<u8>, write_back: bool, sense: ModeSense) -> Result<(), AllocError>
    ensures { OnOk result (bytes.new.items ≡ bytes.old.items
        ++ mode.mode_pages sense.pages write_back sense.changeable) }
{
    let caching = caching_page(write_back && !sense.changeable);
    let control = control_page(!sense.changeable);
    let exceptions = exceptions_page(!sense.changeable);
    match sense.pages {
        ModePages::ErrorRecovery => bytes.extend_from_slice(&ERROR_RECOVERY_PAGE),
        ModePages::Caching => bytes.extend_from_slice(&caching),
        ModePages::Control => bytes.extend_from_slice(&control),
        ModePages::InformationalExceptions => bytes.extend_from_slice(&exceptions),
        ModePages::All => {
            bytes.extend_from_slice(&ERROR_RECOVERY_PAGE)?;
            bytes.extend_from_slice(&caching)?;
            bytes.extend_from_slice(&control)?;
            bytes.extend_from_slice(&exceptions)
        }
    }
}

// The Read-Write Error Recovery mode page.
const ERROR_RECOVERY_PAGE: [u8; 12] = [0x01, 0x0A, 0, 0, 0, 0, 0, 0, 0, 0, 0, 0];

// The Informational Exceptions Control mode page, with DEXCPT if `disabled`.
fn exceptions_page(disabled: bool) -> [u8; 12]
    ensures { result ≡ mode.exceptions_page disabled }
{
    let mut page = [0; 12];
    page[0] = 0x1C;
    page[1] = 0x0A;
    if disabled {
        page[2] = 0x08;
    }
    page
}

// The caching page, with WCE if `write_cache`.
fn caching_page(write_cache: bool) -> [u8; 20]
    ensures { result ≡ mode.caching_page write_cache }
{
    let mut page = [0; 20];
    page[0] = 0x08;
    page[1] = 0x12;
    if write_cache {
        page[2] = 0x04;
    }
    page
}

// The Control mode page, with GLTSD if `no_log_saving`.
fn control_page(no_log_saving: bool) -> [u8; 12]
    ensures { result ≡ mode.control_page no_log_saving }
{
    let mut page = [0; 12];
    page[0] = 0x0A;
    page[1] = 0x0A;
    if no_log_saving {
        page[2] = 0x02;
    }
    page
}

// A new store.
ghost use Rattle.std.specs.Prelude.{◌≤◌, IfOk, length};

use crate::fault::{StoreCause, StoreFault};
use ar_command_line::CreateOptions;
use ar_compaction::{Makes, StoreHead};
use ar_folder::{create_in, has_store};
use std::alloc::Global;
use std::io;
use std::random::RandomSource;

/// Creates a store with an array without units, in one folder or two, and says so.
pub fn create(rt: &HostRuntime, alloc: Global, options: &CreateOptions) -> Result<(), StoreFault> {
    let folder = options.store.as_str();
    let head = new_head(rt, alloc, options).map_err(|cause| StoreFault::new(alloc, folder, cause))?;
    let Some(mirror) = &options.mirror else {
        create_copy(rt, alloc, folder, &head)?;
        return tell(alloc, folder, println!(rt; "created {folder}"));
    };
    let mirror = mirror.as_str();
    // Nothing is created where there is a store already.
    if has_store(rt, alloc, mirror).map_err(|error| StoreFault::new(alloc, mirror, error.into()))? {
        return Err(StoreFault::new(alloc, mirror, StoreCause::Exists));
    }
    create_copy(rt, alloc, folder, &head)?;
    create_copy(rt, alloc, mirror, &head)?;
    tell(alloc, folder, println!(rt; "created {folder} and {mirror}"))
}

// The head of a new store.
fn new_head(
    rt: &HostRuntime,
    alloc: Global,
    options: &CreateOptions,
) -> Result<StoreHead, StoreCause>
    ensures { IfOk result (λ head. length head.name.items ≤ 64) }
{
    let mut identity = [0; 16];
    rt.fill_bytes(&mut identity)
        .map_err(|_| StoreCause::Random)?;
    let name = Vec::from_slice(alloc, options.name.as_bytes()).map_err(|_| StoreCause::NoMemory)?;
    Ok(StoreHead {
        generation: 1,
        identity,
        geometry: options.geometry,
        disks: options.disks,
        extents: options.extents,
        makes: Makes::none(),
        name,
    })
}

// Creates a copy of a new store.
fn create_copy(
    rt: &HostRuntime,
    alloc: Global,
    folder: &str,
    head: &StoreHead,
) -> Result<(), StoreFault>
    requires { length head.now.name.items ≤ 64 }
{
    create_in(rt, alloc, folder, head).map_err(|error| StoreFault::new(alloc, folder, error.into()))
}

// The fault of a store of which the result can't be printed.
fn tell(alloc: Global, folder: &str, printed: io::Result<()>) -> Result<(), StoreFault> {
    printed.map_err(|_| StoreFault::new(alloc, folder, StoreCause::Write))
}

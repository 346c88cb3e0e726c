// An operator's orders on the shared array. Each is executed under the array's lock, between one state of the array and
// the next.
ghost use Rattle.std.specs.Prelude.{◌≡◌, []};
ghost use Rattle.ar_operator.specs.Executing.{IsArrayOrder};
ghost use Rattle.ar_control.specs.Control.{DoneAtOneMoment};

use ar_cli::VERSION;
use ar_controlled::{ControlledArray, execute_listed};
use ar_conversation::{Controller, OperatorOrder};
use ar_disks::Host;
use ar_inventory::Inventory;
use ar_operated::OperatedArray;
use ar_operator::{SpareDisk, write_counts, write_help, write_session, write_version};
use ar_sessions::Desk;
use std::alloc::AllocError;
use std::sync::Wait;
use std::sync::ledger::Ledger;
use std::time::Clock;

/// The answer of an action that was done.
const DONE: &[u8] = b"ok\n";

/// The answer where a host has no iSCSI session of which an operator orders the end.
const NO_SESSION: &[u8] = b"refused: no such session\n";

/// A controller of an array behind a lock, whose hosts' seats are on a desk with a lock of its own.
#[derive(Drop)]
pub struct LockController<'a, R: Wait, A: ControlledArray<L, M> + Drop, L: Ledger, M> {
    array: &'a OperatedArray<'a, R, A, L, M>,
}

impl<'a, R: Wait, A: ControlledArray<L, M> + Drop, L: Ledger, M> LockController<'a, R, A, L, M> {
    /// A controller of an operated array.
    pub fn new(array: &'a OperatedArray<'a, R, A, L, M>) -> LockController<'a, R, A, L, M> {
        LockController { array }
    }

    fn fail(&self, disk: u8, accesses: Option<u64>, out: &mut Vec<u8>) -> Result<(), AllocError> {
        let array = self.array.array.lock(self.array.rt);
        array.set_fuse(self.array.fuses, disk, accesses, out)
    }

    // Ends the iSCSI sessions of a host, or one of them.
    fn end(&self, host: u8, session: Option<u64>, out: &mut Vec<u8>) -> Result<(), AllocError> {
        let is_found = self
            .array
            .initiators
            .lock(self.array.rt)
            .end_sessions(host, session);
        out.extend_from_slice(if is_found { DONE } else { NO_SESSION })
    }

    // Writes a line for each host that has a session, and one for each iSCSI session.
    fn show_sessions(&self, out: &mut Vec<u8>) -> Result<(), AllocError> {
        self.show_hosts(out)?;
        self.array.initiators.lock(self.array.rt).write(out)
    }

    fn show_hosts(&self, out: &mut Vec<u8>) -> Result<(), AllocError> {
        let desk = self.array.desk.lock(self.array.rt);
        write_sessions(&desk, out)
    }

    fn show_counts(&self, out: &mut Vec<u8>) -> Result<(), AllocError> {
        let counts = self.array.array.lock(self.array.rt).counts();
        write_counts(out, &counts).map_err(|_| AllocError)
    }

    fn show_usage(&self, out: &mut Vec<u8>) -> Result<(), AllocError> {
        let inventory = self.inventory()?;
        let spares = self.array.spares_left();
        inventory.write_usage(out, spares).map_err(|_| AllocError)
    }

    fn show_units(&self, out: &mut Vec<u8>) -> Result<(), AllocError> {
        let inventory = self.inventory()?;
        inventory.write_units(out).map_err(|_| AllocError)
    }

    fn show_disks(&self, out: &mut Vec<u8>) -> Result<(), AllocError> {
        let inventory = self.inventory()?;
        let left = self.array.rebuild_seconds_left();
        inventory.write_disks(out, left).map_err(|_| AllocError)
    }

    // Copies what the words above show. Hosts wait meanwhile, as for a picture.
    fn inventory(&self) -> Result<Inventory, AllocError> {
        let array = self.array.array.lock(self.array.rt);
        array.inventory(self.array.alloc, self.array.fuses, self.array.names())
    }
}

impl<'a, R: Wait + Clock, A: ControlledArray<L, M> + Drop, L: Ledger, M: Copy> LockController<
    'a,
    R,
    A,
    L,
    M,
> {
    // A new disk, if an order wants one, made before the array's lock is taken for it: to allocate one of 256 MiB takes
    // about a second. Out of memory there is none.
    fn spare_for(&self, order: OperatorOrder) -> Option<SpareDisk> {
        let wanted = self.array.array.lock(self.array.rt).wanted_disk(order)?;
        SpareDisk::make(self.array.alloc, wanted).ok()
    }

    // Executes an order on the array, under its lock, and lists what has happened. The list's lock is taken first.
    fn execute(&mut self, order: OperatorOrder, out: &mut Vec<u8>) -> Result<(), AllocError>
        requires allowed { IsArrayOrder order }
        requires empty { out.old.items ≡ [] }
        ensures { DoneAtOneMoment A.persists order result out.new.items }
    {
        let mut disks = self.array.disks;
        let mut spare = self.spare_for(order);
        let mut log = self.array.log.lock(self.array.rt);
        let seconds = self.array.seconds();
        let mut array = self.array.array.lock(self.array.rt);
        execute_listed::<A, L, M>(
            self.array.alloc,
            &mut array,
            &mut disks,
            &mut spare,
            &mut log,
            self.array.tallies,
            seconds,
            order,
            out,
        )
    }
}

impl<'a, R: Wait + Clock, A: ControlledArray<L, M> + Drop, L: Ledger, M: Copy> Controller
    for LockController<'a, R, A, L, M> {
    ghost use Rattle.ar_control.specs.Control.{LockAnswers};

    ghost answers = { λ _ order result answer _. LockAnswers A.persists order result answer };

    fn answer(&mut self, order: OperatorOrder, out: &mut Vec<u8>) -> Result<(), AllocError> {
        match order {
            OperatorOrder::Act(_) | OperatorOrder::ForceOut(_) | OperatorOrder::Ask(_) => {
                self.execute(order, out)
            }
            OperatorOrder::Sessions => self.show_sessions(out),
            OperatorOrder::Counts => self.show_counts(out),
            OperatorOrder::Usage => self.show_usage(out),
            OperatorOrder::Units => self.show_units(out),
            OperatorOrder::Disks => self.show_disks(out),
            OperatorOrder::Version => write_version(out, VERSION).map_err(|_| AllocError),
            OperatorOrder::Fail { disk, accesses } => self.fail(disk, accesses, out),
            OperatorOrder::End { host, session } => self.end(host, session, out),
            OperatorOrder::Help => write_help(out).map_err(|_| AllocError),
            OperatorOrder::Stop => Ok(()),
        }
    }
}

// Writes a line for each host that has a session.
fn write_sessions<L: Ledger>(desk: &Desk<L>, out: &mut Vec<u8>) -> Result<(), AllocError> {
    for number in 0..4 {
        if let Some(host) = Host::new(number) {
            write_host(desk, host, out)?;
        }
    }
    Ok(())
}

fn write_host<L: Ledger>(desk: &Desk<L>, host: Host, out: &mut Vec<u8>) -> Result<(), AllocError> {
    match desk.counts(host) {
        Some(counts) => write_session(
            out,
            host,
            counts.frames,
            counts.read,
            counts.written,
            desk.peer(host),
        )
        .map_err(|_| AllocError),
        None => Ok(()),
    }
}

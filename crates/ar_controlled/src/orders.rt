// An operator's order on the array. What an action has done is committed and listed before it is answered.
ghost use Rattle.std.specs.Prelude.{◌≡◌, ◌⊎◌, [], OnOk, false, length, option_map, true};
ghost use Rattle.ar_operator.specs.Executing.{IsArrayOrder};
ghost use Rattle.ar_controlled.specs.Orders.{AddsLine, AnswersWith, ExecutesLasting, is_act, line_added, line_of};
ghost use Rattle.ar_controlled.specs.Orders.{state_line, store_failed};
ghost use Rattle.ar_shown.specs.Shown.{health_watched};

use crate::ControlledArray;
use ar_attached::Tallies;
use ar_conversation::OperatorOrder;
use ar_language::{Action, Question};
use ar_operator::SpareDisk;
use ar_served::{ServedArray, StoreState, StoreStatus};
use ar_status::{EventKind, EventLog};
use std::alloc::{AllocError, Global};
use std::sync::ledger::Ledger;

/// The answer of an action that was done.
const DONE: &[u8] = b"ok\n";

/// The answer where the store has failed: what an order has done, if anything, may not last.
const STORE_FAILED: &[u8] = b"fault: store failed\n";

/// The second line of `health` where commits to the store fail.
const STORE_FAILING: &[u8] = b"store failing\n";

/// The same where one of the two copies of the store is lost.
const STORE_DEGRADED: &[u8] = b"store degraded\n";

/// The same where the store is given up.
const STORE_GIVEN_UP: &[u8] = b"store given up\n";

/// Executes an order on the array, and lists what has happened. Where the store has failed to keep what it has done,
/// the answer says so, and that of `health` where the store isn't sound.
pub fn execute_listed<A: ControlledArray<L, M>, L: Ledger, M>(
    alloc: Global,
    array: &mut A,
    disks: &mut M,
    spare: &mut Option<SpareDisk>,
    log: &mut EventLog,
    tallies: &Tallies,
    seconds: u64,
    order: OperatorOrder,
    out: &mut Vec<u8>,
) -> Result<(), AllocError>
    requires allowed { IsArrayOrder order }
    requires empty { out.old.items ≡ [] }
    ensures executes { ExecutesLasting A.persists order (A.state array.old) result out.new.items (A.state array.new) }
    // What an action has done lasts, or its answer says that it may not.
    ensures lasts { OnOk result (is_act order ≡ true → (out.new.items ≡ store_failed) ⊎ A.lasts array.new) }
    ensures health { log.new.health ≡ health_watched (A.state array.new).array.store.disks.health }
    ensures disks { log.new.disks ≡ length (A.state array.new).array.store.disks.disks }
{
    let done = array.execute(alloc, disks, spare, order, out);
    list_done(log, tallies, seconds, order, out);
    let lasts = lasts_after::<A, L>(array, order);
    array.see(seconds, log);
    let line = line_added(order, array.store());
    answer_with(lasts, line, done, out)
}

// Commits what an action has done.
fn lasts_after<A: ServedArray<L>, L: Ledger>(array: &mut A, order: OperatorOrder) -> bool
    ensures same { A.state array.new ≡ A.state array.old }
    ensures lasts { result ≡ true → is_act order ≡ true → A.lasts array.new }
    ensures failed { result ≡ false → A.persists ≡ true }
{
    match order {
        OperatorOrder::Act(_) | OperatorOrder::ForceOut(_) => array.commit(),
        _ => true,
    }
}

// The line that the store adds to the answer of an order, which asks for the health.
fn line_added(order: OperatorOrder, store: Option<StoreStatus>) -> Option<&'static [u8]>
    ensures { option_map (λ line. line.now) result ≡ line_added order store }
{
    match order {
        OperatorOrder::Ask(Question::Health) => line_of(store),
        _ => None,
    }
}

// The line of a store, if there is one that isn't sound.
fn line_of(store: Option<StoreStatus>) -> Option<&'static [u8]>
    ensures { option_map (λ line. line.now) result ≡ line_of store }
{
    match store {
        Some(store) => state_line(store.state),
        None => None,
    }
}

fn state_line(state: StoreState) -> Option<&'static [u8]>
    ensures { option_map (λ line. line.now) result ≡ state_line state }
{
    match state {
        StoreState::Sound => None,
        StoreState::Degraded => Some(STORE_DEGRADED),
        StoreState::Failing => Some(STORE_FAILING),
        StoreState::GivenUp => Some(STORE_GIVEN_UP),
    }
}

// The answer of an order, with the line that the store adds or, where the store has failed, that it has.
fn answer_with(
    lasts: bool,
    line: Option<&[u8]>,
    done: Result<(), AllocError>,
    out: &mut Vec<u8>,
) -> Result<(), AllocError>
    ensures { AnswersWith lasts (option_map (λ line. line.now) line.entry) done out.old.items result out.new.items }
{
    if lasts {
        return add_line(line, done, out);
    }
    out.clear();
    out.extend_from_slice(STORE_FAILED)
}

// Appends a line to an answer, if there is one.
fn add_line(
    line: Option<&[u8]>,
    done: Result<(), AllocError>,
    out: &mut Vec<u8>,
) -> Result<(), AllocError>
    ensures { AddsLine (option_map (λ line. line.now) line.entry) done out.old.items result out.new.items }
{
    match line {
        Some(line) => {
            done?;
            out.extend_from_slice(line)
        }
        None => done,
    }
}

// Lists what an order has done to a unit, by its answer, and counts it where it changes what REPORT LUNS lists.
fn list_done(
    log: &mut EventLog,
    tallies: &Tallies,
    seconds: u64,
    order: OperatorOrder,
    answer: &[u8],
)
    ensures health { log.new.health ≡ log.old.health }
    ensures disks { log.new.disks ≡ log.old.disks }
{
    if let OperatorOrder::Act(action) = order {
        if let Some(kind) = event_of(action) {
            if answer == DONE {
                log.add(seconds, kind);
                count_change(tallies, kind);
            }
        }
    }
}

// Counts a change of the inventory of a host's units, of which its sessions report a UNIT ATTENTION.
fn count_change(tallies: &Tallies, kind: EventKind) {
    match kind {
        EventKind::UnitMade { host, lun } => tallies.make_unit(host, lun),
        EventKind::UnitDropped { host, .. } => tallies.drop_unit(host),
        _ => {}
    }
}

// What an action does to a unit, if it is one on a unit.
fn event_of(action: Action) -> Option<EventKind> {
    match action {
        Action::Make(addr, _) => Some(EventKind::UnitMade {
            host: addr.host.number(),
            lun: addr.lun,
        }),
        Action::Grow(addr, _) => Some(EventKind::UnitGrown {
            host: addr.host.number(),
            lun: addr.lun,
        }),
        Action::Remove(addr) => Some(EventKind::UnitDropped {
            host: addr.host.number(),
            lun: addr.lun,
        }),
        _ => None,
    }
}

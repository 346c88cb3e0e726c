// The units of a plan: they are created before a service listens, and last by then, where there is a store.
ghost use Rattle.std.specs.Prelude.{◌≡◌, OnOk};
ghost use Rattle.ar_plan.specs.Units.{AreProvided, CreatesUnits, IsProvided, refusal_in};

use crate::{NewUnit, ServiceFault};
use ar_core::{OutcomeOf, Refusal};
use ar_served::OperableArray;
use std::sync::ledger::Ledger;

/// Creates the units in their order, up to one that is refused: its number, and why.
pub fn create_units<A: OperableArray<L>, L: Ledger>(
    array: &mut A,
    units: &[NewUnit],
) -> Result<(), (usize, Refusal)>
    ensures { CreatesUnits units.now (A.state array.old) result (A.state array.new) }
{
    for number in 0..units.len() {
        let unit = units[number];
        let outcome = array.make(unit.addr, unit.sectors);
        if let Some(refusal) = refusal_in(&outcome) {
            return Err((number, refusal));
        }
    }
    Ok(())
}

/// Creates those of the units that aren't there, in their order, and commits that. Where one is refused or has another
/// length, nothing is committed.
pub fn create_missing<A: OperableArray<L>, L: Ledger>(
    array: &mut A,
    units: &[NewUnit],
) -> Result<(), ServiceFault>
    ensures met { OnOk result (AreProvided units.now (A.state array.old) (A.state array.new)) }
    ensures lasts { OnOk result (A.lasts array.new) }
{
    provide_units(array, units)?;
    commit::<A, L>(array)
}

fn provide_units<A: OperableArray<L>, L: Ledger>(
    array: &mut A,
    units: &[NewUnit],
) -> Result<(), ServiceFault>
    ensures { OnOk result (AreProvided units.now (A.state array.old) (A.state array.new)) }
{
    for number in 0..units.len() {
        provide_unit(array, number, units[number])?;
    }
    Ok(())
}

// Creates a unit, if it isn't there.
fn provide_unit<A: OperableArray<L>, L: Ledger>(
    array: &mut A,
    number: usize,
    unit: NewUnit,
) -> Result<(), ServiceFault>
    ensures { OnOk result (IsProvided unit (A.state array.old) (A.state array.new)) }
{
    match array.array().sectors(unit.addr) {
        Some(sectors) if sectors == unit.sectors => return Ok(()),
        Some(sectors) => return Err(ServiceFault::OtherSize(number, sectors)),
        None => {}
    }
    let outcome = array.make(unit.addr, unit.sectors);
    match refusal_in(&outcome) {
        Some(refusal) => Err(ServiceFault::Unit(number, refusal)),
        None => Ok(()),
    }
}

/// The fault of a unit that was refused.
pub fn refused(refused: (usize, Refusal)) -> ServiceFault {
    let (number, refusal) = refused;
    ServiceFault::Unit(number, refusal)
}

// Why a unit was not created, or None if it was.
fn refusal_in<N>(outcome: &OutcomeOf<N>) -> Option<Refusal>
    ensures { result ≡ refusal_in outcome.now }
{
    match outcome {
        OutcomeOf::Make(Err(refusal)) => Some(*refusal),
        _ => None,
    }
}

/// Commits what was done.
pub fn commit<A: OperableArray<L>, L: Ledger>(array: &mut A) -> Result<(), ServiceFault>
    ensures same { A.state array.new ≡ A.state array.old }
    ensures lasts { OnOk result (A.lasts array.new) }
{
    if array.commit() {
        Ok(())
    } else {
        Err(ServiceFault::Store)
    }
}

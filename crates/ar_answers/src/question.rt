// The answers to queries that read no disk. Scripts and operators share them.
ghost use Rattle.std.specs.Prelude.{◌≡◌, ◌≢◌, IfErr, OnOk, Err};
ghost use Rattle.ar_language.specs.Queries.{IsView};
ghost use Rattle.ar_language.specs.declared.order.Order.TheVariants.{Ask};
ghost use Rattle.ar_picture.specs.Writing.{AddsBytes, AddsSome};
ghost use Rattle.ar_answers.specs.Answers.{AppendsAnswer};
ghost use Rattle.ar_answers.specs.Orders.{HasAnswer, IsOrderFault};

use crate::drawing::write_picture;
use crate::text::{write_groups, write_health, write_home, write_levels};
use ar_core::Array;
use ar_disks::Disk;
use ar_language::{FaultKind, Question};
use std::alloc::Global;
use std::io::Write;

/// Writes the answer to a query that reads no disk: any but `Block`. At `NoMemory` nothing is written.
pub fn write_answer<W: Write, D: Disk>(
    alloc: Global,
    array: &Array<D>,
    question: Question,
    out: &mut W,
) -> Result<(), FaultKind>
    requires view { IsView question }
    ensures few { IfErr result (λ kind. kind ≢ FaultKind.TooManyLines) }
    ensures lost { IfErr result (IsOrderFault (Ask question)) }
    ensures memory { result ≡ Err FaultKind.NoMemory → out.new ≡ out.old }
    ensures grows { result ≢ Err FaultKind.WriteFault → AddsBytes (W.contents out.old) (W.contents out.new) }
    ensures adds { OnOk result (HasAnswer (Ask question) → AddsSome (W.contents out.old) (W.contents out.new)) }
    ensures answers { OnOk result
        (AppendsAnswer (Ask question) array.now array.now (W.contents out.old) (W.contents out.new)) }
{
    let written = match question {
        Question::Levels(addr) => write_levels(out, array, addr),
        Question::Home(addr, rb) => write_home(out, array.home_of(addr, rb)),
        Question::Groups => {
            let groups = array.groups(alloc).map_err(|_| FaultKind::NoMemory)?;
            write_groups(out, &groups)
        }
        Question::Room => {
            let room = array.free_room();
            writeln!(out, "room {room}")
        }
        Question::Health => write_health(out, array.health()),
        Question::Picture => return write_picture(alloc, array, out),
        Question::Block { .. } => unreachable!(),
    };
    written.map_err(|_| FaultKind::WriteFault)
}

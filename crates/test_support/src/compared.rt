// An array's answers beside those of the model.
use crate::answer::{Answer, PlainReply, Refused};
use crate::kinds::Kind;
use ar_core::{Balance, Flush, Move, OutcomeOf, PartFlush, Rebuild, Refusal, UnitRefusal};
use ar_scsi::{Reply, Status};

/// Whether an array returned what plain lists did. Maintenance may do anything but lose data or run out of memory.
pub fn agrees<N>(outcome: &OutcomeOf<N>, wanted: &Answer) -> bool {
    match (outcome, wanted) {
        (OutcomeOf::Make(done) | OutcomeOf::Grow(done) | OutcomeOf::Remove(done), Answer::Done) =>
            done.is_ok(),
        (
            OutcomeOf::Make(done) | OutcomeOf::Grow(done) | OutcomeOf::Remove(done),
            Answer::Refused(refused),
        ) => *done == Err(refusal(*refused)),
        (OutcomeOf::FlushPart(flush), Answer::Flushed) => *flush == PartFlush::Done,
        (OutcomeOf::FlushPart(flush), Answer::Refused(Refused::Absent)) => *flush
            == PartFlush::Absent,
        (OutcomeOf::Cmd(reply) | OutcomeOf::Unmap(reply), Answer::Replied(wanted)) => is_same(
            reply, wanted,
        ),
        (_, Answer::Open) => kind_of_work(outcome) != Kind::Other,
        _ => false,
    }
}

fn refusal(refused: Refused) -> Refusal {
    Refusal::Unit(match refused {
        Refused::BadLun => UnitRefusal::BadLun,
        Refused::Exists => UnitRefusal::Exists,
        Refused::Absent => UnitRefusal::Absent,
        Refused::Size => UnitRefusal::Size,
        Refused::NoRoom(blocks) => UnitRefusal::NoRoom(blocks),
    })
}

/// Whether a reply is this one.
pub fn is_same(reply: &Reply, wanted: &PlainReply) -> bool {
    status_byte(reply.status) == wanted.status
        && reply.sense == wanted.sense
        && reply.payload.as_slice() == wanted.data.as_slice()
}

fn status_byte(status: Status) -> u8 {
    match status {
        Status::Good => 0x00,
        Status::CheckCondition => 0x02,
        Status::Busy => 0x08,
    }
}

/// What work in the background did.
pub fn kind_of_work<N>(outcome: &OutcomeOf<N>) -> Kind {
    match outcome {
        OutcomeOf::Flush(Flush::Flushed(_)) => Kind::Flushed,
        OutcomeOf::Demote(Move::Moved { .. }) => Kind::Demoted,
        OutcomeOf::Clean(Move::Moved { .. }) => Kind::Cleaned,
        OutcomeOf::Balance(Balance::Formed(_) | Balance::Shifted { .. }) => Kind::Balanced,
        OutcomeOf::Rebuild(Rebuild::Rebuilt(..) | Rebuild::Finished) => Kind::Rebuilt,
        OutcomeOf::Flush(Flush::Idle)
        | OutcomeOf::Demote(Move::Idle)
        | OutcomeOf::Clean(Move::Idle)
        | OutcomeOf::Balance(Balance::Idle)
        | OutcomeOf::Rebuild(Rebuild::Idle) => Kind::Idle,
        _ => Kind::Other,
    }
}

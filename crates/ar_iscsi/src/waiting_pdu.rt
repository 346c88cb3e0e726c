// A PDU as it is kept until the data of a WRITE before it have come.
use crate::flow::Collecting;
use crate::request::InitiatorPdu;
use bytes::Bytes;

/// What is left to do with a PDU that waits, in its turn.
#[derive(Clone, Copy, Debug, PartialEq, Eq)]
pub enum WaitingState {
    /// All that it asks for.
    Undone,
    /// A task management request has dropped it: it is counted, and given to nobody.
    Dropped,
    /// It is a task management request, which was done when it was read: it is counted, and this response is sent.
    Answered(u8),
}

/// A PDU that waits for the data of a WRITE before it.
#[derive(Debug, Drop)]
pub struct WaitingPdu {
    pub header: [u8; 48],
    /// The fields of the header.
    pub fields: InitiatorPdu,
    /// Its data segment.
    pub carried: Bytes,
    pub state: WaitingState,
    pub early: Early,
}

/// The unsolicited data of a WRITE that have come before its turn.
#[derive(Debug, Drop)]
pub struct Early {
    pub bytes: Bytes,
    /// The WRITE after those data; None: none have come.
    pub collecting: Option<Collecting>,
}

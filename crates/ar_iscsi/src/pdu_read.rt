// A PDU that was read. Its header is decoded once; a Reject returns its bytes.
use crate::request::InitiatorPdu;

/// A PDU with its header, the fields of it, and its data segment.
#[derive(Clone, Copy, Debug)]
pub(crate) struct PduRead<'a> {
    pub header: &'a [u8; 48],
    pub fields: InitiatorPdu,
    pub carried: &'a [u8],
}

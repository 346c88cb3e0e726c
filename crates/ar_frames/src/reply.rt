// Writes reply frames. Head and payload are written by one call if the stream takes both at once, since it may send
// every piece on by itself; they are never joined in memory.
ghost use Rattle.std.specs.Prelude.{◌≡◌};
ghost use Rattle.ar_frames.specs.Frame.{IsReply};
ghost use Rattle.ar_frames.specs.FrameStep.{SendsReply};

use crate::frame::{plain_head, sense_frame};
use crate::stream::Sink;
use crate::transfer::{Sent, send, send_parts};
use ar_scsi::Reply;

// Writes a reply frame.
pub(crate) fn send_reply<W: Sink>(writer: &mut W, tag: u64, reply: &Reply) -> Sent
    requires { IsReply reply.now }
    ensures { SendsReply (W.state writer.old) (W.state writer.new) tag reply.now result }
{
    match &reply.sense {
        Some(sense) => send(writer, &sense_frame(tag, sense)),
        None => {
            let payload = reply.payload.as_slice();
            let head = plain_head(tag, reply.status, payload.len() as u32);
            send_parts(writer, &head, payload, &[])
        }
    }
}

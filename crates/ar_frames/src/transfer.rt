// Transfers of whole buffers, in as many calls as the stream takes. A transfer stops early only at a fault or at the
// end of input.
ghost use Rattle.std.specs.Prelude.{◌≡◌, ◌<◌, ◌++◌, ◌^◌, length};
ghost use Rattle.ar_frames.specs.Stream.{Filling, Sending};

use crate::stream::{Sink, Source};

/// How far a buffer was filled.
#[derive(Clone, Copy)]
pub enum FillResult {
    Full,
    /// Input ended after this many bytes.
    Ended(usize),
    /// A read faulted after this many bytes.
    Failed(usize),
}

/// How far a buffer was written.
#[derive(Clone, Copy)]
pub enum Sent {
    Whole,
    /// A write faulted after this many bytes.
    Part(usize),
}

/// Fills `into`. An empty one makes no read.
pub fn fill<R: Source>(reader: &mut R, into: &mut [u8]) -> FillResult
    ensures { Filling (R.state reader.old) (R.state reader.new) into.new result }
{
    let mut at = 0;
    while at < into.len() {
        match reader.read(&mut into[at..]) {
            None => return FillResult::Failed(at),
            Some(0) => return FillResult::Ended(at),
            Some(n) => at += n,
        }
    }
    FillResult::Full
}

/// Writes all of `from`. An empty one makes no write.
pub fn send<W: Sink>(writer: &mut W, from: &[u8]) -> Sent
    ensures { Sending (W.state writer.old) (W.state writer.new) from.now result }
{
    let mut at = 0;
    while at < from.len() {
        match writer.write(&from[at..]) {
            None => return Sent::Part(at),
            Some(n) => at += n,
        }
    }
    Sent::Whole
}

/// Writes all of three parts, one after the other, by one call if the stream takes all at once.
pub fn send_parts<W: Sink>(writer: &mut W, front: &[u8], middle: &[u8], rest: &[u8]) -> Sent
    requires { length (front.now ++ (middle.now ++ rest.now)) < 2 ^ 64 }
    ensures { Sending (W.state writer.old) (W.state writer.new) (front.now ++ (middle.now ++ rest.now)) result }
{
    let len = front.len() + middle.len() + rest.len();
    let mut at = 0;
    while at < len {
        let front_at = at.min(front.len());
        let middle_at = (at - front_at).min(middle.len());
        let rest_at = at - front_at - middle_at;
        match writer.write_parts(&front[front_at..], &middle[middle_at..], &rest[rest_at..]) {
            None => return Sent::Part(at),
            Some(n) => at += n,
        }
    }
    Sent::Whole
}

// A session's numbers in the full feature phase, and the WRITE whose data it collects. The window has 16 commands; they
// are done one at a time, in CmdSN's order. Numbers count modulo 2^32.
ghost use Rattle.std.specs.Prelude.{◌≡◌, ◌≢◌, ◌==◌};
ghost use Rattle.ar_iscsi.specs.Flow as state;

use crate::request::{Lun, ScsiCommand};
use crate::response::{NO_TAG, SequenceNumbers};

/// The number of commands in the window, those that an initiator may send ahead.
pub const WINDOW: usize = 16;

/// A WRITE whose data are collected.
#[derive(Clone, Copy, Debug, PartialEq, Eq)]
pub struct Collecting {
    pub command: ScsiCommand,
    /// The number of bytes that are given to the port.
    pub wanted: u32,
    /// The number of R2Ts that were sent.
    pub asked: u32,
    /// The target transfer tag of the last R2T; of unsolicited data FFFFFFFFh.
    pub transfer_tag: u32,
    /// The DataSN of the next Data-Out PDU.
    pub data_sn: u32,
    /// Where the data of the last R2T end, or at most the unsolicited ones.
    pub burst_end: u32,
    /// The next data are unsolicited: no R2T has been sent.
    pub is_unsolicited: bool,
}

/// Where a session is in the full feature phase.
#[derive(Clone, Copy, Debug, PartialEq, Eq)]
pub struct Flow {
    /// The StatSN of the next response.
    pub stat_sn: u32,
    /// The CmdSN of the next command.
    pub exp_cmd_sn: u32,
    /// The target transfer tag of the next R2T, unless it is the reserved one.
    pub next_tag: u32,
    pub collecting: Option<Collecting>,
}

impl Flow {
    /// The sequence numbers of a PDU that is sent now.
    pub fn numbers(&self) -> SequenceNumbers
        ensures { result ≡ state.numbers_of self.now }
    {
        SequenceNumbers {
            stat_sn: self.stat_sn,
            exp_cmd_sn: self.exp_cmd_sn,
            max_cmd_sn: last_in_window(self.exp_cmd_sn),
        }
    }

    /// The target transfer tag of the next R2T, or of a ping: no outstanding R2T has it, and it isn't the reserved one.
    pub fn free_tag(&self) -> u32
        ensures tag { result ≡ state.free_tag self.now }
        ensures valid { result ≢ 4294967295 }
    {
        if self.next_tag == NO_TAG {
            0
        } else {
            self.next_tag
        }
    }

    /// Whether a request is done now: it is immediate, or has the expected CmdSN while no data are collected.
    pub fn accepts(&self, immediate: bool, cmd_sn: u32) -> bool
        ensures { result ≡ state.is_accepted self.now immediate cmd_sn }
    {
        immediate || (self.collecting.is_none() && cmd_sn == self.exp_cmd_sn)
    }

    /// The state after a request was accepted: one that isn't immediate is counted.
    pub fn received(self, immediate: bool) -> Flow
        ensures { result ≡ state.received self immediate }
    {
        if immediate {
            self
        } else {
            Flow {
                exp_cmd_sn: self.exp_cmd_sn.wrapping_add(1),
                ..self
            }
        }
    }

    /// The state after a response.
    pub fn answered(self) -> Flow
        ensures { result ≡ state.answered self }
    {
        Flow {
            stat_sn: self.stat_sn.wrapping_add(1),
            ..self
        }
    }

    /// The state without the WRITE whose data were collected.
    pub fn reopened(self) -> Flow
        ensures { result ≡ state.reopened self }
    {
        Flow {
            collecting: None,
            ..self
        }
    }

    /// The state in which the next data of this WRITE are awaited, without an R2T for them.
    pub fn awaiting(self, c: &Collecting) -> Flow
        ensures { result ≡ state.awaiting self c.now }
    {
        Flow {
            collecting: Some(*c),
            ..self
        }
    }

    /// The state after an R2T for a command: `len` bytes are asked for after `have` ones, of `wanted` in all.
    pub fn asking(self, command: ScsiCommand, wanted: u32, asked: u32, burst_end: u32) -> Flow
        ensures { result ≡ state.asking self command wanted asked burst_end }
    {
        let transfer_tag = self.free_tag();
        Flow {
            next_tag: transfer_tag.wrapping_add(1),
            collecting: Some(Collecting {
                command,
                wanted,
                asked,
                transfer_tag,
                data_sn: 0,
                burst_end,
                is_unsolicited: false,
            }),
            ..self
        }
    }
}

/// MaxCmdSN: the last CmdSN of the window that begins with the expected one.
pub(crate) fn last_in_window(exp_cmd_sn: u32) -> u32
    ensures { result ≡ state.last_in_window exp_cmd_sn }
{
    exp_cmd_sn.wrapping_add(WINDOW as u32 - 1)
}

/// The number of a LUN of single-level form, 0 to 255 (SAM-3, 4.9): peripheral device addressing, or flat space.
pub fn lun_number(lun: Lun) -> Option<u8>
    ensures { result ≡ state.lun_number lun }
{
    let method = lun.high / 0x100_0000;
    if lun.low == 0 && lun.high % 0x1_0000 == 0 && (method == 0x00 || method == 0x40) {
        Some((lun.high / 0x1_0000 % 0x100) as u8)
    } else {
        None
    }
}

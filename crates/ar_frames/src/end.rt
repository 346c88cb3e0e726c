// Why sessions end. Each reason says where reading and writing stopped (`Closes` and `WritesAnswers` of the
// specification).

/// Why a session ended.
#[derive(Clone, Copy, Debug, PartialEq, Eq)]
pub enum EndReason {
    /// Input ended right after the login or a whole frame.
    End,
    /// The login's name or host number is wrong.
    BadLogin,
    /// A session of that host is open.
    HostInUse,
    /// A frame's N is this number, below 25.
    TooShort(u32),
    /// A frame's N is this number, above 33,553,945.
    TooLong(u32),
    /// Input ended inside the login or a frame.
    Cut,
    /// A read faulted.
    Read,
    /// A write faulted.
    Write,
    /// The limit of 1,000,000 frames was reached, and all were answered.
    Bound,
}

/// How a session ended.
#[derive(Clone, Copy, Debug, PartialEq, Eq)]
pub struct SessionEnd {
    /// The number of frames that were read whole.
    pub frames: u64,
    pub reason: EndReason,
}

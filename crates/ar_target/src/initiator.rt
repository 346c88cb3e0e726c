// Observers of the logins of a session's initiator. The device server passes a login on to its port.
use crate::DeviceServer;

/// A login of an initiator, before the port takes it.
#[derive(Clone, Copy)]
pub struct InitiatorLogin<'a> {
    /// The value of InitiatorName.
    pub initiator: &'a [u8],
    /// The first four bytes of the ISID (RFC 7143, 11.12.5), as in the request.
    pub isid_high: u32,
    /// Its last two bytes.
    pub isid_low: u16,
    /// The host whose target it names, 0 to 3. None: a session for discovery.
    pub host: Option<u8>,
}

/// Observes the logins of a session.
pub trait LoginObserver {
    /// Called once, before a login that is in order is given to the port, or a session for discovery begins.
    fn observe(&self, login: InitiatorLogin<'_>);
}

impl<P: LoginObserver> LoginObserver for DeviceServer<P> {
    fn observe(&self, login: InitiatorLogin<'_>) {
        self.port.observe(login);
    }
}

// What a session keeps to from its login on.
use crate::negotiation::Limits;

/// The terms of a full feature phase.
#[derive(Clone, Copy, Debug)]
pub struct Terms<'a> {
    /// What the login has agreed on.
    pub limits: Limits,
    /// The target's own address, as `127.0.0.1:3260`.
    pub address: &'a [u8],
}

// A packet that is pending.
use e3_types::Packet;

/// A packet that is pending, and how many copies of it are left: 1 or 2. No value of it is made: it is how contracts see that.
#[derive(Drop)]
pub struct Waiting {
    pub packet: Packet,
    pub copies: u8,
}

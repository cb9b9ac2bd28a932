use s10_link::Packet;

/// A datagram that reached the server, with the day of its arrival.
#[derive(Clone, Copy, Debug)]
pub struct Delivery {
    /// The bytes of the datagram.
    pub packet: Packet,
    /// The day, as a number of days since a day that the caller chooses.
    pub day: u32,
}

/// How many calls a link had since it was created.
#[derive(Clone, Copy, Debug, PartialEq, Eq)]
pub struct Counts {
    /// Number of calls of `receive`, `try_receive` and `send`, without those that returned `Spent`.
    pub calls: u64,
    /// Number of these calls that failed.
    pub failures: u64,
    /// Number of sends that succeeded.
    pub sends: u64,
    /// Number of datagrams received.
    pub received: u64,
}

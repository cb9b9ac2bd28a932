//! What a link did.

ghost use Rattle.std.specs.Prelude.{◌≡◌, ◌-◌, ◌^◌, ◌<◌, ◌++◌, ◌∷◌, [], length, true, false};
ghost use Rattle.s10_link.specs.Counts.{counts_of};

use crate::counts::Counts;
use crate::link_call::LinkCall;
use http_server::Log;
use std::marker::Model;

/// The calls of a link since it was created, in order, without those that returned `Spent`.
///
/// Proofs alone read the calls; the program reads how many there were.
#[derive(Drop)]
pub struct Trace {
    counts: Counts,
    log: Log<LinkCall, ()>,
}

impl Model for Trace {
    ghost use Rattle.std.specs.Prelude.{◌≡◌, List};
    ghost use Rattle.s10_link.specs.declared.link_call.LinkCall.{LinkCall};
    ghost use Rattle.s10_link.specs.Counts.{counts_of, calls_in};

    ghost Value = { List LinkCall };

    ghost view = { λ trace. calls_in trace.log.items };

    ghost invariant = { λ trace. trace.counts ≡ counts_of (calls_in trace.log.items) };
}

impl Trace {
    /// Returns the trace of a link without calls.
    pub fn new() -> Trace
        ensures { result ≡ [] }
    {
        Trace {
            counts: Counts {
                calls: 0,
                failures: 0,
                sends: 0,
                received: 0,
            },
            log: Log::new(),
        }
    }

    /// Returns how many calls there were.
    pub fn counts(&self) -> Counts
        ensures { result ≡ counts_of self.now }
    {
        self.counts
    }

    /// Returns whether there were as many calls as can be counted.
    pub fn is_full(&self) -> bool
        ensures full { result ≡ true → length self.now ≡ 2 ^ 64 - 1 }
        ensures room { result ≡ false → length self.now < 2 ^ 64 - 1 }
    {
        self.counts.calls == u64::MAX
    }

    /// Adds a call.
    pub fn add(&mut self, call: LinkCall)
        requires { length self.old < 2 ^ 64 - 1 }
        ensures { self.new ≡ self.old ++ call ∷ [] }
    {
        self.counts.calls += 1;
        match call {
            LinkCall::Quiet => {}
            LinkCall::Received(_, _) => self.counts.received += 1,
            LinkCall::FailedReceive => self.counts.failures += 1,
            LinkCall::Sent(_, _) => self.counts.sends += 1,
            LinkCall::FailedSend(_, _) => self.counts.failures += 1,
        }
        self.log = self.log.and(&call, &());
    }
}

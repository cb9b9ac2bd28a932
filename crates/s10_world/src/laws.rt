//! States what holds of every world that the steps reach.

ghost use Rattle.std.specs.Prelude.{List};
ghost use Rattle.s10_history.specs.Settings.{Terms};
ghost use Rattle.s10_book.specs.Rules.{IsLegal};
ghost use Rattle.s10_ends.specs.Runs.{KeepsPromises};
ghost use Rattle.s10_world.specs.declared.event.Event.{Event};
ghost use Rattle.s10_world.specs.World.{WorldState, Steps};
ghost use Rattle.s10_world.specs.Sound.{IsStart};
ghost use Rattle.s10_world.specs.Agreement.{Agrees, IsAtMostOnce, HaveOwnNumbers, IsUnshared};

/// States what holds of every world that events reach from a start. There nothing was sent, and the
/// history is legal.
///
/// It holds for all events: with any losses, repeats and reorderings, and with any bytes at the
/// server.
pub fn reachable_worlds()
    // The history is legal, no identifier is issued twice within the interval, each is its
    // customer's own, and no identifier lies in two ranges.
    ensures kept { (t : Terms) (w w' : WorldState) (events : List Event) → IsStart w
        → IsLegal w.history t → Steps t w events w' → KeepsPromises w'.history t }
    // The accepted replies agree with the history.
    ensures agree { (t : Terms) (w w' : WorldState) (events : List Event) → IsStart w
        → Steps t w events w' → Agrees w' }
    // Each submitted request was executed at most once, and its reply shows whether it was.
    ensures once { (t : Terms) (w w' : WorldState) (events : List Event) → IsStart w
        → IsLegal w.history t → Steps t w events w' → IsAtMostOnce w' }
    // If no two clients of one customer have a number in common, no two calls share a request. No
    // identifier is then accepted twice within the interval.
    ensures unshared { (t : Terms) (w w' : WorldState) (events : List Event) → IsStart w
        → IsLegal w.history t → Steps t w events w'
        → HaveOwnNumbers w.clients → IsUnshared t.interval w' }
{}

//! Says how near a ledger is to its limit.

ghost use Rattle.std.specs.Prelude.{[], ◌∷◌, Contains};
ghost use Rattle.s10_jobs.specs.Shares.{IsReached, IsGreatestReached};

/// Returns the greatest of 90, 95 and 99 that the calls have reached of each hundred of the limit, or
/// 0 if they have reached none.
pub fn share_kept(calls: u32, limit: u32) -> u32
    ensures one { Contains (0 ∷ 90 ∷ 95 ∷ 99 ∷ []) result }
    ensures reached { IsReached calls limit result }
    ensures greatest { IsGreatestReached calls limit result }
{
    let kept = u64::from(calls) * 100;
    let limit = u64::from(limit);
    if kept >= limit * 99 {
        99
    } else if kept >= limit * 95 {
        95
    } else if kept >= limit * 90 {
        90
    } else {
        0
    }
}

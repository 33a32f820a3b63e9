//! The number of pairs, updated by the replies to commands.
ghost use Rattle.std.specs.Prelude.{◌≡◌};
ghost use Rattle.engine.specs.PairCount.{pairs_after, pairs_after_all};

use keys::Reply;
use std::alloc::Global;

// The number of pairs after the commands that have these replies.
pub(super) fn pairs_after_all(pairs: u128, replies: &[Reply<Global>]) -> u128
    ensures { result ≡ pairs_after_all pairs replies.now }
{
    let mut pairs = pairs;
    for reply in replies {
        pairs = pairs_after(pairs, reply);
    }
    pairs
}

fn pairs_after(pairs: u128, reply: &Reply<Global>) -> u128
    ensures { result ≡ pairs_after pairs reply.now }
{
    match reply {
        Reply::New | Reply::Added => pairs.saturating_add(1),
        Reply::Deleted => pairs.saturating_sub(1),
        Reply::Wiped(count) => pairs.saturating_sub(*count),
        _ => pairs,
    }
}

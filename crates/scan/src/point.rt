//! Looks up one key in a leaf.
ghost use Rattle.std.specs.Prelude.{◌≡◌};
ghost use Rattle.std.specs.Option.{option_copied};
ghost use Rattle.keys.specs.OrderedMap.{value_at};
ghost use Rattle.delta_chain.specs.Layers.{entries_of};

use delta_chain::Chain;
use keys::Value;
use std::alloc::Global;

/// Returns the value that a leaf has at `key`, if it has one, borrowed from the leaf. Does not allocate.
pub fn value_in<'a>(
    chain: &'a Chain<Value<Global>, Global>,
    key: &[u8],
) -> Option<&'a Value<Global>>
    ensures { option_copied result ≡ value_at key.now (entries_of chain.now) }
{
    let _in_order = chain.depth();
    chain.get(key)
}

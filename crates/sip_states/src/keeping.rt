//! How elements of a list are kept, by a flag for each.
ghost use Rattle.std.specs.Prelude.{◌≡◌, length};
ghost use Rattle.indexmap.specs.IndexMap.{index_map_len};
ghost use Rattle.sip_states.specs.Kept.{kept_of};

use indexmap::IndexMap;
use std::hash::{BuildHasher, Hash};

/// Keeps the elements whose flag is true, in their order, and drops the others and those without a flag.
pub fn keep_each<T: Drop>(items: &mut Vec<T>, flags: &[bool])
    ensures { items.new.items ≡ kept_of flags.now items.old.items }
{
    // `count` elements are kept so far: they stand at the front, in their order.
    let mut count = 0;
    for at in 0..flags.len().min(items.len()) {
        if flags[at] {
            items.swap(at, count);
            count += 1;
        }
    }
    items.truncate(count);
}

/// Keeps the entries whose flag is true, in their order, and drops the others.
pub(crate) fn keep_entries<K: Eq + Hash + Drop, V: Drop, H: BuildHasher>(
    map: &mut IndexMap<K, V, H>,
    flags: &[bool],
)
    requires { length flags.now ≡ index_map_len map.old }
    ensures { map.new.entries ≡ kept_of flags.now map.old.entries }
{
    // `count` entries are kept so far: they stand at the front, in their order.
    let mut count = 0;
    for at in 0..flags.len() {
        if flags[at] {
            map.swap_indices(at, count);
            count += 1;
        }
    }
    map.truncate(count);
}

//! Lists that mostly have one element.
ghost use Rattle.std.specs.Prelude.{◌≡◌, ◌++◌, [], ◌∷◌, OnOk};

use sqlite_items::Items;
use std::alloc::{AllocError, Global};

/// Appends an element. A list that has none yet takes the room of one.
pub(crate) fn push_one<T: Drop>(
    alloc: Global,
    list: &mut Items<T>,
    item: T,
) -> Result<(), AllocError>
    ensures { OnOk result (list.new ≡ list.old ++ item ∷ []) }
{
    if list.is_empty() {
        let room = Items::from_vec(Vec::with_capacity(alloc, 1)?);
        drop(std::mem::replace(list, room));
    }
    list.push(item)
}

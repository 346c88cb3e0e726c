// The capacity of lists that record: it is there before what is recorded happens.
ghost use Rattle.std.specs.Prelude.{◌≡◌, ◌<◌, IsOk, OnOk, vec_len, vec_capacity};
ghost use Rattle.ar_served.specs.Kept.{MayGrow};

use std::alloc::AllocError;

// The first capacity of a list, in items.
const FIRST_PLACES: usize = 4;

/// Grows a full list by half of its capacity, but by four items at least; a list with capacity left keeps it. If the
/// allocation fails, the list is unchanged.
pub fn reserve_place<T>(list: &mut Vec<T>) -> Result<(), AllocError>
    ensures items { list.new.items ≡ list.old.items }
    ensures place { OnOk result (vec_len list.new < vec_capacity list.new) }
    ensures granted { vec_len list.old < vec_capacity list.new → IsOk result }
    ensures placed { vec_len list.old < vec_capacity list.old
        → IsOk result × (vec_capacity list.new ≡ vec_capacity list.old) }
    ensures grown { MayGrow (vec_capacity list.old) (vec_capacity list.new) }
{
    if list.len() < list.capacity() {
        return Ok(());
    }
    // `reserve_exact`, since std gives no upper bound on what `reserve` adds
    list.reserve_exact((list.len() / 2).max(FIRST_PLACES))
}

//! What is done with a column of keys, values or hashes, which is a vector: it grows, moves to another block, and is copied or cloned.
ghost use Rattle.std.specs.Prelude.{◌≡◌, ◌<◌, ◌≤◌, [], length, IfOk, OnOk, OnErr, vec_len, vec_capacity};
ghost use Rattle.std.specs.List.{AllZip};

use std::alloc::AllocError;
use std::mem::replace;

// Up to this capacity a column grows into a fresh block, since an allocator takes longer to extend a small one than to move it.
const MOST_MOVED: usize = 6_144;

/// Gives a column a greater capacity. On error nothing changes.
pub(crate) fn grow<T>(column: &mut Vec<T>, capacity: usize) -> Result<(), AllocError>
    requires { vec_capacity column.old < capacity }
    ensures items { column.new.items ≡ column.old.items }
    ensures len { vec_len column.new ≡ vec_len column.old }
    ensures ok { OnOk result (vec_capacity column.new ≡ capacity) }
    ensures err { OnErr result (vec_capacity column.new ≡ vec_capacity column.old) }
{
    if capacity <= MOST_MOVED {
        let fresh = Vec::with_capacity(*column.allocator(), capacity)?;
        move_to(column, fresh);
        return Ok(());
    }
    column.reserve_exact(capacity - column.len())
}

/// Moves all elements, in order, into an empty column whose capacity is enough, and frees the old one.
pub(crate) fn move_to<T>(column: &mut Vec<T>, mut fresh: Vec<T>)
    requires empty { fresh.items ≡ [] }
    requires len { vec_len fresh ≡ 0 }
    requires fits { vec_len column.old ≤ vec_capacity fresh }
    ensures items { column.new.items ≡ column.old.items }
    ensures len { vec_len column.new ≡ vec_len column.old }
    ensures capacity { vec_capacity column.new ≡ vec_capacity fresh }
{
    let alloc = *column.allocator();
    let mut left = replace(column, Vec::new(alloc)).into_iter();
    while let Some(item) = left.next() {
        fresh.push_reserved(item);
    }
    left.destroy_empty();
    replace(column, fresh).destroy_empty();
}

/// Copies all elements, in order, into an empty column whose capacity is enough.
pub(crate) fn copy_all<T: Copy>(from: &[T], mut to: Vec<T>) -> Vec<T>
    requires empty { to.items ≡ [] }
    requires len { vec_len to ≡ 0 }
    requires fits { length from.now ≤ vec_capacity to }
    ensures items { result.items ≡ from.now }
    ensures len { vec_len result ≡ length from.now }
    ensures capacity { vec_capacity result ≡ vec_capacity to }
{
    for item in from {
        to.push_reserved(*item);
    }
    to
}

/// Clones all elements, in order, into an empty column whose capacity is enough.
#[tactic(auto, using(std::proofs::lemmas::Grind::common_steps, std::proofs::lemmas::List::Elements::all_zip_more))]
pub(crate) fn clone_all<T: Clone>(from: &[T], mut to: Vec<T>) -> Result<Vec<T>, AllocError>
    requires empty { to.items ≡ [] }
    requires len { vec_len to ≡ 0 }
    requires fits { length from.now ≤ vec_capacity to }
    ensures items { IfOk result (λ v. AllZip T.is_clone from.now v.items) }
    ensures len { IfOk result (λ v. vec_len v ≡ length from.now) }
    ensures capacity { IfOk result (λ v. vec_capacity v ≡ vec_capacity to) }
{
    for item in from {
        to.push_reserved(item.clone()?);
    }
    Ok(to)
}

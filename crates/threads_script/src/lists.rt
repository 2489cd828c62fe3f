//! Lists of lists that are filled item by item, and never grow beyond the room that was taken for them.
ghost use Rattle.std.specs.Prelude.{◌≡◌, ◌<◌, ◌≤◌, [], length, nat_le, replicate, slice_get, vec_capacity, Some, IfOk};
ghost use Rattle.std.specs.declared.vec.Vec.{Vec as VecOf};
ghost use Rattle.std.specs.declared.alloc.Global.{Global as GlobalAlloc};
ghost use Rattle.thread_reports.specs.Reports.{items_of};
ghost use Rattle.threads_script.specs.Lists.{HaveRoom, list_at, pushed_at};

use std::alloc::{AllocError, Global};

/// So many empty lists, each with room for so many items.
pub(crate) fn lists_with_room<T: Copy>(
    alloc: Global,
    count: usize,
    most: usize,
) -> Result<Vec<Vec<T>>, AllocError>
    ensures items { IfOk result (λ lists. items_of lists.items ≡ replicate count []) }
    ensures room { IfOk result (λ lists. HaveRoom most lists.items) }
{
    let mut lists = Vec::with_capacity(alloc, count)?;
    for _ in 0..count {
        lists.push(Vec::with_capacity(alloc, most)?)?;
    }
    Ok(lists)
}

/// Whether the list at a place has so many items.
pub(crate) fn is_full<T>(lists: &[Vec<T>], place: usize, most: usize) -> bool
    requires { 0 < most }
    ensures { result ≡ nat_le most (length (list_at (items_of lists.now) place)) }
{
    match lists.get(place) {
        Some(list) => list.len() >= most,
        None => false,
    }
}

/// Appends an item to the list at a place, if there is such a list.
pub(crate) fn push_to<T: Copy>(lists: &mut Vec<Vec<T>>, place: usize, most: usize, item: T)
    requires room { HaveRoom most lists.old.items }
    requires few { length (list_at (items_of lists.old.items) place) < most }
    ensures items { items_of lists.new.items ≡ pushed_at (items_of lists.old.items) place item }
    ensures room { HaveRoom most lists.new.items }
{
    if let Some(list) = lists.get_mut(place) {
        list.push_reserved(item);
    }
}

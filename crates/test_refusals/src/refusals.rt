//! Each call of a list made once, so that any allocation in it can be made to fail.
//!
//! Run by hand, with each allocation failing one after another: the line that is printed stays the same, or says that
//! there was no memory for the lists that are compared.

use shared_lists::SharedList;
use std::alloc::{AllocError, Global};

/// Whether a list has the same items as another one after it was copied, or was not because memory ran out.
pub fn is_kept_by_copy(alloc: Global, list: &SharedList<u64>, same: &SharedList<u64>) -> bool {
    match list.copy(alloc) {
        Ok(copy) => is_same(&copy, same) && is_same(list, same),
        Err(_) => is_same(list, same),
    }
}

/// Whether each edit that runs out of memory leaves the lists as they were.
pub fn are_lists_kept(alloc: Global, list: &SharedList<u64>) -> Result<bool, AllocError> {
    if list.len() < 10 || list.len() > 1_000_000 {
        return Ok(false);
    }
    let set = is_kept_by_set(alloc, list)?;
    let inserted = is_kept_by_insert_many(alloc, list)?;
    let deleted = is_kept_by_delete(alloc, list)?;
    let replaced = is_kept_by_replace(alloc, list)?;
    let joined = are_kept_by_concat(alloc, list)?;
    Ok(set && inserted && deleted && replaced && joined && is_kept_by_part(alloc, list)?)
}

fn is_kept_by_set(alloc: Global, list: &SharedList<u64>) -> Result<bool, AllocError> {
    let mut copy = list.copy(alloc)?;
    if copy.len() < 10 {
        return Ok(false);
    }
    match copy.set(alloc, 3, 70) {
        Ok(()) => Ok(!is_same(list, &copy)),
        Err(_) => Ok(is_same(list, &copy)),
    }
}

fn is_kept_by_insert_many(alloc: Global, list: &SharedList<u64>) -> Result<bool, AllocError> {
    let mut copy = list.copy(alloc)?;
    let items = vec![in alloc; 70]?;
    if copy.len() < 10 || copy.len() > 1_000_000 || items.len() != 1 {
        return Ok(false);
    }
    match copy.insert_many(alloc, 3, items) {
        Ok(()) => Ok(!is_same(list, &copy)),
        Err(_) => Ok(is_same(list, &copy)),
    }
}

fn is_kept_by_delete(alloc: Global, list: &SharedList<u64>) -> Result<bool, AllocError> {
    let mut copy = list.copy(alloc)?;
    if copy.len() < 10 {
        return Ok(false);
    }
    match copy.delete(alloc, 3, 2) {
        Ok(()) => Ok(!is_same(list, &copy)),
        Err(_) => Ok(is_same(list, &copy)),
    }
}

fn is_kept_by_replace(alloc: Global, list: &SharedList<u64>) -> Result<bool, AllocError> {
    let mut copy = list.copy(alloc)?;
    let more = SharedList::from_vec(alloc, vec![in alloc; 70]?)?;
    if copy.len() < 10 || copy.len() > 1_000_000 || more.len() != 1 {
        return Ok(false);
    }
    match copy.replace(alloc, 3, 2, &more) {
        Ok(()) => Ok(!is_same(list, &copy)),
        Err(_) => Ok(is_same(list, &copy)),
    }
}

fn are_kept_by_concat(alloc: Global, list: &SharedList<u64>) -> Result<bool, AllocError> {
    let copy = list.copy(alloc)?;
    if list.len() > 1_000_000 || copy.len() > 1_000_000 {
        return Ok(false);
    }
    match list.concat(alloc, &copy) {
        Ok(both) => Ok(is_same(list, &copy) && !is_same(list, &both)),
        Err(_) => Ok(is_same(list, &copy)),
    }
}

fn is_kept_by_part(alloc: Global, list: &SharedList<u64>) -> Result<bool, AllocError> {
    let copy = list.copy(alloc)?;
    if copy.len() < 10 {
        return Ok(false);
    }
    match copy.part(alloc, 3, 2) {
        Ok(part) => Ok(is_same(list, &copy) && part.len() == 2),
        Err(_) => Ok(is_same(list, &copy)),
    }
}

/// Whether two lists have the same numbers.
pub fn is_same(left: &SharedList<u64>, right: &SharedList<u64>) -> bool {
    left.len() == right.len() && left.iter().zip(right.iter()).all(|(a, b)| *a == *b)
}

// Lists of ranks.
use std::alloc::Global;
use wm_ops::{List, NoMemory};

/// A number of things, of which a graph never has 2^32 or more.
pub(crate) fn small(count: usize) -> u32 {
    match u32::try_from(count) {
        Ok(count) => count,
        Err(_) => u32::MAX,
    }
}

/// The numbers by size, each once.
pub(crate) fn sorted(alloc: Global, mut numbers: Vec<u32>) -> Result<List<u32>, NoMemory> {
    numbers.as_mut_slice().sort_unstable();
    let mut list = List::new(alloc);
    let mut last: Option<u32> = None;
    for number in numbers {
        if last != Some(number) {
            list.push(number)?;
        }
        last = Some(number);
    }
    Ok(list)
}

/// Those of the numbers that are below a count.
pub(crate) fn below(alloc: Global, numbers: &[u32], count: usize) -> Result<List<u32>, NoMemory> {
    let mut list = List::new(alloc);
    for number in numbers {
        if (*number as usize) < count {
            list.push(*number)?;
        }
    }
    Ok(list)
}

/// Where a number stands in a list by size.
pub(crate) fn place_of(numbers: &[u32], number: u32) -> Option<u32> {
    match numbers.binary_search(&number) {
        Ok(place) => Some(small(place)),
        Err(_) => None,
    }
}

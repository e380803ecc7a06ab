//! Pools: things that are kept once, and are named by their numbers.
ghost use Rattle.std.specs.Prelude.{◌≡◌, ℕ, ◌<◌, length, IfOk, IfSome, IfNone};
ghost use Rattle.std.specs.List.{All};
ghost use Rattle.gup_search.specs.Pools.{Grows, AreNumbers, Lacks, standing};

use gup_base::NoMemory;
use indexmap::IndexSet;
use std::alloc::Global;
use std::hash::Hash;

/// The numbers of these things, of which each is put in that isn't in the pool yet.
pub(crate) fn put_in<T: Copy + Eq + Hash + Drop>(
    alloc: Global,
    pool: &mut IndexSet<T>,
    items: &[T],
) -> Result<Vec<u32>, NoMemory>
    ensures pool { Grows pool.old.keys pool.new.keys }
    ensures numbers { IfOk result (λ numbers. AreNumbers T.eq pool.new.keys items.now numbers.items) }
{
    let mut numbers = Vec::with_capacity(alloc, items.len())?;
    for item in items {
        let (number, _) = pool.insert_full(*item)?;
        numbers.push(small(number)?)?;
    }
    Ok(numbers)
}

/// The numbers of these things, if all of them are in the pool.
pub(crate) fn numbers_in<T: Copy + Eq + Hash + Drop>(
    alloc: Global,
    pool: &IndexSet<T>,
    items: &[T],
) -> Result<Option<Vec<u32>>, NoMemory>
    ensures numbers { IfOk result (λ found. IfSome found (λ numbers. AreNumbers T.eq pool.now.keys items.now numbers.items)) }
    ensures lacks { IfOk result (λ found. IfNone found (Lacks pool.now.keys items.now)) }
{
    let mut numbers = Vec::with_capacity(alloc, items.len())?;
    for item in items {
        let Some((number, _)) = pool.get_full(item) else {
            return Ok(None);
        };
        numbers.push(small(number)?)?;
    }
    Ok(Some(numbers))
}

/// What stands in the pool at these numbers.
pub(crate) fn read<T: Copy>(alloc: Global, pool: &[T], numbers: &[u32]) -> Result<Vec<T>, NoMemory>
    requires { All (λ (n : ℕ). n < length pool.now) numbers.now }
    ensures { IfOk result (λ items. items.items ≡ standing pool.now numbers.now) }
{
    let mut items = Vec::with_capacity(alloc, numbers.len())?;
    for number in numbers {
        items.push(pool[*number as usize])?;
    }
    Ok(items)
}

/// The number in 32 bits, where it fits.
pub(crate) fn small(number: usize) -> Result<u32, NoMemory>
    ensures { IfOk result (λ small. small ≡ number) }
{
    match u32::try_from(number) {
        Ok(small) => Ok(small),
        Err(_) => Err(NoMemory),
    }
}

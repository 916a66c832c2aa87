//! A search for the first key that matches.
ghost use Rattle.std.specs.Prelude.{◌≡◌, ℕ, ◌-◌, ◌<◌, ◌≤◌, true, false, length};
ghost use Rattle.std.specs.Fn.{FnReturnsAt};
ghost use Rattle.half_store.specs.Search.{CallableOnKeys, ReturnsAt, IsFirstMatch, IsVectorSearchCost};
ghost use Rattle.half_store.specs.Work.{compared_more};
ghost use Rattle.half_store.specs.declared.vecmap.search.Scan.TheVariants.{ByBlock};

use crate::{Tally, counting};

/// How a vector is searched.
#[derive(Clone, Copy)]
pub enum Scan {
    /// Key by key, no further than the first that matches.
    ByKey,
    /// Small keys a block at a time, each from its last key to its first, and no further than the block of the first that
    /// matches. Others key by key.
    ByBlock,
}

/// How many small keys are compared before it is asked whether one of them matched.
const BLOCK: usize = 16;

/// The index of the first key that matches.
#[inline(always)]
pub(crate) fn first_match<K, F: Fn(&K) -> bool>(
    keys: &[K],
    matches: &F,
    scan: Scan,
    tally: &mut Tally,
) -> Option<usize>
    requires { CallableOnKeys (F.pre matches.now) keys.now }
    ensures first { IsFirstMatch (FnReturnsAt F.Fn matches.now) keys.now result }
    ensures work { IsVectorSearchCost scan result (length keys.now) tally.old tally.new }
{
    // Keys of at most eight bytes are small: to compare one costs less than a mispredicted branch. The prover knows that n times
    // the size of a key fits a usize only if there are n keys: hence the test for no keys, and the `1 *`.
    if let Scan::ByBlock = scan
        && !keys.is_empty()
        && 1 * size_of::<K>() <= 8
    {
        return first_match_by_block(keys, matches, tally);
    }
    for (index, key) in keys.iter().enumerate() {
        if counting::compare(matches, key, tally) {
            return Some(index);
        }
    }
    None
}

#[inline(always)]
fn first_match_by_block<K, F: Fn(&K) -> bool>(
    keys: &[K],
    matches: &F,
    tally: &mut Tally,
) -> Option<usize>
    requires { CallableOnKeys (F.pre matches.now) keys.now }
    ensures first { IsFirstMatch (FnReturnsAt F.Fn matches.now) keys.now result }
    ensures work { IsVectorSearchCost ByBlock result (length keys.now) tally.old tally.new }
{
    // Most vectors are one block, and a loop over it would take a quarter longer.
    if keys.len() <= BLOCK {
        let found = first_match_between(keys, 0, keys.len(), matches, tally);
        return if found < keys.len() {
            Some(found)
        } else {
            None
        };
    }
    // The length of this block is known, so its loop is unrolled.
    let found = first_match_between(keys, 0, BLOCK, matches, tally);
    if found < BLOCK {
        return Some(found);
    }
    let mut start = BLOCK;
    while start < keys.len() {
        let end = start + BLOCK.min(keys.len() - start);
        let found = first_match_between(keys, start, end, matches, tally);
        if found < end {
            return Some(found);
        }
        start = end;
    }
    None
}

// The index of the first key that matches from `start` on, or `end`. It compares all keys between, so that no branch depends
// on if one matches.
#[inline(always)]
fn first_match_between<K, F: Fn(&K) -> bool>(
    keys: &[K],
    start: usize,
    end: usize,
    matches: &F,
    tally: &mut Tally,
) -> usize
    requires order { start ≤ end }
    requires within { end ≤ length keys.now }
    requires callable { CallableOnKeys (F.pre matches.now) keys.now }
    ensures from { start ≤ result }
    ensures within { result ≤ end }
    ensures found { result < end → ReturnsAt (FnReturnsAt F.Fn matches.now) keys.now result true }
    ensures none_before { (earlier : ℕ) → start ≤ earlier → earlier < result
        → ReturnsAt (FnReturnsAt F.Fn matches.now) keys.now earlier false }
    ensures work { tally.new ≡ compared_more (end - start) tally.old }
{
    let mut found = end;
    for index in (start..end).rev() {
        if counting::compare(matches, &keys[index], tally) {
            found = index;
        }
    }
    found
}

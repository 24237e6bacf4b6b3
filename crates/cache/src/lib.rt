// The cache's slots, and whether the cache is formed.
#![tactic(auto)]

ghost use Rattle.std.specs.Prelude.{◌≡◌, not, ◌+◌, ◌*◌, ◌≤◌, length};
ghost use Rattle.slot_map.specs.Slots.{cache_length};
ghost use Rattle.cache.specs.Cache.{from, any_owner, owner as owner_of, dirty as dirty_of, formed as is_formed};
ghost use Rattle.cache.specs.Fits.{fits, all_fit};

use memory_map::slots;
use words::Word;

// The owner of a slot: 0 where it is empty, else an index + 1.
pub fn owner(cache: &[u8], s: usize) -> u64
    requires { 73 * s + 73 ≤ length cache.now }
    ensures { result ≡ owner_of cache.now s }
{
    u64::load(cache, 73 * s)
}

pub fn dirty(cache: &[u8], s: usize) -> u8
    requires { 73 * s + 73 ≤ length cache.now }
    ensures { result ≡ dirty_of cache.now s }
{
    cache[73 * s + 8]
}

// Whether a slot of level l, which has so many nodes, is empty and clean, or has one of them that may take it.
fn slot_fits(cache: &[u8], l: usize, nodes: usize, s: usize) -> bool
    requires { (l ≤ 3) × (73 * s + 73 ≤ length cache.now) }
    ensures { result ≡ fits l nodes cache.now s }
{
    let o = owner(cache, s) as usize;
    let d = dirty(cache, s);
    if o == 0 {
        return d == 0;
    }
    if 1 < d {
        return false;
    }
    if nodes < o {
        return false;
    }
    slot_map::slot_of(l, o - 1) == s
}

// The same of n slots from a first one on.
fn slots_fit(cache: &[u8], l: usize, nodes: usize, first: usize, n: usize) -> bool
    requires { (l ≤ 3) × ((n ≤ 4) × (73 * (first + n) ≤ length cache.now)) }
    ensures { result ≡ all_fit l nodes cache.now first n }
{
    for k in 0..n {
        if !slot_fits(cache, l, nodes, first + k) {
            return false;
        }
    }
    true
}

// Whether the n first slots are empty.
fn all_empty(cache: &[u8], n: usize) -> bool
    requires { 73 * n ≤ length cache.now }
    ensures { result ≡ not (any_owner (from (owner_of cache.now) 0 n)) }
{
    for s in 0..n {
        if owner(cache, s) != 0 {
            return false;
        }
    }
    true
}

// Whether the cache is formed: refusal 23 is that it is not. The slots are gone through level by level.
pub fn formed(h: usize, cache: &[u8]) -> bool
    requires { (1 ≤ h) × ((h ≤ 3) × (length cache.now ≡ cache_length h)) }
    ensures { result ≡ is_formed h cache.now }
{
    if !slots_fit(cache, 0, memory_map::nodes(h, 0), 0, 4) {
        return false;
    }
    for l in 1..h + 1 {
        if !slots_fit(cache, l, memory_map::nodes(h, l), 2 + 2 * l, 2) {
            return false;
        }
    }
    if owner(cache, slot_map::slot_of(h, 0)) != 0 {
        return true;
    }
    all_empty(cache, slots(h))
}

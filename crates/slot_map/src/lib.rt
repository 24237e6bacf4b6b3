// The slots of the cache: its length, and which slot a counter block or node may take.
#![tactic(auto)]

ghost use Rattle.std.specs.Prelude.{◌≡◌, ◌<◌, ◌≤◌};
ghost use Rattle.memory_map.specs.Map.{slots as slots_of};
ghost use Rattle.slot_map.specs.Slots.{cache_length, slot_of, level_of, belongs as belongs_to};

use memory_map::{nodes, slots};

pub fn cache_length(h: usize) -> usize
    requires { (1 ≤ h) × (h ≤ 3) }
    ensures { result ≡ cache_length h }
{
    73 * slots(h)
}

// The slot that node i of level l may take.
pub fn slot_of(l: usize, i: usize) -> usize
    requires { l ≤ 3 }
    ensures { result ≡ slot_of l i }
{
    if l == 0 {
        i & 3
    } else {
        4 + 2 * (l - 1) + (i & 1)
    }
}

// The level whose nodes slot s may hold.
pub fn level_of(s: usize) -> usize
    ensures { result ≡ level_of s }
{
    if s < 4 { 0 } else { ((s - 4) >> 1) + 1 }
}

// Whether an owner, an index + 1, is a node of the map that may take slot s.
pub fn belongs(h: usize, s: usize, owner: usize) -> bool
    requires { (1 ≤ h) × ((h ≤ 3) × (s < slots_of h)) }
    ensures { result ≡ belongs_to h s owner }
{
    if owner == 0 {
        return false;
    }
    let l = level_of(s);
    if nodes(h, l) <= owner - 1 {
        return false;
    }
    slot_of(l, owner - 1) == s
}

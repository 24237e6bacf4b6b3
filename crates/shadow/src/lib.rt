// The owners that the shadow lists, and the slot that keeps owners from being formed.
#![tactic(auto)]

ghost use Rattle.std.specs.Prelude.{◌≡◌, ◌+◌, ◌*◌, ◌≤◌, length, take};
ghost use Rattle.words.specs.Bytes.{from_le, part};
ghost use Rattle.memory_map.specs.Map.{array_length, slots as slots_of};
ghost use Rattle.cache.specs.Cache.{from, shadow_owners, stray, any_owner, missing_top, bad_slot};

use memory_map::slots;
use words::Word;

// The owners that stand at an index and at each step after it, n of them.
fn owners_at(bytes: &[u8], first: usize, step: usize, n: usize) -> [u64; 10]
    requires { (n ≤ 10) × ((8 ≤ step) × (first + step * n ≤ length bytes.now)) }
    ensures { take n result ≡ from (λ s. from_le (part bytes.now (first + step * s) 8)) 0 n }
{
    let mut owners = [0u64; 10];
    for s in 0..n {
        owners[s] = u64::load(bytes, first + step * s);
    }
    owners
}

// The first slot whose owner is not 0 and does not belong there.
fn first_stray(h: usize, owners: [u64; 10]) -> Option<usize>
    requires { (1 ≤ h) × (h ≤ 3) }
    ensures { result ≡ stray h 0 (take (slots_of h) owners) }
{
    for s in 0..slots(h) {
        let o = owners[s] as usize;
        if o != 0 && !slot_map::belongs(h, s, o) {
            return Some(s);
        }
    }
    None
}

fn any_owner(n: usize, owners: [u64; 10]) -> bool
    requires { n ≤ 10 }
    ensures { result ≡ any_owner (take n owners) }
{
    for s in 0..n {
        if owners[s] != 0 {
            return true;
        }
    }
    false
}

// The top's slot where it is empty and another is filled.
fn missing_top(h: usize, owners: [u64; 10]) -> Option<usize>
    requires { (1 ≤ h) × (h ≤ 3) }
    ensures { result ≡ missing_top h (take (slots_of h) owners) }
{
    let top = slot_map::slot_of(h, 0);
    if owners[top] != 0 {
        return None;
    }
    any_owner(slots(h), owners).then_some(top)
}

// The slot that keeps owners from being formed; of the shadow's, refusal 27 tells it.
pub fn bad_slot(h: usize, owners: [u64; 10]) -> Option<usize>
    requires { (1 ≤ h) × (h ≤ 3) }
    ensures { result ≡ bad_slot h (take (slots_of h) owners) }
{
    first_stray(h, owners).or_else(|| missing_top(h, owners))
}

// The owners that the shadow lists.
pub fn shadow_owners(h: usize, array: &[u8]) -> [u64; 10]
    requires { (1 ≤ h) × ((h ≤ 3) × (length array.now ≡ array_length h)) }
    ensures { take (slots_of h) result ≡ shadow_owners h array.now }
{
    owners_at(array, 72 * memory_map::shadow_cell(h, 0), 72, slots(h))
}

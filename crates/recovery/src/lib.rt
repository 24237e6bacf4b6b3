// Recovery after a power failure, as a call.
#![tactic(auto)]

ghost use Rattle.std.specs.Prelude.{◌≡◌, ℕ, List, length, take};
ghost use Rattle.memory_map.specs.Map.{slots as slots_of};
ghost use Rattle.control.specs.Control.{control_length, depth as depth_of};
ghost use Rattle.node.specs.Sized.{Sized};
ghost use Rattle.journal.specs.Journal.{media};
ghost use Rattle.calls.specs.Call.{buffers, ended};
ghost use Rattle.calls.specs.Recovery.{rebuild_blocks, recover_rebuilt, recover_media, recover as recover_of};
ghost use Rattle.recovery.specs.Lent.{Lent};
ghost use Rattle.recovery.specs.Told.{told};

use answer::{Answer, Refusal};
use forwarding::Failed;

// Rebuilds the cache in an image that is empty, from the owners that the shadow lists, and holds the top against the root: the sum of
// the steps of the counters.
fn rebuild(
    keys: &[u8],
    control: &[u8],
    array: &[u8],
    owners: [u64; 10],
    image: &mut [u8],
) -> Result<u64, Failed>
    requires { Lent keys.now control.now array.now image.old image.old owners }
    ensures { (k : ℕ) (c : List ℕ) → told k (buffers array.now control.now c) result image.new
        ≡ recover_rebuilt keys.now k (buffers array.now control.now c)
        (take (slots_of (depth_of control.now)) owners)
        (rebuild_blocks (depth_of control.now) keys.now (media array.now control.now) 0
        (take 4 owners) image.old 0) }
{
    let h = control::depth(control);
    let sum = forwarding::rebuild_counters(h, keys, control, array, owners, image)?;
    rebuilding::rebuild_nodes(h, keys, array, owners, image);
    if rebuilding::top_tag(h, keys, array, image) != control::root(control) {
        return Err(Failed {
            refusal: Refusal::BadRoot,
            line: 0,
        });
    }
    Ok(sum)
}

// What follows the pending stores. Only a done recovery changes the cache.
fn recover_media(keys: &[u8], control: &[u8], array: &[u8], cache: &mut [u8], stores: u64) -> Answer
    requires { (length keys.now ≡ 48) × ((length control.now ≡ control_length)
        × Sized (depth_of control.now) array.now cache.old) }
    ensures { ended result array.now control.now cache.new
        ≡ recover_media keys.now stores (buffers array.now control.now cache.old) }
{
    let h = control::depth(control);
    let owners = shadow::shadow_owners(h, array);
    if let Some(s) = shadow::bad_slot(h, owners) {
        return Refusal::BadShadow.after(stores, s as u64, 0);
    }
    let mut empty = [0u8; 730];
    let n = cache.len();
    let image = &mut empty[0..n];
    match rebuild(keys, control, array, owners, image) {
        Ok(sum) => {
            copying::copy(cache, 0, image, 0, n);
            Answer::Done { stores, sum }
        }
        Err(Failed { refusal, line }) => refusal.after(stores, line, 0),
    }
}

// Makes the stores that are pending, and rebuilds the cache from what the shadow lists.
pub fn recover(
    keys: &[u8],
    control: &mut [u8],
    array: &mut [u8],
    cache: &mut [u8],
    allowance: u64,
) -> Answer
    ensures { ended result array.new control.new cache.new
        ≡ recover_of keys.now allowance (buffers array.old control.old cache.old) }
{
    if let Err(refusal) = access::opening(keys, control, array, cache) {
        return refusal.into();
    }
    let n = control::count(control);
    let stores = journal::finish(array, control, allowance);
    if n != 0 && stores < n as u64 + 2 {
        return Answer::Cut { stores };
    }
    recover_media(keys, control, array, cache, stores)
}

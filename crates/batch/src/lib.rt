// Staging the cells of a batch in the queue of the control record. A cell takes a place, 80 bytes: its number, 8 bytes, and
// its 72 bytes. Each is a store of its own, made only as far as the allowance goes.
#![tactic(auto)]

ghost use Rattle.std.specs.Prelude.{◌≡◌, ◌<◌, length};
ghost use Rattle.control.specs.Control.{control_length};
ghost use Rattle.batch.specs.Batch.{cell_with, shadow_for, staged};

use words::Word;

// Stages cell n of a batch: its number, its content and its side bytes.
pub fn put_cell(
    control: &mut [u8],
    n: usize,
    allowance: u64,
    number: usize,
    content: &[u8],
    side: u64,
)
    requires { (length control.old ≡ control_length) × ((n < 8) × (length content.now ≡ 64)) }
    ensures { control.new ≡ staged allowance n (cell_with number content.now side) control.old }
{
    if (n as u64) < allowance {
        let at = control::PLACES + 80 * n;
        u64::store(control, at, number as u64);
        copying::copy(control, at + 8, content, 0, 64);
        u64::store(control, at + 72, side);
    }
}

// Stages cell n of a batch: a shadow cell for an owner.
pub fn put_shadow(control: &mut [u8], n: usize, allowance: u64, number: usize, owner: u64)
    requires { (length control.old ≡ control_length) × (n < 8) }
    ensures { control.new ≡ staged allowance n (shadow_for number owner) control.old }
{
    if (n as u64) < allowance {
        let at = control::PLACES + 80 * n;
        u64::store(control, at, number as u64);
        u64::store(control, at + 8, owner);
        copying::zero(control, at + 16, 64);
    }
}

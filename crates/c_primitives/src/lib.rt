// The primitives for C, as host tests and the benchmark call them. A slice is a pointer and a length in C.
// Each answers 0, or 1 where a length is wrong, and then leaves `out` as it was.
#![tactic(auto)]

ghost use Rattle.std.specs.Prelude.{◌≡◌};
ghost use Rattle.c_primitives.specs.Primitives.{code, block_sizes, block_out, hash_sizes, hash_out};

use words::Word;

// The ChaCha20 block of a key of 32 bytes, a counter and a nonce of 12 bytes, into 64 bytes.
#[unsafe(no_mangle)]
pub extern "C" fn nv_chacha20_block(key: &[u8], counter: u32, nonce: &[u8], out: &mut [u8]) -> u32
    ensures { (result ≡ code (block_sizes key.now nonce.now out.old))
        × (out.new ≡ block_out key.now counter nonce.now out.old) }
{
    if key.len() != 32 {
        return 1;
    }
    if nonce.len() != 12 {
        return 1;
    }
    if out.len() != 64 {
        return 1;
    }
    let block = chacha20_block::block(key, counter, nonce);
    copying::copy(out, 0, &block, 0, 64);
    0
}

// SipHash-2-4 of a message under a key of 16 bytes, into 8 bytes, little-endian.
#[unsafe(no_mangle)]
pub extern "C" fn nv_siphash24(key: &[u8], message: &[u8], out: &mut [u8]) -> u32
    ensures { (result ≡ code (hash_sizes key.now out.old))
        × (out.new ≡ hash_out key.now message.now out.old) }
{
    if key.len() != 16 {
        return 1;
    }
    if out.len() != 8 {
        return 1;
    }
    u64::store(out, 0, siphash_message::hash(key, message));
    0
}

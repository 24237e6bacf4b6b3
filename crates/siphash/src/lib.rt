// The rounds of SipHash-2-4. The state is four words, by value.
#![tactic(auto)]

ghost use Rattle.std.specs.Prelude.{◌≡◌};
ghost use Rattle.siphash.specs.SipHash.{sip_round, initial, compress as compressed, finalize as finalized};

use rotation::Rotate;

fn sip_round(v: [u64; 4]) -> [u64; 4]
    ensures { result ≡ sip_round v }
{
    let v0 = v[0].wrapping_add(v[1]);
    let v2 = v[2].wrapping_add(v[3]);
    let v1 = v[1].rotate(13) ^ v0;
    let v3 = v[3].rotate(16) ^ v2;
    let w2 = v2.wrapping_add(v1);
    let w0 = v0.rotate(32).wrapping_add(v3);
    let w1 = v1.rotate(17) ^ w2;
    let w3 = v3.rotate(21) ^ w0;
    [w0, w1, w2.rotate(32), w3]
}

// The state of a key's two words.
pub fn start(k0: u64, k1: u64) -> [u64; 4]
    ensures { result ≡ initial k0 k1 }
{
    [
        k0 ^ 0x736f_6d65_7073_6575,
        k1 ^ 0x646f_7261_6e64_6f6d,
        k0 ^ 0x6c79_6765_6e65_7261,
        k1 ^ 0x7465_6462_7974_6573,
    ]
}

// One word of the message.
pub fn compress(v: [u64; 4], m: u64) -> [u64; 4]
    ensures { result ≡ compressed v m }
{
    let r = sip_round(sip_round([v[0], v[1], v[2], v[3] ^ m]));
    [r[0] ^ m, r[1], r[2], r[3]]
}

pub fn finalize(v: [u64; 4]) -> u64
    ensures { result ≡ finalized v }
{
    let a = sip_round(sip_round([v[0], v[1], v[2] ^ 0xff, v[3]]));
    let r = sip_round(sip_round(a));
    (r[0] ^ r[1]) ^ (r[2] ^ r[3])
}

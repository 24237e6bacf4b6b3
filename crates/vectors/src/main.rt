// Runs published vectors of ChaCha20 and SipHash-2-4 and prints each result, which the gate holds to the file `stdout`.
// That file was written by tests/vectors.c, with OpenSSL's ChaCha20 and libsodium's SipHash-2-4, and not by this program.
#![tactic(auto)]

use std::io;
use words::Word;

fn print_bytes(rt: &impl Print, s: &[u8]) -> io::Result<()> {
    for b in s {
        print!(rt; "{b:02x}")?;
    }
    Ok(())
}

// Bytes in hex, and the end of the line.
fn end_line(rt: &impl Print, s: &[u8]) -> io::Result<()> {
    print_bytes(rt, s)?;
    println!(rt)
}

fn chacha20_line(
    rt: &impl Print,
    name: &[u8],
    key: &[u8; 32],
    counter: u32,
    nonce: &[u8; 12],
) -> io::Result<()> {
    rt.write_all(b"chacha20 ")?;
    rt.write_all(name)?;
    rt.write_all(b" ")?;
    end_line(rt, &chacha20_block::block(key, counter, nonce))
}

// RFC 8439, section 2.3.2: the key 00 to 1f, counter 1.
fn section_2_3_2(rt: &impl Print) -> io::Result<()> {
    let key =
        b"\x00\x01\x02\x03\x04\x05\x06\x07\x08\x09\x0a\x0b\x0c\x0d\x0e\x0f\x10\x11\x12\x13\x14\x15\x16\x17\x18\x19\x1a\x1b\x1c\x1d\x1e\x1f";
    chacha20_line(rt, b"2.3.2", key, 1, b"\0\0\0\x09\0\0\0\x4a\0\0\0\0")
}

// RFC 8439, appendix A.1: five vectors, zeros but for a byte of the key or the nonce.
fn appendix_a_1(rt: &impl Print) -> io::Result<()> {
    let zeros = [0u8; 32];
    let nonce = [0u8; 12];
    chacha20_line(rt, b"A.1.1", &zeros, 0, &nonce)?;
    chacha20_line(rt, b"A.1.2", &zeros, 1, &nonce)?;
    let mut third = [0u8; 32];
    third[31] = 1;
    chacha20_line(rt, b"A.1.3", &third, 1, &nonce)?;
    let mut fourth = [0u8; 32];
    fourth[1] = 0xff;
    chacha20_line(rt, b"A.1.4", &fourth, 2, &nonce)?;
    let mut fifth = [0u8; 12];
    fifth[11] = 2;
    chacha20_line(rt, b"A.1.5", &zeros, 0, &fifth)
}

// The bytes 00 to 3f.
fn counting() -> [u8; 64] {
    let mut s = [0u8; 64];
    for i in 0..64u8 {
        s[usize::from(i)] = i;
    }
    s
}

// The hash of a message under the key 00 to 0f.
fn siphash_line(rt: &impl Print, message: &[u8]) -> io::Result<()> {
    print!(rt; "siphash {} ", message.len())?;
    let key = b"\x00\x01\x02\x03\x04\x05\x06\x07\x08\x09\x0a\x0b\x0c\x0d\x0e\x0f";
    let mut out = [0u8; 8];
    u64::store(&mut out, 0, siphash_message::hash(key, message));
    end_line(rt, &out)
}

// The vectors of the SipHash paper's reference code (vectors.h): the messages 00, 01, .. of lengths 0 to 63.
fn reference_vectors(rt: &impl Print) -> io::Result<()> {
    let s = counting();
    for n in 0..64 {
        siphash_line(rt, &s[..n])?;
    }
    Ok(())
}

fn main(rt: HostRuntime) -> io::Result<()> {
    section_2_3_2(&rt)?;
    appendix_a_1(&rt)?;
    reference_vectors(&rt)
}

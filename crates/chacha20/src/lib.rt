// The rounds of ChaCha20, RFC 8439. The state is four rows of four words, by value.
#![tactic(auto)]

ghost use Rattle.std.specs.Prelude.{◌≡◌, ◌<◌};
ghost use Rattle.chacha20.specs.ChaCha20.{rounds, diagonal_round, column_round};
ghost use Rattle.chacha20.specs.Rows.{flat, sum_row, mix_row, quarter_rows, turned_row, turned};

use rotation::Rotate;

// a + b in each column.
pub fn add_rows(a: [u32; 4], b: [u32; 4]) -> [u32; 4]
    ensures { result ≡ sum_row a b }
{
    [
        a[0].wrapping_add(b[0]),
        a[1].wrapping_add(b[1]),
        a[2].wrapping_add(b[2]),
        a[3].wrapping_add(b[3]),
    ]
}

fn mix_rows(d: [u32; 4], a: [u32; 4], n: u32) -> [u32; 4]
    requires { (0 < n) × (n < 32) }
    ensures { result ≡ mix_row n d a }
{
    [
        (d[0] ^ a[0]).rotate(n),
        (d[1] ^ a[1]).rotate(n),
        (d[2] ^ a[2]).rotate(n),
        (d[3] ^ a[3]).rotate(n),
    ]
}

// A quarter round in each of the four columns.
fn quarter_rows(s: [[u32; 4]; 4]) -> [[u32; 4]; 4]
    ensures { result ≡ quarter_rows s }
{
    let a1 = add_rows(s[0], s[1]);
    let d1 = mix_rows(s[3], a1, 16);
    let c1 = add_rows(s[2], d1);
    let b1 = mix_rows(s[1], c1, 12);
    let a2 = add_rows(a1, b1);
    let d2 = mix_rows(d1, a2, 8);
    let c2 = add_rows(c1, d2);
    let b2 = mix_rows(b1, c2, 7);
    [a2, b2, c2, d2]
}

// A row turned left by n words.
fn turn(r: [u32; 4], n: usize) -> [u32; 4]
    requires { n < 4 }
    ensures { result ≡ turned_row n r }
{
    [r[n], r[(1 + n) % 4], r[(2 + n) % 4], r[(3 + n) % 4]]
}

// Rows 1, 2 and 3 turned left by a, b and c words.
fn turn_rows(s: [[u32; 4]; 4], a: usize, b: usize, c: usize) -> [[u32; 4]; 4]
    requires { (a < 4) × (b < 4) × (c < 4) }
    ensures { result ≡ turned a b c s }
{
    [s[0], turn(s[1], a), turn(s[2], b), turn(s[3], c)]
}

// A column round, then a diagonal round: the diagonals as columns, and back.
fn double_round(s: [[u32; 4]; 4]) -> [[u32; 4]; 4]
    ensures { flat result ≡ diagonal_round (column_round (flat s)) }
{
    let t = turn_rows(quarter_rows(s), 1, 2, 3);
    turn_rows(quarter_rows(t), 3, 2, 1)
}

pub fn twenty_rounds(s: [[u32; 4]; 4]) -> [[u32; 4]; 4]
    ensures { flat result ≡ rounds 10 (flat s) }
{
    let mut t = s;
    for _i in 0..10_usize {
        let u = double_round(t);
        t = u;
    }
    t
}

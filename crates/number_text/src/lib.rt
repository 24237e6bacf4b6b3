// Text, and numbers in decimal digits, behind the first bytes of a buffer.
#![tactic(auto)]

ghost use Rattle.std.specs.Prelude.{◌≡◌, ◌++◌, ◌+◌, ◌≤◌, ◌<◌, length, drop};
ghost use Rattle.number_text.specs.Text.{printed, Appended};

// Spells a number at the end of 20 bytes, and tells where it starts.
fn spell(n: u64, s: &mut [u8]) -> usize
    requires { length s.old ≡ 20 }
    ensures { (result < 20) × (drop result s.new ≡ printed n) }
{
    let mut i: usize = 19;
    let mut x = n;
    while 10 <= x {
        s[i] = 48 + (x % 10) as u8;
        x = x / 10;
        i -= 1;
    }
    s[i] = 48 + (x % 10) as u8;
    i
}

// Writes text behind the first bytes of a buffer, and tells where it ends.
pub fn append(buf: &mut [u8], at: usize, text: &[u8]) -> usize
    requires { at + length text.now ≤ length buf.old }
    ensures { Appended buf.old buf.new at result text.now }
{
    let n = text.len();
    copying::copy(buf, at, text, 0, n);
    at + n
}

// The same, and a number behind it.
pub fn append_number(buf: &mut [u8], at: usize, text: &[u8], n: u64) -> usize
    requires { at + (length text.now + 20) ≤ length buf.old }
    ensures appended { Appended buf.old buf.new at result (text.now ++ printed n) }
    ensures upper_bound { result ≤ at + (length text.now + 20) }
{
    let middle = append(buf, at, text);
    let mut digits = [0u8; 20];
    let i = spell(n, &mut digits);
    copying::copy(buf, middle, &digits, i, 20 - i);
    middle + (20 - i)
}

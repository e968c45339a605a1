// The elements and the effective length of an operand.
ghost use Rattle.std.specs.Prelude.{◌≡◌, min, nat_abs};
ghost use Rattle.unit.specs.Operand.{count, explicit_length, words_of};

// b: how many elements an operand has.
pub fn count_of(words: bool) -> usize
    ensures { result ≡ count words }
{
    if words { 8 } else { 16 }
}

// The absolute value of a length, cut to 16. That of the least length of all, -2^63, has no place
// in an i64.
fn magnitude(length: i64) -> usize
    ensures { result ≡ min 16 (nat_abs length) }
{
    length.unsigned_abs().min(16) as usize
}

// The effective length of an operand, from an explicit length.
pub fn explicit_length(words: bool, length: i64) -> usize
    ensures { result ≡ explicit_length (count words) length }
{
    count_of(words).min(magnitude(length))
}

// The eight words of an operand, low byte first.
pub fn words_of(x: [u8; 16]) -> [u16; 8]
    ensures { result ≡ words_of x }
{
    let mut a = [0u16; 8];
    for i in 0..8 {
        let at = 2 * i;
        a[i] = u16::from_le_bytes([x[at], x[at + 1]]);
    }
    a
}

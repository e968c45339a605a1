// The two compares of a search, each repeated over a part of a text.
//
// Public calls, for a text in bytes or in words; none asks anything of its arguments:
// - `scan` compares one operand with each whole block in turn, up to the first that has an index. A
//   block in which the operand's first four letters stand nowhere has index b, by the law
//   `ruled_out` (proofs/Scans.antt), and is passed with no call of the unit;
// - `agree` compares two parts piece by piece, up to the first that differs.
#![tactic(auto)]

ghost use Rattle.std.specs.Prelude.{◌≡◌, false, ℕ, ◌≤◌, ◌<◌, length};
ghost use Rattle.bits.specs.Bits.{tabulate};
ghost use Rattle.unit.specs.Operand.{count, elements};
ghost use Rattle.scan.specs.Letters.{Begun, Reached, Testable, reach, stands_at, starts_at, unasked_in};
ghost use Rattle.scan.specs.Scan.{agreeing, scan_of};

use blocks::Letter;

// What a scan comes to: how many blocks came before the one that ended it, and the index in that
// one. Where the part ran out of whole blocks, the index is b, and `scan_of` says it so: b is the
// unit's own answer for none, and the walk asks for it as such, so that an Option would be made
// here to be taken apart there at once.
#[derive(Clone, Copy)]
pub struct Scanned {
    pub blocks: usize,
    pub index: u32,
}

// How far past a block its letters may stand.
const AHEAD: usize = 3;

// Which of an operand's first four letters are not asked for at a place of a block of b elements:
// those past its l letters or past the block. Four rows of sixteen places, one for each letter.
fn unasked(b: usize, l: usize) -> [bool; 64]
    ensures { result ≡ tabulate 64 (unasked_in b l) }
{
    let mut a = [false; 64];
    for k in 0..64 {
        let i = k / 16;
        a[k] = (l <= i) | (b <= i + k % 16);
    }
    a
}

// Whether letter i stands in its place, for an operand that begins at place j of a block, or is not
// asked for there. `part` is the block and the elements ahead of it.
fn stands<T: Letter>(part: &[T], letter: T, rows: &[bool; 64], j: usize, i: usize) -> bool
    requires { (length part.now ≡ reach T.words) × (j < count T.words) × (i ≤ 3) }
    ensures { result ≡ stands_at (T.numbers part.now) (T.number letter) rows.now j i }
{
    (part[j + i] == letter) | rows[16 * i + j]
}

// Whether the first four letters stand anywhere in a block, as far as they are asked for; the first
// always is. The tests are joined with no branch, for speed (docs/PERFORMANCE.md).
fn may_start<T: Letter>(part: &[T], operand1: &[u8; 16], rows: &[bool; 64]) -> bool
    requires { Testable T.words (T.numbers part.now) rows.now }
    ensures { result ≡ false → (j : ℕ) → j < count T.words
        → starts_at (T.numbers part.now) (elements T.words operand1.now) rows.now j ≡ false }
{
    let a0 = T::read(operand1, 0);
    let a1 = T::read(operand1, 1);
    let a2 = T::read(operand1, 2);
    let a3 = T::read(operand1, 3);
    let mut found = false;
    for j in 0..T::COUNT {
        let x0 = part[j] == a0;
        let x1 = stands(part, a1, rows, j, 1);
        let x2 = stands(part, a2, rows, j, 2);
        let x3 = stands(part, a3, rows, j, 3);
        found = found | (x0 & x1 & x2 & x3);
    }
    found
}

// The next block from `from` on that the letters do not rule out, as far as there are elements
// ahead. Here as in `later` and `scan` an operand and its length are handed on apart, as the unit
// takes them.
fn pass<T: Letter>(operand1: &[u8; 16], l: usize, part: &[T], from: usize) -> usize
    requires { Begun T.words operand1.now l (T.numbers part.now) from }
    ensures { Reached T.words operand1.now l (T.numbers part.now) from result }
{
    let b = T::COUNT;
    let rows = unasked(b, l);
    let n = part.len();
    let tested = (n - n.min(AHEAD)) / b;
    for i in from..tested {
        let p = i * b;
        let e = p + b + AHEAD;
        if may_start(&part[p..e], operand1, &rows) {
            return i;
        }
    }
    from.max(tested)
}

// The scan of a part whose first blocks have index b. Of the others only those are compared that
// the letters do not rule out: a `for` over the blocks could not leave out the rest. `pass` is
// called in one place, so that it is put into this loop, and its rows are made once, before it
// (docs/PERFORMANCE.md).
fn later<T: Letter>(operand1: &[u8; 16], l: usize, part: &[T], from: usize) -> Scanned
    requires { Begun T.words operand1.now l (T.numbers part.now) from }
    ensures { result ≡ scan_of T.words operand1.now l (T.numbers part.now) }
{
    let b = T::COUNT;
    let whole = part.len() / b;
    let mut i = from;
    while i < whole {
        i = pass(operand1, l, part, i);
        if i < whole {
            let p = i * b;
            let e = p + b;
            let k = T::ordered_index(*operand1, l, blocks::whole(&part[p..e]), b);
            if k != b as u32 {
                return Scanned {
                    blocks: i,
                    index: k,
                };
            }
            i += 1;
        }
    }
    Scanned {
        blocks: i,
        index: b as u32,
    }
}

// The scan. An operand of no letters stands at the front of the first block. In bytes the first
// block is compared straight away: mostly it answers. In words a compare costs more than the test
// for four letters, so there the first block is tested too. Each width calls `later` in one place,
// for speed (docs/PERFORMANCE.md).
pub fn scan<T: Letter>(operand1: [u8; 16], l: usize, part: &[T]) -> Scanned
    ensures { result ≡ scan_of T.words operand1 l (T.numbers part.now) }
{
    let b = T::COUNT;
    if part.len() < b {
        return Scanned {
            blocks: 0,
            index: b as u32,
        };
    }
    if l == 0 {
        return Scanned {
            blocks: 0,
            index: 0,
        };
    }
    if b < 16 {
        return later(&operand1, l, part, 0);
    }
    let k = T::ordered_index(operand1, l, blocks::whole(&part[..b]), b);
    if k != b as u32 {
        return Scanned {
            blocks: 0,
            index: k,
        };
    }
    later(&operand1, l, part, 1)
}

// How many pieces of two parts agree, up to the first that differs. Pieces are of b elements, the
// last may be shorter, and what one part has more than the other is left out.
pub fn agree<T: Letter>(x: &[T], y: &[T]) -> usize
    ensures { result ≡ agreeing T.words (T.numbers x.now) (T.numbers y.now) }
{
    let b = T::COUNT;
    let n = x.len().min(y.len());
    let whole = n / b;
    for i in 0..whole {
        let p = i * b;
        let e = p + b;
        if T::differ_index(blocks::whole(&x[p..e]), b, blocks::whole(&y[p..e]), b) < b as u32 {
            return i;
        }
    }
    let p = whole * b;
    if p == n {
        return whole;
    }
    if blocks::differ_at(&x[p..n], &y[p..n]) < b as u32 {
        return whole;
    }
    whole + 1
}

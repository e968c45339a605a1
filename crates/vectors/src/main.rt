// Runs the four calls of `pcmpstr` over generated blocks and prints a digest of the answers: a line
// for each call and each control from 00h to 7Fh, as `pcmpestri 0c 0123456789abcdef`. A block is
// two operands and two lengths; a control has 256 blocks, the same for the four calls.
//
// The expected output, the file `stdout` of this crate, was not made by this program. A processor
// that has the instructions made it, the explicit ones with lengths of 64 bits, by
// tests/vectors/silicon.c, which draws the same blocks and folds the answers in the same order.
// What is changed here is changed there.
#![tactic(auto)]

use std::io;

// Where the generator and every digest start. Any number but 0 would do.
const SEED: u64 = 0x9e3779b97f4a7c15;

// The bytes at which a signed or unsigned order, or an end of string, is easily mistaken.
const EDGES: [u8; 8] = [0x00, 0x01, 0x7e, 0x7f, 0x80, 0x81, 0xfe, 0xff];

// Explicit lengths: within an operand of bytes or words, at its end, past it, negative; around the
// ends of 32 bits, and where the low 32 bits would be another length; the two ends of the type.
const LENGTHS: [i64; 32] = [
    0,
    1,
    -1,
    2,
    3,
    5,
    7,
    -7,
    8,
    -8,
    9,
    -9,
    12,
    15,
    -15,
    16,
    -16,
    17,
    -17,
    100,
    -100,
    2147483647,
    -2147483648,
    2147483648,
    -2147483649,
    4294967295,
    4294967296,
    -4294967296,
    4294967299,
    -4294967299,
    9223372036854775807,
    -9223372036854775808,
];

// What a call is run on.
#[derive(Clone, Copy)]
struct Block {
    operand1: [u8; 16],
    length1: i64,
    operand2: [u8; 16],
    length2: i64,
}

// The generator, xorshift64, which maps the numbers other than 0 onto themselves.
#[derive(Clone, Copy)]
struct Generator {
    state: u64,
}

// The number after a number.
fn next(state: u64) -> u64 {
    let a = state ^ (state << 13);
    let b = a ^ (a >> 7);
    b ^ (b << 17)
}

impl Generator {
    // The generator of a control's blocks.
    fn of(control: u8) -> Generator {
        Generator {
            state: next(SEED ^ control as u64),
        }
    }

    // One draw: the high half of the next number.
    fn draw(&mut self) -> u64 {
        self.state = next(self.state);
        self.state >> 32
    }

    // An operand of sixteen bytes of an alphabet.
    fn operand(&mut self, alphabet: u64) -> [u8; 16] {
        let mut bytes = [0u8; 16];
        for byte in &mut bytes {
            *byte = letter(alphabet, self.draw());
        }
        bytes
    }

    // The block of a number: the number picks the alphabet and the relation, so that sixteen
    // blocks have all pairs of them.
    fn block(&mut self, number: u64) -> Block {
        let operand2 = self.operand(number % 4);
        let other = self.operand(number % 4);
        let operand1 = related(number / 4 % 4, operand2, other, self.draw());
        let length1 = length(self.draw());
        let length2 = length(self.draw());
        Block {
            operand1,
            length1,
            operand2,
            length2,
        }
    }
}

// The digest with one more number in it. `next` loses nothing, so a single wrong number always
// shows.
fn fold(digest: u64, number: u64) -> u64 {
    next(digest ^ number)
}

// The digest with the six flags in it.
fn fold_flags(digest: u64, flags: unit::Flags) -> u64 {
    [
        flags.carry,
        flags.zero,
        flags.sign,
        flags.overflow,
        flags.auxiliary,
        flags.parity,
    ]
    .iter()
    .fold(digest, |d, flag| fold(d, *flag as u64))
}

// The digest with an index and its flags in it.
fn fold_index(digest: u64, answer: unit::IndexAnswer) -> u64 {
    let refused = fold(digest, answer.refusal as u64);
    fold_flags(fold(refused, answer.index as u64), answer.flags)
}

// The digest with a mask and its flags in it.
fn fold_mask(digest: u64, answer: unit::MaskAnswer) -> u64 {
    let refused = fold(digest, answer.refusal as u64);
    let masked = answer
        .mask
        .iter()
        .fold(refused, |d, byte| fold(d, *byte as u64));
    fold_flags(masked, answer.flags)
}

// A byte of one of four alphabets: any byte, two letters, the edges, or four letters with zeros
// between, which end an implicit length. The alphabet is a number, since it is drawn as one, as in
// tests/vectors/silicon.c: an enum would be made of it by one match, and taken apart by another.
fn letter(alphabet: u64, draw: u64) -> u8 {
    match alphabet {
        0 => (draw % 256) as u8,
        1 => 0x62 + (draw % 2) as u8,
        2 => EDGES[(draw % 8) as usize],
        _ => if draw % 4 == 0 {
            0
        } else {
            0x61 + (draw / 4 % 4) as u8
        },
    }
}

// `text` with one byte changed, so that a comparison fails late or in one place only.
fn near(text: [u8; 16], draw: u64) -> [u8; 16] {
    let mut bytes = text;
    bytes[(draw % 16) as usize] ^= 1;
    bytes
}

// One to eight bytes of `text`, then zeros. A needle that starts near the end of `text` goes on at
// its front, and so matches in part.
fn needle(text: [u8; 16], draw: u64) -> [u8; 16] {
    let mut bytes = [0u8; 16];
    let at = (draw % 16) as usize;
    let size = (draw / 16 % 8) as usize + 1;
    for i in 0..size {
        bytes[i] = text[(at + i) % 16];
    }
    bytes
}

// Operand 1 by its relation to operand 2: another draw, the same bytes, all but one the same, or a
// needle in it. The relation is a drawn number, for the same reason as the alphabet of `letter`.
fn related(relation: u64, text: [u8; 16], other: [u8; 16], draw: u64) -> [u8; 16] {
    match relation {
        0 => other,
        1 => text,
        2 => near(text, draw),
        _ => needle(text, draw),
    }
}

// The explicit length that a draw picks.
fn length(draw: u64) -> i64 {
    LENGTHS[(draw % 32) as usize]
}

// The digest of a call at a control, over the 256 blocks of the control. `answer` folds the call's
// answer on one block into the digest.
fn digest_of<F: Fn(u64, Block, u8) -> u64>(answer: &F, control: u8) -> u64
    requires { F.IsAlwaysCallable answer.now }
{
    let mut generator = Generator::of(control);
    let mut digest = SEED;
    for number in 0..256 {
        digest = answer(digest, generator.block(number), control);
    }
    digest
}

// Writes the lines of a call, one for each control.
fn print_call<F: Fn(u64, Block, u8) -> u64>(
    rt: &impl Print,
    name: &str,
    answer: F,
) -> io::Result<()>
    requires { F.IsAlwaysCallable answer }
{
    for control in 0..128 {
        let digest = digest_of(&answer, control);
        println!(rt; "{name} {control:02x} {digest:016x}")?;
    }
    Ok(())
}

// Writes the lines of the four calls. A write that fails ends the program.
fn main(rt: HostRuntime) -> io::Result<()> {
    print_call(&rt, "pcmpestri", |digest, b, control| {
        let answer = pcmpstr::pcmpestri(b.operand1, b.length1, b.operand2, b.length2, control);
        fold_index(digest, answer)
    })?;
    print_call(&rt, "pcmpestrm", |digest, b, control| {
        let answer = pcmpstr::pcmpestrm(b.operand1, b.length1, b.operand2, b.length2, control);
        fold_mask(digest, answer)
    })?;
    print_call(&rt, "pcmpistri", |digest, b, control| {
        fold_index(digest, pcmpstr::pcmpistri(b.operand1, b.operand2, control))
    })?;
    print_call(&rt, "pcmpistrm", |digest, b, control| {
        fold_mask(digest, pcmpstr::pcmpistrm(b.operand1, b.operand2, control))
    })
}

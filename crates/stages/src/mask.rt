// The answer of the mask calls. It is a type of its own in `unit`, so it is made here and not with
// that of the index calls.
ghost use Rattle.std.specs.Prelude.{◌≡◌, ◌∷◌, ◌/◌, ◌%◌, ◌<◌, replicate};
ghost use Rattle.unit.specs.Operand.{count};
ghost use Rattle.unit.specs.Output.{refused_mask};
ghost use Rattle.unit.specs.Readings.{byte_read, element_read, flags_read, mask_read};

use crate::{operand, status};
use refusals::Refusal;
use unit::{Compared, Control, Element, MaskAnswer};

// The bits in the first two bytes, low byte first.
fn bit_mask(bits: u32) -> [u8; 16]
    ensures { result ≡ (bits % 256) ∷ (bits / 256 % 256) ∷ replicate 14 0 }
{
    let [low, high, ..] = bits.to_le_bytes();
    let mut mask = [0u8; 16];
    mask[0] = low;
    mask[1] = high;
    mask
}

// Byte i of the wide mask: 255 where the bit of its element is set. Of four copies of four bits,
// seven places apart for bytes and fifteen for words, copy j has its bit j lowest in element j.
// That place alone is kept, and times 255, or 65535, it fills the element.
fn byte_at<T: Element>(bits: u32, i: u32) -> u8
    requires { i < 16 }
    ensures { result ≡ byte_read T.words bits i }
{
    if T::COUNT < 16 {
        let n = (bits >> (i / 8 * 4)) % 16;
        let four = (((n as u64) * 0x0000200040008001) & 0x0001000100010001) * 65535;
        ((four >> (i % 8 * 8)) % 256) as u8
    } else {
        let n = (bits >> (i / 4 * 4)) % 16;
        let four = ((n * 0x00204081) & 0x01010101) * 255;
        ((four >> (i % 4 * 8)) % 256) as u8
    }
}

// Each bit fills its element. Written out, for speed (docs/PERFORMANCE.md).
fn element_mask<T: Element>(bits: u32) -> [u8; 16]
    ensures { result ≡ element_read T.words bits }
{
    [
        byte_at::<T>(bits, 0),
        byte_at::<T>(bits, 1),
        byte_at::<T>(bits, 2),
        byte_at::<T>(bits, 3),
        byte_at::<T>(bits, 4),
        byte_at::<T>(bits, 5),
        byte_at::<T>(bits, 6),
        byte_at::<T>(bits, 7),
        byte_at::<T>(bits, 8),
        byte_at::<T>(bits, 9),
        byte_at::<T>(bits, 10),
        byte_at::<T>(bits, 11),
        byte_at::<T>(bits, 12),
        byte_at::<T>(bits, 13),
        byte_at::<T>(bits, 14),
        byte_at::<T>(bits, 15),
    ]
}

// The mask that the output selection asks for.
fn mask_of(high: bool, words: bool, bits: u32) -> [u8; 16]
    ensures { result ≡ mask_read high words bits }
{
    if high {
        if words {
            element_mask::<u16>(bits)
        } else {
            element_mask::<u8>(bits)
        }
    } else {
        bit_mask(bits)
    }
}

// The answer of an accepted call.
pub fn answer(k: Control, t: Compared) -> MaskAnswer
    ensures { result ≡ record {
      refusal = 0;
      mask = mask_read k.high k.words t.bits;
      flags = flags_read (count k.words) t;
    } }
{
    let b = operand::count_of(k.words);
    let mask = mask_of(k.high, k.words, t.bits);
    let flags = status::flags_of(b, t);
    MaskAnswer {
        refusal: 0,
        mask: mask,
        flags: flags,
    }
}

// The answer of a refused call.
pub fn refused() -> MaskAnswer
    ensures { result ≡ refused_mask }
{
    let flags = status::none();
    MaskAnswer {
        refusal: u32::from(Refusal::Control),
        mask: [0u8; 16],
        flags: flags,
    }
}

// Leading runs. The part begins where the text does, so its length is all there is to tell; the
// number of the companion call comes with it.
ghost use Rattle.std.specs.Prelude.{length};
ghost use Rattle.unit.specs.Operand.{in_bytes, in_words};
ghost use Rattle.spans.specs.Spans.{bounds_refusal, range_span, set_refusal, set_span};
ghost use Rattle.capi.specs.Crossing.{NumberGiven, truth};

use crate::{give, truth};
use blocks::Letter;

// Hands the length of a leading run to the caller.
fn give_span<T: Letter>(text: &[T], set: &[T], span: &mut usize) -> u32
    ensures { NumberGiven
        (set_refusal T.words (length text.now) (length set.now))
        (length (set_span T.words (T.numbers text.now) (T.numbers set.now))) span.old result
        span.new }
{
    let part = spans::span(text, set);
    give(spans::accept_span(text, set).map(|_| part.len()), span)
}

// The same of a run in ranges.
fn give_range_span<T: Letter>(text: &[T], bounds: &[T], signed: bool, span: &mut usize) -> u32
    ensures { NumberGiven
        (bounds_refusal T.words (length text.now) (length bounds.now))
        (length (range_span T.words signed (T.numbers text.now) (T.numbers bounds.now)))
        span.old result span.new }
{
    let part = spans::range_span(text, bounds, signed);
    let accepted = spans::accept_range_span(text, bounds, signed);
    give(accepted.map(|_| part.len()), span)
}

// C has no generics, so each call stands once in bytes and once in words, under a name of its own.

// How long the longest front of a text is whose bytes are all in a set.
#[unsafe(no_mangle)]
pub extern "C" fn hx_span_in_bytes(text: &[u8], set: &[u8], span: &mut usize) -> u32
    ensures { NumberGiven
        (set_refusal in_bytes (length text.now) (length set.now))
        (length (set_span in_bytes text.now set.now)) span.old result
        span.new }
{
    give_span::<u8>(text, set, span)
}

// The same in words.
#[unsafe(no_mangle)]
pub extern "C" fn hx_span_in_words(text: &[u16], set: &[u16], span: &mut usize) -> u32
    ensures { NumberGiven
        (set_refusal in_words (length text.now) (length set.now))
        (length (set_span in_words text.now set.now)) span.old result
        span.new }
{
    give_span::<u16>(text, set, span)
}

// How long the longest front of a text is whose bytes each lie in one of some ranges.
#[unsafe(no_mangle)]
pub extern "C" fn hx_range_span_in_bytes(
    text: &[u8],
    bounds: &[u8],
    signed: u32,
    span: &mut usize,
) -> u32
    ensures { NumberGiven
        (bounds_refusal in_bytes (length text.now) (length bounds.now))
        (length (range_span in_bytes (truth signed) text.now bounds.now))
        span.old result span.new }
{
    give_range_span::<u8>(text, bounds, truth(signed), span)
}

// The same in words.
#[unsafe(no_mangle)]
pub extern "C" fn hx_range_span_in_words(
    text: &[u16],
    bounds: &[u16],
    signed: u32,
    span: &mut usize,
) -> u32
    ensures { NumberGiven
        (bounds_refusal in_words (length text.now) (length bounds.now))
        (length (range_span in_words (truth signed) text.now bounds.now))
        span.old result span.new }
{
    give_range_span::<u16>(text, bounds, truth(signed), span)
}

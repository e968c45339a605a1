// The walk: the needle's later pieces, a step, the walk over several matches, and the two calls.
// Text and needle go on from call to call as they are lent, since document 01 has the search as
// methods on the cursor that take both; so a struct for them would only be taken apart again.
ghost use Rattle.std.specs.Prelude.{◌≡◌, length};
ghost use Rattle.unit.specs.Operand.{count};
ghost use Rattle.search.specs.Cursors.{next_match};
ghost use Rattle.search.specs.Fills.{FillAnswered, fill};
ghost use Rattle.search.specs.Moves.{Led, Ready, Room, Walkable, Walks, later_at, rested};

use crate::{Cursor, End, Filled, Next, Stepped, Walked};
use blocks::Letter;

impl Cursor {
    // The cursor after the needle's later pieces, where its first l elements stand at the cursor's
    // position.
    fn rest<T: Letter>(self, text: &[T], needle: &[T], l: usize) -> Stepped
        requires { Room T.words (T.numbers text.now) (T.numbers needle.now) l self }
        ensures { result
            ≡ rested self
            (later_at T.words (T.numbers text.now) (T.numbers needle.now) self.position
            (count T.words)) }
    {
        let b = T::COUNT;
        let m = needle.len();
        let from = (self.position as usize) + l;
        let to = (self.position as usize) + m;
        let agreeing = scan::agree(&needle[l..m], &text[from..to]);
        self.rested(agreeing as u64, ((m - l + b - 1) / b) as u64)
    }

    // One step of the walk or more. An empty needle is found where it is. Whole blocks go by a
    // scan, up to e, so that each leaves room for the needle; less than one is the text's end.
    // `first` is the operand of the first l elements; it and l are handed on apart, as the unit
    // takes them.
    fn step<T: Letter>(self, text: &[T], needle: &[T], first: &[u8; 16], l: usize) -> Stepped
        requires { Ready T.words (T.numbers text.now) (T.numbers needle.now) first.now l self }
        ensures { Led T.words (T.numbers text.now) (T.numbers needle.now) self result }
    {
        if needle.is_empty() {
            return self.found(self.compares);
        }
        let b = T::COUNT;
        let p = self.position as usize;
        let e = text.len() - (needle.len() - l);
        if e - p < b {
            let k = T::ordered_index(*first, l, blocks::padded(&text[p..e]), e - p);
            if k == 0 {
                return self.found(self.compares + 1);
            }
            let by = (k as usize).min(e - p);
            return self.missed(by as u64, self.compares + 1);
        }
        let s = scan::scan(*first, l, &text[p..e]);
        let passed = s.blocks as u64;
        let at = self.moved(
            self.position + b as u64 * passed,
            self.compares + passed,
            false,
        );
        if s.index == 0 {
            return at.rest(text, needle, l);
        }
        if s.index == b as u32 {
            return at.missed(0, at.compares);
        }
        at.missed(s.index as u64, at.compares + 1)
    }

    // The walk from the cursor's position over a text that is cut at its stop, on past each match
    // until the list is full or the cursor after it is refused. `from` is the cursor of the match
    // that is looked for, `at` how far its walk has got. The needle's first piece has l elements;
    // its operand is made once, where it stands. The loop's turns are steps, and `k` counts only
    // those that find the needle, so that no `for` counts it.
    fn walk<T: Letter>(self, text: &[T], needle: &[T], l: usize, positions: &mut [u64]) -> Walked
        requires { Walkable T.words (T.numbers text.now) (T.numbers needle.now) l self
            positions.old }
        ensures { Walks (next_match T.words (T.numbers text.now) (T.numbers needle.now)) self
            positions.old result positions.new }
    {
        let n = text.len();
        let m = needle.len();
        let mut first = [0u8; 16];
        T::fill(&mut first, &needle[..l]);
        let mut from = self.anew(n);
        let mut at = from;
        let mut k = 0;
        while (at.position as usize) + m <= n {
            match at.step(text, needle, &first, l) {
                Stepped::Missed(cursor) => at = cursor,
                Stepped::Found(cursor) => {
                    positions[k] = cursor.position;
                    k += 1;
                    if k == positions.len() {
                        return Walked {
                            count: k,
                            last: from.matched(cursor.position, cursor.compares),
                        };
                    }
                    from = from.moved(cursor.position + 1, cursor.compares, false);
                    at = from;
                    if let Err(refusal) = from.accept(n, m) {
                        return Walked {
                            count: k,
                            last: Next::Refused(refusal, from),
                        };
                    }
                }
            }
        }
        Walked {
            count: k,
            last: from.absent(at.compares),
        }
    }

    // The next match of a needle (document 01: next hit): a walk with a list of one, over the text
    // cut at the stop.
    pub fn next_match<T: Letter>(self, text: &[T], needle: &[T]) -> Next
        ensures { result ≡ next_match T.words (T.numbers text.now) (T.numbers needle.now) self }
    {
        if let Err(refusal) = self.accept(text.len(), needle.len()) {
            return Next::Refused(refusal, self);
        }
        let l = needle.len().min(T::COUNT);
        let mut position = [0u64; 1];
        let w = self.walk(&text[..self.stop as usize], needle, l, &mut position);
        w.last
    }

    // The next matches of a needle, as many as the list has places for (document 02 [1]), by a walk
    // over the text cut at the stop.
    pub fn fill<T: Letter>(self, text: &[T], needle: &[T], positions: &mut [u64]) -> Filled
        ensures { FillAnswered
            (fill T.words (T.numbers text.now) (T.numbers needle.now)
            (length positions.old) self)
            positions.old result positions.new }
    {
        if let Err(refusal) = self.accept(text.len(), needle.len()) {
            return Next::Refused(refusal, self).filled(0);
        }
        if positions.is_empty() {
            return Filled {
                count: 0,
                cursor: self,
                end: End::Full,
            };
        }
        let l = needle.len().min(T::COUNT);
        let w = self.walk(&text[..self.stop as usize], needle, l, positions);
        w.last.filled(w.count)
    }
}

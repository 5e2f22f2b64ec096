// The fields of a line of text, between which one sign stands, and counting: what the programs that
// compare tables share.
ghost use Rattle.std.specs.Prelude.{◌≡◌};
ghost use Rattle.figures.specs.Fields.{place_of, start_of, field, lies, part, has, more};

// The place of the first such sign at or after the place `from`, or the text's end if there is
// none; a place beyond the text is answered as it is.
pub fn place_of(text: &[u8], from: usize, sign: u8) -> usize
    ensures { result ≡ place_of text.now from sign }
{
    for i in from..text.len() {
        if text[i] == sign {
            return i;
        }
    }
    from.max(text.len())
}

// Where field k of a text starts; the text's end if there is none.
fn start_of(text: &[u8], sign: u8, k: usize) -> usize
    ensures { result ≡ start_of text.now sign k }
{
    let mut at = 0;
    for _ in 0..k {
        let end = place_of(text, at, sign);
        if text.len() <= end {
            return text.len();
        }
        at = end + 1;
    }
    at
}

// Field k of a text, counted from 0, where the sign stands between two fields: the very part of the
// text; empty, and at the text's end, if there is none.
pub fn field(text: &[u8], sign: u8, k: usize) -> &[u8]
    ensures { lies result ≡ part text.entry (start_of text.now sign k) (field text.now sign k) }
{
    let start = start_of(text, sign, k);
    let end = place_of(text, start, sign);
    &text[start..end]
}

// Whether the sign stands in a text.
pub fn has(text: &[u8], sign: u8) -> bool
    ensures { result ≡ has text.now sign }
{
    place_of(text, 0, sign) < text.len()
}

// One more than n where it holds and n is below 4,000,000,000, else n: no run comes near that.
pub fn more(n: u32, holds: bool) -> u32
    ensures { result ≡ more n holds }
{
    if n < 4000000000 {
        if holds {
            return n + 1;
        }
    }
    n
}

// Texts written at a place of a lent buffer, as far as they fit. The place after the text is answered whether it fits or not.
ghost use Rattle.std.specs.Prelude.{◌≡◌, [], ◌∷◌, ◌+◌, length};
ghost use Rattle.octets.specs.Digits.{number_text};
ghost use Rattle.octets.specs.Clipped.{saturated, Wrote};

// So many places on, or the last one: the place after a text of so many bytes.
pub fn after(at: usize, n: usize) -> usize
    ensures { result ≡ saturated (at + n) }
{
    at.saturating_add(n)
}

// One byte.
pub fn byte(out: &mut [u8], at: usize, b: u8) -> usize
    ensures { Wrote at (b ∷ []) out.old result out.new }
{
    if at < out.len() {
        out[at] = b;
        return at + 1;
    }
    after(at, 1)
}

// All the bytes of a part.
pub fn copy(out: &mut [u8], at: usize, part: &[u8]) -> usize
    ensures { Wrote at part.now out.old result out.new }
{
    let fit = part.len().min(out.len().saturating_sub(at));
    for i in 0..fit {
        out[at + i] = part[i];
    }
    after(at, part.len())
}

// A number below 100 in digits.
pub fn number(out: &mut [u8], at: usize, n: u8) -> usize
    ensures { Wrote at (number_text n) out.old result out.new }
{
    if n < 10 {
        return byte(out, at, b'0' + n);
    }
    if out.len() <= at {
        return after(at, 2);
    }
    let next = byte(out, at, b'0' + n / 10);
    byte(out, next, b'0' + n % 10)
}

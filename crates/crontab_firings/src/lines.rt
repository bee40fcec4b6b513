// Firings as lines of text: minute, space, entry number.
ghost use Rattle.std.specs.Prelude.{◌≡◌, List, ◌∷◌, ℕ, ◌/◌, ◌≤◌, min, length, take, drop, get_or};
ghost use Rattle.octets.specs.Clipped.{Wrote};
ghost use Rattle.io.specs.Counts.{IsPrefixLen};
ghost use Rattle.crontab_firings.specs.Lines.{Decimal, Line, Lines, Before};

use octets::write;

// The room of the longest line, whatever the numbers.
pub const LINE: usize = 42;

// A number at a place; the place after it is answered.
fn decimal(text: &mut [u8], at: usize, n: u64) -> usize
    ensures { (t : List ℕ) × Decimal n t × (length t ≤ 20) × Wrote at t text.old result text.new }
{
    let mut digits = [0u8; 20];
    let k = io::decimal(n, &mut digits);
    write::copy(text, at, &digits[..k])
}

fn line(text: &mut [u8], at: usize, minute: u32, entry: u16) -> usize
    ensures { (t : List ℕ) × Line minute entry t × (length t ≤ 42) × Wrote at t text.old result text.new }
{
    let space = decimal(text, at, minute as u64);
    let next = write::byte(text, space, b' ');
    let end = decimal(text, next, entry as u64);
    write::byte(text, end, b'\n')
}

// The first n firings, or as many as there are and have room; how many bytes they take is answered. The bytes after them stay.
pub fn write(minutes: &[u32], entries: &[u16], n: usize, text: &mut [u8]) -> usize
    ensures counts { IsPrefixLen result text.new }
    ensures lines { Lines minutes.now entries.now (min (min n (length text.old / 42)) (min (length minutes.now) (length entries.now))) (take result text.new) }
    ensures rest { (drop result text.new ≡ drop result text.old) × (length text.new ≡ length text.old) }
{
    let most = n
        .min(text.len() / LINE)
        .min(minutes.len().min(entries.len()));
    let mut at = 0;
    for i in 0..most {
        at = line(text, at, minutes[i], entries[i]);
    }
    at
}

// How many of the first n firings are left where those of the last minute, at their end, are taken away.
pub fn before_last(minutes: &[u32], n: usize, last: u32) -> usize
    ensures { Before last minutes.now (min n (length minutes.now)) result }
{
    for k in (0..n.min(minutes.len())).rev() {
        if minutes[k] != last {
            return k + 1;
        }
    }
    0
}

// The minute of firing n, counted from 1; 0 where there is none.
pub fn minute_of(minutes: &[u32], n: usize) -> u32
    ensures { result ≡ get_or (0 ∷ minutes.now) n 0 }
{
    if n == 0 {
        return 0;
    }
    minutes.get(n - 1).copied().unwrap_or(0)
}

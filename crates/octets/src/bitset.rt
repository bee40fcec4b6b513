// Sets of numbers in words of 64 bits: number n is bit n % 64 of word n / 64.
ghost use Rattle.std.specs.Prelude.{◌≡◌};
ghost use Rattle.octets.specs.Search.{from};
ghost use Rattle.octets.specs.Passing.{count_below, is_ranked};
ghost use Rattle.octets.specs.BitSets.{has_member, with_member};

use crate::set;

// Whether the set has n.
pub fn has(words: &[u64], n: usize) -> bool
    ensures { result ≡ has_member words.now n }
{
    let at = n / 64;
    if at < words.len() {
        return set::has(words[at], (n % 64) as u64);
    }
    false
}

// Puts n into the set; a number that there is no word for changes nothing.
pub fn add(words: &mut [u64], n: usize)
    ensures { words.new ≡ with_member words.old n }
{
    let at = n / 64;
    if at < words.len() {
        words[at] = set::with(words[at], (n % 64) as u64);
    }
}

// How many numbers below n the set has.
pub fn below(words: &[u64], n: usize) -> usize
    ensures { result ≡ count_below (has_member words.now) n }
{
    let mut count = 0;
    for k in 0..n {
        if has(words, k) {
            count += 1;
        }
    }
    count
}

// The number below n that the set has, with so many that it has below that one; n where there is none.
pub fn ranked(words: &[u64], n: usize, rank: usize) -> usize
    ensures { result ≡ from (is_ranked (has_member words.now) rank) n 0 }
{
    let mut seen = 0;
    for k in 0..n {
        if has(words, k) {
            if seen == rank {
                return k;
            }
            seen += 1;
        }
    }
    n
}

// Sets of small numbers in the bits of a word: bit n stands for the value n.
ghost use Rattle.std.specs.Prelude.{◌≡◌, ◌≤◌};
ghost use Rattle.octets.specs.Sets.{has_bit, put};
ghost use Rattle.octets.specs.Passing.{count_below};
ghost use Rattle.octets.specs.Search.{from};

// Whether the set has n.
pub fn has(set: u64, n: u64) -> bool
    ensures { result ≡ has_bit set n }
{
    if n < 64 {
        return (set >> n) % 2 == 1;
    }
    false
}

// The set with n in it; a number that a word has no bit for changes nothing.
pub fn with(set: u64, n: u64) -> u64
    ensures { result ≡ put set n }
{
    if n < 64 {
        return set | 1 << n;
    }
    set
}

// How many values below n the set has.
pub fn below(set: u64, n: u64) -> u64
    requires { n ≤ 64 }
    ensures { (result ≡ count_below (has_bit set) n) × (result ≤ n) }
{
    if n < 64 {
        return u64::count_ones(set % (1 << n)) as u64;
    }
    u64::count_ones(set) as u64
}

// The least value of the set from `at` on and below `end`, or `end` where there is none; `at` where that isn't below `end`.
pub fn next(set: u64, at: u64, end: u64) -> u64
    requires { end ≤ 64 }
    ensures { result ≡ from (has_bit set) end at }
{
    if end <= at {
        return at;
    }
    let found = at + u64::trailing_zeros(set >> at) as u64;
    if found < end {
        return found;
    }
    end
}

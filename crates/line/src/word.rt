// `@reboot`, and the words that stand for five fields. The schedules of those fields stand here as numbers, and are read nowhere.
ghost use Rattle.std.specs.Prelude.{◌≡◌, ◌<◌, length};
ghost use Rattle.line.specs.Words.{same, word_of, word_at};

use crate::Fault;
use crate::time::{Time, When};
use octets::class::Class;
use octets::run::skip;
use refusal::Refusal;
use schedule::{Schedule, Stars};

// The sets of `*`.
const EVERY_HOUR: u32 = 16_777_215;

const EVERY_DAY: u32 = 4_294_967_294;

const EVERY_MONTH: u16 = 8190;

const EVERY_WEEKDAY: u8 = 127;

// `0 0 1 1 *`
const YEARLY: Schedule = Schedule {
    minutes: 1,
    hours: 1,
    days: 2,
    months: 2,
    weekdays: EVERY_WEEKDAY,
    stars: Stars {
        minutes: false,
        hours: false,
        days: false,
        months: false,
        weekdays: true,
    },
};

// `0 0 1 * *`
const MONTHLY: Schedule = Schedule {
    minutes: 1,
    hours: 1,
    days: 2,
    months: EVERY_MONTH,
    weekdays: EVERY_WEEKDAY,
    stars: Stars {
        minutes: false,
        hours: false,
        days: false,
        months: true,
        weekdays: true,
    },
};

// `0 0 * * 0`
const WEEKLY: Schedule = Schedule {
    minutes: 1,
    hours: 1,
    days: EVERY_DAY,
    months: EVERY_MONTH,
    weekdays: 1,
    stars: Stars {
        minutes: false,
        hours: false,
        days: true,
        months: true,
        weekdays: false,
    },
};

// `0 0 * * *`
const DAILY: Schedule = Schedule {
    minutes: 1,
    hours: 1,
    days: EVERY_DAY,
    months: EVERY_MONTH,
    weekdays: EVERY_WEEKDAY,
    stars: Stars {
        minutes: false,
        hours: false,
        days: true,
        months: true,
        weekdays: true,
    },
};

// `0 * * * *`
const HOURLY: Schedule = Schedule {
    minutes: 1,
    hours: EVERY_HOUR,
    days: EVERY_DAY,
    months: EVERY_MONTH,
    weekdays: EVERY_WEEKDAY,
    stars: Stars {
        minutes: false,
        hours: true,
        days: true,
        months: true,
        weekdays: true,
    },
};

// Whether s is the word.
pub fn is_word(s: &[u8], word: &[u8]) -> bool
    ensures { result ≡ same s.now word.now }
{
    s == word
}

// What a whole word means, if it is one of them.
fn meaning(s: &[u8]) -> Option<When>
    ensures { result ≡ word_of s.now }
{
    if is_word(s, b"@reboot") {
        return Some(When::Reboot);
    }
    if is_word(s, b"@yearly") {
        return Some(When::Timed(YEARLY));
    }
    if is_word(s, b"@annually") {
        return Some(When::Timed(YEARLY));
    }
    if is_word(s, b"@monthly") {
        return Some(When::Timed(MONTHLY));
    }
    if is_word(s, b"@weekly") {
        return Some(When::Timed(WEEKLY));
    }
    if is_word(s, b"@daily") {
        return Some(When::Timed(DAILY));
    }
    if is_word(s, b"@midnight") {
        return Some(When::Timed(DAILY));
    }
    if is_word(s, b"@hourly") {
        return Some(When::Timed(HOURLY));
    }
    None
}

// The word that starts at a place: the whole run of non-blank bytes.
#[tactic(auto, unfolding(crate::specs::Words::word_at, crate::specs::Words::after_word, octets::specs::Runs::between))]
pub(crate) fn read(s: &[u8], at: usize) -> Result<Time, Fault>
    requires { at < length s.now }
    ensures { result ≡ word_at s.now at }
{
    let end = skip(s, at, Class::Solid);
    let refused = Fault {
        refusal: Refusal::UnknownWord,
        column: at + 1,
    };
    let when = meaning(&s[at..end]).ok_or(refused)?;
    Ok(Time {
        when,
        next: skip(s, end, Class::Blank),
    })
}

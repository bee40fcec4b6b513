// The refusals R1 to R28 by name, and their numbers.
#![tactic(auto)]

ghost use Rattle.std.specs.Prelude.{◌≡◌};
ghost use Rattle.refusal.specs.Numbers.{number_of};

// Why a call has no other answer: R1 to R28 in the order of their numbers.
#[derive(Clone, Copy, Debug, PartialEq, Eq)]
pub enum Refusal {
    // The table has too many bytes.
    TableTooLong = 1,
    // The line has too many bytes.
    LineTooLong = 2,
    // The line has a byte 0.
    NulByte = 3,
    // The time has fewer than five fields.
    TooFewFields = 4,
    // The field is malformed.
    Malformed = 5,
    // A number is outside the field's limits.
    OutOfLimits = 6,
    // A range goes from high to low.
    Reversed = 7,
    // A step is 0.
    StepZero = 8,
    // There is no command.
    NoCommand = 9,
    // The `@` word is unknown.
    UnknownWord = 10,
    // The setting is malformed.
    BadSetting = 11,
    // There are too many entries.
    TooManyEntries = 12,
    // There is no entry of that number.
    NoSuchEntry = 13,
    // The minute or the date isn't on the calendar.
    NotOnCalendar = 14,
    // The entry is a boot entry.
    AtBootOnly = 15,
    // The entry never fires.
    Never = 16,
    // The entry doesn't fire before the calendar ends.
    PastEnd = 17,
    // A buffer is too short.
    TooShort = 18,
    // There is no such setting.
    NoSetting = 19,
    // The user column is malformed.
    BadUser = 20,
    // The normal form is too long.
    TooLong = 21,
    // A record is cut short.
    CutShort = 22,
    // The kind of a record is unknown.
    UnknownKind = 23,
    // The body of a record is no line's.
    Meaningless = 24,
    // The value of `CRON_TZ` is no offset.
    BadOffset = 25,
    // The table is cut.
    CutTable = 26,
    // The line has a control byte.
    ControlByte = 27,
    // The buffer isn't a queue of the table.
    NotAQueue = 28,
}

impl From<Refusal> for u8 {
    ghost from_gives = { λ refusal number. number ≡ number_of refusal };

    fn from(refusal: Refusal) -> u8 {
        refusal as u8
    }
}

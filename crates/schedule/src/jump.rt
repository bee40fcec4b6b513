// When the clock jumps (Q4, Q5, Q6): a mark is the minute up to which fixed entries have been judged, and an announced minute is judged beside it.
// It is the minute that was announced last, unless the clock fell back by less than 180 minutes: then the mark stays. It is `None` where no minute
// has been announced.
ghost use Rattle.std.specs.Prelude.{◌≡◌};
ghost use Rattle.schedule.specs.Jumps.{case_of, mark_after};

// What an announced minute is, beside the mark.
#[derive(Clone, Copy)]
pub enum Case {
    // There is no mark, or it is too far away: all entries are judged by the minute.
    Anew,
    // It is at most 180 after this mark: fixed entries catch up.
    After(u64),
    // It is the mark, or less than 180 before it: fixed entries don't join.
    Held,
}

// A minute that is further above the mark than so many minutes, or as far below it, starts anew.
const CATCH_UP_LIMIT: u64 = 180;

// The case of a minute.
pub fn case_of(mark: Option<u64>, minute: u64) -> Case
    ensures { result ≡ case_of mark minute }
{
    let Some(marked) = mark else {
        return Case::Anew;
    };
    if marked < minute {
        if CATCH_UP_LIMIT < minute - marked {
            return Case::Anew;
        }
        return Case::After(marked);
    }
    if CATCH_UP_LIMIT <= marked - minute {
        return Case::Anew;
    }
    Case::Held
}

// The mark that an announced minute leaves.
pub fn mark_after(mark: Option<u64>, minute: u64) -> Option<u64>
    ensures { result ≡ mark_after mark minute }
{
    match case_of(mark, minute) {
        Case::Anew | Case::After(_) => Some(minute),
        Case::Held => mark,
    }
}

// What one record means (B2 to B10), by its kind and its body.
ghost use Rattle.std.specs.Prelude.{◌≡◌, ◌&&◌, [], ◌∷◌, ◌≤◌, length, drop, eqb, IfOk};
ghost use Rattle.normal.specs.Meanings.{boot, setting};
ghost use Rattle.normal.specs.Proper.{is_command, is_schedule, is_item};
ghost use Rattle.records.specs.Formats.{kind_of};
ghost use Rattle.records.specs.Readings.{stars_of, schedule_at, timed_in, setting_in, meant, is_skipped};
ghost use Rattle.records.specs.InnerReaders.{found, Within, BodyIs};

use crate::SCHEDULE_SIZE;
use crate::kind::Kind;
use line::time::When;
use normal::proper::{is_command, is_name, is_schedule, is_value, is_zoned};
use normal::text::part;
use octets::{little_endian, set};
use refusal::Refusal;
use schedule::{Schedule, Stars};

// What is found in a body. Places are the body's.
#[derive(Clone, Copy)]
pub enum Content {
    // Of a kind that changes no entry.
    Skipped,
    // The command goes from a place to the end.
    Entry { when: When, start: usize },
    // The name goes from 2 to where the value starts.
    Setting { value: usize },
}

const SKIPPED_FROM: u16 = 32768;

// Flags from here on have bits that no field has.
const FLAGS_END: u64 = 32;

fn stars(flags: u8) -> Stars
    ensures { result ≡ stars_of flags }
{
    let flags = flags as u64;
    Stars {
        minutes: set::has(flags, 0),
        hours: set::has(flags, 1),
        days: set::has(flags, 2),
        months: set::has(flags, 3),
        weekdays: set::has(flags, 4),
    }
}

fn schedule(body: &[u8]) -> Schedule
    requires { 20 ≤ length body.now }
    ensures { result ≡ schedule_at body.now }
{
    Schedule {
        minutes: little_endian::read(body, 0, 8),
        hours: little_endian::read(body, 8, 4) as u32,
        days: little_endian::read(body, 12, 4) as u32,
        months: little_endian::read(body, 16, 2) as u16,
        weekdays: little_endian::read(body, 18, 1) as u8,
        stars: stars(little_endian::read(body, 19, 1) as u8),
    }
}

// Whether a line can mean a schedule, and the command behind it.
fn is_timed(body: &[u8], s: Schedule) -> bool
    requires { 20 ≤ length body.now }
    ensures { result ≡ (is_schedule s && is_command (drop 20 body.now)) }
{
    is_schedule(s) & is_command(&body[SCHEDULE_SIZE..])
}

fn timed(body: &[u8]) -> Result<Content, Refusal>
    ensures { (found body.now result ≡ meant 1 (timed_in body.now)) × IfOk result (Within body.now) }
{
    if body.len() < SCHEDULE_SIZE {
        return Err(Refusal::Meaningless);
    }
    let flags = little_endian::read(body, 19, 1);
    if flags < FLAGS_END {
        let s = schedule(body);
        if is_timed(body, s) {
            return Ok(Content::Entry {
                when: When::Timed(s),
                start: SCHEDULE_SIZE,
            });
        }
    }
    Err(Refusal::Meaningless)
}

fn boot(body: &[u8]) -> Result<Content, Refusal>
    ensures { (found body.now result ≡ meant 2 (boot body.now ∷ [])) × IfOk result (Within body.now) }
{
    if is_command(body) {
        return Ok(Content::Entry {
            when: When::Reboot,
            start: 0,
        });
    }
    Err(Refusal::Meaningless)
}

// Whether a line can mean a setting, and this is the kind for its name.
fn is_setting(name: &[u8], value: &[u8], kind: u16) -> bool
    ensures { result ≡ (eqb (kind_of (setting name.now value.now)) kind && is_item (setting name.now value.now)) }
{
    (u16::from(Kind::of_setting(name)) == kind)
        & (is_name(name) & (is_value(value) & is_zoned(name, value)))
}

fn setting(body: &[u8], kind: u16) -> Result<Content, Refusal>
    ensures { (found body.now result ≡ meant kind (setting_in body.now)) × IfOk result (Within body.now) }
{
    if 2 <= body.len() {
        let value = 2 + little_endian::read(body, 0, 2) as usize;
        if value <= body.len() {
            if is_setting(part(body, 2, value), part(body, value, body.len()), kind) {
                return Ok(Content::Setting { value });
            }
        }
    }
    Err(Refusal::Meaningless)
}

// Whether a record of this kind changes no entry.
fn is_skipped(kind: u16) -> bool
    ensures { result ≡ is_skipped kind }
{
    SKIPPED_FROM <= kind
}

pub fn read(body: &[u8], kind: u16) -> Result<Content, Refusal>
    ensures { BodyIs kind body.now result }
{
    if is_skipped(kind) {
        return Ok(Content::Skipped);
    }
    match Kind::try_from(kind)? {
        Kind::Timed => timed(body),
        Kind::Boot => boot(body),
        Kind::Setting | Kind::Zone => setting(body, kind),
    }
}

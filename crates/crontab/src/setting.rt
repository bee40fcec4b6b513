// Settings by the number of their line.
ghost use Rattle.std.specs.Prelude.{◌≡◌, ◌≤◌, length};
ghost use Rattle.crontab.specs.Items.{items_of};
ghost use Rattle.crontab.specs.Settings.{setting_in, next_line_in, name_in, value_in};
ghost use Rattle.line.specs.Assignments.{part_bytes};

use crate::find::{Wanted, find};
use crate::item::Item;
use line::{Part, Rules};
use refusal::Refusal;

// A setting: where its name and its value stand in the table, without quotes.
#[derive(Clone, Copy)]
pub struct Setting {
    pub name: Part,
    pub value: Part,
}

// The setting of a line, which is counted from 1.
pub fn read(s: &[u8], rules: Rules, line: u64) -> Result<Setting, Refusal>
    ensures { result ≡ setting_in (items_of rules s.now) line }
{
    let found = find(s, rules, Wanted::SettingOn(line))?;
    let Item::Setting { name, value } = found.item else {
        return Err(Refusal::NoSetting);
    };
    Ok(Setting { name, value })
}

// The first line from a line on that has a setting, that line included.
pub fn next(s: &[u8], rules: Rules, line: u64) -> Result<u64, Refusal>
    ensures { result ≡ next_line_in (items_of rules s.now) line }
{
    let found = find(s, rules, Wanted::SettingFrom(line))?;
    let Item::Setting { .. } = found.item else {
        return Err(Refusal::NoSetting);
    };
    Ok(found.line as u64)
}

// A part of the table.
fn part_of(s: &[u8], part: Part) -> &[u8]
    requires { (part.start ≤ part.end) × (part.end ≤ length s.now) }
    ensures { result.now ≡ part_bytes s.now part }
{
    &s[part.start..part.end]
}

// A setting's name as a part of the table, empty where it is refused.
pub fn name(s: &[u8], rules: Rules, line: u64) -> &[u8]
    ensures { result.now ≡ name_in s.now (setting_in (items_of rules s.now) line) }
{
    let Ok(found) = read(s, rules, line) else {
        return &s[0..0];
    };
    part_of(s, found.name)
}

// Its value, likewise.
pub fn value(s: &[u8], rules: Rules, line: u64) -> &[u8]
    ensures { result.now ≡ value_in s.now (setting_in (items_of rules s.now) line) }
{
    let Ok(found) = read(s, rules, line) else {
        return &s[0..0];
    };
    part_of(s, found.value)
}

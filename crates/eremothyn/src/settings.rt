// Settings, by the number of their line: where the name and the value stand in the table, and which line has the next one.
ghost use Rattle.std.specs.Prelude.{◌≡◌, ◌≤◌};
ghost use Rattle.crontab.specs.Items.{items_of};
ghost use Rattle.crontab.specs.Settings.{setting_in};
ghost use Rattle.eremothyn.specs.Rules.{rules_of};
ghost use Rattle.eremothyn.specs.Settings.{shown_in, setting_number};
ghost use Rattle.eremothyn.specs.Calls.{setting_name_offset_call, setting_name_length_call, setting_value_offset_call, setting_value_length_call, next_setting_call};

use crate::answer::answer;
use crate::rules::rules_of;
use crontab::setting;
use crontab::setting::Setting;

// What is asked of a setting.
// By name and no closure, as in dates.
#[derive(Clone, Copy)]
enum Shown {
    NameOffset,
    NameLength,
    ValueOffset,
    ValueLength,
}

fn shown_in(found: Setting, what: Shown) -> u64
    requires { (found.name.start ≤ found.name.end) × (found.value.start ≤ found.value.end) }
    ensures { result ≡ shown_in found what }
{
    let name = found.name;
    let value = found.value;
    match what {
        Shown::NameOffset => name.start as u64,
        Shown::NameLength => (name.end - name.start) as u64,
        Shown::ValueOffset => value.start as u64,
        Shown::ValueLength => (value.end - value.start) as u64,
    }
}

fn setting_number(table: &[u8], kind: u64, dialect: u64, line: u64, what: Shown) -> u64
    ensures { result ≡ setting_number (setting_in (items_of (rules_of kind dialect) table.now) line) what }
{
    match setting::read(table, rules_of(kind, dialect), line) {
        Ok(found) => shown_in(found, what),
        Err(refusal) => answer(Err(refusal)),
    }
}

#[unsafe(no_mangle)]
pub extern "C" fn eremothyn_setting_name_offset(
    table: &[u8],
    kind: u64,
    dialect: u64,
    line: u64,
) -> u64
    ensures { result ≡ setting_name_offset_call table.now kind dialect line }
{
    setting_number(table, kind, dialect, line, Shown::NameOffset)
}

#[unsafe(no_mangle)]
pub extern "C" fn eremothyn_setting_name_length(
    table: &[u8],
    kind: u64,
    dialect: u64,
    line: u64,
) -> u64
    ensures { result ≡ setting_name_length_call table.now kind dialect line }
{
    setting_number(table, kind, dialect, line, Shown::NameLength)
}

#[unsafe(no_mangle)]
pub extern "C" fn eremothyn_setting_value_offset(
    table: &[u8],
    kind: u64,
    dialect: u64,
    line: u64,
) -> u64
    ensures { result ≡ setting_value_offset_call table.now kind dialect line }
{
    setting_number(table, kind, dialect, line, Shown::ValueOffset)
}

#[unsafe(no_mangle)]
pub extern "C" fn eremothyn_setting_value_length(
    table: &[u8],
    kind: u64,
    dialect: u64,
    line: u64,
) -> u64
    ensures { result ≡ setting_value_length_call table.now kind dialect line }
{
    setting_number(table, kind, dialect, line, Shown::ValueLength)
}

#[unsafe(no_mangle)]
pub extern "C" fn eremothyn_next_setting(table: &[u8], kind: u64, dialect: u64, line: u64) -> u64
    ensures { result ≡ next_setting_call table.now kind dialect line }
{
    answer(setting::next(table, rules_of(kind, dialect), line))
}

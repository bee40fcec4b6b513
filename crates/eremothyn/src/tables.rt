// Tables: how many entries one has, or where its fault is.
ghost use Rattle.std.specs.Prelude.{◌≡◌};
ghost use Rattle.eremothyn.specs.Calls.{check_call, fault_line_call, fault_column_call};

use crate::answer::answer;
use crate::rules::rules_of;
use crontab::table::check;

#[unsafe(no_mangle)]
pub extern "C" fn eremothyn_check(table: &[u8], kind: u64, dialect: u64) -> u64
    ensures { result ≡ check_call table.now kind dialect }
{
    match check(table, rules_of(kind, dialect)) {
        Ok(count) => count as u64,
        Err(fault) => answer(Err(fault.refusal)),
    }
}

#[unsafe(no_mangle)]
pub extern "C" fn eremothyn_fault_line(table: &[u8], kind: u64, dialect: u64) -> u64
    ensures { result ≡ fault_line_call table.now kind dialect }
{
    match check(table, rules_of(kind, dialect)) {
        Ok(_) => 0,
        Err(fault) => fault.line as u64,
    }
}

#[unsafe(no_mangle)]
pub extern "C" fn eremothyn_fault_column(table: &[u8], kind: u64, dialect: u64) -> u64
    ensures { result ≡ fault_column_call table.now kind dialect }
{
    match check(table, rules_of(kind, dialect)) {
        Ok(_) => 0,
        Err(fault) => fault.column as u64,
    }
}

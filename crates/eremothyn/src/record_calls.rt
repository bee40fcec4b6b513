// A user's table in records for the radio, and back, in the buffers that the caller lends.
ghost use Rattle.std.specs.Prelude.{◌≡◌};
ghost use Rattle.records.specs.Calls.{record_fault};
ghost use Rattle.eremothyn.specs.Calls.{compile_call, compile_records, decompile_call, decompile_text};

use crate::normal_forms::normal_number;
use crate::rules::dialect_of;
use records::{compile, decompile};

#[unsafe(no_mangle)]
pub extern "C" fn eremothyn_compile(table: &[u8], dialect: u64, records: &mut [u8]) -> u64
    ensures answer { result ≡ compile_call table.now dialect records.old }
    ensures records { records.new ≡ compile_records table.now dialect records.old }
{
    normal_number(compile::compile(table, dialect_of(dialect), records))
}

#[unsafe(no_mangle)]
pub extern "C" fn eremothyn_decompile(records: &[u8], text: &mut [u8]) -> u64
    ensures answer { result ≡ decompile_call records.now text.old }
    ensures text { text.new ≡ decompile_text records.now text.old }
{
    normal_number(decompile::decompile(records, text))
}

// The number of the first bad record, or 0.
#[unsafe(no_mangle)]
pub extern "C" fn eremothyn_record_fault(records: &[u8]) -> u64
    ensures { result ≡ record_fault records.now }
{
    decompile::record_fault(records) as u64
}

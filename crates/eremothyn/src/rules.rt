// How a table is read, as a C caller says it.
ghost use Rattle.std.specs.Prelude.{◌≡◌};
ghost use Rattle.eremothyn.specs.Rules.{dialect_of, rules_of};

use field::Dialect;
use line::{Kind, Rules};

// 0 is the first dialect, any other number the second.
pub(crate) fn dialect_of(dialect: u64) -> Dialect
    ensures { result ≡ dialect_of dialect }
{
    if dialect == 0 {
        return Dialect::Rising;
    }
    Dialect::Wrapping
}

// 0 is a user table, any other number a system table.
pub(crate) fn rules_of(kind: u64, dialect: u64) -> Rules
    ensures { result ≡ rules_of kind dialect }
{
    let dialect = dialect_of(dialect);
    if kind == 0 {
        return Rules {
            kind: Kind::User,
            dialect,
        };
    }
    Rules {
        kind: Kind::System,
        dialect,
    }
}

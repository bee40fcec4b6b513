// The kinds of records (B2 to B6).
ghost use Rattle.std.specs.Prelude.{◌≡◌};
ghost use Rattle.records.specs.Formats.{setting_kind_of};
ghost use Rattle.records.specs.Kinds.{number_of, Decodes};

use line::offset::is_zone;
use refusal::Refusal;

#[derive(Clone, Copy, Debug, PartialEq, Eq)]
pub(crate) enum Kind {
    Timed = 1,
    Boot = 2,
    Setting = 3,
    // A setting `CRON_TZ`.
    Zone = 4,
}

impl Kind {
    // The kind of a setting's record, by its name.
    pub(crate) fn of_setting(name: &[u8]) -> Kind
        ensures { number_of result ≡ setting_kind_of name.now }
    {
        if is_zone(name) {
            return Kind::Zone;
        }
        Kind::Setting
    }
}

impl From<Kind> for u16 {
    ghost from_gives = { λ kind number. number ≡ number_of kind };

    fn from(kind: Kind) -> u16 {
        kind as u16
    }
}

impl TryFrom<u16> for Kind {
    type Error = Refusal;

    ghost try_from_gives = { Decodes };

    fn try_from(number: u16) -> Result<Kind, Refusal> {
        match number {
            1 => Ok(Kind::Timed),
            2 => Ok(Kind::Boot),
            3 => Ok(Kind::Setting),
            4 => Ok(Kind::Zone),
            _ => Err(Refusal::UnknownKind),
        }
    }
}

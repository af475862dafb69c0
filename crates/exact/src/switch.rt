//! A setting that is on or off.
ghost use Rattle.std.specs.Str.{chars};
ghost use Rattle.chumsky.specs.Accepted.{Exactly, NeverRefuses};
ghost use Rattle.exact.specs.Switch.{IsSetting};

use chumsky::Stop;
use chumsky::combinator::Mapper;
use chumsky::extra::EmptyText;
use chumsky::prelude::*;
use std::alloc::Global;

/// What may be set.
#[derive(Clone, Copy, Debug, PartialEq)]
pub enum Key {
    Volume,
    Light,
    Alarm,
}

/// What it is set to.
#[derive(Clone, Copy, Debug, PartialEq)]
pub enum Switch {
    On,
    Off,
}

/// A key, and what it is set to.
#[derive(Clone, Copy, Debug, PartialEq)]
pub struct Setting {
    pub key: Key,
    pub switch: Switch,
}

/// Makes a setting of its parts.
#[derive(Clone, Copy, Drop)]
pub struct ToSetting;

impl Mapper<(Key, Switch), Setting> for ToSetting {
    ghost use Rattle.std.specs.Prelude.{◌≡◌};
    ghost use Rattle.exact.specs.Switch.{setting_of};

    ghost gives = { λ _ parts setting. setting ≡ setting_of parts.0 parts.1 };

    fn apply(&self, parts: (Key, Switch)) -> Setting {
        let (key, switch) = parts;
        Setting { key, switch }
    }
}

/// A setting, as `volume=on`: of just six texts, each of the three keys with `on` or `off`, the output is their setting, and
/// of any other there is none. A run over one of the six is never refused.
pub fn parse_switch(alloc: Global, text: &str) -> Result<ParseResult<Setting, EmptyErr>, Stop>
    ensures exact { Exactly IsSetting (chars text.now) result }
    ensures answered { NeverRefuses IsSetting (chars text.now) result }
{
    let key = choice((
        just::<_, &str, EmptyText>("volume").to(Key::Volume),
        just("light").to(Key::Light),
        just("alarm").to(Key::Alarm),
    ));
    let switch = choice((just("on").to(Switch::On), just("off").to(Switch::Off)));
    let setting = key.then_ignore(just("=")).then(switch);
    setting.map_by(ToSetting).parse(alloc, text)
}

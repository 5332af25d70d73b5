/// A rule of the settings. Where a key breaks several, the first in the order of this list is told.
#[derive(Clone, Copy, Debug, PartialEq, Eq, PartialOrd, Ord)]
pub enum SettingsRule {
    /// The text is TOML.
    Toml,
    Unknown,
    Missing,
    WrongType,
    /// About the length of a list or a text.
    Count,
    Grammar,
    Range,
    Repeated,
}

impl SettingsRule {
    ghost use Rattle.std.specs.Prelude.{◌≡◌};
    ghost use Rattle.swarm_policy.specs.Rules.{rule_name};

    pub fn name(&self) -> &'static str
        ensures { result.now ≡ rule_name self.now }
    {
        match self {
            SettingsRule::Toml => "toml",
            SettingsRule::Unknown => "unknown",
            SettingsRule::Missing => "missing",
            SettingsRule::WrongType => "type",
            SettingsRule::Count => "count",
            SettingsRule::Grammar => "grammar",
            SettingsRule::Range => "range",
            SettingsRule::Repeated => "repeated",
        }
    }
}

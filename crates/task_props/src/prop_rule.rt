use dimensions::DimRule;

/// A rule that a field of a request keeps. Where a field breaks several, the first in the order
/// of this list is told.
#[derive(Debug, Clone, Copy, PartialEq, Eq)]
pub enum PropRule {
    Missing,
    WrongType,
    Unknown,
    /// About the length of a list or a text.
    Count,
    Grammar,
    Range,
    Repeated,
    Alternative,
    Pool,
    Id,
}

impl PropRule {
    ghost use Rattle.std.specs.Prelude.{◌≡◌};
    ghost use Rattle.task_props.specs.RuleNames.{rule_name};

    pub fn name(&self) -> &'static str
        ensures { result.now ≡ rule_name self.now }
    {
        match self {
            PropRule::Missing => "missing",
            PropRule::WrongType => "type",
            PropRule::Unknown => "unknown",
            PropRule::Count => "count",
            PropRule::Grammar => "grammar",
            PropRule::Range => "range",
            PropRule::Repeated => "repeated",
            PropRule::Alternative => "alternative",
            PropRule::Pool => "pool",
            PropRule::Id => "id",
        }
    }
}

/// What a rule on dimensions is among the rules on fields.
impl From<DimRule> for PropRule {
    ghost use Rattle.std.specs.Prelude.{◌≡◌};
    ghost use Rattle.task_props.specs.FieldRules.{rule_of};

    ghost from_gives = { λ broken rule. rule ≡ rule_of broken };

    fn from(broken: DimRule) -> PropRule {
        match broken {
            DimRule::TooMany => PropRule::Count,
            DimRule::BadKey | DimRule::BadValue => PropRule::Grammar,
            DimRule::EmptyAlternative => PropRule::Alternative,
            DimRule::Repeated => PropRule::Repeated,
            DimRule::Pool => PropRule::Pool,
            DimRule::Id => PropRule::Id,
        }
    }
}

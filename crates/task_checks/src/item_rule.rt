//! A rule on the items of a list, and the first item that breaks it.
ghost use Rattle.std.specs.Prelude.{◌≡◌, ◌≤◌, length, []};
ghost use Rattle.task_props.specs.ItemRules.{first_broken_item};

use task_props::{PropRule, SliceField};

/// A rule on an item, and on those that stand before it.
pub(crate) trait ItemRule {
    ghost use Rattle.std.specs.Prelude.{◌≤◌, List, Option, length};
    ghost use Rattle.task_props.specs.declared.prop_rule.PropRule.{PropRule};
    ghost use Rattle.task_props.specs.declared.task_field.SliceField.{SliceField};

    type Item;

    ghost rule_of: { Self → List Self.Item → Self.Item → Option (SliceField × PropRule) };

    fn broken(&self, earlier: &[Self::Item], item: &Self::Item) -> Option<(SliceField, PropRule)>
        requires { length earlier.now ≤ 64 }
        ensures { result ≡ rule_of self.now earlier.now item.now };
}

/// The first item that breaks the rule.
pub(crate) fn first_broken_item<R: ItemRule>(
    rule: &R,
    items: &[R::Item],
) -> Option<(SliceField, PropRule)>
    requires { length items.now ≤ 64 }
    ensures { result ≡ first_broken_item (R.rule_of rule.now) [] items.now }
{
    for place in 0..items.len() {
        if let Some(broken) = rule.broken(&items[..place], &items[place]) {
            return Some(broken);
        }
    }
    None
}

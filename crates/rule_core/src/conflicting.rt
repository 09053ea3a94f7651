//! Which rules conflict.

ghost use Rattle.std.specs.Prelude.{◌↔◌, IsTrue};
ghost use Rattle.rule_core.specs.Conflicts.{Conflicts, Opposes, OpposesOne, OpposesSome};

use rule_reader::{Action, Rule};

/// Whether two rules conflict: they wait for equal events, and an action of one undoes an action of the other. A rule
/// conflicts with itself where its own actions do so.
pub fn conflicts(x: &Rule, y: &Rule) -> bool
    ensures { IsTrue result ↔ Conflicts x.now y.now }
{
    x.event == y.event && opposes_some(x.actions.as_slice(), y.actions.as_slice())
}

fn opposes_some(actions: &[Action], others: &[Action]) -> bool
    ensures { IsTrue result ↔ OpposesSome actions.now others.now }
{
    for action in actions {
        if opposes_one(*action, others) {
            return true;
        }
    }
    false
}

fn opposes_one(action: Action, others: &[Action]) -> bool
    ensures { IsTrue result ↔ OpposesOne action others.now }
{
    for other in others {
        if opposes(action, *other) {
            return true;
        }
    }
    false
}

fn opposes(action: Action, other: Action) -> bool
    ensures { IsTrue result ↔ Opposes action other }
{
    match action {
        Action::Activate(member) => match other {
            Action::Deactivate(same) => member == same,
            _ => false,
        },
        Action::Deactivate(member) => match other {
            Action::Activate(same) => member == same,
            _ => false,
        },
        Action::Method(join, method) => match other {
            Action::Method(same, another) => join == same && method != another,
            _ => false,
        },
        Action::Quota(join, quota) => match other {
            Action::Quota(same, another) => join == same && quota != another,
            _ => false,
        },
        Action::Replan | Action::Stop => false,
    }
}

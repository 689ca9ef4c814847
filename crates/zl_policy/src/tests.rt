use crate::Policy;
use std::test::Fail;
use zl_rights::{Action, Condition, Mode, Status};

/// The numbers of the actions for the eight conditions, in the order of their numbers.
fn actions(policy: &Policy) -> [u32; 8] {
    [
        policy.action(Condition::BadHandle).number(),
        policy.action(Condition::WrongObject).number(),
        policy.action(Condition::NewAny).number(),
        policy.action(Condition::NewChannel).number(),
        policy.action(Condition::NewEvent).number(),
        policy.action(Condition::NewEventpair).number(),
        policy.action(Condition::NewPort).number(),
        policy.action(Condition::NewProcess).number(),
    ]
}

/// Whether the call is refused as it conflicts with what is set.
fn is_conflict(answer: Result<(), Status>) -> bool {
    match answer {
        Ok(()) => false,
        Err(status) => status.number() == -26,
    }
}

#[test]
fn what_is_set_keeps_its_action(rt: HostRuntime) {
    let mut policy = Policy::new();
    assert_eq!(rt; actions(&policy), [0; 8]);
    assert!(rt;
        policy
            .set(Condition::NewPort, Action::Kill, Mode::Absolute)
            .is_ok()
    );
    assert!(rt;
        policy
            .set(Condition::BadHandle, Action::Allow, Mode::Relative)
            .is_ok()
    );
    assert_eq!(rt; actions(&policy), [0, 0, 0, 0, 0, 0, 2, 0]);
    assert!(rt;
        policy
            .set(Condition::BadHandle, Action::Kill, Mode::Relative)
            .is_ok()
    );
    assert!(rt;
        policy
            .set(Condition::NewAny, Action::Deny, Mode::Relative)
            .is_ok()
    );
    assert_eq!(rt; actions(&policy), [0, 0, 0, 1, 1, 1, 2, 1]);
}

#[test]
fn a_conflict_sets_nothing(rt: HostRuntime) {
    let mut policy = Policy::new();
    assert!(rt;
        policy
            .set(Condition::NewPort, Action::Kill, Mode::Absolute)
            .is_ok()
    );
    let refused = policy.set(Condition::NewAny, Action::Deny, Mode::Absolute);
    assert!(rt; is_conflict(refused));
    let refused = policy.set(Condition::NewPort, Action::Allow, Mode::Absolute);
    assert!(rt; is_conflict(refused));
    assert_eq!(rt; actions(&policy), [0, 0, 0, 0, 0, 0, 2, 0]);
    assert!(rt;
        policy
            .set(Condition::NewAny, Action::Kill, Mode::Absolute)
            .is_ok()
    );
    assert_eq!(rt; actions(&policy.inherit()), [0, 0, 0, 2, 2, 2, 2, 2]);
}

use crate::{Job, JobFault};
use std::test::Fail;
use zl_rights::{Action, Condition, Mode};

#[test]
fn jobs_stand_at_most_16_deep(rt: HostRuntime) -> Result<(), Fail> {
    let mut job = Job::root();
    for n in 1..16 {
        job = match job.below(n) {
            Ok(below) => below,
            Err(_) => return Err(Fail::new("the job may have no job in it")),
        };
    }
    assert_eq!(rt; job.depth(), 16);
    assert_eq!(rt; job.parent(), 15);
    assert!(rt; matches!(job.below(17), Err(JobFault::OutOfRange)));
    job.kill();
    assert!(rt; matches!(job.below(17), Err(JobFault::OutOfRange)));
    Ok(())
}

#[test]
fn a_job_is_made_with_the_policy_of_its_parent(rt: HostRuntime) -> Result<(), Fail> {
    let mut root = Job::root();
    assert!(rt; !root.has_policy());
    let set = root.set_policy(Condition::NewEvent, Action::Deny, Mode::Absolute);
    assert!(rt; set.is_ok());
    let Ok(mut below) = root.below(1) else {
        return Err(Fail::new("the root job may have no job in it"));
    };
    assert!(rt; below.has_policy());
    assert!(rt; matches!(below.action(Condition::NewEvent), Action::Deny));
    let set = below.set_policy(Condition::NewPort, Action::Kill, Mode::Absolute);
    assert!(rt; set.is_ok());
    assert!(rt; matches!(root.action(Condition::NewPort), Action::Allow));
    root.kill();
    assert!(rt; root.is_killed());
    assert!(rt; !below.is_killed());
    assert!(rt; matches!(root.below(1), Err(JobFault::BadState)));
    Ok(())
}

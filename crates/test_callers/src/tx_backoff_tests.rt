//! What no clause says: how the pauses grow.
use tx_backoff::Backoff;

/// How a caller stands that has waited so often.
fn waited(times: usize) -> Backoff {
    let mut backoff = Backoff::new();
    for _ in 0..times {
        backoff.wait();
    }
    backoff
}

#[test]
fn pauses_longer_and_starts_over(rt: HostRuntime) {
    assert_ne!(rt; waited(4), waited(5));
    assert_eq!(rt; waited(5), waited(6));
    let mut backoff = waited(6);
    backoff.wait_for_lock();
    assert_ne!(rt; backoff, waited(6));
    backoff.wait();
    assert_eq!(rt; backoff, waited(6));
    backoff.reset();
    assert_eq!(rt; backoff, Backoff::new());
    backoff.wait_at_commit();
    assert_ne!(rt; backoff, Backoff::new());
    backoff.reset();
    assert_eq!(rt; backoff, Backoff::new());
}

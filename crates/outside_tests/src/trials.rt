//! Trials and uniform numbers worked by hand.
use exact_bernoulli::{Exhausted, Meter, bernoulli, bernoulli_exp, uniform};
use fz_outside::words::{ListWords, Words};

// Behind the draws that a call takes stands a 99.
#[test]
fn a_uniform_number(rt: HostRuntime) {
    let mut words = ListWords::new(&[u64::MAX, 5, 99]);
    assert!(rt; uniform(3, &mut Meter::new(&mut words)) == Ok(2));
    assert!(rt; words.draw() == 99);
}

#[test]
fn a_trial(rt: HostRuntime) {
    let mut words = ListWords::new(&[4, 99]);
    assert!(rt; bernoulli(1, 3, &mut Meter::new(&mut words)) == Ok(false));
    assert!(rt; words.draw() == 99);
}

#[test]
fn a_trial_of_a_power(rt: HostRuntime) {
    let mut words = ListWords::new(&[2, 4, 4, 99]);
    assert!(rt; bernoulli_exp(1, 2, &mut Meter::new(&mut words)) == Ok(true));
    assert!(rt; words.draw() == 99);
}

#[test]
fn last_draw(rt: HostRuntime) {
    let mut draws = [u64::MAX; 4097];
    draws[4096] = 99;
    let mut words = ListWords::new(&draws);
    let mut meter = Meter::new(&mut words);
    for _ in 0..4096_u32 {
        assert!(rt; uniform(1, &mut meter) == Ok(0));
    }
    assert!(rt; bernoulli(1, 1, &mut meter) == Err(Exhausted));
    assert!(rt; words.draw() == 99);
}

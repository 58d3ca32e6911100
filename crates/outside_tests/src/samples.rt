//! Samples worked by hand, and a plain sampler beside the real one.
ghost use Rattle.std.specs.Prelude.{◌<◌, ◌≤◌};

use crate::plain_sampler;
use discrete_laplace::{Exhausted, sample};
use fz_outside::words::{ListWords, Words};

// Draws, behind which stands one that is not taken, and the sample of scale 1.
#[rattlefmt::skip]
const SAMPLES: [(&[u64], i64); 4] = [
    (&[7, 7, 7, 1, 1, 99], 0),
    (&[0, 0, 0, 0, 1, 0, 1, 0, 99], -1),
    (&[7, 7, 7, 1, 0, 7, 7, 7, 1, 1, 99], 0),
    (&[
        0x903d_f1a0_ade0_b876, 0x28bd_8653_e56a_5d40, 0x1aed_8da0_b819_d2bd, 0xc70d_778b_ccef_36a8,
        0x8d48_5751_7c59_41da, 0x374a_d8b8_3fe0_2477, 0x1ca1_1815_f4b8_436a, 0x8665_eeb2_69b6_87c3,
        0x7a38_5155_bee7_079f, 0x0d08_2d73_7c97_ba98, 0x6965_e348_a029_0fcb, 0xed7a_ee32_3e53_c612,
        0x434e_e69c_7621_b729, 99,
    ], 2),
];

// Whether the draws give this, and leave 99 to be next.
fn gives(draws: &[u64], want: Result<i64, Exhausted>) -> bool {
    let mut words = ListWords::new(draws);
    let noise = sample(1, 1, &mut words);
    noise == want && words.draw() == 99
}

#[test]
fn worked_samples(rt: HostRuntime) {
    for (draws, noise) in &SAMPLES {
        assert!(rt; gives(draws, Ok(*noise)));
    }
}

#[test]
fn too_many_draws(rt: HostRuntime) {
    let mut draws = [0; 4097];
    draws[4096] = 99;
    assert!(rt; gives(&draws, Err(Exhausted)));
}

/// Whether the plain sampler says the same of 4,096 draws, and leaves the same one to be next.
fn agrees(t: u32, s: u32, draws: &[u64]) -> bool
    requires some { 0 < t }
    requires most { t ≤ 1000000 }
    requires divisor { 0 < s }
{
    let mut words = ListWords::new(draws);
    let noise = sample(t, s, &mut words).ok();
    let next = words.draw();
    match plain_sampler::sample(t as u64, s as u64, draws) {
        Some((plain, left)) => {
            noise == Some(plain) && next == left.first().copied().unwrap_or(0)
        }
        None => noise.is_none() && next == 0,
    }
}

fn all_agree(draws: &[u64]) -> bool {
    let first = agrees(1, 1, draws);
    let second = agrees(3, 2, draws);
    let third = agrees(2, 5, draws);
    first && second && third
}

const TELLING: [u64; 5] = [0, 1, 2, 7, u64::MAX];

// Every list of six telling draws, and then draws that soon give a number.
#[test]
fn plain_samples_agree(rt: HostRuntime) {
    let mut draws = [7; 4096];
    for place in 0..1000_usize {
        draws[place * 4] = 1;
    }
    for list in 0..15625_usize {
        let mut digits = list;
        for place in 0..6_usize {
            draws[place] = TELLING[digits % 5];
            digits /= 5;
        }
        assert!(rt; all_agree(&draws), "list {list}");
    }
}

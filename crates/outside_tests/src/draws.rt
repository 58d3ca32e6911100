//! Draws of the published test vectors.
use fz_outside::words::{Streams, Words};
use word_streams::KeyStreams;

// RFC 8439, appendix A.1, test vectors 1 and 2, and then 5.
const FIRST: [u64; 13] = [
    0x903df1a0ade0b876,
    0x28bd8653e56a5d40,
    0x1aed8da0b819d2bd,
    0xc70d778bccef36a8,
    0x8d4857517c5941da,
    0x374ad8b83fe02477,
    0x1ca11815f4b8436a,
    0x8665eeb269b687c3,
    0x7a385155bee7079f,
    0x0d082d737c97ba98,
    0x6965e348a0290fcb,
    0xed7aee323e53c612,
    0x434ee69c7621b729,
];

const OF_ANOTHER_OWNER: [u64; 2] = [0x3736d58c374dc6c2, 0xcd3f93efb904e24a];

fn draws<W: Words>(words: &mut W, wanted: &[u64]) -> bool {
    for want in wanted {
        if words.draw() != *want {
            return false;
        }
    }
    true
}

#[test]
fn first_draws(rt: HostRuntime) {
    let zeros = KeyStreams::new([0; 32]);
    assert!(rt; draws(&mut zeros.stream(0, 0), &FIRST));
    assert!(rt; draws(&mut zeros.stream(0x0200_0000, 0), &OF_ANOTHER_OWNER));
}

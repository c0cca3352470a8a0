//! Tests of layers over the plain engine, against a published plaintext and its ciphertext.

use cipher::engine::Engine;
use halves::Narrow;
use layers::cascade::Cascade;
use layers::whitening::Whitening;
use plain::Plain;

const KEY: [u8; 16] = [
    0x01, 0x23, 0x45, 0x67, 0x89, 0xab, 0xcd, 0xef, 0xfe, 0xdc, 0xba, 0x98, 0x76, 0x54, 0x32, 0x10,
];

const PLAINTEXT: [u8; 16] = KEY;

const CIPHERTEXT: [u8; 16] = [
    0x32, 0x12, 0x2b, 0xed, 0xd0, 0x23, 0xc4, 0x29, 0x02, 0x34, 0x70, 0xe1, 0x15, 0x8c, 0x14, 0x7d,
];

// The plaintext with 0x0f added to each byte, and the ciphertext with 0xf0.
const LOW_TURNED: [u8; 16] = [
    0x0e, 0x2c, 0x4a, 0x68, 0x86, 0xa4, 0xc2, 0xe0, 0xf1, 0xd3, 0xb5, 0x97, 0x79, 0x5b, 0x3d, 0x1f,
];

const HIGH_TURNED: [u8; 16] = [
    0xc2, 0xe2, 0xdb, 0x1d, 0x20, 0xd3, 0x34, 0xd9, 0xf2, 0xc4, 0x80, 0x11, 0xe5, 0x7c, 0xe4, 0x8d,
];

// What makes the plaintext of the ciphertext; the bytes past a block are to have no effect.
const BACK: [u8; 32] = [
    0x33, 0x31, 0x6e, 0x8a, 0x59, 0x88, 0x09, 0xc6, 0xfc, 0xe8, 0xca, 0x79, 0x63, 0xd8, 0x26, 0x6d,
    0xff, 0xff, 0xff, 0xff, 0xff, 0xff, 0xff, 0xff, 0xff, 0xff, 0xff, 0xff, 0xff, 0xff, 0xff, 0xff,
];

// A block enciphered by any engine, and that deciphered.
fn there_and_back<E: Engine>(engine: &E, block: [u8; 16]) -> Option<([u8; 16], [u8; 16])> {
    let mut run = block;
    engine.encipher(&mut run).ok()?;
    let there = run;
    engine.decipher(&mut run).ok()?;
    Some((there, run))
}

#[test]
fn whitening(rt: HostRuntime) -> anyhow::Result<()> {
    let engine = Whitening::new(Plain::<Narrow>::fill(1, &KEY)?, [0x0f; 32], [0xf0; 32]);
    assert_eq!(rt;
        there_and_back(&engine, LOW_TURNED),
        Some((HIGH_TURNED, LOW_TURNED))
    );
    Ok(())
}

// The inner engine gives the plaintext back, so the two in turn encipher it once. In the other order they would not.
#[test]
fn cascade(rt: HostRuntime) -> anyhow::Result<()> {
    let engine = Plain::<Narrow>::fill(1, &KEY)?;
    let inner = Whitening::new(engine, [0; 32], BACK);
    let outer = Whitening::new(engine, [0; 32], [0; 32]);
    let stack = Cascade::new(outer, inner);
    assert_eq!(rt;
        there_and_back(&stack, PLAINTEXT),
        Some((CIPHERTEXT, PLAINTEXT))
    );
    Ok(())
}

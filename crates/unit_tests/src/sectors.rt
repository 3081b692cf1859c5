use crate::same::same;
use cipher_laws::{block_at, number_block, put_block, xor};

#[test]
fn a_block_goes_out_and_back(rt: HostRuntime) {
    let mut sector = [7u8; 48];
    let block = number_block(0x0102_0304_0506_0708);
    put_block(&mut sector, 16, &block);
    same(&rt, block_at(&sector, 0), [7; 16]);
    same(
        &rt,
        block_at(&sector, 16),
        [8, 7, 6, 5, 4, 3, 2, 1, 0, 0, 0, 0, 0, 0, 0, 0],
    );
    same(&rt, block_at(&sector, 32), [7; 16]);
}

#[test]
fn xor_adds_bits(rt: HostRuntime) {
    let sum = xor(&[0b1100; 16], &[0b1010; 16]);
    same(&rt, sum, [0b0110; 16]);
}

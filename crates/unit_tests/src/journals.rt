use crate::same::same;
use base_terms::Judged;
use resil_journal::{capacity, judge, save, saved_len};

#[test]
fn a_zone_has_a_block_for_each_whole_atom(rt: HostRuntime) {
    let blocks = [
        capacity(1_048_576, 4096),
        capacity(1_048_576, 512),
        capacity(8191, 4096),
        capacity(4095, 4096),
        capacity(0, 512),
    ];
    same(&rt, blocks, [256, 2048, 1, 0, 0]);
}

#[test]
fn old_atoms_are_saved_as_they_are(rt: HostRuntime) {
    same(&rt, saved_len(256, 4096), 1_048_576);
    let mut out = [0; 8];
    save(b"old atom", &mut out);
    same(&rt, out, *b"old atom");
    same(&rt, judge(), Judged::FromSave);
}

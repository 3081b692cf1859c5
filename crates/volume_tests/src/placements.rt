ghost use Rattle.reenc_meta.specs.Placements.{all_atoms};
ghost use Rattle.sector_disk.specs.Geometry.{IsDisk};

use crate::same::same;
use base_terms::Sizes;
use luks_json::JsonText;
use luks_meta::Meta;
use luks_rules::check;
use reenc_meta::place_idle;
use std::alloc::{AllocError, Global};

/// A volume whose segment begins at 16 MiB and goes to the disk's end.
const IDLE: &str =
    r#"{"config":{"json_size":"12288","keyslots_size":"16744448"},"digests":{"0":{"digest":"ZGlnZXN0","hash":"sha256","iterations":1000,"keyslots":[],"salt":"c2FsdA==","segments":["0"],"type":"pbkdf2"}},"keyslots":{},"segments":{"0":{"encryption":"aes-xts-plain64","iv_tweak":"0","offset":"16777216","sector_size":512,"size":"dynamic","type":"crypt"}},"tokens":{}}"#;

/// The same, of which nothing is converted yet.
const BEGUN: &str =
    r#"{"config":{"json_size":"12288","keyslots_size":"16744448","requirements":{"mandatory":["reencd-online-reencrypt-v1"]}},"digests":{"0":{"digest":"ZGlnZXN0","hash":"sha256","iterations":1000,"keyslots":[],"salt":"c2FsdA==","segments":["0","1"],"type":"pbkdf2"},"1":{"digest":"ZGlnZXN0","hash":"sha256","iterations":1000,"keyslots":[],"salt":"c2FsdA==","segments":["2"],"type":"pbkdf2"}},"keyslots":{"2":{"area":{"offset":"290816","size":"4096","type":"journal"},"direction":"forward","key_size":1,"mode":"reencrypt","type":"reencrypt"}},"segments":{"0":{"encryption":"aes-xts-plain64","iv_tweak":"0","offset":"16777216","sector_size":512,"size":"16777216","type":"crypt"},"1":{"encryption":"aes-xts-plain64","flags":["backup-previous"],"iv_tweak":"0","offset":"16777216","sector_size":512,"size":"dynamic","type":"crypt"},"2":{"encryption":"aes-xts-plain64","flags":["backup-final"],"iv_tweak":"0","offset":"16777216","sector_size":4096,"size":"dynamic","type":"crypt"}},"tokens":{}}"#;

const ATTACHED: Sizes = Sizes {
    atom: 4096,
    header_atoms: 8192,
    main_atoms: 8192,
    detached: false,
};

/// Blocks, the boundary, and the place of block 0 on either side.
fn place(alloc: Global, text: &str, sizes: Sizes) -> Result<Option<[u64; 4]>, AllocError>
    requires { IsDisk sizes.atom (all_atoms sizes) }
{
    let Ok(meta) = Meta::read(alloc, text.as_bytes(), 16384) else {
        return Err(AllocError);
    };
    let Ok(valid) = check(alloc, meta, sizes) else {
        return Err(AllocError);
    };
    let placed = place_idle(&valid);
    drop(valid);
    match placed {
        Some(placement) => {
            let map = placement.map;
            Ok(Some([map.blocks, map.boundary, map.old_place, map.new_place]))
        }
        None => Ok(None),
    }
}

#[test]
fn blocks_lie_behind_the_header_or_behind_its_disk(rt: HostRuntime) {
    let alloc = rt.alloc();
    same(
        &rt,
        place(alloc, IDLE, ATTACHED),
        Ok(Some([4096, 4096, 4096, 4096])),
    );
    let small = Sizes {
        atom: 512,
        header_atoms: 65536,
        main_atoms: 65536,
        detached: false,
    };
    same(
        &rt,
        place(alloc, IDLE, small),
        Ok(Some([32768, 32768, 32768, 32768])),
    );
    let detached = Sizes {
        atom: 4096,
        header_atoms: 5000,
        main_atoms: 8192,
        detached: true,
    };
    same(
        &rt,
        place(alloc, IDLE, detached),
        Ok(Some([4096, 4096, 9096, 9096])),
    );
}

#[test]
fn a_conversion_is_no_idle_volume(rt: HostRuntime) {
    same(&rt, place(rt.alloc(), BEGUN, ATTACHED), Ok(None));
}

// Where the areas of a conversion come to lie, and what stands in its way.

ghost use Rattle.std.specs.Prelude.{◌≡◌};
ghost use Rattle.luks_init.specs.Wishes.{IsWish};

use crate::same::same;
use base_terms::{Sizes, zeros};
use luks_init::{Begun, Guard, InitFault, Places, Wish, begin};
use luks_json::JsonText;
use luks_meta::{Cipher, Direction, Meta};
use luks_rules::check;
use luks_slots::{drawn_len, split_drawn};
use std::alloc::{AllocError, Global};

/// A volume whose segment begins at 16 MiB and goes to the disk's end, with a keyslot of another
/// program from byte 98304 on.
const IDLE: &str =
    r#"{"config":{"json_size":"12288","keyslots_size":"16744448"},"digests":{"0":{"digest":"ZGlnZXN0","hash":"sha256","iterations":1000,"keyslots":[],"salt":"c2FsdA==","segments":["0"],"type":"pbkdf2"}},"keyslots":{"0":{"area":{"offset":"98304","size":"65536","type":"raw"},"type":"other"}},"segments":{"0":{"encryption":"aes-xts-plain64","iv_tweak":"0","offset":"16777216","sector_size":512,"size":"dynamic","type":"crypt"}},"tokens":{}}"#;

/// One with room for the new keyslot's area and a page besides.
const SMALL: &str =
    r#"{"config":{"json_size":"12288","keyslots_size":"200704"},"digests":{"0":{"digest":"ZGlnZXN0","hash":"sha256","iterations":1000,"keyslots":[],"salt":"c2FsdA==","segments":["0"],"type":"pbkdf2"}},"keyslots":{"0":{"area":{"offset":"32768","size":"65536","type":"raw"},"type":"other"}},"segments":{"0":{"encryption":"aes-xts-plain64","iv_tweak":"0","offset":"16777216","sector_size":512,"size":"dynamic","type":"crypt"}},"tokens":{}}"#;

/// One that isn't encrypted.
const LINEAR: &str =
    r#"{"config":{"json_size":"12288","keyslots_size":"16744448"},"digests":{},"keyslots":{},"segments":{"0":{"offset":"16777216","size":"dynamic","type":"linear"}},"tokens":{}}"#;

/// One of which a conversion has begun.
const BEGUN: &str =
    r#"{"config":{"json_size":"12288","keyslots_size":"16744448","requirements":{"mandatory":["reencd-online-reencrypt-v1"]}},"digests":{"0":{"digest":"ZGlnZXN0","hash":"sha256","iterations":1000,"keyslots":[],"salt":"c2FsdA==","segments":["0","1"],"type":"pbkdf2"},"1":{"digest":"ZGlnZXN0","hash":"sha256","iterations":1000,"keyslots":[],"salt":"c2FsdA==","segments":["2"],"type":"pbkdf2"}},"keyslots":{"2":{"area":{"offset":"290816","size":"4096","type":"journal"},"direction":"forward","key_size":1,"mode":"reencrypt","type":"reencrypt"}},"segments":{"0":{"encryption":"aes-xts-plain64","iv_tweak":"0","offset":"16777216","sector_size":512,"size":"16777216","type":"crypt"},"1":{"encryption":"aes-xts-plain64","flags":["backup-previous"],"iv_tweak":"0","offset":"16777216","sector_size":512,"size":"dynamic","type":"crypt"},"2":{"encryption":"aes-xts-plain64","flags":["backup-final"],"iv_tweak":"0","offset":"16777216","sector_size":4096,"size":"dynamic","type":"crypt"}},"tokens":{}}"#;

const SIZES: Sizes = Sizes {
    atom: 4096,
    header_atoms: 8192,
    main_atoms: 8192,
    detached: false,
};

fn wish(resilience: Guard) -> Wish
    ensures wish { IsWish result 4096 }
    ensures size { result.key_size ≡ 32 }
{
    Wish {
        cipher: Cipher::AesXtsPlain64,
        key_size: 32,
        sector_size: 4096,
        iterations: 1000,
        direction: Direction::Forward,
        resilience,
        hotzone_size: 65536,
        drop_keyslots: false,
    }
}

/// Where the areas of a conversion of this header come to lie, or what stands in its way.
fn begun(
    alloc: Global,
    text: &str,
    resilience: Guard,
    pass: &[u8],
) -> Result<Result<Places, InitFault>, AllocError> {
    let Ok(meta) = Meta::read(alloc, text.as_bytes(), 16384) else {
        return Err(AllocError);
    };
    let Ok(valid) = check(alloc, meta, SIZES) else {
        return Err(AllocError);
    };
    let bytes = zeros(alloc, drawn_len(32))?;
    let (drawn, _) = split_drawn(32, bytes.as_slice());
    let begun = begin(alloc, &valid, &wish(resilience), pass, drawn);
    drop(valid);
    match begun {
        Ok(begun) => Ok(Ok(places_of(begun))),
        Err(fault) => Ok(Err(fault)),
    }
}

fn places_of(begun: Begun) -> Places {
    let places = begun.places;
    drop(begun);
    places
}

#[test]
fn areas_take_the_lowest_places(rt: HostRuntime) {
    let alloc = rt.alloc();
    let places = Places {
        key: 163_840,
        guard: 32_768,
    };
    let found = begun(alloc, IDLE, Guard::Journal, b"word");
    same(&rt, found, Ok(Ok(places)));
    let places = Places {
        key: 98_304,
        guard: 229_376,
    };
    let found = begun(alloc, SMALL, Guard::Checksum, b"word");
    same(&rt, found, Ok(Ok(places)));
}

#[test]
fn faults_come_in_their_order(rt: HostRuntime) {
    let alloc = rt.alloc();
    let found = begun(alloc, BEGUN, Guard::Journal, b"");
    same(&rt, found, Ok(Err(InitFault::InProgress)));
    let found = begun(alloc, LINEAR, Guard::Journal, b"");
    same(&rt, found, Ok(Err(InitFault::Linear)));
    let found = begun(alloc, SMALL, Guard::Journal, b"");
    same(&rt, found, Ok(Err(InitFault::Passphrase { len: 0 })));
    let found = begun(alloc, SMALL, Guard::Journal, b"word");
    let area = InitFault::Area {
        wanted: 65_536,
        gap: 4096,
    };
    same(&rt, found, Ok(Err(area)));
}

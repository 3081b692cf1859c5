// A new volume's drawn bytes, identifier and metadata, beside another implementation.

ghost use Rattle.std.specs.Prelude.{◌≡◌, length, IfOk};
ghost use Rattle.luks_format.specs.Drawings.{drawn_len};
ghost use Rattle.luks_format.specs.Wishes.{IsWish};

use crate::same::same;
use base_terms::{Bytes, zeros};
use luks_format::{Wish, drawn_len, identifier_field, identifier_for, make_meta, split_drawn};
use luks_json::JsonText;
use luks_meta::Cipher;
use sha2::{Digest, Sha256};
use std::alloc::{AllocError, Global};
use std::process::Abort;
use std::test::Fail;
use uuid::Uuid;

// The SHA-256 of the texts that `hashlib`, `base64` and `json` of Python 3 make from the bytes of
// `draw`, spent in the stated order: 731 and 735 bytes.
const XTS_DIGEST: &str = "9039b44ba5ec29c6b44d4f15c8dbf0f2afd75edeec60ab22df3b79c801691e90";

const CBC_DIGEST: &str = "e7265abdb3b4e86c9a794b309cf9b7d8b331f8f8f4e8fc08cc0b827addf81c65";

// An identifier that is given, and the fields of it and of the one that Python's `uuid` makes of
// the drawn bytes.
const GIVEN: &str = "12345678-1234-4234-8234-123456789ABC";

const GIVEN_FIELD: [u8; 40] = *b"12345678-1234-4234-8234-123456789abc\0\0\0\0";

const RANDOM_FIELD: [u8; 40] = *b"83048e2b-d18a-4126-89f5-f406214a81c6\0\0\0\0";

#[tactic(auto, unfolding(luks_bin::specs::Fields::is_size))]
fn xts_wish() -> Wish
    ensures { IsWish result }
{
    Wish {
        cipher: Cipher::AesXtsPlain64,
        key_size: 64,
        sector_size: 512,
        data_offset: 16_777_216,
        iterations: 1000,
        metadata_size: 16384,
        identifier: None,
        detached: false,
    }
}

// Its keyslot's area ends where its data begins.
#[tactic(auto, unfolding(luks_bin::specs::Fields::is_size))]
fn cbc_wish(identifier: Uuid) -> Wish
    ensures { IsWish result }
{
    Wish {
        cipher: Cipher::AesCbcEssivSha256,
        key_size: 16,
        sector_size: 4096,
        data_offset: 98304,
        iterations: 268_435_456,
        metadata_size: 16384,
        identifier: Some(identifier),
        detached: false,
    }
}

// Its header has a disk of its own, and its data begins at byte 0 of another.
#[tactic(auto, unfolding(luks_bin::specs::Fields::is_size))]
fn detached_wish(large: bool) -> Wish
    ensures { IsWish result }
{
    Wish {
        cipher: Cipher::AesXtsPlain64,
        key_size: 64,
        sector_size: 4096,
        data_offset: 0,
        iterations: 1000,
        metadata_size: if large { 4_194_304 } else { 16384 },
        identifier: None,
        detached: true,
    }
}

// Byte i is 7 i² + 3 i + 1, modulo 251.
fn draw(bytes: &mut [u8])
    ensures { length bytes.new ≡ length bytes.old }
{
    for i in 0..bytes.len() {
        let k = i % 251;
        bytes[i] = ((k * k * 7 + k * 3 + 1) % 251) as u8;
    }
}

// The drawn bytes of a new volume, as many as are wished for.
fn draw_for(alloc: Global, wish: &Wish) -> Result<Vec<u8>, AllocError>
    requires { IsWish wish.now }
    ensures { IfOk result (λ bytes. length bytes.items ≡ drawn_len wish.now) }
{
    let mut bytes = zeros(alloc, drawn_len(wish))?;
    draw(bytes.as_mut_slice());
    Ok(bytes)
}

// The text of a new volume's metadata.
fn text_of(alloc: Global, wish: &Wish) -> Result<Bytes, AllocError>
    requires { IsWish wish.now }
{
    let bytes = draw_for(alloc, wish)?;
    let drawn = split_drawn(wish, bytes.as_slice());
    let meta = make_meta(alloc, wish, &drawn)?;
    let text = meta.write(alloc);
    drop(meta);
    text
}

// Asserts that the digest of that text has these hexadecimal digits.
fn has_digest<R: Abort>(rt: &R, alloc: Global, wish: &Wish, digits: &str) -> Result<(), AllocError>
    requires { IsWish wish.now }
{
    let text = text_of(alloc, wish)?;
    let found = hex::encode(alloc, &Sha256::digest(text.as_slice()))?;
    same(rt, found.as_str(), digits);
    Ok(())
}

// The field of a new volume's identifier.
fn field(alloc: Global, wish: &Wish) -> Result<[u8; 40], AllocError>
    requires { IsWish wish.now }
{
    let bytes = draw_for(alloc, wish)?;
    let drawn = split_drawn(wish, bytes.as_slice());
    Ok(identifier_field(identifier_for(wish, drawn.identifier)))
}

#[test]
fn random_volume_is_that_of_another_implementation(rt: HostRuntime) -> Result<(), AllocError> {
    let wish = xts_wish();
    same(&rt, drawn_len(&wish), 256_208);
    same(&rt, field(rt.alloc(), &wish), Ok(RANDOM_FIELD));
    has_digest(&rt, rt.alloc(), &wish, XTS_DIGEST)
}

#[test]
fn named_volume_is_that_of_another_implementation(rt: HostRuntime) -> Result<(), Fail> {
    let Ok(given) = Uuid::parse_str(GIVEN) else {
        return Err(Fail::new("no identifier"));
    };
    let wish = cbc_wish(given);
    same(&rt, drawn_len(&wish), 64_192);
    same(&rt, field(rt.alloc(), &wish), Ok(GIVEN_FIELD));
    has_digest(&rt, rt.alloc(), &wish, CBC_DIGEST)?;
    Ok(())
}

#[test]
fn detached_keyslots_end_at_sixteen_mebibytes(rt: HostRuntime) {
    same(&rt, detached_wish(false).keyslots_size(), 16_744_448);
    same(&rt, detached_wish(true).keyslots_size(), 8_388_608);
}

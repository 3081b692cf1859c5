// What the objects of the format, and their whole, are read as, in plain words: laws, with nothing
// to run. An object is read as a value exactly where its members have these forms, whatever its
// path; so is the whole.

ghost use Rattle.std.specs.Prelude.{◌≡◌, ◌↔◌, ℕ, List, Ok};
ghost use Rattle.serde_json.specs.Data.{Data, Members};
ghost use Rattle.luks_meta.specs.declared.config.Config.{Config as config};
ghost use Rattle.luks_meta.specs.declared.digest.Digest.{Digest as digest};
ghost use Rattle.luks_meta.specs.declared.keyslot.Keyslot.{Keyslot as keyslot};
ghost use Rattle.luks_meta.specs.declared.keyslot.Origin.{Origin as origin_type};
ghost use Rattle.luks_meta.specs.declared.meta.Parts.{Parts as parts_type};
ghost use Rattle.luks_meta.specs.declared.segment.Segment.{Segment as segment};
ghost use Rattle.luks_json.specs.Configs.{config_of, HasConfig};
ghost use Rattle.luks_json.specs.Digests.{digest_of, HasDigest};
ghost use Rattle.luks_json.specs.Keyslots.{keyslot_of, HasKeyslot};
ghost use Rattle.luks_json.specs.MetaForms.{HasMeta};
ghost use Rattle.luks_json.specs.Metas.{meta_of};
ghost use Rattle.luks_json.specs.Segments.{segment_of, HasSegment};

/// Keyslots, segments, digests and the config are read by the forms of their members.
pub fn objects_are_read_by_form()
    ensures keyslots { (origin : origin_type) (path : List ℕ) (ms : Members) (slot : keyslot)
        → (keyslot_of origin path ms ≡ Ok slot) ↔ (HasKeyslot origin ms slot) }
    ensures segments { (path : List ℕ) (ms : Members) (s : segment)
        → (segment_of path ms ≡ Ok s) ↔ (HasSegment ms s) }
    ensures digests { (path : List ℕ) (ms : Members) (d : digest)
        → (digest_of path ms ≡ Ok d) ↔ (HasDigest ms d) }
    ensures config { (hdr_size : ℕ) (path : List ℕ) (ms : Members) (c : config)
        → (config_of hdr_size path ms ≡ Ok c) ↔ (HasConfig hdr_size ms c) }
{}

/// The whole is read by its form: five objects, of which four are maps of objects by numbers, each
/// of its form; and no number in it but whole ones of 64 bits.
pub fn metadata_are_read_by_form()
    ensures { (hdr_size : ℕ) (d : Data) (m : parts_type)
        → (meta_of hdr_size d ≡ Ok m) ↔ (HasMeta hdr_size d m) }
{}

// A law of the keys of sides, with nothing to run.

ghost use Rattle.image_laws.specs.Sides.Keys.{SidesGiveTheirKeys, SidesHaveOneKey};

/// Where two headers tell the same of a side its segment lies at the same place and is encrypted the
/// same by both, and a key is one of its digest by the one exactly where it is by the other. Where
/// besides both break no rule, and two images hold the same in the areas of the keyslots that give its
/// key, these give the same key to each passphrase, by the one header from the one image and by the
/// other from the other.
pub fn sides_give_their_keys()
    ensures keys { SidesHaveOneKey }
    ensures given { SidesGiveTheirKeys }
{}

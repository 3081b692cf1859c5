// What follows for the key of a passphrase.

ghost use Rattle.luks_slots.specs.Laws.{KeysAreBehind, KeysAreInAreas};

/// A law, with nothing to run: of a header that breaks no rule the key of a passphrase is read from
/// behind the copies of the header. Disks that are the same from there on give the same one.
pub fn keys_are_behind_headers()
    ensures { KeysAreBehind }
{}

/// A law, with nothing to run: it is read from the keyslots area alone. Disks of whole atoms that
/// are the same there give the same one, whatever clients write behind it.
pub fn keys_are_in_areas()
    ensures { KeysAreInAreas }
{}

// What follows for the areas of a conversion: a law, with nothing to run.

ghost use Rattle.luks_init.specs.Laws.{MayStartThere};

/// A header that breaks no rule, whose volume is encrypted and not being converted, has room for a
/// conversion whose areas lie at the lowest places: they share no byte with each other or with
/// those of its keyslots, lie in the keyslots area in whole atoms, and guard at least one block.
pub fn begun_conversions_may_start()
    ensures { MayStartThere }
{}

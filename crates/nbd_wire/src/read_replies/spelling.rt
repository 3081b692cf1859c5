ghost use Rattle.std.specs.Prelude.{◌≡◌, ◌++◌, ◌<◌, ◌^◌, Bool, List, ℕ};
ghost use Rattle.nbd_wire.specs.ReadReplying.Parts.{AreHeld, Part, parts_text};
ghost use Rattle.nbd_wire.specs.ReadReplying.Replies.{Answer, IsAnswer, IsDoneOnce, Spell, chunks_of};

/// A law, with nothing to run: the chunks of an answer spell it, with numbers in their ranges where
/// those of the answer are, and chunks spell one answer alone.
pub fn chunks_spell_the_reply()
    ensures laid_out { (whole : Bool) (offset : ℕ) (answer : Answer)
        → Spell offset (chunks_of whole offset answer) answer }
    ensures fit { (whole : Bool) (offset : ℕ) (answer : Answer) → IsAnswer offset answer
        → AreHeld (chunks_of whole offset answer) }
    ensures once { (offset : ℕ) (parts : List Part) (a b : Answer) → Spell offset parts a
        → Spell offset parts b → a ≡ b }
{}

/// A law, with nothing to run: in bytes that begin with a reply's chunks, these chunks and what is
/// behind them are told apart in one way alone.
pub fn replies_are_told_apart()
    ensures { (cookie : ℕ) (xs ys : List Part) (r s : List ℕ) → cookie < 2 ^ 64 → AreHeld xs
        → AreHeld ys → IsDoneOnce xs → IsDoneOnce ys
        → parts_text cookie xs ++ r ≡ parts_text cookie ys ++ s → (xs ≡ ys) × (r ≡ s) }
{}

// MixColumns and InvMixColumns on planes (FIPS 197, sections 5.1.3 and 5.3.3).

ghost use Rattle.std.specs.Prelude.{◌≡◌, ℕ};
ghost use Rattle.aes_core.specs.State.{mix_columns, inverse_mix_columns};
ghost use Rattle.aes_core.specs.Planes.{state_in};

use crate::planes::Planes;

#[inline(always)]
pub(crate) fn mix_columns(state: Planes) -> Planes
    ensures { (k : ℕ) → state_in k result ≡ mix_columns (state_in k state) }
{
    let above = state.up_one();
    let pairs = state ^ above;
    pairs.times_x() ^ above ^ pairs.up_two()
}

// The word that InvMixColumns multiplies by is MixColumns' word times the word 5, 0, 4, 0.
#[inline(always)]
pub(crate) fn inverse_mix_columns(state: Planes) -> Planes
    ensures { (k : ℕ) → state_in k result ≡ inverse_mix_columns (state_in k state) }
{
    let opposite = state ^ state.up_two();
    mix_columns(state ^ opposite.times_x().times_x())
}

ghost use Rattle.std.specs.Prelude.{◌≡◌, ◌≤◌, length};
ghost use Rattle.luks_bin.specs.Copies.{text_of, up_to_nul};

/// The bytes in front of the first NUL, or all.
fn before_nul(area: &[u8]) -> &[u8]
    ensures { result.now ≡ up_to_nul area.now }
{
    for end in 0..area.len() {
        if area[end] == 0 {
            return &area[..end];
        }
    }
    area
}

/// The text of a whole copy's JSON area: it ends before the area's first NUL, or with the area
/// (section 2.2). What stands behind the NUL isn't looked at.
#[tactic(auto, unfolding(crate::specs::Copies::text_of))]
pub fn json_text(copy: &[u8]) -> &[u8]
    requires { 4096 ≤ length copy.now }
    ensures { result.now ≡ text_of copy.now }
{
    let (_, area) = copy.split_at(4096);
    before_nul(area)
}

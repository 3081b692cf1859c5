ghost use Rattle.std.specs.Prelude.{◌≡◌, ◌↔◌, length, IsTrue, MatchOption};
ghost use Rattle.luks_bin.specs.Shares.{Agree, DifferFirst, IsShared};

/// Whether copies share the byte at a place: it is in none of magic, salt, hdr_offset and csum.
fn is_shared(at: usize) -> bool
    ensures { IsTrue result ↔ IsShared at }
{
    (6 <= at && at < 104) || (168 <= at && at < 256) || (264 <= at && at < 448) || 512 <= at
}

/// The first place at which two whole copies of one size differ, outside magic, salt, hdr_offset
/// and csum, which each copy has for itself.
#[tactic(auto, unfolding(crate::specs::Shares::Agree))]
pub fn first_difference(a: &[u8], b: &[u8]) -> Option<usize>
    requires { length a.now ≡ length b.now }
    ensures { MatchOption result (Agree a.now b.now) (DifferFirst a.now b.now) }
{
    for at in 0..a.len() {
        if is_shared(at) && a[at] != b[at] {
            return Some(at);
        }
    }
    None
}

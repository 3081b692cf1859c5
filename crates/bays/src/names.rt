ghost use Rattle.std.specs.Prelude.{◌≡◌, is_some, IfSome};
ghost use Rattle.bays.specs.Names.{StandsAt, named};

/// Where the first entry of that name stands.
pub(crate) fn find_name<T>(entries: &[(String, T)], name: &str) -> Option<usize>
    ensures variant { is_some result ≡ is_some (named name.now entries.now) }
    ensures stands { IfSome result (λ i. StandsAt name.now entries.now i) }
{
    for i in 0..entries.len() {
        if entries[i].0.as_str() == name {
            return Some(i);
        }
    }
    None
}

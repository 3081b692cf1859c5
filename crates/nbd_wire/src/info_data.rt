ghost use Rattle.std.specs.Prelude.{◌≡◌, ◌+◌, ◌<◌, ◌≤◌, ◌^◌, ℕ, List, length, MatchOption, IfSome};
ghost use Rattle.std.specs.Prelude.{Some, None};
ghost use Rattle.nbd_wire.specs.InfoData.{IsInfoData, info_data_text, info_name};

use crate::parts::put;

/// The data of INFO and GO ("NBD_OPT_INFO and NBD_OPT_GO"): the name of an export, and the types of
/// information that the client asks for, of two bytes each.
#[derive(Clone, Copy)]
pub struct InfoData<'a> {
    pub name: &'a [u8],
    pub types: &'a [u8],
}

impl<'a> InfoData<'a> {
    /// The data that these bytes spell: a u32 length, the name, a u16 count, and so many types.
    /// None where they aren't exactly this.
    pub fn read(bytes: &'a [u8]) -> Option<InfoData<'a>>
        ensures name { MatchOption result (info_name bytes.now ≡ None)
            (λ asked. info_name bytes.now ≡ Some asked.name.now) }
        ensures taken { IfSome result (λ asked. IsInfoData asked.name.now asked.types.now
            × (info_data_text asked.name.now asked.types.now ≡ bytes.now)) }
        ensures only { (name types : List ℕ) → IsInfoData name types
            → info_data_text name types ≡ bytes.now
            → MatchOption result ⊥ (λ asked. (asked.name.now ≡ name) × (asked.types.now ≡ types)) }
    {
        match info_name(bytes) {
            None => None,
            Some(name) => Some(InfoData {
                name,
                types: &bytes[6 + name.len()..],
            }),
        }
    }

    /// Writes the data over a buffer of just its length.
    pub fn write(&self, bytes: &mut [u8])
        requires asked { IsInfoData self.now.name.now self.now.types.now }
        requires room { length bytes.old
            ≡ 6 + length self.now.name.now + length self.now.types.now }
        ensures { bytes.new ≡ info_data_text self.now.name.now self.now.types.now }
    {
        let length = self.name.len();
        let count = self.types.len() / 2;
        put(bytes, 0, &(length as u32).to_be_bytes());
        put(bytes, 4, self.name);
        put(bytes, 4 + length, &(count as u16).to_be_bytes());
        put(bytes, 6 + length, self.types);
    }
}

/// The name in the data of INFO or GO.
#[tactic(auto, unfolding(crate::specs::InfoData::info_name))]
fn info_name(body: &[u8]) -> Option<&[u8]>
    ensures is { MatchOption result (info_name body.now ≡ None)
        (λ name. info_name body.now ≡ Some name.now) }
    ensures fits { IfSome result
        (λ name. (length name.now < 2 ^ 32) × (6 + length name.now ≤ length body.now)) }
{
    if body.len() < 6 {
        return None;
    }
    let length = u32::from_be_bytes([body[0], body[1], body[2], body[3]]) as usize;
    if body.len() < 6 + length {
        return None;
    }
    let types = u16::from_be_bytes([body[4 + length], body[5 + length]]) as usize;
    if body.len() != 6 + length + 2 * types {
        return None;
    }
    Some(&body[4..4 + length])
}

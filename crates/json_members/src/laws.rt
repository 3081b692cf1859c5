// Laws of the definitions by which members are read, with nothing to run.

ghost use Rattle.std.specs.Prelude.{◌≡◌, ◌↔◌, ℕ, List, Some, None, Ok, Bool, true, false};
ghost use Rattle.std.specs.Str.{bytes_eq};
ghost use Rattle.serde_json.specs.Data.{Data, Members, put};
ghost use Rattle.serde_json.specs.Find.{get_member};
ghost use Rattle.json_members.specs.Fields.{text_in, number_in, decimal_in, bytes_in, object_in};
ghost use Rattle.json_members.specs.Fields.{texts_in, decimals_in};
ghost use Rattle.json_members.specs.Forms.{HasText, HasNumber, HasDecimal, HasBytes, HasObject};
ghost use Rattle.json_members.specs.Forms.{HasTexts, HasDecimals};
ghost use Rattle.json_members.specs.Members.{without};

/// What each kind of member is read as, in plain words: a value is read exactly where the member
/// has that form, whatever the path.
pub fn members_are_read_by_form()
    ensures text { (path : List ℕ) (name : List ℕ) (ms : Members) (s : List ℕ)
        → (text_in path name ms ≡ Ok s) ↔ (HasText name s ms) }
    ensures number { (path : List ℕ) (name : List ℕ) (ms : Members) (n : ℕ)
        → (number_in path name ms ≡ Ok n) ↔ (HasNumber name n ms) }
    ensures decimal { (path : List ℕ) (name : List ℕ) (ms : Members) (n : ℕ)
        → (decimal_in path name ms ≡ Ok n) ↔ (HasDecimal name n ms) }
    ensures bytes { (path : List ℕ) (name : List ℕ) (ms : Members) (bs : List ℕ)
        → (bytes_in path name ms ≡ Ok bs) ↔ (HasBytes name bs ms) }
    ensures object { (path : List ℕ) (name : List ℕ) (ms : Members) (inner : Members)
        → (object_in path name ms ≡ Ok inner) ↔ (HasObject name inner ms) }
    ensures texts { (path : List ℕ) (name : List ℕ) (ms : Members) (ss : List (List ℕ))
        → (texts_in path name ms ≡ Ok ss) ↔ (HasTexts name ss ms) }
    ensures decimals { (path : List ℕ) (name : List ℕ) (ms : Members) (ns : List ℕ)
        → (decimals_in path name ms ≡ Ok ns) ↔ (HasDecimals name ns ms) }
{}

/// Members that are taken away are gone, and all others are kept.
pub fn other_members_are_kept()
    ensures gone { (name : List ℕ) (ms : Members) → get_member name (without name ms) ≡ None }
    ensures kept { (name : List ℕ) (other : List ℕ) (ms : Members) → bytes_eq other name ≡ false
        → get_member other (without name ms) ≡ get_member other ms }
{}

/// A member that is put is found with its value, and all others are kept.
pub fn put_members_are_found()
    ensures found { (name : List ℕ) (d : Data) (ms : Members)
        → get_member name (put name d ms) ≡ Some d }
    ensures kept { (name : List ℕ) (other : List ℕ) (d : Data) (ms : Members) → (other ≡ name → ⊥)
        → get_member other (put name d ms) ≡ get_member other ms }
{}

ghost use Rattle.nbd_session.specs.Reading.{ReadsOnce};

use nbd_wire::texts_are_unique;

/// A law: an input is read in one way. Where two sessions took their bytes from the front of one
/// input, and neither a fault nor want of memory nor a spent port ended them, they came equally
/// far, had the same flags and options, were asked the same under the same cookies, ended in the
/// same way and took the same bytes. So the requests and the ending of an input are functions of
/// its bytes.
pub fn reading_is_unique()
    ensures { ReadsOnce }
{
    texts_are_unique();
}

// Laws of a new keyslot, with nothing to run.

ghost use Rattle.luks_store.specs.SlotCommits.Promises.{EndsKept, KeepsHeaders, KeepsSizes};

use crate::header_copies::{calls_are_seen, copies_are_read};
use crate::{commits_begin, headers_stand_in_front, metadata_go_by_meaning};
use crash_laws::{commits_keep_headers, images_are_taken};

/// On a disk that holds its bytes for certain, and in them both copies of the header to which a
/// keyslot's commit is the next: each image of each table that the disk tells since, in which no
/// torn copy of a header is valid and none stands in front of the second one, holds the metadata
/// from before, or it holds the next ones and the keyslot's area stands; and behind both copies it
/// agrees with those bytes but for that area. Where all calls succeeded the disk holds the next
/// header for certain, and the area stands. Its sizes stay in any case.
pub fn slot_commits_keep_headers()
    ensures sizes { KeepsSizes }
    ensures keeps { KeepsHeaders }
    ensures ends { EndsKept }
{
    copies_are_read();
    calls_are_seen();
    images_are_taken();
    commits_keep_headers();
    commits_begin();
    metadata_go_by_meaning();
    headers_stand_in_front();
}

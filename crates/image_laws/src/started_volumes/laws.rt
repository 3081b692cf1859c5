// Laws of volumes with which a conversion begins, with nothing to run.

ghost use Rattle.image_laws.specs.Started.Gaps.{AtomsAgree, FrontsKeepContents, FrontsLeaveAgreed};
ghost use Rattle.image_laws.specs.Started.Gaps.{GapsSpareKeys, GuardsSpareKeys, RunsKeepContents};
ghost use Rattle.image_laws.specs.Started.Starting.{StartedVolumesStand};

/// When images are the same from a byte on but for a run of bytes: where they have the same atoms
/// but for those of the run, whatever is in these; and so they are after what is written in front
/// of the byte, as the copies of a header are.
pub fn images_agree_but_for_a_run()
    ensures atoms { AtomsAgree }
    ensures fronts { FrontsLeaveAgreed }
{}

/// A run of bytes in the keyslots area that is in no area with a key is part of no content: an
/// image that holds a header, and one that holds the same metadata and is the same from both copies
/// on but for the run, stand for the same, under the keys of their segments and under each
/// passphrase; so they do where they differ in front of the keyslots area alone. A run that is free
/// is in no such area, nor is one of the area that guards a conversion's zones.
pub fn gaps_keep_contents()
    ensures keeps { RunsKeepContents }
    ensures fronts { FrontsKeepContents }
    ensures gaps { GapsSpareKeys }
    ensures guards { GuardsSpareKeys }
{}

/// An image that holds the metadata with which a volume begins to be encrypted anew, and in a gap
/// the bytes of the new keyslot, stands for what the volume stood for, under a passphrase that
/// opens both the volume and the new keyslot: all blocks are old, under the key that they had, and
/// the new key is the one of the keyslot.
pub fn started_volumes_stand()
    ensures { StartedVolumesStand }
{}

ghost use Rattle.std.specs.Prelude.{◌≡◌};
ghost use Rattle.nbd_wire.specs.InfoReplies.{info_replies_text, reply_head};
ghost use Rattle.nbd_wire.specs.OptionReplies.{option_reply_text};

use crate::parts::put;
use crate::{BlockSizes, ExportData, OptionReplyHead, OptionType, ReplyType};

/// The answer to INFO or GO where the export is there: a reply that tells the export, one that
/// tells the sizes of its blocks, and the acknowledgement.
#[derive(Clone, Copy, PartialEq, Eq)]
pub struct InfoReplies {
    /// INFO or GO, as it was asked.
    pub option: OptionType,
    pub export: ExportData,
    pub blocks: BlockSizes,
}

impl InfoReplies {
    /// The bytes of the three replies.
    #[tactic(auto, unfolding(crate::specs::InfoReplies::info_replies_text))]
    pub fn write(self) -> [u8; 86]
        ensures { result ≡ info_replies_text self }
    {
        let mut bytes = [0; 86];
        put(&mut bytes, 0, &self.head(ReplyType::Info, 12));
        put(&mut bytes, 20, &self.export.write_info());
        put(&mut bytes, 32, &self.head(ReplyType::Info, 14));
        put(&mut bytes, 52, &self.blocks.write_info());
        put(&mut bytes, 66, &self.head(ReplyType::Ack, 0));
        bytes
    }

    fn head(self, reply: ReplyType, length: u32) -> [u8; 20]
        ensures { result ≡ option_reply_text (reply_head self.option reply length) }
    {
        OptionReplyHead {
            option: self.option,
            reply,
            length,
        }
        .write()
    }
}

// What a client sends.

ghost use Rattle.std.specs.Prelude.{◌≡◌, ◌+◌, ◌*◌, ◌≤◌, ◌<◌, ◌^◌, ◌++◌, false, map, IfOk, OnOk};
ghost use Rattle.std.specs.List.{range_with_len};
ghost use Rattle.nbd_wire.specs.Fields.{u32_text};
ghost use Rattle.nbd_wire.specs.Requests.{request_text};
ghost use Rattle.demo_clients.specs.Inputs.{asking_text, go_text, head_of, input_asking};
ghost use Rattle.demo_clients.specs.Inputs.{parting_text, requests_text};
ghost use Rattle.demo_clients.specs.Operations.{operations_on, read_of, write_of};
ghost use Rattle.plain_disk.specs.declared.operation.Op.TheVariants.{Flush};

use crate::contents::{BLOCK, Share, put_block};
use nbd_wire::{ClientFlags, CommandFlags, CommandType, OptionHead, OptionType, RequestHead};
use std::alloc::{AllocError, Global};

/// The flags of a client that speaks the fixed newstyle protocol and wants no zeros.
const FLAGS: ClientFlags = ClientFlags { bits: 3 };

/// The data of GO: an empty name, and no request for information.
const GO_DATA: [u8; 6] = [0; 6];

/// What a client sends, as far as it is written, and the cookie of the next request.
#[derive(Drop)]
pub(crate) struct Sending {
    bytes: Vec<u8>,
    cookie: u64,
}

impl Sending {
    /// How every client begins: its flags, and GO.
    fn begin(alloc: Global) -> Result<Sending, AllocError>
        ensures bytes { IfOk result (λ sending. sending.bytes.items ≡ u32_text 3 ++ go_text) }
        ensures cookie { IfOk result (λ sending. sending.cookie ≡ 0) }
    {
        let option = OptionHead {
            option: OptionType::Go,
            length: GO_DATA.len() as u32,
        };
        let mut bytes = Vec::new(alloc);
        bytes.extend_from_slice(&FLAGS.write())?;
        bytes.extend_from_slice(&option.write())?;
        bytes.extend_from_slice(&GO_DATA)?;
        Ok(Sending { bytes, cookie: 0 })
    }

    /// Puts the head of the next request.
    fn put_head(&mut self, command: CommandType, offset: u64, length: u32) -> Result<(), AllocError>
        requires { self.old.cookie < 2 ^ 32 }
        ensures bytes { OnOk result (self.new.bytes.items ≡ self.old.bytes.items
            ++ request_text (head_of self.old.cookie command false offset length)) }
        ensures cookie { OnOk result (self.new.cookie ≡ self.old.cookie + 1) }
    {
        let head = RequestHead {
            flags: CommandFlags { bits: 0 },
            command,
            cookie: self.cookie,
            offset,
            length,
        };
        self.bytes.extend_from_slice(&head.write())?;
        self.cookie += 1;
        Ok(())
    }

    /// Asks for the write of a block.
    fn write(&mut self, seed: u64, block: u32) -> Result<(), AllocError>
        requires { self.old.cookie < 2 ^ 32 }
        ensures bytes { OnOk result (self.new.bytes.items ≡ self.old.bytes.items
            ++ asking_text self.old.cookie (write_of seed block)) }
        ensures cookie { OnOk result (self.new.cookie ≡ self.old.cookie + 1) }
    {
        self.put_head(CommandType::Write, place_of(block), BLOCK)?;
        put_block(&mut self.bytes, seed, block)
    }

    /// Asks for the writes of all blocks of a client.
    fn write_all(&mut self, seed: u64, share: Share) -> Result<(), AllocError>
        requires cookie { self.old.cookie + share.count < 2 ^ 32 }
        requires within { share.first + share.count ≤ 16384 }
        ensures bytes { OnOk result (self.new.bytes.items ≡ self.old.bytes.items
            ++ requests_text self.old.cookie
            (map (write_of seed) (range_with_len share.first share.count))) }
        ensures cookie { OnOk result (self.new.cookie ≡ self.old.cookie + share.count) }
    {
        for block in share.first..share.first + share.count {
            self.write(seed, block)?;
        }
        Ok(())
    }

    /// Asks for a flush.
    fn flush(&mut self) -> Result<(), AllocError>
        requires { self.old.cookie < 2 ^ 32 }
        ensures bytes { OnOk result (self.new.bytes.items ≡ self.old.bytes.items
            ++ asking_text self.old.cookie Flush) }
        ensures cookie { OnOk result (self.new.cookie ≡ self.old.cookie + 1) }
    {
        self.put_head(CommandType::Flush, 0, 0)
    }

    /// Asks for the reads of all blocks of a client.
    fn read_all(&mut self, share: Share) -> Result<(), AllocError>
        requires cookie { self.old.cookie + share.count < 2 ^ 32 }
        requires within { share.first + share.count ≤ 16384 }
        ensures bytes { OnOk result (self.new.bytes.items ≡ self.old.bytes.items
            ++ requests_text self.old.cookie
            (map read_of (range_with_len share.first share.count))) }
        ensures cookie { OnOk result (self.new.cookie ≡ self.old.cookie + share.count) }
    {
        for block in share.first..share.first + share.count {
            self.put_head(CommandType::Read, place_of(block), BLOCK)?;
        }
        Ok(())
    }

    /// Asks to disconnect; this is all that is sent.
    fn disconnect(mut self) -> Result<Vec<u8>, AllocError>
        requires { self.cookie < 2 ^ 32 }
        ensures { IfOk result (λ bytes. bytes.items ≡ self.bytes.items ++ parting_text self.cookie) }
    {
        self.put_head(CommandType::Disc, 0, 0)?;
        Ok(self.bytes)
    }
}

/// The offset of a block in bytes.
fn place_of(block: u32) -> u64
    ensures { result ≡ 512 * block }
{
    u64::from(BLOCK) * u64::from(block)
}

/// All that a client with these blocks sends.
pub(crate) fn input(alloc: Global, seed: u64, share: Share) -> Result<Vec<u8>, AllocError>
    requires { share.first + share.count ≤ 16384 }
    ensures { IfOk result
        (λ bytes. bytes.items ≡ input_asking (operations_on seed share.first share.count)) }
{
    let mut sending = Sending::begin(alloc)?;
    sending.write_all(seed, share)?;
    sending.flush()?;
    sending.read_all(share)?;
    sending.disconnect()
}
